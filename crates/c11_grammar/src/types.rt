//! Types (ISO/IEC 9899:2011, 6.7.2).

ghost use Rattle.std.specs.Prelude.{◌≡◌};
ghost use Rattle.c11_grammar.specs.Reading as spec;
ghost use Rattle.c11_grammar.specs.Gives.{Seen, Gives};

use crate::front::{atomic_word, expect, skip, take};
use crate::stop::Stop;
use crate::token::{Lexeme, Mark};
use c11_ast::CastTo;
use c11_num::CType;

/// An integer type.
#[tactic(auto, unfolding(crate::specs::Reading::given, crate::specs::Reading::and_then, crate::specs::Reading::integer_of))]
pub fn integer(tokens: &[Lexeme]) -> Option<(CType, &[Lexeme])>
    ensures { Seen (λ p. (p.0, p.1.now)) result (spec.integer_of tokens.now) }
{
    if let Some((_, rest)) = take(Mark::Int, tokens) {
        return Some((CType::Int, rest));
    }
    if let Some((_, rest)) = take(Mark::Long, tokens) {
        return Some((CType::Long, skip(Mark::Int, rest)));
    }
    let (_, rest) = take(Mark::Unsigned, tokens)?;
    match take(Mark::Long, rest) {
        Some((_, rest)) => Some((CType::ULong, skip(Mark::Int, rest))),
        None => Some((CType::Unsigned, skip(Mark::Int, rest))),
    }
}

/// An integer type, which has to come first.
pub fn expect_integer(tokens: &[Lexeme]) -> Result<(CType, &[Lexeme]), Stop>
    ensures { Gives (λ p. (p.0, p.1.now)) result (spec.integer_of tokens.now) }
{
    integer(tokens).ok_or(Stop::Syntax)
}

/// An atomic type, which has to come first.
#[tactic(auto, unfolding(crate::specs::Reading::given, crate::specs::Reading::and_then, crate::specs::Reading::atomic_type_of))]
pub fn expect_atomic(tokens: &[Lexeme]) -> Result<(CType, &[Lexeme]), Stop>
    ensures { Gives (λ p. (p.0, p.1.now)) result (spec.atomic_type_of tokens.now) }
{
    if let Some((ctype, _, rest)) = atomic_word(tokens) {
        return Ok((ctype, rest));
    }
    let (_, rest) = expect(Mark::Atomic, tokens)?;
    let Some((_, rest)) = take(Mark::LeftParen, rest) else {
        return expect_integer(rest);
    };
    let (ctype, rest) = expect_integer(rest)?;
    let (_, rest) = expect(Mark::RightParen, rest)?;
    Ok((ctype, rest))
}

/// What a cast leads to, if a type comes first.
#[tactic(auto, unfolding(crate::specs::Reading::given, crate::specs::Reading::and_then, crate::specs::Reading::cast_to_of))]
pub fn cast_to(tokens: &[Lexeme]) -> Option<(CastTo, &[Lexeme])>
    ensures { Seen (λ p. (p.0, p.1.now)) result (spec.cast_to_of tokens.now) }
{
    if let Some((_, rest)) = take(Mark::Void, tokens) {
        return match take(Mark::Star, rest) {
            Some((_, rest)) => Some((CastTo::VoidPointer, rest)),
            None => Some((CastTo::Void, rest)),
        };
    }
    let (ctype, rest) = integer(tokens)?;
    Some((CastTo::Number(ctype), rest))
}

/// What a function answers, which has to come first.
#[tactic(auto, unfolding(crate::specs::Reading::given, crate::specs::Reading::and_then, crate::specs::Reading::answer_of))]
pub fn expect_answer(tokens: &[Lexeme]) -> Result<(Option<CType>, &[Lexeme]), Stop>
    ensures { Gives (λ p. (p.0, p.1.now)) result (spec.answer_of tokens.now) }
{
    if let Some((_, rest)) = take(Mark::Void, tokens) {
        return Ok((None, rest));
    }
    let (ctype, rest) = expect_integer(tokens)?;
    Ok((Some(ctype), rest))
}
