//! The items of a program (ISO/IEC 9899:2011, 6.9).

ghost use Rattle.std.specs.Prelude.{◌≡◌};
ghost use Rattle.c11_grammar.specs.Reading as spec;
ghost use Rattle.c11_grammar.specs.Gives.{Gives};

use c11_ast::{Function, GlobalKind, Item, Many, Spot, Var, Word};
use c11_grammar::front::{expect, literal, name, skip, spot, take};
use c11_grammar::types::{expect_answer, expect_atomic, integer};
use c11_grammar::{Lexeme, Mark, Stop};
use c11_num::CType;
use c11_statements::{block_after, params, vars};
use std::alloc::Global;

/// The type and the names of a global declaration.
#[tactic(auto, unfolding(c11_grammar::specs::Reading::given, c11_grammar::specs::Reading::and_then, c11_grammar::specs::Reading::globals_of))]
fn globals<'a>(
    alloc: Global,
    tokens: &'a [Lexeme],
) -> Result<(GlobalKind, Many<Var>, &'a [Lexeme]), Stop>
    ensures { Gives (λ x. ((x.0, x.1), x.2.now)) result (spec.globals_of tokens.now) }
{
    if let Some((_, rest)) = take(Mark::MtxT, tokens) {
        let (all, rest) = vars(alloc, rest, true)?;
        return Ok((GlobalKind::Mutex, all, rest));
    }
    if let Some((ctype, rest)) = integer(tokens) {
        let (all, rest) = vars(alloc, rest, false)?;
        return Ok((GlobalKind::Plain(ctype), all, rest));
    }
    let (ctype, rest) = expect_atomic(tokens)?;
    let (all, rest) = vars(alloc, rest, false)?;
    Ok((GlobalKind::Atomic(ctype), all, rest))
}

/// What a function answers, its name, and the opening parenthesis.
#[tactic(auto, unfolding(c11_grammar::specs::Reading::and_then, c11_grammar::specs::Reading::head_of))]
fn head(tokens: &[Lexeme]) -> Result<(Option<CType>, Word, &[Lexeme]), Stop>
    ensures { Gives (λ x. ((x.0, x.1), x.2.now)) result (spec.head_of tokens.now) }
{
    let (answers, rest) = expect_answer(tokens)?;
    let (word, rest) = name(rest)?;
    let (_, rest) = expect(Mark::LeftParen, rest)?;
    Ok((answers, word, rest))
}

/// A function behind its opening parenthesis.
#[tactic(auto, unfolding(c11_grammar::specs::Reading::and_then, c11_grammar::specs::Reading::function_after))]
fn function_after<'a>(
    alloc: Global,
    spot: Spot,
    answers: Option<CType>,
    word: Word,
    tokens: &'a [Lexeme],
) -> Result<(Item, &'a [Lexeme]), Stop>
    ensures { Gives (λ x. (x.0, x.1.now)) result (spec.function_after spot answers word tokens.now) }
{
    let (params, rest) = params(alloc, tokens)?;
    let (open, rest) = expect(Mark::LeftBrace, rest)?;
    let (body, rest) = block_after(alloc, open, rest, 63)?;
    Ok((
        Item::Function(Function {
            spot,
            word,
            answers,
            params,
            body,
        }),
        rest,
    ))
}

/// A global declaration.
#[tactic(auto, unfolding(c11_grammar::specs::Reading::and_then, c11_grammar::specs::Reading::global_after))]
fn global<'a>(alloc: Global, spot: Spot, tokens: &'a [Lexeme]) -> Result<(Item, &'a [Lexeme]), Stop>
    ensures { Gives (λ x. (x.0, x.1.now)) result (spec.global_after spot tokens.now) }
{
    let (kind, vars, rest) = globals(alloc, tokens)?;
    let (_, rest) = expect(Mark::Semicolon, rest)?;
    Ok((Item::Global { spot, kind, vars }, rest))
}

/// A function or a global declaration, behind `static`.
#[tactic(auto, unfolding(c11_grammar::specs::Reading::given, c11_grammar::specs::Reading::declared_of))]
fn declared<'a>(
    alloc: Global,
    spot: Spot,
    tokens: &'a [Lexeme],
) -> Result<(Item, &'a [Lexeme]), Stop>
    ensures { Gives (λ x. (x.0, x.1.now)) result (spec.declared_of spot tokens.now) }
{
    match head(tokens) {
        Ok((answers, word, rest)) => function_after(alloc, spot, answers, word, rest),
        Err(Stop::Syntax) => global(alloc, spot, tokens),
        Err(Stop::Memory) => Err(Stop::Memory),
    }
}

/// A `#define` behind its word.
#[tactic(auto, unfolding(c11_grammar::specs::Reading::and_then, c11_grammar::specs::Reading::define_after))]
fn define_after(spot: Spot, tokens: &[Lexeme]) -> Result<(Item, &[Lexeme]), Stop>
    ensures { Gives (λ x. (x.0, x.1.now)) result (spec.define_after spot tokens.now) }
{
    let (word, rest) = name(tokens)?;
    let Some((value, _, rest)) = literal(rest) else {
        return Err(Stop::Syntax);
    };
    Ok((Item::Define { spot, word, value }, rest))
}

/// The item at the front.
#[tactic(auto, unfolding(c11_grammar::specs::Reading::given, c11_grammar::specs::Reading::and_then, c11_grammar::specs::Reading::item_of))]
pub fn item<'a>(alloc: Global, tokens: &'a [Lexeme]) -> Result<(Item, &'a [Lexeme]), Stop>
    ensures { Gives (λ x. (x.0, x.1.now)) result (spec.item_of tokens.now) }
{
    if let Some((spot, rest)) = take(Mark::Include, tokens) {
        return Ok((Item::Include(spot), rest));
    }
    if let Some((spot, rest)) = take(Mark::Define, tokens) {
        return define_after(spot, rest);
    }
    let spot = spot(tokens).ok_or(Stop::Syntax)?;
    declared(alloc, spot, skip(Mark::Static, tokens))
}
