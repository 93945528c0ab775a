//! The first token, and what follows it.

ghost use Rattle.std.specs.Prelude.{◌≡◌};
ghost use Rattle.c11_grammar.specs.Tokens as table;
ghost use Rattle.c11_grammar.specs.Reading as spec;
ghost use Rattle.c11_grammar.specs.Gives.{Seen, Gives};

use crate::stop::Stop;
use crate::token::{Lexeme, Mark, Sort};
use c11_ast::{Infix, Prefix, Spot, Word};
use c11_num::{BinaryOp, Bytes, CType, CValue};

fn infix_of(mark: Mark) -> Option<(Infix, u8)>
    ensures { result ≡ table.infix_of mark }
{
    match mark {
        Mark::Star => Some((Infix::Number(BinaryOp::Mul), 1)),
        Mark::Slash => Some((Infix::Number(BinaryOp::Div), 1)),
        Mark::Percent => Some((Infix::Number(BinaryOp::Rem), 1)),
        Mark::Plus => Some((Infix::Number(BinaryOp::Add), 2)),
        Mark::Minus => Some((Infix::Number(BinaryOp::Sub), 2)),
        Mark::ShiftLeft => Some((Infix::Number(BinaryOp::Shl), 3)),
        Mark::ShiftRight => Some((Infix::Number(BinaryOp::Shr), 3)),
        Mark::Less => Some((Infix::Number(BinaryOp::Lt), 4)),
        Mark::Greater => Some((Infix::Number(BinaryOp::Gt), 4)),
        Mark::LessEqual => Some((Infix::Number(BinaryOp::Le), 4)),
        Mark::GreaterEqual => Some((Infix::Number(BinaryOp::Ge), 4)),
        Mark::EqualEqual => Some((Infix::Number(BinaryOp::Eq), 5)),
        Mark::NotEqual => Some((Infix::Number(BinaryOp::Ne), 5)),
        Mark::Ampersand => Some((Infix::Number(BinaryOp::And), 6)),
        Mark::Caret => Some((Infix::Number(BinaryOp::Xor), 7)),
        Mark::Bar => Some((Infix::Number(BinaryOp::Or), 8)),
        Mark::Both => Some((Infix::Both, 9)),
        Mark::Either => Some((Infix::Either, 10)),
        _ => None,
    }
}

fn prefix_of(mark: Mark) -> Option<Prefix>
    ensures { result ≡ table.prefix_of mark }
{
    match mark {
        Mark::Plus => Some(Prefix::Plus),
        Mark::Minus => Some(Prefix::Minus),
        Mark::Bang => Some(Prefix::Not),
        Mark::Tilde => Some(Prefix::Flip),
        _ => None,
    }
}

fn set_of(mark: Mark) -> Option<Option<BinaryOp>>
    ensures { result ≡ table.set_of mark }
{
    match mark {
        Mark::Set => Some(None),
        Mark::StarSet => Some(Some(BinaryOp::Mul)),
        Mark::SlashSet => Some(Some(BinaryOp::Div)),
        Mark::PercentSet => Some(Some(BinaryOp::Rem)),
        Mark::PlusSet => Some(Some(BinaryOp::Add)),
        Mark::MinusSet => Some(Some(BinaryOp::Sub)),
        Mark::ShiftLeftSet => Some(Some(BinaryOp::Shl)),
        Mark::ShiftRightSet => Some(Some(BinaryOp::Shr)),
        Mark::AmpersandSet => Some(Some(BinaryOp::And)),
        Mark::CaretSet => Some(Some(BinaryOp::Xor)),
        Mark::BarSet => Some(Some(BinaryOp::Or)),
        _ => None,
    }
}

fn step_of(mark: Mark) -> Option<bool>
    ensures { result ≡ table.step_of mark }
{
    match mark {
        Mark::Increment => Some(true),
        Mark::Decrement => Some(false),
        _ => None,
    }
}

fn atomic_of(mark: Mark) -> Option<CType>
    ensures { result ≡ table.atomic_of mark }
{
    match mark {
        Mark::AtomicInt => Some(CType::Int),
        Mark::AtomicUint => Some(CType::Unsigned),
        Mark::AtomicLong => Some(CType::Long),
        Mark::AtomicUlong => Some(CType::ULong),
        _ => None,
    }
}

/// This mark, if it comes first, and what follows it.
pub fn take(mark: Mark, tokens: &[Lexeme]) -> Option<(Spot, &[Lexeme])>
    ensures { Seen (λ p. ((tt, p.0), p.1.now)) result (spec.take mark tokens.now) }
{
    let (first, rest) = tokens.split_first()?;
    match &first.sort {
        Sort::Mark(other) if mark == *other => Some((first.spot, rest)),
        _ => None,
    }
}

/// This mark, which has to come first.
pub fn expect(mark: Mark, tokens: &[Lexeme]) -> Result<(Spot, &[Lexeme]), Stop>
    ensures { Gives (λ p. ((tt, p.0), p.1.now)) result (spec.take mark tokens.now) }
{
    take(mark, tokens).ok_or(Stop::Syntax)
}

/// What follows this mark, or all where it does not come first.
#[tactic(auto, unfolding(crate::specs::Reading::given))]
pub fn skip(mark: Mark, tokens: &[Lexeme]) -> &[Lexeme]
    ensures { result.now ≡ spec.skip mark tokens.now }
{
    match take(mark, tokens) {
        Some((_, rest)) => rest,
        None => tokens,
    }
}

/// An operator of this level between operands.
pub fn infix(level: u8, tokens: &[Lexeme]) -> Option<(Infix, Spot, &[Lexeme])>
    ensures { Seen (λ p. ((p.0, p.1), p.2.now)) result (spec.see (table.infix_at level) tokens.now) }
{
    let (first, rest) = tokens.split_first()?;
    match &first.sort {
        Sort::Mark(mark) => match infix_of(*mark) {
            Some((op, found)) if found == level => Some((op, first.spot, rest)),
            _ => None,
        },
        _ => None,
    }
}

/// An operator before an operand.
pub fn prefix(tokens: &[Lexeme]) -> Option<(Prefix, Spot, &[Lexeme])>
    ensures { Seen (λ p. ((p.0, p.1), p.2.now)) result (spec.see table.prefix_of tokens.now) }
{
    let (first, rest) = tokens.split_first()?;
    match &first.sort {
        Sort::Mark(mark) => Some((prefix_of(*mark)?, first.spot, rest)),
        _ => None,
    }
}

/// `++` or `--`, and whether it counts up.
pub fn step(tokens: &[Lexeme]) -> Option<(bool, Spot, &[Lexeme])>
    ensures { Seen (λ p. ((p.0, p.1), p.2.now)) result (spec.see table.step_of tokens.now) }
{
    let (first, rest) = tokens.split_first()?;
    match &first.sort {
        Sort::Mark(mark) => Some((step_of(*mark)?, first.spot, rest)),
        _ => None,
    }
}

/// `=`, or an operator and `=`.
pub fn set(tokens: &[Lexeme]) -> Option<(Option<BinaryOp>, Spot, &[Lexeme])>
    ensures { Seen (λ p. ((p.0, p.1), p.2.now)) result (spec.see table.set_of tokens.now) }
{
    let (first, rest) = tokens.split_first()?;
    match &first.sort {
        Sort::Mark(mark) => Some((set_of(*mark)?, first.spot, rest)),
        _ => None,
    }
}

/// A word that is the name of an atomic type.
pub fn atomic_word(tokens: &[Lexeme]) -> Option<(CType, Spot, &[Lexeme])>
    ensures { Seen (λ p. ((p.0, p.1), p.2.now)) result (spec.see table.atomic_of tokens.now) }
{
    let (first, rest) = tokens.split_first()?;
    match &first.sort {
        Sort::Mark(mark) => Some((atomic_of(*mark)?, first.spot, rest)),
        _ => None,
    }
}

/// A word that begins a declaration in a block.
pub fn declares(tokens: &[Lexeme]) -> Option<(Spot, &[Lexeme])>
    ensures { Seen (λ p. ((tt, p.0), p.1.now)) result (spec.see table.declares tokens.now) }
{
    let (first, rest) = tokens.split_first()?;
    match &first.sort {
        Sort::Mark(Mark::Int | Mark::Unsigned | Mark::Long | Mark::ThrdT) => {
            Some((first.spot, rest))
        }
        _ => None,
    }
}

/// An integer constant.
pub fn literal(tokens: &[Lexeme]) -> Option<(CValue, Spot, &[Lexeme])>
    ensures { Seen (λ p. ((p.0, p.1), p.2.now)) result (spec.literal tokens.now) }
{
    let (first, rest) = tokens.split_first()?;
    match &first.sort {
        Sort::Literal(value) => Some((*value, first.spot, rest)),
        _ => None,
    }
}

/// A string literal, if one comes first.
pub fn text(tokens: &[Lexeme]) -> Option<(&Bytes, Spot, &[Lexeme])>
    ensures { Seen (λ p. ((p.0.now, p.1), p.2.now)) result (spec.text tokens.now) }
{
    let (first, rest) = tokens.split_first()?;
    match &first.sort {
        Sort::Text(bytes) => Some((bytes, first.spot, rest)),
        _ => None,
    }
}

/// A name, which has to come first.
pub fn name(tokens: &[Lexeme]) -> Result<(Word, &[Lexeme]), Stop>
    ensures { Gives (λ p. (p.0, p.1.now)) result (spec.name tokens.now) }
{
    match tokens.split_first() {
        Some((first, rest)) => match &first.sort {
            Sort::Name(name) => Ok((
                Word {
                    spot: first.spot,
                    name: name.copy()?,
                },
                rest,
            )),
            _ => Err(Stop::Syntax),
        },
        None => Err(Stop::Syntax),
    }
}

/// Where the first token stands.
pub fn spot(tokens: &[Lexeme]) -> Option<Spot>
    ensures { result ≡ spec.spot_of tokens.now }
{
    let (first, _) = tokens.split_first()?;
    Some(first.spot)
}
