//! Expressions, by recursive descent. `deeper` is how many levels there are below the part.

ghost use Rattle.std.specs.Prelude.{◌≡◌, ◌+◌, ◌<◌, [], length, IfOk};
ghost use Rattle.c11_grammar.specs.Reading as spec;
ghost use Rattle.c11_grammar.specs.Gives.{Gives};

use crate::build::{assignment, chained, conditional};
use c11_ast::{Arg, Expr, Link, Many, Spot, Target, Word, boxed_expr};
use c11_grammar::front::{expect, infix, literal, name, prefix, set, step, take, text};
use c11_grammar::types::cast_to;
use c11_grammar::{Lexeme, Mark, Stop};
use std::alloc::Global;

/// An expression one level deeper.
#[cycle(descent)]
fn inner_assign<'a>(
    alloc: Global,
    tokens: &'a [Lexeme],
    room: u32,
) -> Result<(Expr, &'a [Lexeme]), Stop>
    ensures { Gives (λ x. (x.0, x.1.now)) result ((spec.readers room).assign tokens.now) }
{
    if room == 0 {
        return Err(Stop::Syntax);
    }
    assign(alloc, tokens, room - 1)
}

/// A conditional expression one level deeper.
#[cycle(descent)]
fn inner_cond<'a>(
    alloc: Global,
    tokens: &'a [Lexeme],
    room: u32,
) -> Result<(Expr, &'a [Lexeme]), Stop>
    ensures { Gives (λ x. (x.0, x.1.now)) result ((spec.readers room).cond tokens.now) }
{
    if room == 0 {
        return Err(Stop::Syntax);
    }
    cond(alloc, tokens, room - 1)
}

/// An operand one level deeper.
#[cycle(descent)]
fn inner_unary<'a>(
    alloc: Global,
    tokens: &'a [Lexeme],
    room: u32,
) -> Result<(Expr, &'a [Lexeme]), Stop>
    ensures { Gives (λ x. (x.0, x.1.now)) result ((spec.readers room).unary tokens.now) }
{
    if room == 0 {
        return Err(Stop::Syntax);
    }
    unary(alloc, tokens, room - 1)
}

/// A variable or an element one level deeper.
#[cycle(descent)]
fn inner_target<'a>(
    alloc: Global,
    tokens: &'a [Lexeme],
    room: u32,
) -> Result<(Target, &'a [Lexeme]), Stop>
    ensures { Gives (λ x. (x.0, x.1.now)) result ((spec.readers room).target tokens.now) }
{
    if room == 0 {
        return Err(Stop::Syntax);
    }
    target(alloc, tokens, room - 1)
}

/// An argument, which is one level deeper than its call.
#[cycle(descent)]
fn inner_arg<'a>(
    alloc: Global,
    tokens: &'a [Lexeme],
    room: u32,
) -> Result<(Arg, &'a [Lexeme]), Stop>
    ensures { Gives (λ x. (x.0, x.1.now)) result ((spec.readers room).arg tokens.now) }
{
    if room == 0 {
        return Err(Stop::Syntax);
    }
    arg(alloc, tokens, room - 1)
}

/// A variable or an element.
#[cycle(descent)]
#[tactic(auto, unfolding(c11_grammar::specs::Reading::and_then, c11_grammar::specs::Reading::target_of))]
fn target<'a>(
    alloc: Global,
    tokens: &'a [Lexeme],
    deeper: u32,
) -> Result<(Target, &'a [Lexeme]), Stop>
    ensures { Gives (λ x. (x.0, x.1.now)) result (spec.target_of (spec.readers deeper) tokens.now) }
{
    let (word, rest) = name(tokens)?;
    index_after(alloc, word, rest, deeper)
}

/// The index behind a name, if there is one.
#[cycle(descent)]
#[tactic(auto, unfolding(c11_grammar::specs::Reading::given, c11_grammar::specs::Reading::and_then, c11_grammar::specs::Reading::index_after))]
fn index_after<'a>(
    alloc: Global,
    word: Word,
    tokens: &'a [Lexeme],
    deeper: u32,
) -> Result<(Target, &'a [Lexeme]), Stop>
    ensures { Gives (λ x. (x.0, x.1.now)) result (spec.index_after (spec.readers deeper) word tokens.now) }
{
    let Some((_, rest)) = take(Mark::LeftSquare, tokens) else {
        return Ok((Target { word, index: None }, tokens));
    };
    let (index, rest) = inner_assign(alloc, rest, deeper)?;
    let (_, rest) = expect(Mark::RightSquare, rest)?;
    let index = Some(boxed_expr(alloc, index)?);
    Ok((Target { word, index }, rest))
}

/// Arguments with commas between them.
#[cycle(descent)]
fn comma_args<'a>(
    alloc: Global,
    tokens: &'a [Lexeme],
    deeper: u32,
) -> Result<(Many<Arg>, &'a [Lexeme]), Stop>
    ensures { Gives (λ x. (x.0, x.1.now)) result (spec.commas ((spec.readers deeper).arg) (length tokens.now) [] tokens.now) }
{
    let mut found = Many::new(alloc);
    let mut rest = tokens;
    for _turn in 0..tokens.len() {
        let (part, after) = inner_arg(alloc, rest, deeper)?;
        found.push(part)?;
        let Some((_, next)) = take(Mark::Comma, after) else {
            return Ok((found, after));
        };
        rest = next;
    }
    Err(Stop::Syntax)
}

/// The arguments of a call, behind its opening parenthesis, and the closing one.
#[cycle(descent)]
#[tactic(auto, unfolding(c11_grammar::specs::Reading::given, c11_grammar::specs::Reading::and_then, c11_grammar::specs::Reading::args_of))]
fn args<'a>(
    alloc: Global,
    tokens: &'a [Lexeme],
    deeper: u32,
) -> Result<(Many<Arg>, &'a [Lexeme]), Stop>
    ensures { Gives (λ x. (x.0, x.1.now)) result (spec.args_of (spec.readers deeper) tokens.now) }
{
    if let Some((_, rest)) = take(Mark::RightParen, tokens) {
        return Ok((Many::new(alloc), rest));
    }
    let (found, rest) = comma_args(alloc, tokens, deeper)?;
    let (_, rest) = expect(Mark::RightParen, rest)?;
    Ok((found, rest))
}

/// What begins with a name.
#[cycle(descent)]
#[tactic(auto, unfolding(c11_grammar::specs::Reading::given, c11_grammar::specs::Reading::and_then, c11_grammar::specs::Reading::named_of, c11_grammar::specs::Reading::step_after))]
fn named<'a>(
    alloc: Global,
    word: Word,
    tokens: &'a [Lexeme],
    deeper: u32,
) -> Result<(Expr, &'a [Lexeme]), Stop>
    ensures { Gives (λ x. (x.0, x.1.now)) result (spec.named_of (spec.readers deeper) word tokens.now) }
{
    if let Some((_, rest)) = take(Mark::LeftParen, tokens) {
        let (args, rest) = args(alloc, rest, deeper)?;
        return Ok((Expr::Call { word, args }, rest));
    }
    let (target, rest) = index_after(alloc, word, tokens, deeper)?;
    match step(rest) {
        Some((up, op_spot, rest)) => Ok((
            Expr::Step {
                spot: target.word.spot,
                op_spot,
                target,
                up,
                before: false,
            },
            rest,
        )),
        None => Ok((Expr::Read(target), rest)),
    }
}

/// What stands behind an opening parenthesis: a cast, or an expression in parentheses.
#[cycle(descent)]
#[tactic(auto, unfolding(c11_grammar::specs::Reading::given, c11_grammar::specs::Reading::and_then, c11_grammar::specs::Reading::paren_of))]
fn paren<'a>(
    alloc: Global,
    spot: Spot,
    tokens: &'a [Lexeme],
    deeper: u32,
) -> Result<(Expr, &'a [Lexeme]), Stop>
    ensures { Gives (λ x. (x.0, x.1.now)) result (spec.paren_of (spec.readers deeper) spot tokens.now) }
{
    if let Some((to, rest)) = cast_to(tokens) {
        let (_, rest) = expect(Mark::RightParen, rest)?;
        let (inner, rest) = inner_unary(alloc, rest, deeper)?;
        let inner = boxed_expr(alloc, inner)?;
        return Ok((Expr::Cast { spot, to, inner }, rest));
    }
    let (inner, rest) = inner_assign(alloc, tokens, deeper)?;
    let (_, rest) = expect(Mark::RightParen, rest)?;
    let inner = boxed_expr(alloc, inner)?;
    Ok((Expr::Paren { spot, inner }, rest))
}

/// An operand of an operator.
#[cycle(descent)]
#[tactic(auto, unfolding(c11_grammar::specs::Reading::given, c11_grammar::specs::Reading::and_then, c11_grammar::specs::Reading::unary_of))]
fn unary<'a>(alloc: Global, tokens: &'a [Lexeme], deeper: u32) -> Result<(Expr, &'a [Lexeme]), Stop>
    ensures { Gives (λ x. (x.0, x.1.now)) result (spec.unary_of (spec.readers deeper) tokens.now) }
{
    if let Some((op, spot, rest)) = prefix(tokens) {
        let (inner, rest) = inner_unary(alloc, rest, deeper)?;
        let inner = boxed_expr(alloc, inner)?;
        return Ok((Expr::Prefix { spot, op, inner }, rest));
    }
    if let Some((up, spot, rest)) = step(tokens) {
        let (target, rest) = inner_target(alloc, rest, deeper)?;
        return Ok((
            Expr::Step {
                spot,
                op_spot: spot,
                target,
                up,
                before: true,
            },
            rest,
        ));
    }
    if let Some((spot, rest)) = take(Mark::LeftParen, tokens) {
        return paren(alloc, spot, rest, deeper);
    }
    if let Some((value, spot, rest)) = literal(tokens) {
        return Ok((Expr::Literal { spot, value }, rest));
    }
    let (word, rest) = name(tokens)?;
    named(alloc, word, rest, deeper)
}

/// Operators of this level and their right operands.
#[cycle(descent)]
fn links<'a>(
    alloc: Global,
    tokens: &'a [Lexeme],
    deeper: u32,
    level: u8,
) -> Result<(Many<Link>, &'a [Lexeme]), Stop>
    requires { level < 255 }
    ensures { Gives (λ x. (x.0, x.1.now)) result (spec.links (spec.binary_of (spec.readers deeper) level) (level + 1) (length tokens.now) [] tokens.now) }
{
    let mut found = Many::new(alloc);
    let mut rest = tokens;
    for _turn in 0..tokens.len() {
        let Some((op, spot, after)) = infix(level + 1, rest) else {
            return Ok((found, rest));
        };
        let (right, after) = binary(alloc, after, deeper, level)?;
        found.push(Link { op, spot, right })?;
        rest = after;
    }
    Ok((found, rest))
}

/// Operands of this level, with operators of the next between them.
#[cycle(descent)]
#[tactic(auto, unfolding(c11_grammar::specs::Reading::and_then, c11_grammar::specs::Reading::chain_of))]
fn chain<'a>(
    alloc: Global,
    tokens: &'a [Lexeme],
    deeper: u32,
    level: u8,
) -> Result<(Expr, &'a [Lexeme]), Stop>
    requires { level < 255 }
    ensures { Gives (λ x. (x.0, x.1.now)) result (spec.chain_of (spec.binary_of (spec.readers deeper) level) (level + 1) tokens.now) }
{
    let (first, rest) = binary(alloc, tokens, deeper, level)?;
    let (links, rest) = links(alloc, rest, deeper, level)?;
    Ok((chained(alloc, first, links)?, rest))
}

/// Operands with operators of this level and tighter ones between them; at level 0 one operand.
#[cycle(descent)]
#[tactic(auto, unfolding(c11_grammar::specs::Reading::binary_of))]
fn binary<'a>(
    alloc: Global,
    tokens: &'a [Lexeme],
    deeper: u32,
    level: u8,
) -> Result<(Expr, &'a [Lexeme]), Stop>
    ensures { Gives (λ x. (x.0, x.1.now)) result (spec.binary_of (spec.readers deeper) level tokens.now) }
{
    if level == 0 {
        return unary(alloc, tokens, deeper);
    }
    chain(alloc, tokens, deeper, level - 1)
}

/// What stands behind the `?` of a conditional expression.
#[cycle(descent)]
#[tactic(auto, unfolding(c11_grammar::specs::Reading::and_then, c11_grammar::specs::Reading::branches_of))]
fn branches<'a>(
    alloc: Global,
    test: Expr,
    tokens: &'a [Lexeme],
    deeper: u32,
) -> Result<(Expr, &'a [Lexeme]), Stop>
    ensures { Gives (λ x. (x.0, x.1.now)) result (spec.branches_of (spec.readers deeper) test tokens.now) }
{
    let (yes, rest) = inner_assign(alloc, tokens, deeper)?;
    let (_, rest) = expect(Mark::Colon, rest)?;
    let (no, rest) = inner_cond(alloc, rest, deeper)?;
    Ok((conditional(alloc, test, yes, no)?, rest))
}

/// A conditional expression.
#[cycle(descent)]
#[tactic(auto, unfolding(c11_grammar::specs::Reading::given, c11_grammar::specs::Reading::and_then, c11_grammar::specs::Reading::cond_of))]
fn cond<'a>(alloc: Global, tokens: &'a [Lexeme], deeper: u32) -> Result<(Expr, &'a [Lexeme]), Stop>
    ensures { Gives (λ x. (x.0, x.1.now)) result (spec.cond_of (spec.readers deeper) tokens.now) }
{
    let (test, rest) = binary(alloc, tokens, deeper, 10)?;
    match take(Mark::Question, rest) {
        Some((_, after)) => branches(alloc, test, after, deeper),
        None => Ok((test, rest)),
    }
}

/// The expression at the front, with room for `deeper` levels below its own, and what follows it.
#[cycle(descent)]
#[tactic(auto, unfolding(c11_grammar::specs::Reading::given, c11_grammar::specs::Reading::and_then, c11_grammar::specs::Reading::assign_of))]
pub fn assign<'a>(
    alloc: Global,
    tokens: &'a [Lexeme],
    deeper: u32,
) -> Result<(Expr, &'a [Lexeme]), Stop>
    ensures { Gives (λ x. (x.0, x.1.now)) result (spec.assign_of (spec.readers deeper) tokens.now) }
{
    let (expr, rest) = cond(alloc, tokens, deeper)?;
    match expr {
        Expr::Read(target) => match set(rest) {
            Some((op, op_spot, rest)) => {
                let (value, rest) = inner_assign(alloc, rest, deeper)?;
                Ok((assignment(alloc, target, op, op_spot, value)?, rest))
            }
            None => Ok((Expr::Read(target), rest)),
        },
        other => Ok((other, rest)),
    }
}

/// An argument of a call.
#[cycle(descent)]
#[tactic(auto, unfolding(c11_grammar::specs::Reading::given, c11_grammar::specs::Reading::and_then, c11_grammar::specs::Reading::arg_of))]
fn arg<'a>(alloc: Global, tokens: &'a [Lexeme], deeper: u32) -> Result<(Arg, &'a [Lexeme]), Stop>
    ensures { Gives (λ x. (x.0, x.1.now)) result (spec.arg_of (spec.readers deeper) tokens.now) }
{
    if let Some((spot, rest)) = take(Mark::Ampersand, tokens) {
        let (target, rest) = target(alloc, rest, deeper)?;
        return Ok((Arg::Address { spot, target }, rest));
    }
    if let Some((bytes, spot, rest)) = text(tokens) {
        let bytes = bytes.copy()?;
        return Ok((Arg::Text { spot, bytes }, rest));
    }
    let (value, rest) = assign(alloc, tokens, deeper)?;
    Ok((Arg::Value(value), rest))
}
