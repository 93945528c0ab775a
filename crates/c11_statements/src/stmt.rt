//! Statements, by recursive descent (ISO/IEC 9899:2011, 6.8). `deeper` is how many levels there are below the part.

ghost use Rattle.std.specs.Prelude.{◌≡◌, ◌+◌, [], length, IfOk};
ghost use Rattle.c11_grammar.specs.Reading as spec;
ghost use Rattle.c11_grammar.specs.Gives.{Gives};

use crate::declaration::declaration;
use c11_ast::{Arm, Block, Boxed, Expr, Many, Spot, Stmt, boxed_stmt};
use c11_expressions::assign;
use c11_grammar::front::{declares, expect, take};
use c11_grammar::{Lexeme, Mark, Stop};
use c11_num::NoMemory;
use std::alloc::Global;

/// A test in parentheses.
#[tactic(auto, unfolding(c11_grammar::specs::Reading::and_then, c11_grammar::specs::Reading::test_of))]
fn test<'a>(alloc: Global, tokens: &'a [Lexeme], deeper: u32) -> Result<(Expr, &'a [Lexeme]), Stop>
    ensures { Gives (λ x. (x.0, x.1.now)) result (spec.test_of (spec.assign_of (spec.readers deeper)) tokens.now) }
{
    let (_, rest) = expect(Mark::LeftParen, tokens)?;
    let (test, rest) = assign(alloc, rest, deeper)?;
    let (_, rest) = expect(Mark::RightParen, rest)?;
    Ok((test, rest))
}

/// An expression that may be missing, and the mark behind it.
#[tactic(auto, unfolding(c11_grammar::specs::Reading::given, c11_grammar::specs::Reading::and_then, c11_grammar::specs::Reading::maybe_of))]
fn maybe<'a>(
    alloc: Global,
    mark: Mark,
    tokens: &'a [Lexeme],
    deeper: u32,
) -> Result<(Option<Expr>, &'a [Lexeme]), Stop>
    ensures { Gives (λ x. (x.0, x.1.now)) result (spec.maybe_of mark (spec.assign_of (spec.readers deeper)) tokens.now) }
{
    if let Some((_, rest)) = take(mark, tokens) {
        return Ok((None, rest));
    }
    let (expr, rest) = assign(alloc, tokens, deeper)?;
    let (_, rest) = expect(mark, rest)?;
    Ok((Some(expr), rest))
}

/// An expression as the start of a `for`.
fn evaluation(alloc: Global, expr: Option<Expr>) -> Result<Option<Boxed<Stmt>>, NoMemory>
    ensures { IfOk result (λ start. start ≡ spec.evaluation expr) }
{
    match expr {
        Some(expr) => Ok(Some(boxed_stmt(alloc, Stmt::Expr(expr))?)),
        None => Ok(None),
    }
}

/// The start of a `for`, and the `;` behind it.
#[tactic(auto, unfolding(c11_grammar::specs::Reading::given, c11_grammar::specs::Reading::and_then, c11_grammar::specs::Reading::for_start_of))]
fn for_start<'a>(
    alloc: Global,
    tokens: &'a [Lexeme],
    deeper: u32,
) -> Result<(Option<Boxed<Stmt>>, &'a [Lexeme]), Stop>
    ensures { Gives (λ x. (x.0, x.1.now)) result (spec.for_start_of (spec.assign_of (spec.readers deeper)) tokens.now) }
{
    if let Some(_) = declares(tokens) {
        let (start, rest) = declaration(alloc, tokens, deeper)?;
        return Ok((Some(boxed_stmt(alloc, start)?), rest));
    }
    let (expr, rest) = maybe(alloc, Mark::Semicolon, tokens, deeper)?;
    Ok((evaluation(alloc, expr)?, rest))
}

/// A `return` behind its word.
#[tactic(auto, unfolding(c11_grammar::specs::Reading::and_then, c11_grammar::specs::Reading::return_after))]
fn return_after<'a>(
    alloc: Global,
    spot: Spot,
    tokens: &'a [Lexeme],
    deeper: u32,
) -> Result<(Stmt, &'a [Lexeme]), Stop>
    ensures { Gives (λ x. (x.0, x.1.now)) result (spec.return_after (spec.assign_of (spec.readers deeper)) (spec.decl_reader deeper) (spec.stmt_reader deeper) spot tokens.now) }
{
    let (value, rest) = maybe(alloc, Mark::Semicolon, tokens, deeper)?;
    Ok((Stmt::Return { spot, value }, rest))
}

/// An expression as a statement.
#[tactic(auto, unfolding(c11_grammar::specs::Reading::and_then, c11_grammar::specs::Reading::evaluated))]
fn evaluated<'a>(
    alloc: Global,
    tokens: &'a [Lexeme],
    deeper: u32,
) -> Result<(Stmt, &'a [Lexeme]), Stop>
    ensures { Gives (λ x. (x.0, x.1.now)) result (spec.evaluated (spec.assign_of (spec.readers deeper)) (spec.decl_reader deeper) (spec.stmt_reader deeper) tokens.now) }
{
    let (expr, rest) = assign(alloc, tokens, deeper)?;
    let (_, rest) = expect(Mark::Semicolon, rest)?;
    Ok((Stmt::Expr(expr), rest))
}

/// A jump, or an expression as a statement.
#[tactic(auto, unfolding(c11_grammar::specs::Reading::given, c11_grammar::specs::Reading::and_then, c11_grammar::specs::Reading::jump_of))]
fn jump<'a>(alloc: Global, tokens: &'a [Lexeme], deeper: u32) -> Result<(Stmt, &'a [Lexeme]), Stop>
    ensures { Gives (λ x. (x.0, x.1.now)) result (spec.jump_of (spec.assign_of (spec.readers deeper)) (spec.decl_reader deeper) (spec.stmt_reader deeper) tokens.now) }
{
    if let Some((spot, rest)) = take(Mark::Break, tokens) {
        let (_, rest) = expect(Mark::Semicolon, rest)?;
        return Ok((Stmt::Break(spot), rest));
    }
    if let Some((spot, rest)) = take(Mark::Continue, tokens) {
        let (_, rest) = expect(Mark::Semicolon, rest)?;
        return Ok((Stmt::Continue(spot), rest));
    }
    if let Some((spot, rest)) = take(Mark::Return, tokens) {
        return return_after(alloc, spot, rest, deeper);
    }
    evaluated(alloc, tokens, deeper)
}

/// A statement one level deeper.
#[cycle(stmt)]
fn inner<'a>(alloc: Global, tokens: &'a [Lexeme], room: u32) -> Result<(Stmt, &'a [Lexeme]), Stop>
    ensures { Gives (λ x. (x.0, x.1.now)) result (spec.stmt_reader room tokens.now) }
{
    if room == 0 {
        return Err(Stop::Syntax);
    }
    stmt(alloc, tokens, room - 1)
}

/// A declaration one level deeper.
fn inner_declaration<'a>(
    alloc: Global,
    tokens: &'a [Lexeme],
    room: u32,
) -> Result<(Stmt, &'a [Lexeme]), Stop>
    ensures { Gives (λ x. (x.0, x.1.now)) result (spec.decl_reader room tokens.now) }
{
    if room == 0 {
        return Err(Stop::Syntax);
    }
    declaration(alloc, tokens, room - 1)
}

/// A declaration or a statement in a block.
#[cycle(stmt)]
#[tactic(auto, unfolding(c11_grammar::specs::Reading::given, c11_grammar::specs::Reading::block_item_of))]
fn block_item<'a>(
    alloc: Global,
    tokens: &'a [Lexeme],
    deeper: u32,
) -> Result<(Stmt, &'a [Lexeme]), Stop>
    ensures { Gives (λ x. (x.0, x.1.now)) result (spec.block_item_of (spec.decl_reader deeper) (spec.stmt_reader deeper) tokens.now) }
{
    match declares(tokens) {
        Some(_) => inner_declaration(alloc, tokens, deeper),
        None => inner(alloc, tokens, deeper),
    }
}

/// Declarations and statements up to a closing brace, and its place.
#[cycle(stmt)]
fn block_items<'a>(
    alloc: Global,
    tokens: &'a [Lexeme],
    deeper: u32,
) -> Result<(Many<Stmt>, Spot, &'a [Lexeme]), Stop>
    ensures { Gives (λ x. ((x.0, x.1), x.2.now)) result (spec.block_items (spec.decl_reader deeper) (spec.stmt_reader deeper) (length tokens.now) [] tokens.now) }
{
    let mut found = Many::new(alloc);
    let mut rest = tokens;
    for _turn in 0..tokens.len() {
        if let Some((close, after)) = take(Mark::RightBrace, rest) {
            return Ok((found, close, after));
        }
        let (part, after) = block_item(alloc, rest, deeper)?;
        found.push(part)?;
        rest = after;
    }
    Err(Stop::Syntax)
}

/// A block behind its opening brace.
#[cycle(stmt)]
#[tactic(auto, unfolding(c11_grammar::specs::Reading::and_then, c11_grammar::specs::Reading::block_after))]
pub fn block_after<'a>(
    alloc: Global,
    spot: Spot,
    tokens: &'a [Lexeme],
    deeper: u32,
) -> Result<(Block, &'a [Lexeme]), Stop>
    ensures { Gives (λ x. (x.0, x.1.now)) result (spec.block_after (spec.decl_reader deeper) (spec.stmt_reader deeper) spot tokens.now) }
{
    let (items, close, rest) = block_items(alloc, tokens, deeper)?;
    Ok((Block { spot, items, close }, rest))
}

/// A test and what is done where it holds.
#[cycle(stmt)]
#[tactic(auto, unfolding(c11_grammar::specs::Reading::and_then, c11_grammar::specs::Reading::arm_of))]
fn arm<'a>(alloc: Global, tokens: &'a [Lexeme], deeper: u32) -> Result<(Arm, &'a [Lexeme]), Stop>
    ensures { Gives (λ x. (x.0, x.1.now)) result (spec.arm_of (spec.assign_of (spec.readers deeper)) (spec.decl_reader deeper) (spec.stmt_reader deeper) tokens.now) }
{
    let (test, rest) = test(alloc, tokens, deeper)?;
    let (body, rest) = inner(alloc, rest, deeper)?;
    Ok((Arm { test, body }, rest))
}

/// Each `else if`, and then an `else`.
#[cycle(stmt)]
fn arms<'a>(
    alloc: Global,
    mut found: Many<Arm>,
    tokens: &'a [Lexeme],
    deeper: u32,
) -> Result<(Many<Arm>, Option<Boxed<Stmt>>, &'a [Lexeme]), Stop>
    ensures { Gives (λ x. ((x.0, x.1), x.2.now)) result (spec.arms (spec.assign_of (spec.readers deeper)) (spec.decl_reader deeper) (spec.stmt_reader deeper) (length tokens.now + 1) found tokens.now) }
{
    let mut rest = tokens;
    for _turn in 0..tokens.len() + 1 {
        let Some((_, after)) = take(Mark::Else, rest) else {
            return Ok((found, None, rest));
        };
        let Some((_, after)) = take(Mark::If, after) else {
            let (otherwise, after) = inner(alloc, after, deeper)?;
            return Ok((found, Some(boxed_stmt(alloc, otherwise)?), after));
        };
        let (next, after) = arm(alloc, after, deeper)?;
        found.push(next)?;
        rest = after;
    }
    Err(Stop::Syntax)
}

/// An `if` behind its word.
#[cycle(stmt)]
#[tactic(auto, unfolding(c11_grammar::specs::Reading::and_then, c11_grammar::specs::Reading::if_after))]
fn if_after<'a>(
    alloc: Global,
    spot: Spot,
    tokens: &'a [Lexeme],
    deeper: u32,
) -> Result<(Stmt, &'a [Lexeme]), Stop>
    ensures { Gives (λ x. (x.0, x.1.now)) result (spec.if_after (spec.assign_of (spec.readers deeper)) (spec.decl_reader deeper) (spec.stmt_reader deeper) spot tokens.now) }
{
    let (first, rest) = arm(alloc, tokens, deeper)?;
    let mut so_far = Many::new(alloc);
    so_far.push(first)?;
    let (arms, otherwise, rest) = arms(alloc, so_far, rest, deeper)?;
    Ok((
        Stmt::If {
            spot,
            arms,
            otherwise,
        },
        rest,
    ))
}

/// A `while` behind its word.
#[cycle(stmt)]
#[tactic(auto, unfolding(c11_grammar::specs::Reading::and_then, c11_grammar::specs::Reading::while_after))]
fn while_after<'a>(
    alloc: Global,
    spot: Spot,
    tokens: &'a [Lexeme],
    deeper: u32,
) -> Result<(Stmt, &'a [Lexeme]), Stop>
    ensures { Gives (λ x. (x.0, x.1.now)) result (spec.while_after (spec.assign_of (spec.readers deeper)) (spec.decl_reader deeper) (spec.stmt_reader deeper) spot tokens.now) }
{
    let (test, rest) = test(alloc, tokens, deeper)?;
    let (body, rest) = inner(alloc, rest, deeper)?;
    let body = boxed_stmt(alloc, body)?;
    Ok((Stmt::While { spot, test, body }, rest))
}

/// A `do` behind its word.
#[cycle(stmt)]
#[tactic(auto, unfolding(c11_grammar::specs::Reading::and_then, c11_grammar::specs::Reading::do_after))]
fn do_after<'a>(
    alloc: Global,
    spot: Spot,
    tokens: &'a [Lexeme],
    deeper: u32,
) -> Result<(Stmt, &'a [Lexeme]), Stop>
    ensures { Gives (λ x. (x.0, x.1.now)) result (spec.do_after (spec.assign_of (spec.readers deeper)) (spec.decl_reader deeper) (spec.stmt_reader deeper) spot tokens.now) }
{
    let (body, rest) = inner(alloc, tokens, deeper)?;
    let (_, rest) = expect(Mark::While, rest)?;
    let (test, rest) = test(alloc, rest, deeper)?;
    let (_, rest) = expect(Mark::Semicolon, rest)?;
    let body = boxed_stmt(alloc, body)?;
    Ok((Stmt::Do { spot, body, test }, rest))
}

/// A `for` behind its word.
#[cycle(stmt)]
#[tactic(auto, unfolding(c11_grammar::specs::Reading::and_then, c11_grammar::specs::Reading::for_after))]
fn for_after<'a>(
    alloc: Global,
    spot: Spot,
    tokens: &'a [Lexeme],
    deeper: u32,
) -> Result<(Stmt, &'a [Lexeme]), Stop>
    ensures { Gives (λ x. (x.0, x.1.now)) result (spec.for_after (spec.assign_of (spec.readers deeper)) (spec.decl_reader deeper) (spec.stmt_reader deeper) spot tokens.now) }
{
    let (_, rest) = expect(Mark::LeftParen, tokens)?;
    let (start, rest) = for_start(alloc, rest, deeper)?;
    let (test, rest) = maybe(alloc, Mark::Semicolon, rest, deeper)?;
    let (next, rest) = maybe(alloc, Mark::RightParen, rest, deeper)?;
    let (body, rest) = inner(alloc, rest, deeper)?;
    let body = boxed_stmt(alloc, body)?;
    Ok((
        Stmt::For {
            spot,
            start,
            test,
            next,
            body,
        },
        rest,
    ))
}

/// A loop, a jump, or an expression as a statement.
#[cycle(stmt)]
#[tactic(auto, unfolding(c11_grammar::specs::Reading::given, c11_grammar::specs::Reading::and_then, c11_grammar::specs::Reading::loop_of))]
fn loops<'a>(alloc: Global, tokens: &'a [Lexeme], deeper: u32) -> Result<(Stmt, &'a [Lexeme]), Stop>
    ensures { Gives (λ x. (x.0, x.1.now)) result (spec.loop_of (spec.assign_of (spec.readers deeper)) (spec.decl_reader deeper) (spec.stmt_reader deeper) tokens.now) }
{
    if let Some((spot, rest)) = take(Mark::While, tokens) {
        return while_after(alloc, spot, rest, deeper);
    }
    if let Some((spot, rest)) = take(Mark::Do, tokens) {
        return do_after(alloc, spot, rest, deeper);
    }
    if let Some((spot, rest)) = take(Mark::For, tokens) {
        return for_after(alloc, spot, rest, deeper);
    }
    jump(alloc, tokens, deeper)
}

/// A statement.
#[cycle(stmt)]
#[tactic(auto, unfolding(c11_grammar::specs::Reading::given, c11_grammar::specs::Reading::and_then, c11_grammar::specs::Reading::stmt_of))]
fn stmt<'a>(alloc: Global, tokens: &'a [Lexeme], deeper: u32) -> Result<(Stmt, &'a [Lexeme]), Stop>
    ensures { Gives (λ x. (x.0, x.1.now)) result (spec.stmt_of (spec.assign_of (spec.readers deeper)) (spec.decl_reader deeper) (spec.stmt_reader deeper) tokens.now) }
{
    if let Some((spot, rest)) = take(Mark::LeftBrace, tokens) {
        let (block, rest) = block_after(alloc, spot, rest, deeper)?;
        return Ok((Stmt::Block(block), rest));
    }
    if let Some((spot, rest)) = take(Mark::Semicolon, tokens) {
        return Ok((Stmt::Empty(spot), rest));
    }
    if let Some((spot, rest)) = take(Mark::If, tokens) {
        return if_after(alloc, spot, rest, deeper);
    }
    loops(alloc, tokens, deeper)
}
