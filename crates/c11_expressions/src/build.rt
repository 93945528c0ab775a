//! Expressions from their parts.

ghost use Rattle.std.specs.Prelude.{◌≡◌, IfOk};
ghost use Rattle.c11_ast.specs.declared.expr.Expr.TheVariants as e;
ghost use Rattle.c11_grammar.specs.Reading as spec;

use c11_ast::{Expr, Link, Many, Spot, Target, boxed_expr};
use c11_num::{BinaryOp, NoMemory};
use std::alloc::Global;

/// A chain, or its first operand where it has no more.
pub fn chained(alloc: Global, first: Expr, links: Many<Link>) -> Result<Expr, NoMemory>
    ensures { IfOk result (λ expr. expr ≡ spec.chained first links) }
{
    if links.is_empty() {
        return Ok(first);
    }
    let first = boxed_expr(alloc, first)?;
    Ok(Expr::Chain { first, rest: links })
}

/// `test ? yes : no`
pub fn conditional(alloc: Global, test: Expr, yes: Expr, no: Expr) -> Result<Expr, NoMemory>
    ensures { IfOk result (λ expr. expr ≡ e.Cond test yes no) }
{
    let test = boxed_expr(alloc, test)?;
    let yes = boxed_expr(alloc, yes)?;
    let no = boxed_expr(alloc, no)?;
    Ok(Expr::Cond { test, yes, no })
}

/// An assignment.
pub fn assignment(
    alloc: Global,
    target: Target,
    op: Option<BinaryOp>,
    op_spot: Spot,
    value: Expr,
) -> Result<Expr, NoMemory>
    ensures { IfOk result (λ expr. expr ≡ e.Assign target op op_spot value) }
{
    let value = boxed_expr(alloc, value)?;
    Ok(Expr::Assign {
        target,
        op,
        op_spot,
        value,
    })
}
