//! How many instructions statements have. Nothing that was measured leaves a trace in the scopes.

ghost use Rattle.std.specs.Prelude.{◌≡◌, length, IfOk, OnOk};
ghost use Rattle.c11_flat.specs.Code.{locals_strip};
ghost use Rattle.c11_check.specs.Scopes as scope;
ghost use Rattle.c11_lower.specs.Lowered as spec;

use crate::append::plus;
use crate::passing::{mark, pass, pass_optional, size_behind};
use c11_ast::{Arm, Block, Boxed, Expr, Local, Stmt};
use c11_check::declarations::size_in;
use c11_check::scopes::Scopes;
use c11_check::statements::declare_local;
use c11_num::{CType, NoMemory};
use c11_pieces::expr_size;

/// The size of a value, or of the instruction that stands in its place.
pub(crate) fn optional_size(scopes: &Scopes, expr: &Option<Expr>) -> Result<usize, NoMemory>
    ensures { IfOk result (λ size. size ≡ spec.optional_size expr.now scopes.now) }
{
    match expr {
        Some(expr) => expr_size(scopes, expr),
        None => Ok(1),
    }
}

/// The size of a value that is not used, if there is one.
pub(crate) fn alone_size(scopes: &Scopes, expr: &Option<Expr>) -> Result<usize, NoMemory>
    ensures { IfOk result (λ size. size ≡ spec.alone_size expr.now scopes.now) }
{
    match expr {
        Some(expr) => plus(expr_size(scopes, expr)?, 1),
        None => Ok(0),
    }
}

// The size of a local's start, if it has one.
fn started_size(scopes: &Scopes, expr: &Option<Expr>) -> Result<usize, NoMemory>
    ensures { IfOk result (λ size. size ≡ spec.started_size expr.now scopes.now) }
{
    match expr {
        Some(expr) => plus(expr_size(scopes, expr)?, 2),
        None => Ok(0),
    }
}

// The size of variables and arrays, one after the other; they are declared.
fn declared_size<'a>(
    scopes: &mut Scopes<'a>,
    ctype: CType,
    locals: &'a [Local],
) -> Result<usize, NoMemory>
    ensures size { IfOk result (λ size. size ≡ (locals_strip ctype locals.now scopes.old).size) }
    ensures passed { OnOk result (scopes.new ≡ spec.passed_locals ctype locals.now scopes.old) }
{
    let mut size = 0;
    for local in locals {
        let elements = size_in(scopes, &local.place.size);
        declare_local(scopes, &local.place.word, ctype, elements)?;
        size = plus(plus(size, 1)?, started_size(scopes, &local.start)?)?;
    }
    Ok(size)
}

// The size of variables and arrays.
fn locals_size<'a>(
    scopes: &mut Scopes<'a>,
    ctype: CType,
    locals: &'a [Local],
) -> Result<usize, NoMemory>
    ensures size { IfOk result (λ size. size ≡ (locals_strip ctype locals.now scopes.old).size) }
    ensures same { OnOk result (scopes.new ≡ scopes.old) }
{
    let mark = mark(scopes);
    let size = declared_size(scopes, ctype, locals)?;
    scopes.go_back(mark);
    Ok(size)
}

/// The size of the statement.
#[cycle(measuring)]
pub(crate) fn stmt_size<'a>(scopes: &mut Scopes<'a>, stmt: &'a Stmt) -> Result<usize, NoMemory>
    ensures size { IfOk result (λ size. size ≡ (spec.strip_of stmt.now scopes.old).size) }
    ensures same { OnOk result (scopes.new ≡ scopes.old) }
{
    let size = match stmt {
        Stmt::Block(block) => block_size(scopes, block)?,
        Stmt::Empty(_) => 0,
        Stmt::Expr(expr) => plus(expr_size(scopes, expr)?, 1)?,
        Stmt::If {
            arms,
            otherwise,
            ..
        } => {
            let mark = mark(scopes);
            let first = arms_size(scopes, arms.as_slice())?;
            let last = size_of_optional(scopes, otherwise)?;
            scopes.go_back(mark);
            plus(first, last)?
        }
        Stmt::While { test, body, .. } => {
            let tested = plus(expr_size(scopes, test)?, 2)?;
            plus(stmt_size(scopes, body.get())?, tested)?
        }
        Stmt::Do { body, test, .. } => {
            let tested = plus(size_behind(scopes, body.get(), test)?, 2)?;
            plus(stmt_size(scopes, body.get())?, tested)?
        }
        Stmt::For {
            start,
            test,
            next,
            body,
            ..
        } => {
            let mark = scopes.enter();
            let begun = size_of_optional(scopes, start)?;
            pass_optional(scopes, start)?;
            let turned = turning_size(scopes, body.get(), test, next)?;
            scopes.go_back(mark);
            plus(begun, turned)?
        }
        Stmt::Break(_) => 1,
        Stmt::Continue(_) => 1,
        Stmt::Return { value, .. } => plus(optional_size(scopes, value)?, 1)?,
        Stmt::Locals { ctype, locals, .. } => locals_size(scopes, *ctype, locals.as_slice())?,
        Stmt::Handles { places, .. } => places.len(),
    };
    Ok(size)
}

// The size of a block.
#[cycle(measuring)]
fn block_size<'a>(scopes: &mut Scopes<'a>, block: &'a Block) -> Result<usize, NoMemory>
    ensures size { IfOk result (λ size. size ≡ (spec.strip_of_all block.now.items (scope.entered scopes.old)).size) }
    ensures same { OnOk result (scopes.new ≡ scopes.old) }
{
    let mark = scopes.enter();
    let size = size_of_all(scopes, block.items.as_slice())?;
    scopes.go_back(mark);
    Ok(size)
}

// The size of a `for`, behind its start.
#[cycle(measuring)]
fn turning_size<'a>(
    scopes: &mut Scopes<'a>,
    body: &'a Stmt,
    test: &Option<Expr>,
    next: &Option<Expr>,
) -> Result<usize, NoMemory>
    ensures size { IfOk result (λ size. size ≡ spec.loop_size test.now next.now body.now scopes.old) }
    ensures same { OnOk result (scopes.new ≡ scopes.old) }
{
    let tested = plus(optional_size(scopes, test)?, 2)?;
    let turned = plus(alone_size(scopes, next)?, tested)?;
    let size = plus(stmt_size(scopes, body)?, turned)?;
    Ok(size)
}

// The size of statements, one after the other. The scope is the one behind them.
#[cycle(measuring)]
fn size_of_all<'a>(scopes: &mut Scopes<'a>, stmts: &'a [Stmt]) -> Result<usize, NoMemory>
    ensures size { IfOk result (λ size. size ≡ (spec.strip_of_all stmts.now scopes.old).size) }
    ensures passed { OnOk result (scopes.new ≡ spec.passed_all stmts.now scopes.old) }
{
    let mut size = 0;
    for stmt in stmts {
        size = plus(size, stmt_size(scopes, stmt)?)?;
        pass(scopes, stmt)?;
    }
    Ok(size)
}

// The size of the arms of an `if`. The scope is the one behind them.
#[cycle(measuring)]
fn arms_size<'a>(scopes: &mut Scopes<'a>, arms: &'a [Arm]) -> Result<usize, NoMemory>
    ensures size { IfOk result (λ size. size ≡ spec.arms_size arms.now scopes.old) }
    ensures passed { OnOk result (scopes.new ≡ spec.passed_arms arms.now scopes.old) }
{
    let mut size = 0;
    for arm in arms {
        let tested = plus(expr_size(scopes, &arm.test)?, 2)?;
        let done = stmt_size(scopes, &arm.body)?;
        size = plus(size, plus(tested, done)?)?;
        pass(scopes, &arm.body)?;
    }
    Ok(size)
}

// The size of a part that may be left out.
#[cycle(measuring)]
fn size_of_optional<'a>(
    scopes: &mut Scopes<'a>,
    stmt: &'a Option<Boxed<Stmt>>,
) -> Result<usize, NoMemory>
    ensures size { IfOk result (λ size. size ≡ (spec.optional_strip stmt.now scopes.old).size) }
    ensures same { OnOk result (scopes.new ≡ scopes.old) }
{
    match stmt {
        Some(stmt) => stmt_size(scopes, stmt.get()),
        None => Ok(0),
    }
}

/// The size of statements, one after the other.
pub(crate) fn all_size<'a>(scopes: &mut Scopes<'a>, stmts: &'a [Stmt]) -> Result<usize, NoMemory>
    ensures size { IfOk result (λ size. size ≡ (spec.strip_of_all stmts.now scopes.old).size) }
    ensures same { OnOk result (scopes.new ≡ scopes.old) }
{
    let mark = mark(scopes);
    let size = size_of_all(scopes, stmts)?;
    scopes.go_back(mark);
    Ok(size)
}
