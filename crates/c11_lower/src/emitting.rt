//! The code of statements. The scopes are as before behind each; who goes on behind it goes past it.

ghost use Rattle.std.specs.Prelude.{◌≡◌, ◌+◌, ◌++◌, length, Option, IfOk, OnOk};
ghost use Rattle.c11_check.specs.Scopes as scope;
ghost use Rattle.c11_lower.specs.Lowered as spec;
ghost use Rattle.c11_ast.specs.declared.stmt.Stmt.{Stmt as SpecStmt};

use crate::append::{
    emit_alone, emit_optional, emit_optional_alone, emit_return, plus, push_one, put,
};
use crate::declaring::{emit_handles, emit_locals};
use crate::measuring::{alone_size, optional_size, stmt_size};
use crate::passing::{emit_behind, mark, pass, pass_optional, size_behind};
use c11_ast::{Arm, Block, Boxed, Expr, Stmt};
use c11_check::scopes::Scopes;
use c11_flat::Instr;
use c11_num::NoMemory;
use c11_pieces::{emit_expr, expr_size};

/// The statement, from which a `break` and a `continue` go to these places.
#[cycle(emitting)]
pub(crate) fn emit_stmt<'a>(
    code: &mut Vec<Instr>,
    scopes: &mut Scopes<'a>,
    stmt: &'a Stmt,
    breaks: usize,
    continues: usize,
) -> Result<(), NoMemory>
    ensures code { OnOk result (code.new.items ≡ spec.with_strip code.old.items (spec.strip_of stmt.now scopes.old) breaks continues) }
    ensures same { OnOk result (scopes.new ≡ scopes.old) }
{
    match stmt {
        Stmt::Block(block) => emit_block(code, scopes, block, breaks, continues)?,
        Stmt::Empty(_) => {}
        Stmt::Expr(expr) => emit_alone(code, scopes, expr)?,
        Stmt::If {
            arms,
            otherwise,
            ..
        } => {
            let end = plus(code.len(), stmt_size(scopes, stmt)?)?;
            let mark = mark(scopes);
            emit_arms(code, scopes, arms.as_slice(), end, breaks, continues)?;
            emit_other(code, scopes, otherwise, breaks, continues)?;
            scopes.go_back(mark);
        }
        Stmt::While { spot, test, body } => emit_while(code, scopes, spot.line, body.get(), test)?,
        Stmt::Do { spot, body, test } => emit_do(code, scopes, spot.line, body.get(), test)?,
        Stmt::For {
            spot,
            start,
            test,
            next,
            body,
        } => {
            let mark = scopes.enter();
            emit_other(code, scopes, start, breaks, continues)?;
            pass_optional(scopes, start)?;
            emit_turning(code, scopes, spot.line, test, next, body.get())?;
            scopes.go_back(mark);
        }
        Stmt::Break(_) => put(code, Instr::Jump(breaks))?,
        Stmt::Continue(_) => put(code, Instr::Jump(continues))?,
        Stmt::Return { spot, value } => emit_return(code, scopes, spot.line, value)?,
        Stmt::Locals { ctype, locals, .. } => emit_locals(code, scopes, *ctype, locals.as_slice())?,
        Stmt::Handles { places, .. } => emit_handles(code, scopes, places.as_slice())?,
    }
    Ok(())
}

// A block.
#[cycle(emitting)]
fn emit_block<'a>(
    code: &mut Vec<Instr>,
    scopes: &mut Scopes<'a>,
    block: &'a Block,
    breaks: usize,
    continues: usize,
) -> Result<(), NoMemory>
    ensures code { OnOk result (code.new.items ≡ spec.with_strip code.old.items (spec.strip_of_all block.now.items (scope.entered scopes.old)) breaks continues) }
    ensures same { OnOk result (scopes.new ≡ scopes.old) }
{
    let mark = scopes.enter();
    emit_all(code, scopes, block.items.as_slice(), breaks, continues)?;
    scopes.go_back(mark);
    Ok(())
}

/// Statements, one after the other. The scope is the one behind them.
#[cycle(emitting)]
pub(crate) fn emit_all<'a>(
    code: &mut Vec<Instr>,
    scopes: &mut Scopes<'a>,
    stmts: &'a [Stmt],
    breaks: usize,
    continues: usize,
) -> Result<(), NoMemory>
    ensures code { OnOk result (code.new.items ≡ spec.with_strip code.old.items (spec.strip_of_all stmts.now scopes.old) breaks continues) }
    ensures passed { OnOk result (scopes.new ≡ spec.passed_all stmts.now scopes.old) }
{
    for stmt in stmts {
        emit_stmt(code, scopes, stmt, breaks, continues)?;
        pass(scopes, stmt)?;
    }
    Ok(())
}

// A part that may be left out.
#[cycle(emitting)]
fn emit_other<'a>(
    code: &mut Vec<Instr>,
    scopes: &mut Scopes<'a>,
    stmt: &'a Option<Boxed<Stmt>>,
    breaks: usize,
    continues: usize,
) -> Result<(), NoMemory>
    ensures code { OnOk result (code.new.items ≡ spec.with_strip code.old.items (spec.optional_strip stmt.now scopes.old) breaks continues) }
    ensures same { OnOk result (scopes.new ≡ scopes.old) }
{
    match stmt {
        Some(stmt) => emit_stmt(code, scopes, stmt.get(), breaks, continues),
        None => Ok(()),
    }
}

// The arms of an `if` that ends at this place. What the last `else` has comes behind them, in the scope that is left.
#[cycle(emitting)]
fn emit_arms<'a>(
    code: &mut Vec<Instr>,
    scopes: &mut Scopes<'a>,
    arms: &'a [Arm],
    end: usize,
    breaks: usize,
    continues: usize,
) -> Result<(), NoMemory>
    ensures code { OnOk result ((otherwise : Option SpecStmt) → spec.EndsAt end code.old.items arms.now otherwise scopes.old → spec.with_strip code.new.items (spec.optional_strip otherwise (spec.passed_arms arms.now scopes.old)) breaks continues ≡ spec.with_strip code.old.items (spec.arms_strip arms.now otherwise scopes.old) breaks continues) }
    ensures passed { OnOk result (scopes.new ≡ spec.passed_arms arms.now scopes.old) }
{
    for arm in arms {
        emit_expr(code, scopes, &arm.test)?;
        let done = stmt_size(scopes, &arm.body)?;
        let next = plus(plus(code.len(), done)?, 2)?;
        put(code, Instr::JumpIfZero(next))?;
        emit_stmt(code, scopes, &arm.body, breaks, continues)?;
        put(code, Instr::Jump(end))?;
        pass(scopes, &arm.body)?;
    }
    Ok(())
}

// The beginning of a loop, from the sizes of its next and of its test: a jump to the test, and the body. The answer is where the
// body begins.
#[cycle(emitting)]
fn emit_body<'a>(
    code: &mut Vec<Instr>,
    scopes: &mut Scopes<'a>,
    body: &'a Stmt,
    next_size: usize,
    test_size: usize,
) -> Result<usize, NoMemory>
    ensures top { IfOk result (λ top. top ≡ length code.old.items + 1) }
    ensures code { OnOk result (code.new.items ≡ code.old.items ++ spec.opening (spec.strip_of body.now scopes.old) next_size test_size (length code.old.items)) }
    ensures same { OnOk result (scopes.new ≡ scopes.old) }
{
    let done = stmt_size(scopes, body)?;
    let top = plus(code.len(), 1)?;
    let next = plus(top, done)?;
    let test = plus(next, next_size)?;
    let end = plus(plus(test, test_size)?, 1)?;
    put(code, Instr::Jump(test))?;
    emit_stmt(code, scopes, body, end, next)?;
    Ok(top)
}

// A `while`.
#[cycle(emitting)]
fn emit_while<'a>(
    code: &mut Vec<Instr>,
    scopes: &mut Scopes<'a>,
    line: u32,
    body: &'a Stmt,
    test: &Expr,
) -> Result<(), NoMemory>
    ensures code { OnOk result (code.new.items ≡ spec.with_strip code.old.items (spec.while_strip line body.now test.now scopes.old) 0 0) }
    ensures same { OnOk result (scopes.new ≡ scopes.old) }
{
    let test_size = expr_size(scopes, test)?;
    let top = emit_body(code, scopes, body, 0, test_size)?;
    emit_expr(code, scopes, test)?;
    put(code, Instr::TurnIf { line, to: top })?;
    Ok(())
}

// A `for`, behind its start.
#[cycle(emitting)]
fn emit_turning<'a>(
    code: &mut Vec<Instr>,
    scopes: &mut Scopes<'a>,
    line: u32,
    test: &Option<Expr>,
    next: &Option<Expr>,
    body: &'a Stmt,
) -> Result<(), NoMemory>
    ensures code { OnOk result (code.new.items ≡ spec.with_strip code.old.items (spec.turning_strip line test.now next.now body.now scopes.old) 0 0) }
    ensures same { OnOk result (scopes.new ≡ scopes.old) }
{
    let next_size = alone_size(scopes, next)?;
    let test_size = optional_size(scopes, test)?;
    let top = emit_body(code, scopes, body, next_size, test_size)?;
    emit_optional_alone(code, scopes, next)?;
    emit_optional(code, scopes, test, push_one())?;
    put(code, Instr::TurnIf { line, to: top })?;
    Ok(())
}

// A `do`. Its first turn is counted where it is entered; the test is in the scope behind the body.
#[cycle(emitting)]
fn emit_do<'a>(
    code: &mut Vec<Instr>,
    scopes: &mut Scopes<'a>,
    line: u32,
    body: &'a Stmt,
    test: &Expr,
) -> Result<(), NoMemory>
    ensures code { OnOk result (code.new.items ≡ spec.with_strip code.old.items (spec.do_strip line body.now test.now scopes.old) 0 0) }
    ensures same { OnOk result (scopes.new ≡ scopes.old) }
{
    let done = stmt_size(scopes, body)?;
    let tested = size_behind(scopes, body, test)?;
    let top = plus(code.len(), 1)?;
    let behind = plus(top, done)?;
    let end = plus(plus(behind, tested)?, 1)?;
    put(code, Instr::Turn { line })?;
    emit_stmt(code, scopes, body, end, behind)?;
    emit_behind(code, scopes, body, test)?;
    put(code, Instr::TurnIf { line, to: top })?;
    Ok(())
}
