//! What statements declare, for those who go past them.

ghost use Rattle.std.specs.Prelude.{◌≡◌, ◌++◌, length, IfOk, OnOk};
ghost use Rattle.c11_flat.specs.Pieces.{piece_of};
ghost use Rattle.c11_lower.specs.Lowered as spec;

use c11_ast::{Arm, Boxed, Expr, Local, Place, Stmt};
use c11_check::declarations::size_in;
use c11_check::scopes::{Mark, Scopes};
use c11_check::statements::{declare_handle, declare_local};
use c11_flat::Instr;
use c11_num::{CType, NoMemory};
use c11_pieces::{emit_expr, expr_size};

/// A mark to go back to, in the scope that there is.
pub(crate) fn mark(scopes: &mut Scopes) -> Mark
    ensures same { scopes.new ≡ scopes.old }
    ensures names { result.names ≡ length scopes.old.names }
    ensures start { result.start ≡ scopes.old.start }
    ensures counts { result.counts ≡ scopes.old.counts }
{
    let mark = scopes.enter();
    scopes.go_back(mark);
    mark
}

// Declares variables and arrays, one after the other.
fn pass_locals<'a>(
    scopes: &mut Scopes<'a>,
    ctype: CType,
    locals: &'a [Local],
) -> Result<(), NoMemory>
    ensures { OnOk result (scopes.new ≡ spec.passed_locals ctype locals.now scopes.old) }
{
    for local in locals {
        let size = size_in(scopes, &local.place.size);
        declare_local(scopes, &local.place.word, ctype, size)?;
    }
    Ok(())
}

// Declares handles, one after the other.
fn pass_handles<'a>(scopes: &mut Scopes<'a>, places: &'a [Place]) -> Result<(), NoMemory>
    ensures { OnOk result (scopes.new ≡ spec.passed_handles places.now scopes.old) }
{
    for place in places {
        let size = size_in(scopes, &place.size);
        declare_handle(scopes, &place.word, size)?;
    }
    Ok(())
}

/// Goes past the statement: the scope is the one behind it.
#[cycle(passing)]
pub(crate) fn pass<'a>(scopes: &mut Scopes<'a>, stmt: &'a Stmt) -> Result<(), NoMemory>
    ensures { OnOk result (scopes.new ≡ spec.passed stmt.now scopes.old) }
{
    match stmt {
        Stmt::Block(block) => {
            let mark = scopes.enter();
            pass_all(scopes, block.items.as_slice())?;
            scopes.leave(mark);
            Ok(())
        }
        Stmt::If {
            arms,
            otherwise,
            ..
        } => {
            pass_arms(scopes, arms.as_slice())?;
            pass_optional(scopes, otherwise)?;
            Ok(())
        }
        Stmt::While { body, .. } => {
            pass(scopes, body.get())?;
            Ok(())
        }
        Stmt::Do { body, .. } => {
            pass(scopes, body.get())?;
            Ok(())
        }
        Stmt::For { start, body, .. } => {
            let mark = scopes.enter();
            pass_optional(scopes, start)?;
            pass(scopes, body.get())?;
            scopes.leave(mark);
            Ok(())
        }
        Stmt::Locals { ctype, locals, .. } => pass_locals(scopes, *ctype, locals.as_slice()),
        Stmt::Handles { places, .. } => pass_handles(scopes, places.as_slice()),
        Stmt::Empty(_) => Ok(()),
        Stmt::Expr(_) => Ok(()),
        Stmt::Break(_) => Ok(()),
        Stmt::Continue(_) => Ok(()),
        Stmt::Return { .. } => Ok(()),
    }
}

/// Goes past statements, one after the other.
#[cycle(passing)]
pub(crate) fn pass_all<'a>(scopes: &mut Scopes<'a>, stmts: &'a [Stmt]) -> Result<(), NoMemory>
    ensures { OnOk result (scopes.new ≡ spec.passed_all stmts.now scopes.old) }
{
    for stmt in stmts {
        pass(scopes, stmt)?;
    }
    Ok(())
}

// Goes past the arms of an `if`, one after the other.
#[cycle(passing)]
fn pass_arms<'a>(scopes: &mut Scopes<'a>, arms: &'a [Arm]) -> Result<(), NoMemory>
    ensures { OnOk result (scopes.new ≡ spec.passed_arms arms.now scopes.old) }
{
    for arm in arms {
        pass(scopes, &arm.body)?;
    }
    Ok(())
}

/// Goes past a part that may be left out.
#[cycle(passing)]
pub(crate) fn pass_optional<'a>(
    scopes: &mut Scopes<'a>,
    stmt: &'a Option<Boxed<Stmt>>,
) -> Result<(), NoMemory>
    ensures { OnOk result (scopes.new ≡ spec.passed_optional stmt.now scopes.old) }
{
    match stmt {
        Some(stmt) => pass(scopes, stmt.get()),
        None => Ok(()),
    }
}

/// The size of an expression behind the statement, where the scope is as before.
pub(crate) fn size_behind<'a>(
    scopes: &mut Scopes<'a>,
    stmt: &'a Stmt,
    expr: &Expr,
) -> Result<usize, NoMemory>
    ensures size { IfOk result (λ size. size ≡ (piece_of expr.now (spec.passed stmt.now scopes.old)).size) }
    ensures same { OnOk result (scopes.new ≡ scopes.old) }
{
    let mark = mark(scopes);
    pass(scopes, stmt)?;
    let size = expr_size(scopes, expr)?;
    scopes.go_back(mark);
    Ok(size)
}

/// The code of an expression behind the statement, where the scope is as before.
pub(crate) fn emit_behind<'a>(
    code: &mut Vec<Instr>,
    scopes: &mut Scopes<'a>,
    stmt: &'a Stmt,
    expr: &Expr,
) -> Result<(), NoMemory>
    ensures code { OnOk result (code.new.items ≡ code.old.items ++ (piece_of expr.now (spec.passed stmt.now scopes.old)).code (length code.old.items)) }
    ensures same { OnOk result (scopes.new ≡ scopes.old) }
{
    let mark = mark(scopes);
    pass(scopes, stmt)?;
    emit_expr(code, scopes, expr)?;
    scopes.go_back(mark);
    Ok(())
}
