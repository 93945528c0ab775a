//! Instructions and small pieces of code, behind the code that there is.

ghost use Rattle.std.specs.Prelude.{◌≡◌, ◌+◌, ◌++◌, ◌∷◌, [], length, Some, IfOk, OnOk};
ghost use Rattle.c11_flat.specs.Code as code_of;
ghost use Rattle.c11_flat.specs.declared.instr.Instr.TheVariants as i;
ghost use Rattle.c11_check.specs.Scopes as scope;
ghost use Rattle.c11_meaning.specs.Objects as value;
ghost use Rattle.c11_lower.specs.Lowered as spec;

use c11_ast::Expr;
use c11_check::scopes::Scopes;
use c11_flat::{Instr, Place, Storage};
use c11_num::{CType, CValue, NoMemory};
use c11_pieces::emit_expr;

/// One more instruction.
pub(crate) fn put(code: &mut Vec<Instr>, instr: Instr) -> Result<(), NoMemory>
    ensures { OnOk result (code.new.items ≡ code.old.items ++ instr ∷ []) }
{
    match code.push(instr) {
        Ok(()) => Ok(()),
        Err(_) => Err(NoMemory),
    }
}

/// The sum of two sizes.
pub(crate) fn plus(one: usize, other: usize) -> Result<usize, NoMemory>
    ensures { IfOk result (λ sum. sum ≡ one + other) }
{
    match one.checked_add(other) {
        Some(sum) => Ok(sum),
        None => Err(NoMemory),
    }
}

/// The instruction for the value that a `return` without one has, and that a function has at its end.
pub(crate) fn push_nothing() -> Instr
    ensures { result ≡ i.Push value.nothing }
{
    Instr::Push(CValue::new(CType::Int, 0))
}

/// The instruction for the test that a `for` without one has.
pub(crate) fn push_one() -> Instr
    ensures { result ≡ i.Push value.one }
{
    Instr::Push(CValue::new(CType::Int, 1))
}

/// A value, or the instruction that stands in its place.
pub(crate) fn emit_optional(
    code: &mut Vec<Instr>,
    scopes: &Scopes,
    expr: &Option<Expr>,
    instr: Instr,
) -> Result<(), NoMemory>
    ensures { OnOk result (code.new.items ≡ code.old.items ++ (code_of.optional_piece expr.now instr scopes.now).code (length code.old.items)) }
{
    match expr {
        Some(expr) => emit_expr(code, scopes, expr),
        None => put(code, instr),
    }
}

/// A value that is not used.
pub(crate) fn emit_alone(
    code: &mut Vec<Instr>,
    scopes: &Scopes,
    expr: &Expr,
) -> Result<(), NoMemory>
    ensures { OnOk result (code.new.items ≡ code.old.items ++ (code_of.optional_alone (Some expr.now) scopes.now).code (length code.old.items)) }
{
    emit_expr(code, scopes, expr)?;
    put(code, Instr::Drop)?;
    Ok(())
}

/// A value that is not used, if there is one.
pub(crate) fn emit_optional_alone(
    code: &mut Vec<Instr>,
    scopes: &Scopes,
    expr: &Option<Expr>,
) -> Result<(), NoMemory>
    ensures { OnOk result (code.new.items ≡ code.old.items ++ (code_of.optional_alone expr.now scopes.now).code (length code.old.items)) }
{
    match expr {
        Some(expr) => emit_alone(code, scopes, expr),
        None => Ok(()),
    }
}

/// A `return`, with its value or none.
pub(crate) fn emit_return(
    code: &mut Vec<Instr>,
    scopes: &Scopes,
    line: u32,
    value: &Option<Expr>,
) -> Result<(), NoMemory>
    ensures { OnOk result (code.new.items ≡ spec.with_strip code.old.items (spec.return_strip line value.now scopes.now) 0 0) }
{
    emit_optional(code, scopes, value, push_nothing())?;
    put(code, Instr::Return { line })?;
    Ok(())
}

/// What a local at this place starts with, if it has a start.
pub(crate) fn emit_started(
    code: &mut Vec<Instr>,
    scopes: &Scopes,
    line: u32,
    ctype: CType,
    place: u32,
    start: &Option<Expr>,
) -> Result<(), NoMemory>
    ensures { OnOk result (code.new.items ≡ code.old.items ++ (code_of.started line ctype place start.now scopes.now).code (length code.old.items)) }
{
    match start {
        Some(expr) => {
            emit_expr(code, scopes, expr)?;
            let write = Instr::Write {
                line,
                storage: Storage::Local,
                ctype,
                place: Place::At(place),
            };
            put(code, write)?;
            put(code, Instr::Drop)?;
            Ok(())
        }
        None => Ok(()),
    }
}

// How many places an object takes. No program that the checks accept has one of 2^32 or more.
fn taken(size: Option<u64>) -> Result<u32, NoMemory>
    ensures { IfOk result (λ count. count ≡ scope.taken size) }
{
    match size {
        Some(elements) => match u32::try_from(elements) {
            Ok(count) => Ok(count),
            Err(_) => Err(NoMemory),
        },
        None => Ok(1),
    }
}

/// A local of this size is 0, from this place on.
pub(crate) fn emit_clear(
    code: &mut Vec<Instr>,
    place: u32,
    size: Option<u64>,
) -> Result<(), NoMemory>
    ensures { OnOk result (code.new.items ≡ code.old.items ++ i.Clear place (scope.taken size) ∷ []) }
{
    let count = taken(size)?;
    put(code, Instr::Clear { place, count })?;
    Ok(())
}
