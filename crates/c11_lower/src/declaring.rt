//! The code of declarations in a function.

ghost use Rattle.std.specs.Prelude.{◌≡◌, ℕ, ◌++◌, length, OnOk};
ghost use Rattle.c11_flat.specs.Code.{locals_strip, handles_strip};
ghost use Rattle.c11_lower.specs.Lowered as spec;

use crate::append::{emit_clear, emit_started};
use crate::passing::mark;
use c11_ast::{Local, Place};
use c11_check::declarations::size_in;
use c11_check::scopes::Scopes;
use c11_check::statements::{declare_handle, declare_local};
use c11_flat::Instr;
use c11_num::{CType, NoMemory};

// Variables and arrays, one after the other; they are declared.
fn declare_locals<'a>(
    code: &mut Vec<Instr>,
    scopes: &mut Scopes<'a>,
    ctype: CType,
    locals: &'a [Local],
) -> Result<(), NoMemory>
    ensures code { OnOk result ((k l : ℕ) → code.new.items ≡ code.old.items ++ (locals_strip ctype locals.now scopes.old).code (length code.old.items) k l) }
    ensures passed { OnOk result (scopes.new ≡ spec.passed_locals ctype locals.now scopes.old) }
{
    for local in locals {
        let place = scopes.counts().places;
        let size = size_in(scopes, &local.place.size);
        emit_clear(code, place, size)?;
        declare_local(scopes, &local.place.word, ctype, size)?;
        let line = local.place.word.spot.line;
        emit_started(code, scopes, line, ctype, place, &local.start)?;
    }
    Ok(())
}

// Handles, one after the other; they are declared.
fn declare_handles<'a>(
    code: &mut Vec<Instr>,
    scopes: &mut Scopes<'a>,
    places: &'a [Place],
) -> Result<(), NoMemory>
    ensures code { OnOk result ((k l : ℕ) → code.new.items ≡ code.old.items ++ (handles_strip places.now scopes.old).code (length code.old.items) k l) }
    ensures passed { OnOk result (scopes.new ≡ spec.passed_handles places.now scopes.old) }
{
    for handle in places {
        let place = scopes.counts().places;
        let elements = size_in(scopes, &handle.size);
        emit_clear(code, place, elements)?;
        declare_handle(scopes, &handle.word, elements)?;
    }
    Ok(())
}

/// Variables and arrays, one after the other. The scopes are as before behind them.
pub(crate) fn emit_locals<'a>(
    code: &mut Vec<Instr>,
    scopes: &mut Scopes<'a>,
    ctype: CType,
    locals: &'a [Local],
) -> Result<(), NoMemory>
    ensures code { OnOk result ((k l : ℕ) → code.new.items ≡ code.old.items ++ (locals_strip ctype locals.now scopes.old).code (length code.old.items) k l) }
    ensures same { OnOk result (scopes.new ≡ scopes.old) }
{
    let mark = mark(scopes);
    declare_locals(code, scopes, ctype, locals)?;
    scopes.go_back(mark);
    Ok(())
}

/// Handles, one after the other. The scopes are as before behind them.
pub(crate) fn emit_handles<'a>(
    code: &mut Vec<Instr>,
    scopes: &mut Scopes<'a>,
    places: &'a [Place],
) -> Result<(), NoMemory>
    ensures code { OnOk result ((k l : ℕ) → code.new.items ≡ code.old.items ++ (handles_strip places.now scopes.old).code (length code.old.items) k l) }
    ensures same { OnOk result (scopes.new ≡ scopes.old) }
{
    let mark = mark(scopes);
    declare_handles(code, scopes, places)?;
    scopes.go_back(mark);
    Ok(())
}
