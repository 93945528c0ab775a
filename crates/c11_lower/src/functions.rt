//! The code of functions.

ghost use Rattle.std.specs.Prelude.{◌≡◌, ◌++◌, ◌∷◌, [], length, IfOk, OnOk};
ghost use Rattle.c11_check.specs.Programs.{function_walk};
ghost use Rattle.c11_flat.specs.Code as code_of;
ghost use Rattle.c11_lower.specs.Lowered as spec;

use crate::append::{plus, push_nothing, put};
use crate::emitting::emit_all;
use crate::measuring::all_size;
use c11_ast::{Block, Function, Param};
use c11_check::programs::{declare_function, param_type, params};
use c11_check::scopes::Scopes;
use c11_flat::{Instr, Start};
use c11_num::{CType, NoMemory};
use std::alloc::Global;

// The types of parameters.
fn types_of(alloc: Global, params: &[Param]) -> Result<Vec<CType>, NoMemory>
    ensures { IfOk result (λ types. types.items ≡ code_of.types_of params.now) }
{
    let mut types = Vec::new(alloc);
    for param in params {
        types.push(param_type(param.ctype))?;
    }
    Ok(types)
}

// The body of a function, and behind it what is done at its end. The scope is the one behind the body.
fn emit_function_body<'a>(
    instrs: &mut Vec<Instr>,
    scopes: &mut Scopes<'a>,
    block: &'a Block,
) -> Result<(), NoMemory>
    ensures code { OnOk result (instrs.new.items ≡ instrs.old.items ++ spec.body_code block.now scopes.old (length instrs.old.items)) }
    ensures passed { OnOk result (scopes.new ≡ spec.passed_all block.now.items scopes.old) }
{
    let items = block.items.as_slice();
    let size = all_size(scopes, items)?;
    let end = plus(instrs.len(), size)?;
    emit_all(instrs, scopes, items, end, end)?;
    put(instrs, push_nothing())?;
    let line = block.close.line;
    put(instrs, Instr::Return { line })?;
    Ok(())
}

/// A function: it is declared, and its code and its start come behind those that there are. Its parameters and its outermost block
/// are one scope, and its places are counted behind its body.
pub(crate) fn emit_function<'a>(
    alloc: Global,
    instrs: &mut Vec<Instr>,
    starts: &mut Vec<Start>,
    scopes: &mut Scopes<'a>,
    function: &'a Function,
) -> Result<(), NoMemory>
    ensures code { OnOk result (instrs.new.items ≡ instrs.old.items ++ code_of.function_code (spec.runnable_in function.now scopes.old) (length instrs.old.items)) }
    ensures starts { OnOk result (starts.new.items ≡ starts.old.items ++ code_of.start_of (length instrs.old.items) (spec.runnable_in function.now scopes.old) ∷ []) }
    ensures passed { OnOk result (scopes.new ≡ (function_walk function.now scopes.old).scope) }
{
    let place = instrs.len();
    let types = types_of(alloc, function.params.as_slice())?;
    declare_function(scopes, function)?;
    let mark = scopes.enter_function();
    params(scopes, None, function.params.as_slice())?;
    emit_function_body(instrs, scopes, &function.body)?;
    let places = scopes.counts().places;
    scopes.leave(mark);
    let start = Start {
        place,
        params: types,
        places,
        answers: function.answers,
    };
    starts.push(start)?;
    Ok(())
}
