//! The code of programs.

ghost use Rattle.std.specs.Prelude.{◌≡◌, ◌++◌, length, IfOk, OnOk};
ghost use Rattle.c11_check.specs.Programs.{item_walk};
ghost use Rattle.c11_meaning.specs.Asks.{functions_of_item};
ghost use Rattle.c11_flat.specs.Code.{whole_of, instrs_from, starts_from};

use crate::functions::emit_function;
use c11_ast::Item;
use c11_check::Checked;
use c11_check::programs::item as declare_item;
use c11_check::scopes::Scopes;
use c11_flat::{Code, Instr, Start};
use c11_num::NoMemory;
use std::alloc::Global;

// An item: what it declares is declared, and if it is a function its code comes behind that of the others.
fn emit_item<'a>(
    alloc: Global,
    instrs: &mut Vec<Instr>,
    starts: &mut Vec<Start>,
    scopes: &mut Scopes<'a>,
    item: &'a Item,
) -> Result<(), NoMemory>
    ensures code { OnOk result (instrs.new.items ≡ instrs.old.items ++ instrs_from (length instrs.old.items) (functions_of_item item.now scopes.old)) }
    ensures starts { OnOk result (starts.new.items ≡ starts.old.items ++ starts_from (length instrs.old.items) (functions_of_item item.now scopes.old)) }
    ensures passed { OnOk result (scopes.new ≡ (item_walk item.now scopes.old).scope) }
{
    match item {
        Item::Function(function) => emit_function(alloc, instrs, starts, scopes, function)?,
        Item::Include(_) | Item::Define { .. } | Item::Global { .. } => {
            declare_item(scopes, None, item)?;
        }
    }
    Ok(())
}

/// The flat code of the program. The only error is that memory ran out.
pub fn lower(alloc: Global, checked: &Checked) -> Result<Code, NoMemory>
    ensures { IfOk result (λ code. code ≡ whole_of checked.now.program) }
{
    let mut instrs = Vec::new(alloc);
    let mut starts = Vec::new(alloc);
    let mut scopes = Scopes::new(alloc);
    for item in checked.program().items() {
        emit_item(alloc, &mut instrs, &mut starts, &mut scopes, item)?;
    }
    Ok(Code { instrs, starts })
}
