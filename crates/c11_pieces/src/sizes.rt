//! How many instructions the code of expressions has.

ghost use Rattle.std.specs.Prelude.{◌≡◌, drop, map, IfOk};
ghost use Rattle.c11_check.specs.Scopes.{denoted};
ghost use Rattle.c11_meaning.specs.Parts.{given_object};
ghost use Rattle.c11_flat.specs.Pieces as spec;
ghost use Rattle.c11_flat.specs.Pieces.{part_of, piece_of};
ghost use Rattle.c11_pieces.specs.Calls.{operands};
ghost use Rattle.c11_pieces.specs.Trees.{given_of, linked_of, object_of, links_of};

use crate::arguments::{entity_of, place_in};
use crate::growing::plus;
use crate::lengths::{compound_size, read_size, step_size, write_size};
use crate::library::{finals_size, fits};
use crate::types::{branches_type, type_of};
use c11_ast::{Arg, Expr, Infix, Link, Target, Word};
use c11_check::scopes::Scopes;
use c11_check::{Entity, Library};
use c11_num::{CType, NoMemory};

// The size of what puts the place of an element on the stack.
#[cycle(sizes)]
fn located_size(scopes: &Scopes, target: &Target) -> Result<usize, NoMemory>
    ensures { IfOk result (λ size. size ≡ (spec.located (object_of target.now) scopes.now).size) }
{
    match &target.index {
        Some(index) => {
            let size = expr_size(scopes, index.get())?;
            plus(size, 1)
        }
        None => Ok(0),
    }
}

/// The size of a branch of `?:`, which is cast to the type.
#[cycle(sizes)]
pub(crate) fn branch_size(
    scopes: &Scopes,
    ctype: Option<CType>,
    branch: &Expr,
) -> Result<usize, NoMemory>
    ensures { IfOk result (λ size. size ≡ (spec.branch ctype (part_of branch.now) scopes.now).size) }
{
    let size = expr_size(scopes, branch)?;
    match ctype {
        Some(_) => plus(size, 1),
        None => Ok(size),
    }
}

// The size of an operator and its right operand.
#[cycle(sizes)]
fn link_size(scopes: &Scopes, link: &Link) -> Result<usize, NoMemory>
    ensures { let linked = linked_of link.now in IfOk result (λ size. size ≡ (spec.infixed linked.op linked.line linked.right scopes.now).size) }
{
    let size = expr_size(scopes, &link.right)?;
    match link.op {
        Infix::Number(_) => plus(size, 1),
        // Two jumps, a constant, and the truth of the operand.
        Infix::Both | Infix::Either => plus(size, 4),
    }
}

// The size of what is behind the first operand of a chain.
#[cycle(sizes)]
fn links_size(scopes: &Scopes, chain: &Expr) -> Result<usize, NoMemory>
    ensures { IfOk result (λ size. size ≡ (spec.chained (map linked_of (links_of chain.now)) scopes.now).size) }
{
    let mut size = 0;
    if let Expr::Chain { rest, .. } = chain {
        for link in rest.as_slice() {
            size = plus(size, link_size(scopes, link)?)?;
        }
    }
    Ok(size)
}

// The size of an argument's value.
#[cycle(sizes)]
fn value_size(scopes: &Scopes, arg: &Arg) -> Result<usize, NoMemory>
    ensures { IfOk result (λ size. size ≡ (spec.value_given (given_of arg.now) scopes.now).size) }
{
    match arg {
        Arg::Value(expr) => expr_size(scopes, expr),
        _ => Ok(1),
    }
}

// The size of the values of the arguments from one on.
#[cycle(sizes)]
fn values_size(scopes: &Scopes, args: &[Arg], from: usize) -> Result<usize, NoMemory>
    ensures { IfOk result (λ size. size ≡ (spec.values_given (map given_of (drop from args.now)) scopes.now).size) }
{
    let mut size = 0;
    for place in from..args.len() {
        size = plus(size, value_size(scopes, &args[place])?)?;
    }
    Ok(size)
}

// The size of what puts the place behind an `&` on the stack.
#[cycle(sizes)]
fn address_size(scopes: &Scopes, arg: &Arg) -> Result<usize, NoMemory>
    ensures { IfOk result (λ size. size ≡ (spec.answer_located (given_of arg.now) scopes.now).size) }
{
    match arg {
        Arg::Address { target, .. } => located_size(scopes, target),
        _ => Ok(0),
    }
}

// The size of what reads a handle, whatever line it names.
#[cycle(sizes)]
fn handle_size(scopes: &Scopes, arg: &Arg) -> Result<usize, NoMemory>
    ensures { IfOk result (λ size. size ≡ (spec.handle_read 0 (given_object (given_of arg.now)) scopes.now).size) }
{
    match arg {
        Arg::Value(Expr::Read(target)) => plus(located_size(scopes, target)?, 1),
        _ => Ok(1),
    }
}

// The size of the operands of a call of the library, whatever line they name.
#[cycle(sizes)]
fn operands_size(scopes: &Scopes, library: Library, args: &[Arg]) -> Result<usize, NoMemory>
    ensures { IfOk result (λ size. size ≡ (operands library 0 (map given_of args.now) scopes.now).size) }
{
    match library {
        Library::Load { .. }
        | Library::MutexInit
        | Library::MutexLock
        | Library::MutexTryLock
        | Library::MutexUnlock
        | Library::MutexDestroy => match args {
            [object, ..] => address_size(scopes, object),
            [] => Ok(0),
        },
        Library::Store { .. } | Library::ReadWrite { .. } => match args {
            [object, value, ..] => {
                let place = address_size(scopes, object)?;
                plus(place, value_size(scopes, value)?)
            }
            _ => Ok(0),
        },
        Library::CompareExchange { .. } => match args {
            [object, expected, value, ..] => {
                let place = address_size(scopes, object)?;
                let local = address_size(scopes, expected)?;
                plus(place, plus(local, value_size(scopes, value)?)?)
            }
            _ => Ok(0),
        },
        Library::Create => match args {
            [handle, _, value, ..] => {
                let place = address_size(scopes, handle)?;
                plus(place, value_size(scopes, value)?)
            }
            _ => Ok(0),
        },
        Library::Join => match args {
            [handle, answer, ..] => {
                let read = handle_size(scopes, handle)?;
                plus(read, address_size(scopes, answer)?)
            }
            _ => Ok(0),
        },
        Library::Assert => match args {
            [value, ..] => value_size(scopes, value),
            [] => Ok(0),
        },
        Library::Print => match args {
            [_, ..] => values_size(scopes, args, 1),
            [] => Ok(0),
        },
        Library::Fence | Library::Yield => Ok(0),
    }
}

// The size of a call.
#[cycle(sizes)]
fn call_size(scopes: &Scopes, word: &Word, args: &[Arg]) -> Result<usize, NoMemory>
    ensures { IfOk result (λ size. size ≡ (spec.call (denoted scopes.now word.now.name) word.now.spot.line (map given_of args.now) scopes.now).size) }
{
    match scopes.denoted(word.name.as_slice()) {
        Some(Entity::Function { .. }) => plus(values_size(scopes, args, 0)?, 1),
        Some(Entity::Library(library)) if fits(library, args) => {
            let operands = operands_size(scopes, library, args)?;
            plus(operands, finals_size(scopes, library, args))
        }
        _ => Ok(1),
    }
}

/// How many instructions the code of an expression has. `NoMemory` where that passes `usize`.
#[cycle(sizes)]
pub fn expr_size(scopes: &Scopes, expr: &Expr) -> Result<usize, NoMemory>
    ensures { IfOk result (λ size. size ≡ (piece_of expr.now scopes.now).size) }
{
    match expr {
        Expr::Assign {
            target,
            op,
            value,
            ..
        } => {
            let entity = entity_of(scopes, target);
            let place = place_in(scopes, target);
            let located = located_size(scopes, target)?;
            let value = expr_size(scopes, value.get())?;
            match op {
                None => plus(located, plus(value, write_size(&entity, place))?),
                Some(_) => plus(located, compound_size(&entity, place, value)?),
            }
        }
        Expr::Cond { test, yes, no } => {
            let ctype = branches_type(type_of(scopes, yes.get()), type_of(scopes, no.get()));
            let test = expr_size(scopes, test.get())?;
            let one = branch_size(scopes, ctype, yes.get())?;
            let another = branch_size(scopes, ctype, no.get())?;
            // Two jumps go with the branches.
            plus(test, plus(plus(one, another)?, 2)?)
        }
        Expr::Chain { first, .. } => {
            let first = expr_size(scopes, first.get())?;
            plus(first, links_size(scopes, expr)?)
        }
        Expr::Prefix { inner, .. } | Expr::Cast { inner, .. } => {
            plus(expr_size(scopes, inner.get())?, 1)
        }
        Expr::Step { target, .. } => {
            let entity = entity_of(scopes, target);
            let place = place_in(scopes, target);
            plus(located_size(scopes, target)?, step_size(&entity, place))
        }
        Expr::Call { word, args } => call_size(scopes, word, args.as_slice()),
        Expr::Literal { .. } => Ok(1),
        Expr::Read(target) => {
            let entity = entity_of(scopes, target);
            let place = place_in(scopes, target);
            plus(located_size(scopes, target)?, read_size(&entity, place))
        }
        Expr::Paren { inner, .. } => expr_size(scopes, inner.get()),
    }
}
