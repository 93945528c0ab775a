//! The instructions of expressions.

ghost use Rattle.std.specs.Prelude.{◌≡◌, ◌+◌, ◌++◌, drop, length, map, IfOk, OnOk};
ghost use Rattle.c11_check.specs.Scopes.{denoted};
ghost use Rattle.c11_check.specs.Types as types;
ghost use Rattle.c11_meaning.specs.Parts.{given_object};
ghost use Rattle.c11_flat.specs.Pieces as spec;
ghost use Rattle.c11_flat.specs.Pieces.{part_of, piece_of};
ghost use Rattle.c11_pieces.specs.Calls.{operands};
ghost use Rattle.c11_pieces.specs.Growth.{Grows};
ghost use Rattle.c11_pieces.specs.Places.{assigned};
ghost use Rattle.c11_pieces.specs.Trees.{given_of, linked_of, object_of, links_of};

use crate::access::{
    nothing, put_computed, put_fetch, put_handle, put_instead, put_read, put_step, put_typed,
    put_write, update,
};
use crate::arguments::{Held, entity_of, line_of, object_at, place_in};
use crate::growing::{plus, put};
use crate::library::{fits, put_library};
use crate::objects::{element_instr, entity_base, entity_size};
use crate::sizes::{branch_size, expr_size};
use crate::types::{branches_type, type_of};
use c11_ast::{Arg, Expr, Infix, Link, Target, Word};
use c11_check::scopes::Scopes;
use c11_check::{Entity, Library};
use c11_flat::{Instr, Place, Storage};
use c11_num::{BinaryOp, CType, CValue, NoMemory};

// The type of a `?:`, and the places that its jumps go to.
struct Branches {
    ctype: Option<CType>,
    other: usize,
    end: usize,
}

// The branches of a `?:`, where the test ends at the place.
fn branches_from(scopes: &Scopes, place: usize, yes: &Expr, no: &Expr) -> Result<Branches, NoMemory>
    ensures ctype { IfOk result (λ b. b.ctype ≡ types.branches_type ((part_of yes.now).typed scopes.now) ((part_of no.now).typed scopes.now)) }
    ensures other { IfOk result (λ b. b.other ≡ place + (spec.branch b.ctype (part_of yes.now) scopes.now).size + 2) }
    ensures end { IfOk result (λ b. b.end ≡ b.other + (spec.branch b.ctype (part_of no.now) scopes.now).size) }
{
    let ctype = branches_type(type_of(scopes, yes), type_of(scopes, no));
    // Two jumps stand before the other branch.
    let other = plus(plus(place, branch_size(scopes, ctype, yes)?)?, 2)?;
    let end = plus(other, branch_size(scopes, ctype, no)?)?;
    Ok(Branches { ctype, other, end })
}

// Puts the place of an element on the stack.
#[cycle(emission)]
#[tactic(auto, using(crate::proofs::Joins::grows_joined, crate::proofs::Joins::grows_none))]
fn emit_located(code: &mut Vec<Instr>, scopes: &Scopes, target: &Target) -> Result<(), NoMemory>
    ensures { OnOk result (Grows code.old.items code.new.items (spec.located (object_of target.now) scopes.now)) }
{
    match &target.index {
        Some(index) => {
            let entity = entity_of(scopes, target);
            let base = entity_base(&entity);
            let instr = element_instr(entity_size(&entity), line_of(target), base)?;
            emit(code, scopes, index.get())?;
            put(code, instr)?;
            Ok(())
        }
        None => Ok(()),
    }
}

// A compound assignment behind the place of its object.
#[cycle(emission)]
#[tactic(auto, using(crate::proofs::Joins::grows_joined))]
fn emit_compound(
    code: &mut Vec<Instr>,
    scopes: &Scopes,
    object: &Held,
    op_line: u32,
    op: BinaryOp,
    value: &Expr,
) -> Result<(), NoMemory>
    ensures { OnOk result (Grows code.old.items code.new.items (spec.compound object.now.entity object.now.line op_line op object.now.place (piece_of value.now scopes.now))) }
{
    let Held { line, place, .. } = *object;
    match &object.entity {
        Some(Entity::Local { ctype, .. }) => {
            put_fetch(code, Storage::Local, *ctype, line, place)?;
            emit(code, scopes, value)?;
            put_computed(code, Storage::Local, *ctype, line, op_line, op, place)?;
            Ok(())
        }
        Some(Entity::Plain { ctype, .. }) => {
            put_fetch(code, Storage::Plain, *ctype, line, place)?;
            emit(code, scopes, value)?;
            put_computed(code, Storage::Plain, *ctype, line, op_line, op, place)?;
            Ok(())
        }
        Some(Entity::Atomic { ctype, .. }) => {
            emit(code, scopes, value)?;
            put(code, update(line, *ctype, op, false, place))?;
            Ok(())
        }
        _ => {
            put_instead(code, place, nothing())?;
            Ok(())
        }
    }
}

// An assignment behind the place of its object.
#[cycle(emission)]
#[tactic(auto, using(crate::proofs::Joins::grows_joined))]
fn emit_assigned(
    code: &mut Vec<Instr>,
    scopes: &Scopes,
    object: &Held,
    op: Option<BinaryOp>,
    op_line: u32,
    value: &Expr,
) -> Result<(), NoMemory>
    ensures { OnOk result (Grows code.old.items code.new.items (assigned op object.now.entity object.now.line op_line object.now.place (piece_of value.now scopes.now))) }
{
    match op {
        None => {
            emit(code, scopes, value)?;
            put_write(code, object)?;
            Ok(())
        }
        Some(op) => {
            emit_compound(code, scopes, object, op_line, op, value)?;
            Ok(())
        }
    }
}

// `++` or `--`.
#[cycle(emission)]
#[tactic(auto, using(crate::proofs::Joins::grows_joined))]
fn emit_step(
    code: &mut Vec<Instr>,
    scopes: &Scopes,
    target: &Target,
    op_line: u32,
    up: bool,
    before: bool,
) -> Result<(), NoMemory>
    ensures { OnOk result (Grows code.old.items code.new.items (spec.stepping (object_of target.now) op_line up before scopes.now)) }
{
    emit_located(code, scopes, target)?;
    put_step(code, &object_at(scopes, target), op_line, up, before)?;
    Ok(())
}

// A variable or an element that is read.
#[cycle(emission)]
#[tactic(auto, using(crate::proofs::Joins::grows_joined))]
fn emit_read(code: &mut Vec<Instr>, scopes: &Scopes, target: &Target) -> Result<(), NoMemory>
    ensures { OnOk result (Grows code.old.items code.new.items (spec.reading (object_of target.now) scopes.now)) }
{
    emit_located(code, scopes, target)?;
    put_read(code, &object_at(scopes, target))?;
    Ok(())
}

// A branch of `?:`, which is cast to the type.
#[cycle(emission)]
#[tactic(auto, using(crate::proofs::Joins::grows_joined, crate::proofs::Joins::grows_none))]
fn emit_branch(
    code: &mut Vec<Instr>,
    scopes: &Scopes,
    ctype: Option<CType>,
    branch: &Expr,
) -> Result<(), NoMemory>
    ensures { OnOk result (Grows code.old.items code.new.items (spec.branch ctype (part_of branch.now) scopes.now)) }
{
    emit(code, scopes, branch)?;
    put_typed(code, ctype)?;
    Ok(())
}

// The right operand of `&&` or `||`, as 0 or 1.
#[cycle(emission)]
#[tactic(auto, using(crate::proofs::Joins::grows_joined))]
fn emit_truth(code: &mut Vec<Instr>, scopes: &Scopes, right: &Expr) -> Result<(), NoMemory>
    ensures { OnOk result (Grows code.old.items code.new.items (spec.right_truth (part_of right.now) scopes.now)) }
{
    emit(code, scopes, right)?;
    put(code, Instr::Truth)?;
    Ok(())
}

// An operator behind its left operand.
#[cycle(emission)]
fn emit_link(code: &mut Vec<Instr>, scopes: &Scopes, link: &Link) -> Result<(), NoMemory>
    ensures { let linked = linked_of link.now in OnOk result (Grows code.old.items code.new.items (spec.infixed linked.op linked.line linked.right scopes.now)) }
{
    match link.op {
        Infix::Number(op) => {
            emit(code, scopes, &link.right)?;
            let line = link.spot.line;
            put(code, Instr::Compute { line, op })?;
            Ok(())
        }
        Infix::Both => {
            // Before the constant stand two jumps, and the operand with its truth.
            let other = plus(code.len(), plus(expr_size(scopes, &link.right)?, 3)?)?;
            let end = plus(other, 1)?;
            put(code, Instr::JumpIfZero(other))?;
            emit_truth(code, scopes, &link.right)?;
            put(code, Instr::Jump(end))?;
            put(code, Instr::Push(CValue::new(CType::Int, 0)))?;
            Ok(())
        }
        Infix::Either => {
            // Before the operand stand two jumps and the constant; its truth is behind it.
            let other = plus(code.len(), 3)?;
            let end = plus(other, plus(expr_size(scopes, &link.right)?, 1)?)?;
            put(code, Instr::JumpIfZero(other))?;
            put(code, Instr::Push(CValue::new(CType::Int, 1)))?;
            put(code, Instr::Jump(end))?;
            emit_truth(code, scopes, &link.right)?;
            Ok(())
        }
    }
}

// What is behind the first operand of a chain.
#[cycle(emission)]
fn emit_links(code: &mut Vec<Instr>, scopes: &Scopes, chain: &Expr) -> Result<(), NoMemory>
    ensures { OnOk result (Grows code.old.items code.new.items (spec.chained (map linked_of (links_of chain.now)) scopes.now)) }
{
    if let Expr::Chain { rest, .. } = chain {
        for link in rest.as_slice() {
            emit_link(code, scopes, link)?;
        }
    }
    Ok(())
}

// The value of an argument.
#[cycle(emission)]
fn emit_value(code: &mut Vec<Instr>, scopes: &Scopes, arg: &Arg) -> Result<(), NoMemory>
    ensures { OnOk result (Grows code.old.items code.new.items (spec.value_given (given_of arg.now) scopes.now)) }
{
    match arg {
        Arg::Value(expr) => emit(code, scopes, expr),
        _ => put(code, Instr::Push(nothing())),
    }
}

// The values of the arguments from one on.
#[cycle(emission)]
fn emit_values(
    code: &mut Vec<Instr>,
    scopes: &Scopes,
    args: &[Arg],
    from: usize,
) -> Result<(), NoMemory>
    ensures { OnOk result (Grows code.old.items code.new.items (spec.values_given (map given_of (drop from args.now)) scopes.now)) }
{
    for place in from..args.len() {
        emit_value(code, scopes, &args[place])?;
    }
    Ok(())
}

// Puts the place behind an `&` on the stack.
#[cycle(emission)]
#[tactic(auto, using(crate::proofs::Joins::grows_none))]
fn emit_address(code: &mut Vec<Instr>, scopes: &Scopes, arg: &Arg) -> Result<(), NoMemory>
    ensures { OnOk result (Grows code.old.items code.new.items (spec.answer_located (given_of arg.now) scopes.now)) }
{
    match arg {
        Arg::Address { target, .. } => emit_located(code, scopes, target),
        _ => Ok(()),
    }
}

// Reads the handle of a join.
#[cycle(emission)]
#[tactic(auto, using(crate::proofs::Joins::grows_joined, crate::proofs::Joins::grows_none))]
fn emit_handle(code: &mut Vec<Instr>, scopes: &Scopes, line: u32, arg: &Arg) -> Result<(), NoMemory>
    ensures { OnOk result (Grows code.old.items code.new.items (spec.handle_read line (given_object (given_of arg.now)) scopes.now)) }
{
    match arg {
        Arg::Value(Expr::Read(target)) => {
            emit_located(code, scopes, target)?;
            put_handle(code, line, place_in(scopes, target))?;
            Ok(())
        }
        _ => {
            put_handle(code, line, Place::At(0))?;
            Ok(())
        }
    }
}

// The operands of a call of the library.
#[cycle(emission)]
#[tactic(auto, using(crate::proofs::Joins::grows_joined, crate::proofs::Joins::grows_none))]
fn emit_operands(
    code: &mut Vec<Instr>,
    scopes: &Scopes,
    library: Library,
    line: u32,
    args: &[Arg],
) -> Result<(), NoMemory>
    ensures { OnOk result (Grows code.old.items code.new.items (operands library line (map given_of args.now) scopes.now)) }
{
    match library {
        Library::Load { .. }
        | Library::MutexInit
        | Library::MutexLock
        | Library::MutexTryLock
        | Library::MutexUnlock
        | Library::MutexDestroy => match args {
            [object, ..] => emit_address(code, scopes, object),
            [] => Ok(()),
        },
        Library::Store { .. } | Library::ReadWrite { .. } => match args {
            [object, value, ..] => {
                emit_address(code, scopes, object)?;
                emit_value(code, scopes, value)?;
                Ok(())
            }
            _ => Ok(()),
        },
        Library::CompareExchange { .. } => match args {
            [object, expected, value, ..] => {
                emit_address(code, scopes, object)?;
                emit_address(code, scopes, expected)?;
                emit_value(code, scopes, value)?;
                Ok(())
            }
            _ => Ok(()),
        },
        Library::Create => match args {
            [handle, _, value, ..] => {
                emit_address(code, scopes, handle)?;
                emit_value(code, scopes, value)?;
                Ok(())
            }
            _ => Ok(()),
        },
        Library::Join => match args {
            [handle, answer, ..] => {
                emit_handle(code, scopes, line, handle)?;
                emit_address(code, scopes, answer)?;
                Ok(())
            }
            _ => Ok(()),
        },
        Library::Assert => match args {
            [value, ..] => emit_value(code, scopes, value),
            [] => Ok(()),
        },
        Library::Print => match args {
            [_, ..] => emit_values(code, scopes, args, 1),
            [] => Ok(()),
        },
        Library::Fence | Library::Yield => Ok(()),
    }
}

// A call.
#[cycle(emission)]
fn emit_call(
    code: &mut Vec<Instr>,
    scopes: &Scopes,
    word: &Word,
    args: &[Arg],
) -> Result<(), NoMemory>
    ensures { OnOk result (Grows code.old.items code.new.items (spec.call (denoted scopes.now word.now.name) word.now.spot.line (map given_of args.now) scopes.now)) }
{
    let line = word.spot.line;
    match scopes.denoted(word.name.as_slice()) {
        Some(Entity::Function { function, .. }) => {
            emit_values(code, scopes, args, 0)?;
            let count = args.len();
            put(
                code,
                Instr::Call {
                    line,
                    function,
                    count,
                },
            )?;
            Ok(())
        }
        Some(Entity::Library(library)) if fits(library, args) => {
            emit_operands(code, scopes, library, line, args)?;
            put_library(code, scopes, library, line, args)?;
            Ok(())
        }
        _ => put(code, Instr::Push(nothing())),
    }
}

// The code of an expression.
#[cycle(emission)]
#[tactic(auto, using(crate::proofs::Joins::grows_joined))]
fn emit(code: &mut Vec<Instr>, scopes: &Scopes, expr: &Expr) -> Result<(), NoMemory>
    ensures { OnOk result (Grows code.old.items code.new.items (piece_of expr.now scopes.now)) }
{
    match expr {
        Expr::Assign {
            target,
            op,
            op_spot,
            value,
        } => {
            emit_located(code, scopes, target)?;
            let object = object_at(scopes, target);
            emit_assigned(code, scopes, &object, *op, op_spot.line, value.get())?;
            Ok(())
        }
        Expr::Cond { test, yes, no } => {
            emit(code, scopes, test.get())?;
            let (one, another) = (yes.get(), no.get());
            let Branches { ctype, other, end } = branches_from(scopes, code.len(), one, another)?;
            put(code, Instr::JumpIfZero(other))?;
            emit_branch(code, scopes, ctype, one)?;
            put(code, Instr::Jump(end))?;
            emit_branch(code, scopes, ctype, another)?;
            Ok(())
        }
        Expr::Chain { first, .. } => {
            emit(code, scopes, first.get())?;
            emit_links(code, scopes, expr)?;
            Ok(())
        }
        Expr::Prefix { spot, op, inner } => {
            emit(code, scopes, inner.get())?;
            let line = spot.line;
            put(code, Instr::Prefix { line, op: *op })?;
            Ok(())
        }
        Expr::Step {
            op_spot,
            target,
            up,
            before,
            ..
        } => emit_step(code, scopes, target, op_spot.line, *up, *before),
        Expr::Cast { to, inner, .. } => {
            emit(code, scopes, inner.get())?;
            put(code, Instr::Cast(*to))?;
            Ok(())
        }
        Expr::Call { word, args } => emit_call(code, scopes, word, args.as_slice()),
        Expr::Literal { value, .. } => put(code, Instr::Push(*value)),
        Expr::Read(target) => emit_read(code, scopes, target),
        Expr::Paren { inner, .. } => emit(code, scopes, inner.get()),
    }
}

/// Writes the code of an expression, which leaves its value on the stack, behind what is there. `NoMemory` where memory runs out;
/// the code is then unfinished.
pub fn emit_expr(code: &mut Vec<Instr>, scopes: &Scopes, expr: &Expr) -> Result<(), NoMemory>
    ensures { OnOk result (code.new.items ≡ code.old.items ++ (piece_of expr.now scopes.now).code (length code.old.items)) }
{
    emit(code, scopes, expr)
}
