//! The instructions that read, write and change objects.

ghost use Rattle.std.specs.Prelude.{◌≡◌, ◌++◌, [], ◌∷◌, OnOk};
ghost use Rattle.c11_check.specs.Library as library;
ghost use Rattle.c11_meaning.specs.Objects as meaning;
ghost use Rattle.c11_num.specs.declared.value.CType.TheVariants.{Long};
ghost use Rattle.c11_flat.specs.declared.instr.Instr.TheVariants as instr;
ghost use Rattle.c11_flat.specs.declared.instr.Storage.TheVariants.{Local};
ghost use Rattle.c11_flat.specs.Pieces as spec;
ghost use Rattle.c11_flat.specs.Pieces.{plain};
ghost use Rattle.c11_pieces.specs.Growth.{Grows};

use crate::arguments::Held;
use crate::growing::put;
use c11_ast::CastTo;
use c11_check::{Entity, LibraryConstant};
use c11_events::Order;
use c11_flat::{Instr, Place, Storage};
use c11_num::{BinaryOp, CType, CValue, NoMemory, RmwKind};

/// What stands for the value of what has none.
pub(crate) fn nothing() -> CValue
    ensures { result ≡ meaning.nothing }
{
    CValue::new(CType::Int, 0)
}

fn constant_value(constant: LibraryConstant) -> CValue
    ensures { result ≡ library.constant_value constant }
{
    match constant {
        LibraryConstant::Success | LibraryConstant::PlainMutex => CValue::new(CType::Int, 0),
        LibraryConstant::Busy => CValue::new(CType::Int, 1),
        LibraryConstant::Error => CValue::new(CType::Int, 2),
        LibraryConstant::Null => CValue::new(CType::Long, 0),
    }
}

/// Takes the place of an object off the stack, where it lies there.
#[tactic(auto, using(crate::proofs::Joins::grows_none))]
pub(crate) fn put_dropped(code: &mut Vec<Instr>, place: Place) -> Result<(), NoMemory>
    ensures { OnOk result (Grows code.old.items code.new.items (plain (spec.dropped place))) }
{
    match place {
        Place::At(_) => Ok(()),
        Place::OnStack => put(code, Instr::Drop),
    }
}

/// Puts a value in the place of what has no such value.
#[tactic(auto, using(crate::proofs::Joins::grows_plain))]
pub(crate) fn put_instead(
    code: &mut Vec<Instr>,
    place: Place,
    value: CValue,
) -> Result<(), NoMemory>
    ensures { OnOk result (Grows code.old.items code.new.items (plain (spec.dropped place ++ instr.Push value ∷ []))) }
{
    put_dropped(code, place)?;
    put(code, Instr::Push(value))?;
    Ok(())
}

/// Reads an object, or what else a name denotes.
pub(crate) fn put_read(code: &mut Vec<Instr>, object: &Held) -> Result<(), NoMemory>
    ensures { OnOk result (Grows code.old.items code.new.items (plain (spec.read_code object.now.entity object.now.line object.now.place))) }
{
    let Held { line, place, .. } = *object;
    match &object.entity {
        Some(Entity::Local { ctype, .. }) => put(
            code,
            Instr::Read {
                line,
                storage: Storage::Local,
                ctype: *ctype,
                place,
            },
        ),
        Some(Entity::Plain { ctype, .. }) => put(
            code,
            Instr::Read {
                line,
                storage: Storage::Plain,
                ctype: *ctype,
                place,
            },
        ),
        Some(Entity::Atomic { .. }) => put(
            code,
            Instr::Load {
                line,
                order: Order::SeqCst,
                cell: place,
            },
        ),
        Some(Entity::Defined(value)) => put_instead(code, place, *value),
        Some(Entity::Constant(constant)) => put_instead(code, place, constant_value(*constant)),
        _ => put_instead(code, place, nothing()),
    }
}

/// Writes a value to an object.
#[tactic(auto, using(crate::proofs::Joins::grows_cons))]
pub(crate) fn put_write(code: &mut Vec<Instr>, object: &Held) -> Result<(), NoMemory>
    ensures { OnOk result (Grows code.old.items code.new.items (plain (spec.write_code object.now.entity object.now.line object.now.place))) }
{
    let Held { line, place, .. } = *object;
    match &object.entity {
        Some(Entity::Local { ctype, .. }) => put(
            code,
            Instr::Write {
                line,
                storage: Storage::Local,
                ctype: *ctype,
                place,
            },
        ),
        Some(Entity::Plain { ctype, .. }) => put(
            code,
            Instr::Write {
                line,
                storage: Storage::Plain,
                ctype: *ctype,
                place,
            },
        ),
        Some(Entity::Atomic { ctype, .. }) => put(
            code,
            Instr::Store {
                line,
                order: Order::SeqCst,
                ctype: *ctype,
                cell: place,
            },
        ),
        _ => {
            put(code, Instr::Drop)?;
            put_instead(code, place, nothing())?;
            Ok(())
        }
    }
}

// What a compound assignment of an atomic object does; other operators are refused there.
fn kind_of_op(op: BinaryOp) -> RmwKind
    ensures { result ≡ meaning.kind_of_op op }
{
    match op {
        BinaryOp::Add => RmwKind::Add,
        BinaryOp::Sub => RmwKind::Sub,
        BinaryOp::And => RmwKind::And,
        BinaryOp::Xor => RmwKind::Xor,
        BinaryOp::Or => RmwKind::Or,
        _ => RmwKind::Exchange,
    }
}

/// One read-modify-write of an atomic object, in seq_cst order.
pub(crate) fn update(line: u32, ctype: CType, op: BinaryOp, old: bool, place: Place) -> Instr
    ensures { result ≡ spec.update line ctype op old place }
{
    Instr::Modify {
        line,
        order: Order::SeqCst,
        kind: kind_of_op(op),
        ctype,
        cell: place,
        old,
    }
}

/// Reads an object that is written again.
pub(crate) fn put_fetch(
    code: &mut Vec<Instr>,
    storage: Storage,
    ctype: CType,
    line: u32,
    place: Place,
) -> Result<(), NoMemory>
    ensures { OnOk result (Grows code.old.items code.new.items (plain (instr.Fetch line storage ctype place ∷ []))) }
{
    put(
        code,
        Instr::Fetch {
            line,
            storage,
            ctype,
            place,
        },
    )
}

/// Computes an operator, and writes what it gives to an object.
#[tactic(auto, using(crate::proofs::Joins::grows_cons))]
pub(crate) fn put_computed(
    code: &mut Vec<Instr>,
    storage: Storage,
    ctype: CType,
    line: u32,
    op_line: u32,
    op: BinaryOp,
    place: Place,
) -> Result<(), NoMemory>
    ensures { OnOk result (Grows code.old.items code.new.items (plain (instr.Compute op_line op ∷ instr.Write line storage ctype place ∷ []))) }
{
    put(code, Instr::Compute { line: op_line, op })?;
    put(
        code,
        Instr::Write {
            line,
            storage,
            ctype,
            place,
        },
    )?;
    Ok(())
}

// Steps an object that is not atomic.
#[tactic(auto, using(crate::proofs::Joins::grows_cons))]
fn put_stepped(
    code: &mut Vec<Instr>,
    storage: Storage,
    ctype: CType,
    line: u32,
    op_line: u32,
    up: bool,
    before: bool,
    place: Place,
) -> Result<(), NoMemory>
    ensures { OnOk result (Grows code.old.items code.new.items (plain (instr.Fetch line storage ctype place ∷ instr.Step op_line up ∷ instr.Stepped line storage ctype place before ∷ []))) }
{
    put_fetch(code, storage, ctype, line, place)?;
    put(code, Instr::Step { line: op_line, up })?;
    put(
        code,
        Instr::Stepped {
            line,
            storage,
            ctype,
            place,
            before,
        },
    )?;
    Ok(())
}

fn step_op(up: bool) -> BinaryOp
    ensures { result ≡ meaning.step_op up }
{
    if up { BinaryOp::Add } else { BinaryOp::Sub }
}

fn not_before(before: bool) -> bool
    ensures { result ≡ meaning.not_before before }
{
    !before
}

// Steps an atomic object.
#[tactic(auto, using(crate::proofs::Joins::grows_cons))]
fn put_updated(
    code: &mut Vec<Instr>,
    line: u32,
    ctype: CType,
    up: bool,
    before: bool,
    place: Place,
) -> Result<(), NoMemory>
    ensures { OnOk result (Grows code.old.items code.new.items (plain (instr.Push meaning.one ∷ spec.update line ctype (meaning.step_op up) (meaning.not_before before) place ∷ []))) }
{
    put(code, Instr::Push(CValue::new(CType::Int, 1)))?;
    put(
        code,
        update(line, ctype, step_op(up), not_before(before), place),
    )?;
    Ok(())
}

/// `++` and `--` of an object.
pub(crate) fn put_step(
    code: &mut Vec<Instr>,
    object: &Held,
    op_line: u32,
    up: bool,
    before: bool,
) -> Result<(), NoMemory>
    ensures { OnOk result (Grows code.old.items code.new.items (plain (spec.step object.now.entity object.now.line op_line up before object.now.place))) }
{
    let Held { line, place, .. } = *object;
    match &object.entity {
        Some(Entity::Local { ctype, .. }) => {
            let storage = Storage::Local;
            put_stepped(code, storage, *ctype, line, op_line, up, before, place)
        }
        Some(Entity::Plain { ctype, .. }) => {
            let storage = Storage::Plain;
            put_stepped(code, storage, *ctype, line, op_line, up, before, place)
        }
        Some(Entity::Atomic { ctype, .. }) => put_updated(code, line, *ctype, up, before, place),
        _ => put_instead(code, place, nothing()),
    }
}

/// Reads a handle, which has the number of a thread.
pub(crate) fn put_handle(code: &mut Vec<Instr>, line: u32, place: Place) -> Result<(), NoMemory>
    ensures { OnOk result (Grows code.old.items code.new.items (plain (instr.Read line Local Long place ∷ []))) }
{
    put(
        code,
        Instr::Read {
            line,
            storage: Storage::Local,
            ctype: CType::Long,
            place,
        },
    )
}

/// Casts the value of a branch to the type of the whole, where that has one.
#[tactic(auto, using(crate::proofs::Joins::grows_none))]
pub(crate) fn put_typed(code: &mut Vec<Instr>, ctype: Option<CType>) -> Result<(), NoMemory>
    ensures { OnOk result (Grows code.old.items code.new.items (plain (spec.typed_as ctype))) }
{
    match ctype {
        Some(ctype) => put(code, Instr::Cast(CastTo::Number(ctype))),
        None => Ok(()),
    }
}
