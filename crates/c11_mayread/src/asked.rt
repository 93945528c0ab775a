//! What an operation asks for when it reads an atomic cell.
ghost use Rattle.std.specs.Prelude.{◌≡◌, ◌↔◌, true, false, IsTrue};
ghost use Rattle.c11_num.specs.Ranges.{TypedNumber};
ghost use Rattle.c11_mayread.specs.Asks.{asked_of, stores_by};

use c11_events::Op;
use c11_num::CValue;

/// When an operation that reads a store also writes.
#[derive(Clone, Copy, Debug)]
pub(crate) enum Writes {
    Never,
    Always,
    /// Where it reads this value.
    Behind(CValue),
}

/// A read of a cell: when it writes too, and whether it is seq_cst where it writes, and where it does not.
#[derive(Clone, Copy, Debug)]
pub(crate) struct Asked {
    pub(crate) cell: u32,
    pub(crate) writes: Writes,
    pub(crate) seq_cst_store: bool,
    pub(crate) seq_cst_load: bool,
}

/// What the operation asks for; nothing where it reads no atomic cell.
pub(crate) fn asked_of(op: &Op) -> Option<Asked>
    ensures { result ≡ asked_of op.now }
{
    match op {
        Op::AtomicLoad { cell, order } => {
            let seq_cst = order.is_seq_cst();
            Some(Asked {
                cell: *cell,
                writes: Writes::Never,
                seq_cst_store: seq_cst,
                seq_cst_load: seq_cst,
            })
        }
        Op::Rmw {
            cell,
            order,
            kind: _,
            operand: _,
        } => {
            let seq_cst = order.is_seq_cst();
            Some(Asked {
                cell: *cell,
                writes: Writes::Always,
                seq_cst_store: seq_cst,
                seq_cst_load: seq_cst,
            })
        }
        Op::CompareExchange {
            cell,
            success,
            failure,
            weak: _,
            expected,
            desired: _,
        } => Some(Asked {
            cell: *cell,
            writes: Writes::Behind(*expected),
            seq_cst_store: success.is_seq_cst(),
            seq_cst_load: failure.is_seq_cst(),
        }),
        _ => None,
    }
}

/// Whether the operation writes where it reads this value.
pub(crate) fn stores_by(writes: &Writes, value: CValue) -> bool
    ensures { result ≡ stores_by writes.now value }
{
    match writes {
        Writes::Never => false,
        Writes::Always => true,
        Writes::Behind(expected) => value.number() == expected.number(),
    }
}

/// Whether there is a value where the operation writes.
pub(crate) fn may_store(writes: &Writes) -> bool
    ensures { IsTrue result ↔ ((value : TypedNumber) × (stores_by writes.now value ≡ true)) }
{
    match writes {
        Writes::Never => false,
        Writes::Always => true,
        Writes::Behind(_) => true,
    }
}

/// Whether there is a value where the operation does not write.
pub(crate) fn may_only_load(writes: &Writes) -> bool
    ensures { IsTrue result ↔ ((value : TypedNumber) × (stores_by writes.now value ≡ false)) }
{
    match writes {
        Writes::Never => true,
        Writes::Always => false,
        Writes::Behind(_) => true,
    }
}
