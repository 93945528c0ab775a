//! What an event does to an atomic cell.
ghost use Rattle.std.specs.Prelude.{◌≡◌};
ghost use Rattle.c11_events.specs.Values as values;
ghost use Rattle.c11_mayread.specs.Accesses.{access_of};

use c11_events::EventKind;
use c11_num::{CType, CValue, wrapping};

/// How an event uses an atomic cell, if it does.
#[derive(Clone, Copy, Debug)]
pub(crate) enum Access {
    Nothing,
    Load { cell: u32 },
    Store { cell: u32 },
    LoadAndStore { cell: u32 },
}

pub(crate) fn access_of(kind: &EventKind) -> Access
    ensures { result ≡ access_of kind.now }
{
    match kind {
        EventKind::Init { cell, value: _ } => Access::Store { cell: *cell },
        EventKind::AtomicLoad { cell, order: _ } => Access::Load { cell: *cell },
        EventKind::AtomicStore {
            cell,
            order: _,
            value: _,
        } => Access::Store { cell: *cell },
        EventKind::Rmw {
            cell,
            order: _,
            kind: _,
            operand: _,
        } => Access::LoadAndStore { cell: *cell },
        _ => Access::Nothing,
    }
}

/// What stands for the value of an event that is no store.
pub(crate) fn no_value() -> CValue
    ensures { result ≡ values.no_value }
{
    CValue::new(CType::Int, 0)
}

/// The value that the event writes, by the value of the store that it reads.
pub(crate) fn written(kind: &EventKind, old: CValue) -> CValue
    ensures { result ≡ values.written kind.now old }
{
    match kind {
        EventKind::Init { cell: _, value } => *value,
        EventKind::AtomicStore {
            cell: _,
            order: _,
            value,
        } => *value,
        EventKind::Rmw {
            cell: _,
            order: _,
            kind,
            operand,
        } => wrapping(*kind, old, *operand),
        _ => no_value(),
    }
}
