ghost use Rattle.std.specs.Prelude.{◌≡◌};
ghost use Rattle.c11_events.specs.Values as spec;

use crate::events::event_at;
use c11_events::{Event, EventKind};
use c11_num::{CType, CValue, wrapping};

/// The value of the store x: what it writes, and `int` 0 where x is no store of an atomic cell.
pub fn value_of(events: &[Event], x: u32) -> CValue
    ensures { result ≡ spec.value_of events.now x }
{
    value_within(events, x, u64::from(x) + 1)
}

// The value of the store x, through at most so many stores, x among them.
fn value_within(events: &[Event], x: u32, count: u64) -> CValue
    ensures { result ≡ spec.value_within count events.now x }
{
    if count == 0 {
        return no_value();
    }
    match event_at(events, x) {
        Some(event) => written(&event.kind, value_within(events, event.from, count - 1)),
        None => no_value(),
    }
}

// What the event writes to an atomic cell, by the value that it reads.
fn written(kind: &EventKind, old: CValue) -> CValue
    ensures { result ≡ spec.written kind.now old }
{
    match kind {
        EventKind::Init { cell: _, value } => *value,
        EventKind::AtomicStore {
            cell: _,
            order: _,
            value,
        } => *value,
        EventKind::Rmw {
            cell: _,
            order: _,
            kind,
            operand,
        } => wrapping(*kind, old, *operand),
        _ => no_value(),
    }
}

// What stands for the value of an event that is no store.
fn no_value() -> CValue
    ensures { result ≡ spec.no_value }
{
    CValue::new(CType::Int, 0)
}
