ghost use Rattle.std.specs.Prelude.{◌≡◌, IfOk};
ghost use Rattle.c11_events.specs.Offered.{extended, op_reading};

use crate::operations::reply_of;
use crate::tables::count_of;
use c11_events::{Entry, Event, EventKind, Offers, Op};
use c11_num::NoMemory;
use std::alloc::Global;

// The same kind again.
fn copy_kind(kind: &EventKind) -> Result<EventKind, NoMemory>
    ensures { IfOk result (λ copy. copy ≡ kind.now) }
{
    match kind {
        EventKind::Init { cell, value } => Ok(EventKind::Init {
            cell: *cell,
            value: *value,
        }),
        EventKind::AtomicLoad { cell, order } => Ok(EventKind::AtomicLoad {
            cell: *cell,
            order: *order,
        }),
        EventKind::AtomicStore { cell, order, value } => Ok(EventKind::AtomicStore {
            cell: *cell,
            order: *order,
            value: *value,
        }),
        EventKind::Rmw {
            cell,
            order,
            kind,
            operand,
        } => Ok(EventKind::Rmw {
            cell: *cell,
            order: *order,
            kind: *kind,
            operand: *operand,
        }),
        EventKind::Fence { order } => Ok(EventKind::Fence { order: *order }),
        EventKind::PlainRead { cell } => Ok(EventKind::PlainRead { cell: *cell }),
        EventKind::PlainWrite { cell, value } => Ok(EventKind::PlainWrite {
            cell: *cell,
            value: *value,
        }),
        EventKind::MutexInit { mutex } => Ok(EventKind::MutexInit { mutex: *mutex }),
        EventKind::Lock { mutex } => Ok(EventKind::Lock { mutex: *mutex }),
        EventKind::TryLock { mutex } => Ok(EventKind::TryLock { mutex: *mutex }),
        EventKind::Unlock { mutex } => Ok(EventKind::Unlock { mutex: *mutex }),
        EventKind::Create { function, argument } => Ok(EventKind::Create {
            function: *function,
            argument: *argument,
        }),
        EventKind::Begin => Ok(EventKind::Begin),
        EventKind::End { value } => Ok(EventKind::End { value: *value }),
        EventKind::Join { thread } => Ok(EventKind::Join { thread: *thread }),
        EventKind::Out { bytes } => Ok(EventKind::Out {
            bytes: bytes.copy()?,
        }),
        EventKind::Stop { kind } => Ok(EventKind::Stop { kind: *kind }),
    }
}

// The same event again.
fn copy_event(event: &Event) -> Result<Event, NoMemory>
    ensures { IfOk result (λ copy. copy ≡ event.now) }
{
    Ok(Event {
        number: event.number,
        thread: event.thread,
        kind: copy_kind(&event.kind)?,
        from: event.from,
    })
}

// The same events again.
fn copy_events(alloc: Global, events: &[Event]) -> Result<Vec<Event>, NoMemory>
    ensures { IfOk result (λ copies. copies.items ≡ events.now) }
{
    let mut copies = Vec::new(alloc);
    for event in events {
        copies.push(copy_event(event)?)?;
    }
    Ok(copies)
}

/// The events with one more: the thread's operation, as it is when it reads the store of this number. `Err` only where memory
/// runs out.
pub fn extended(
    alloc: Global,
    events: &[Event],
    thread: u32,
    op: &Op,
    from: u32,
) -> Result<Vec<Event>, NoMemory>
    ensures { IfOk result (λ longer. longer.items ≡ extended events.now thread (op_reading events.now op.now) from) }
{
    let entry = Entry {
        number: count_of(events)?,
        thread,
        line: 0,
        op: op.copy()?,
        reply: reply_of(events, op, from),
        from,
        offered: Offers::new(Vec::new(alloc)),
    };
    let mut longer = copy_events(alloc, events)?;
    longer.push(entry.event()?)?;
    Ok(longer)
}
