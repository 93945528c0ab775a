//! Copies of events.
ghost use Rattle.std.specs.Prelude.{◌≡◌};
ghost use Rattle.c11_happens.specs.Trace.{textless, textless_kind};

use c11_events::{Event, EventKind};
use c11_num::Bytes;
use std::alloc::Global;

/// The event without the text of an Out, so that it takes no memory.
pub(crate) fn textless(alloc: Global, event: &Event) -> Event
    ensures { result ≡ textless event.now }
{
    Event {
        number: event.number,
        thread: event.thread,
        kind: textless_kind(alloc, &event.kind),
        from: event.from,
    }
}

fn textless_kind(alloc: Global, kind: &EventKind) -> EventKind
    ensures { result ≡ textless_kind kind.now }
{
    match kind {
        EventKind::Init { cell, value } => EventKind::Init {
            cell: *cell,
            value: *value,
        },
        EventKind::AtomicLoad { cell, order } => EventKind::AtomicLoad {
            cell: *cell,
            order: *order,
        },
        EventKind::AtomicStore { cell, order, value } => EventKind::AtomicStore {
            cell: *cell,
            order: *order,
            value: *value,
        },
        EventKind::Rmw {
            cell,
            order,
            kind,
            operand,
        } => EventKind::Rmw {
            cell: *cell,
            order: *order,
            kind: *kind,
            operand: *operand,
        },
        EventKind::Fence { order } => EventKind::Fence { order: *order },
        EventKind::PlainRead { cell } => EventKind::PlainRead { cell: *cell },
        EventKind::PlainWrite { cell, value } => EventKind::PlainWrite {
            cell: *cell,
            value: *value,
        },
        EventKind::MutexInit { mutex } => EventKind::MutexInit { mutex: *mutex },
        EventKind::Lock { mutex } => EventKind::Lock { mutex: *mutex },
        EventKind::TryLock { mutex } => EventKind::TryLock { mutex: *mutex },
        EventKind::Unlock { mutex } => EventKind::Unlock { mutex: *mutex },
        EventKind::Create { function, argument } => EventKind::Create {
            function: *function,
            argument: *argument,
        },
        EventKind::Begin => EventKind::Begin,
        EventKind::End { value } => EventKind::End { value: *value },
        EventKind::Join { thread } => EventKind::Join { thread: *thread },
        EventKind::Out { bytes: _ } => EventKind::Out {
            bytes: Bytes::new(Vec::new(alloc)),
        },
        EventKind::Stop { kind } => EventKind::Stop { kind: *kind },
    }
}
