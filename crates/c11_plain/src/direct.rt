ghost use Rattle.std.specs.Prelude.{◌≡◌, ℕ, ◌<◌, ◌↔◌, IsTrue, take};
ghost use Rattle.c11_events.specs.Events.{At};
ghost use Rattle.c11_events.specs.Threads.{created, holder, holder_next};
ghost use Rattle.c11_events.specs.HappensBefore.{ProgramOrder, UnlockBeforeLock, CreateBeforeFirst, EndBeforeJoin, SeqCstBefore};
ghost use Rattle.c11_events.specs.Races.{SameThread};
ghost use Rattle.c11_plain.specs.Parts.{IsFirst};

use crate::events::{event_at, is_create, is_join, is_lock, is_of_thread, is_seq_cst, prefix};
use crate::search::some_below;
use c11_events::Event;

/// Whether both events are of one thread.
pub(crate) fn same_thread(events: &[Event], a: u32, b: u32) -> bool
    ensures { IsTrue result ↔ SameThread events.now a b }
{
    match event_at(events, a) {
        Some(event) => is_of_thread(events, event.thread, b),
        None => false,
    }
}

/// Whether a is the earlier of two events of one thread.
pub(crate) fn program_order(events: &[Event], a: u32, b: u32) -> bool
    ensures { IsTrue result ↔ ProgramOrder events.now a b }
{
    a < b && same_thread(events, a, b)
}

/// Whether a stands before b in the order of the seq_cst events.
pub(crate) fn seq_cst_before(events: &[Event], a: u32, b: u32) -> bool
    ensures { IsTrue result ↔ SeqCstBefore events.now a b }
{
    a < b && is_seq_cst(events, a) && is_seq_cst(events, b)
}

// How many threads the events up to this number create.
fn created(events: &[Event], number: u32) -> u32
    ensures { result ≡ created (take number events.now) }
{
    prefix(events, number)
        .iter()
        .filter(|event| event.kind.is_create())
        .count() as u32
}

// Who holds the mutex behind one event more.
fn holder_next(held: Option<u32>, mutex: u32, event: &Event) -> Option<u32>
    ensures { result ≡ holder_next held mutex event.now }
{
    match held {
        None if event.kind.locked_mutex() == Some(mutex) => Some(event.thread),
        Some(owner) if event.kind.unlocked_mutex() == Some(mutex) && event.thread == owner => {
            None
        }
        _ => held,
    }
}

// Who holds the mutex behind the events.
fn holder(events: &[Event], mutex: u32) -> Option<u32>
    ensures { result ≡ holder events.now mutex }
{
    let mut held = None;
    for event in events {
        held = holder_next(held, mutex, event);
    }
    held
}

/// Whether a is an Unlock and b a later Lock or TryLock of the mutex that found it free.
pub(crate) fn unlock_before_lock(events: &[Event], a: u32, b: u32) -> bool
    ensures { IsTrue result ↔ UnlockBeforeLock events.now a b }
{
    let Some(event) = event_at(events, a) else {
        return false;
    };
    match event.kind.unlocked_mutex() {
        Some(mutex) => {
            a < b && is_lock(events, mutex, b) && holder(prefix(events, b - 1), mutex).is_none()
        }
        None => false,
    }
}

// Whether b is the thread's first event.
fn is_first(events: &[Event], thread: u32, b: u32) -> bool
    ensures { IsTrue result ↔ IsFirst events.now thread b }
{
    is_of_thread(events, thread, b) && has_no_earlier(events, thread, b)
}

// Whether no event before b is of the thread.
fn has_no_earlier(events: &[Event], thread: u32, b: u32) -> bool
    ensures { IsTrue result ↔ ((c : ℕ) → c < b → At events.now c (λ e. e.thread ≡ thread) → ⊥) }
{
    !some_below(b, |c| is_of_thread(events, thread, c))
}

/// Whether a is the Create of a thread and b that thread's first event.
pub(crate) fn create_before_first(events: &[Event], a: u32, b: u32) -> bool
    ensures { IsTrue result ↔ CreateBeforeFirst events.now a b }
{
    if b <= a {
        return false;
    }
    is_create(events, a) && is_first(events, created(events, a), b)
}

/// Whether a is the End of a thread and b a later Join of it.
pub(crate) fn end_before_join(events: &[Event], a: u32, b: u32) -> bool
    ensures { IsTrue result ↔ EndBeforeJoin events.now a b }
{
    match event_at(events, a) {
        Some(event) => a < b && event.kind.is_end() && is_join(events, event.thread, b),
        None => false,
    }
}
