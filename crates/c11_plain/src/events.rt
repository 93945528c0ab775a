ghost use Rattle.std.specs.Prelude.{◌≡◌, ◌↔◌, IsTrue, true, take};
ghost use Rattle.std.specs.Option.{option_copied};
ghost use Rattle.c11_events.specs.Events as spec;
ghost use Rattle.c11_events.specs.Events.{At, event_at, IsStore, IsLoad, IsRmw};
ghost use Rattle.c11_events.specs.HappensBefore.{IsReleaseStore, IsReleaseFence, IsAcquireLoad, IsAcquireFence, IsSeqCst};
ghost use Rattle.c11_events.specs.Lawful.{IsFence};

use c11_events::Event;

/// The event with this number, if there is one. Numbers count from 1.
pub(crate) fn event_at(events: &[Event], number: u32) -> Option<&Event>
    ensures { option_copied result ≡ event_at events.now number }
{
    let place = number.checked_sub(1)?;
    events.get(place as usize)
}

/// The first events, so many of them.
pub(crate) fn prefix(events: &[Event], count: u32) -> &[Event]
    ensures { result.now ≡ take count events.now }
{
    &events[..events.len().min(count as usize)]
}

/// Whether x is a store of the cell.
pub(crate) fn is_store(events: &[Event], cell: u32, x: u32) -> bool
    ensures { IsTrue result ↔ IsStore events.now cell x }
{
    match event_at(events, x) {
        Some(event) => event.kind.stored_cell() == Some(cell),
        None => false,
    }
}

/// Whether l is a load of the cell that reads x.
pub(crate) fn is_load(events: &[Event], cell: u32, l: u32, x: u32) -> bool
    ensures { IsTrue result ↔ IsLoad events.now cell l x }
{
    match event_at(events, l) {
        Some(event) => event.kind.loaded_cell() == Some(cell) && event.from == x,
        None => false,
    }
}

/// Whether b is a read-modify-write of the cell that reads x.
pub(crate) fn is_rmw(events: &[Event], cell: u32, b: u32, x: u32) -> bool
    ensures { IsTrue result ↔ IsRmw events.now cell b x }
{
    match event_at(events, b) {
        Some(event) => {
            event.kind.stored_cell() == Some(cell)
                && event.kind.loaded_cell() == Some(cell)
                && event.from == x
        }
        None => false,
    }
}

/// Whether the event is of the thread.
pub(crate) fn is_of_thread(events: &[Event], thread: u32, a: u32) -> bool
    ensures { IsTrue result ↔ At events.now a (λ e. e.thread ≡ thread) }
{
    match event_at(events, a) {
        Some(event) => event.thread == thread,
        None => false,
    }
}

/// Whether the event is a Create.
pub(crate) fn is_create(events: &[Event], a: u32) -> bool
    ensures { IsTrue result ↔ At events.now a (λ e. spec.is_create e.kind ≡ true) }
{
    match event_at(events, a) {
        Some(event) => event.kind.is_create(),
        None => false,
    }
}

/// Whether the event is a Join of the thread.
pub(crate) fn is_join(events: &[Event], thread: u32, a: u32) -> bool
    ensures { IsTrue result ↔ At events.now a (λ e. spec.joined_thread e.kind ≡ Some thread) }
{
    match event_at(events, a) {
        Some(event) => event.kind.joined_thread() == Some(thread),
        None => false,
    }
}

/// Whether the event is a Lock or a TryLock of the mutex.
pub(crate) fn is_lock(events: &[Event], mutex: u32, a: u32) -> bool
    ensures { IsTrue result ↔ At events.now a (λ e. spec.locked_mutex e.kind ≡ Some mutex) }
{
    match event_at(events, a) {
        Some(event) => event.kind.locked_mutex() == Some(mutex),
        None => false,
    }
}

/// Whether the event is a store that releases.
pub(crate) fn is_release_store(events: &[Event], a: u32) -> bool
    ensures { IsTrue result ↔ IsReleaseStore events.now a }
{
    match event_at(events, a) {
        Some(event) => event.kind.is_release_store(),
        None => false,
    }
}

/// Whether the event is a fence that releases.
pub(crate) fn is_release_fence(events: &[Event], a: u32) -> bool
    ensures { IsTrue result ↔ IsReleaseFence events.now a }
{
    match event_at(events, a) {
        Some(event) => event.kind.is_release_fence(),
        None => false,
    }
}

/// Whether the event is a load that acquires.
pub(crate) fn is_acquire_load(events: &[Event], a: u32) -> bool
    ensures { IsTrue result ↔ IsAcquireLoad events.now a }
{
    match event_at(events, a) {
        Some(event) => event.kind.is_acquire_load(),
        None => false,
    }
}

/// Whether the event is a fence that acquires.
pub(crate) fn is_acquire_fence(events: &[Event], a: u32) -> bool
    ensures { IsTrue result ↔ IsAcquireFence events.now a }
{
    match event_at(events, a) {
        Some(event) => event.kind.is_acquire_fence(),
        None => false,
    }
}

/// Whether the event is a fence.
pub(crate) fn is_fence(events: &[Event], a: u32) -> bool
    ensures { IsTrue result ↔ IsFence events.now a }
{
    match event_at(events, a) {
        Some(event) => event.kind.is_fence(),
        None => false,
    }
}

/// Whether the event is seq_cst.
pub(crate) fn is_seq_cst(events: &[Event], a: u32) -> bool
    ensures { IsTrue result ↔ IsSeqCst events.now a }
{
    match event_at(events, a) {
        Some(event) => event.kind.is_seq_cst(),
        None => false,
    }
}
