ghost use Rattle.std.specs.Prelude.{◌≡◌, ◌+◌, ◌↔◌, IsTrue, IfOk, length};
ghost use Rattle.c11_events.specs.HappensBefore.{ProgramOrder, UnlockBeforeLock, CreateBeforeFirst, EndBeforeJoin};
ghost use Rattle.c11_plain.specs.Pairs.{IsTableOf};
ghost use Rattle.c11_plain.specs.Parts.{ReadsFrom, Follows};

use crate::direct::{create_before_first, end_before_join, program_order, unlock_before_lock};
use crate::events::{event_at, is_rmw, is_store};
use crate::pairs::Pairs;
use c11_events::Event;
use c11_num::NoMemory;
use std::alloc::Global;

/// One more than the number of the last event. A list whose numbers do not fit is refused as too large.
pub(crate) fn count_of(events: &[Event]) -> Result<u32, NoMemory>
    ensures { IfOk result (λ count. count ≡ length events.now + 1) }
{
    match u32::try_from(events.len() + 1) {
        Ok(count) => Ok(count),
        Err(_) => Err(NoMemory),
    }
}

// Whether l is a load that reads the store x of its cell.
fn reads_from(events: &[Event], x: u32, l: u32) -> bool
    ensures { IsTrue result ↔ ReadsFrom events.now x l }
{
    let Some(event) = event_at(events, l) else {
        return false;
    };
    match event.kind.loaded_cell() {
        Some(cell) => event.from == x && is_store(events, cell, x),
        None => false,
    }
}

// Whether x is a read-modify-write that reads the store y of its cell.
fn follows(events: &[Event], y: u32, x: u32) -> bool
    ensures { IsTrue result ↔ Follows events.now y x }
{
    let Some(event) = event_at(events, x) else {
        return false;
    };
    match event.kind.loaded_cell() {
        Some(cell) => is_rmw(events, cell, x, y) && is_store(events, cell, y),
        None => false,
    }
}

/// Each load, behind the store that it reads.
pub(crate) fn reads(alloc: Global, events: &[Event]) -> Result<Pairs, NoMemory>
    ensures { IfOk result (λ table. IsTableOf table (ReadsFrom events.now)) }
{
    Pairs::new(alloc, count_of(events)?, |x, l| reads_from(events, x, l))
}

/// Each read-modify-write, behind the store that it reads.
pub(crate) fn steps(alloc: Global, events: &[Event]) -> Result<Pairs, NoMemory>
    ensures { IfOk result (λ table. IsTableOf table (Follows events.now)) }
{
    Pairs::new(alloc, count_of(events)?, |y, x| follows(events, y, x))
}

/// The events of each thread, in order.
pub(crate) fn program(alloc: Global, events: &[Event]) -> Result<Pairs, NoMemory>
    ensures { IfOk result (λ table. IsTableOf table (ProgramOrder events.now)) }
{
    Pairs::new(alloc, count_of(events)?, |a, b| program_order(events, a, b))
}

/// Each Lock or TryLock that found its mutex free, behind each earlier Unlock of it.
pub(crate) fn unlocks(alloc: Global, events: &[Event]) -> Result<Pairs, NoMemory>
    ensures { IfOk result (λ table. IsTableOf table (UnlockBeforeLock events.now)) }
{
    Pairs::new(
        alloc,
        count_of(events)?,
        |a, b| unlock_before_lock(events, a, b),
    )
}

/// Each thread's first event, behind its Create.
pub(crate) fn creates(alloc: Global, events: &[Event]) -> Result<Pairs, NoMemory>
    ensures { IfOk result (λ table. IsTableOf table (CreateBeforeFirst events.now)) }
{
    Pairs::new(
        alloc,
        count_of(events)?,
        |a, b| create_before_first(events, a, b),
    )
}

/// Each Join, behind each earlier End of its thread.
pub(crate) fn ends(alloc: Global, events: &[Event]) -> Result<Pairs, NoMemory>
    ensures { IfOk result (λ table. IsTableOf table (EndBeforeJoin events.now)) }
{
    Pairs::new(
        alloc,
        count_of(events)?,
        |a, b| end_before_join(events, a, b),
    )
}
