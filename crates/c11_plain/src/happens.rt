ghost use Rattle.std.specs.Prelude.{IfOk};
ghost use Rattle.c11_events.specs.HappensBefore.{ReadsSequence, SynchronizesWith, HappensBefore};
ghost use Rattle.c11_plain.specs.Pairs.{IsTableOf};
ghost use Rattle.c11_plain.specs.Parts.{ReleaseToAcquire, FenceToAcquire, ReleaseToFence, FenceToFence, ByReading, ByMutexOrThread};

use crate::events::{is_acquire_fence, is_acquire_load, is_release_fence, is_release_store};
use crate::pairs::Pairs;
use crate::tables::{creates, ends, program, reads, steps, unlocks};
use c11_events::Event;
use c11_num::NoMemory;
use std::alloc::Global;

// Each load, behind each store that heads a release sequence that the load reads from.
fn reads_sequence(alloc: Global, events: &[Event]) -> Result<Pairs, NoMemory>
    ensures { IfOk result (λ table. IsTableOf table (ReadsSequence events.now)) }
{
    let read = reads(alloc, events)?;
    let step = steps(alloc, events)?;
    let chain = step.closure(alloc)?;
    let later = chain.then(alloc, &read)?;
    read.or(alloc, &later)
}

// A release store, and an acquire load that reads from its sequence.
fn release_to_acquire(alloc: Global, events: &[Event]) -> Result<Pairs, NoMemory>
    ensures { IfOk result (λ table. IsTableOf table (ReleaseToAcquire events.now)) }
{
    let read = reads_sequence(alloc, events)?;
    read.only(alloc, |a, b| {
        is_release_store(events, a) && is_acquire_load(events, b)
    })
}

// A release fence before a store of its thread, and an acquire load that reads from the store's sequence.
fn fence_to_acquire(alloc: Global, events: &[Event]) -> Result<Pairs, NoMemory>
    ensures { IfOk result (λ table. IsTableOf table (FenceToAcquire events.now)) }
{
    let order = program(alloc, events)?;
    let read = reads_sequence(alloc, events)?;
    let behind = order.then(alloc, &read)?;
    behind.only(alloc, |a, b| {
        is_release_fence(events, a) && is_acquire_load(events, b)
    })
}

// A release store, and an acquire fence behind a load of its thread that reads from the store's sequence.
fn release_to_fence(alloc: Global, events: &[Event]) -> Result<Pairs, NoMemory>
    ensures { IfOk result (λ table. IsTableOf table (ReleaseToFence events.now)) }
{
    let order = program(alloc, events)?;
    let read = reads_sequence(alloc, events)?;
    let ahead = read.then(alloc, &order)?;
    ahead.only(alloc, |a, b| {
        is_release_store(events, a) && is_acquire_fence(events, b)
    })
}

// A release fence before a store, and an acquire fence behind a load that reads from the store's sequence.
fn fence_to_fence(alloc: Global, events: &[Event]) -> Result<Pairs, NoMemory>
    ensures { IfOk result (λ table. IsTableOf table (FenceToFence events.now)) }
{
    let order = program(alloc, events)?;
    let read = reads_sequence(alloc, events)?;
    let behind = order.then(alloc, &read)?;
    let between = behind.then(alloc, &order)?;
    between.only(alloc, |a, b| {
        is_release_fence(events, a) && is_acquire_fence(events, b)
    })
}

// What synchronizes by reading.
fn by_reading(alloc: Global, events: &[Event]) -> Result<Pairs, NoMemory>
    ensures { IfOk result (λ table. IsTableOf table (ByReading events.now)) }
{
    let store_load = release_to_acquire(alloc, events)?;
    let fence_load = fence_to_acquire(alloc, events)?;
    let store_fence = release_to_fence(alloc, events)?;
    let fence_fence = fence_to_fence(alloc, events)?;
    let to_load = store_load.or(alloc, &fence_load)?;
    let to_fence = store_fence.or(alloc, &fence_fence)?;
    to_load.or(alloc, &to_fence)
}

// What synchronizes by a mutex or by a thread.
fn by_mutex_or_thread(alloc: Global, events: &[Event]) -> Result<Pairs, NoMemory>
    ensures { IfOk result (λ table. IsTableOf table (ByMutexOrThread events.now)) }
{
    let unlock = unlocks(alloc, events)?;
    let create = creates(alloc, events)?;
    let end = ends(alloc, events)?;
    let thread = create.or(alloc, &end)?;
    unlock.or(alloc, &thread)
}

/// The pairs of which the first synchronizes with the second. `Err` only where memory runs out.
pub fn synchronizes_with(alloc: Global, events: &[Event]) -> Result<Pairs, NoMemory>
    ensures { IfOk result (λ table. IsTableOf table (SynchronizesWith events.now)) }
{
    let reading = by_reading(alloc, events)?;
    let other = by_mutex_or_thread(alloc, events)?;
    reading.or(alloc, &other)
}

/// The pairs of which the first happens before the second. `Err` only where memory runs out.
pub fn happens_before(alloc: Global, events: &[Event]) -> Result<Pairs, NoMemory>
    ensures { IfOk result (λ table. IsTableOf table (HappensBefore events.now)) }
{
    let order = program(alloc, events)?;
    let synchronized = synchronizes_with(alloc, events)?;
    let direct = order.or(alloc, &synchronized)?;
    direct.closure(alloc)
}
