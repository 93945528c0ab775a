ghost use Rattle.std.specs.Prelude.{◌≡◌, ◌<◌, ◌≤◌, ◌-◌, ◌⊎◌, ◌++◌, ◌∷◌, ℕ, [], IsTrue, IfOk, OnOk, All, Some, length, position, nat_eq, slice_get, vec_len, vec_capacity, true, false, if◌then◌else◌};
ghost use Rattle.c11_shadow.specs.Epochs.{packed, thread_of};
ghost use Rattle.c11_shadow.specs.Kept.{apart_number, IsNewest, IsLatest, IsNoted, IsAfter};

use crate::epoch::{Epoch, epoch_number, epoch_thread, pack};
use c11_clock::Clock;
use c11_num::NoMemory;
use std::alloc::Global;

/// What is kept of a cell: the epoch of its last write, 0 where there is none, and those of the latest reads of each thread that
/// has read it since.
#[derive(Debug, Drop)]
pub struct Kept {
    pub write: Epoch,
    pub reads: Vec<Epoch>,
}

// The number of an access that is of another thread and that the clock does not cover, else 0.
fn apart_number(epoch: Epoch, thread: u32, clock: &Clock) -> u32
    requires { thread_of epoch < length clock.now }
    ensures { result ≡ apart_number epoch thread clock.now }
{
    let other = epoch_thread(epoch);
    let number = epoch_number(epoch);
    if other == thread || clock.covers(other, number) {
        0
    } else {
        number
    }
}

// The largest number among those of these accesses that are apart.
fn newest_apart(reads: &[Epoch], thread: u32, clock: &Clock) -> u32
    requires { (i e : ℕ) → slice_get reads.now i ≡ Some e → thread_of e < length clock.now }
    ensures { IsNewest reads.now thread clock.now result }
{
    let mut newest = 0;
    for epoch in reads {
        newest = apart_number(*epoch, thread, clock).max(newest);
    }
    newest
}

// The place of the thread's read, if it has one.
fn place_of(reads: &[Epoch], thread: u32) -> Option<usize>
    ensures { result ≡ position (λ epoch. nat_eq (thread_of epoch) thread) reads.now }
{
    reads
        .iter()
        .position(|epoch| epoch_thread(*epoch) == thread)
}

// Keeps a thread's latest read.
fn note_read(reads: &mut Vec<Epoch>, epoch: Epoch)
    requires { ((i e : ℕ) → slice_get reads.old.items i ≡ Some e → (thread_of e ≡ thread_of epoch → ⊥)) → vec_len reads.old < vec_capacity reads.old }
    ensures noted { IsNoted reads.old.items reads.new.items epoch }
    ensures room { vec_capacity reads.old ≤ vec_capacity reads.new }
{
    let thread = epoch_thread(epoch);
    match place_of(reads.as_slice(), thread) {
        Some(place) => reads[place] = epoch,
        None => {
            let _ = reads.push(epoch);
        }
    }
}

// The largest number among those of the kept accesses that a further one conflicts with and that are apart from it, 0 where there
// is none.
pub(crate) fn latest_apart(kept: &Kept, thread: u32, clock: &Clock, write: bool) -> u32
    requires write { thread_of kept.now.write < length clock.now }
    requires reads { (i e : ℕ) → slice_get kept.now.reads.items i ≡ Some e → thread_of e < length clock.now }
    ensures { IsLatest kept.now write thread clock.now result }
{
    let last = apart_number(kept.write, thread, clock);
    if write {
        newest_apart(kept.reads.as_slice(), thread, clock).max(last)
    } else {
        last
    }
}

// Keeps an access: a write stands for all before it, and a read for the earlier ones of its thread.
pub(crate) fn note(kept: &mut Kept, epoch: Epoch, write: bool)
    requires { ((i e : ℕ) → slice_get kept.old.reads.items i ≡ Some e → (thread_of e ≡ thread_of epoch → ⊥)) → vec_len kept.old.reads < vec_capacity kept.old.reads }
    ensures after { IsAfter kept.old kept.new epoch write }
    ensures room { vec_capacity kept.old.reads ≤ vec_capacity kept.new.reads }
{
    if write {
        kept.write = epoch;
        kept.reads.clear();
    } else {
        note_read(&mut kept.reads, epoch);
    }
}

// Room for a read of each thread.
pub(crate) fn make_room(kept: &mut Kept, threads: usize) -> Result<(), NoMemory>
    ensures write { kept.new.write ≡ kept.old.write }
    ensures reads { kept.new.reads.items ≡ kept.old.reads.items }
    ensures more { vec_capacity kept.old.reads ≤ vec_capacity kept.new.reads }
    ensures enough { OnOk result (threads ≤ vec_capacity kept.new.reads) }
{
    let missing = threads.saturating_sub(kept.reads.len());
    kept.reads.reserve(missing)?;
    Ok(())
}

// So many cells without an access.
pub(crate) fn no_accesses(alloc: Global, count: u32) -> Result<Vec<Kept>, NoMemory>
    ensures count { IfOk result (λ cells. length cells.items ≡ count) }
    ensures none { IfOk result (λ cells. All (λ kept. (kept.write ≡ 0) × (kept.reads.items ≡ [])) cells.items) }
{
    let mut cells = Vec::with_capacity(alloc, count as usize)?;
    for _ in 0..count {
        cells.push(Kept {
            write: 0,
            reads: Vec::new(alloc),
        })?;
    }
    Ok(cells)
}
