//! The clocks that are kept.
ghost use Rattle.std.specs.Prelude.{◌≡◌, ◌+◌, ◌<◌, ◌≤◌, ◌^◌, true, [], IfOk, length, replicate, slice_set};
ghost use Rattle.std.specs.HashMap.{spare};
ghost use Rattle.c11_happens.specs.Noting.{row, AreWide, joined_if, is_load, IsReady, IsNoted};
ghost use Rattle.c11_happens.specs.Kept.{IsKept};
ghost use Rattle.c11_happens.specs.Sound.{contents};

use crate::hand::{hand_on, keep_read, note_create};
use crate::mutexes::{Mutexes, note_mutex};
use crate::take::{join_if, note_clock};
use c11_clock::Clock;
use c11_events::Event;
use c11_num::NoMemory;
use std::alloc::Global;
use std::collections::HashMap;

/// The clocks of events, by their numbers, and those of threads.
#[derive(Drop)]
pub(crate) struct Tables {
    // How many Creates there were: the next one makes the thread after these.
    pub(crate) created: u32,
    // The clock of each event. Number 0 is of no event, and the clocks of those to come are 0 everywhere.
    pub(crate) clocks: Vec<Clock>,
    // What an event takes over that reads this store, or that locks after this unlock.
    passed: Vec<Clock>,
    // The clock of each thread now.
    pub(crate) known: Vec<Clock>,
    // The clock of each thread at its last release fence.
    fenced: Vec<Clock>,
    // What an acquire fence of each thread takes over.
    read: Vec<Clock>,
    // The clock of each thread at its Ends.
    ended: Vec<Clock>,
    pub(crate) mutexes: Mutexes,
}

// So many clocks, each 0 at each thread.
fn blank_clocks(alloc: Global, count: usize, threads: u32) -> Result<Vec<Clock>, NoMemory>
    ensures { IfOk result (λ clocks. clocks.items ≡ replicate count (replicate threads 0)) }
{
    let mut clocks = Vec::with_capacity(alloc, count)?;
    for _ in 0..count {
        match Clock::new(alloc, threads) {
            Ok(clock) => clocks.push(clock)?,
            Err(_) => return Err(NoMemory),
        }
    }
    Ok(clocks)
}

// What the event leaves with its thread by its reading.
fn note_read(read: &mut [Clock], event: &Event, passed: &[Clock])
    requires thread { event.now.thread < length read.old }
    requires from { is_load event.now ≡ true → event.now.from < length passed.now }
    requires wide { AreWide (length read.old) read.old }
    requires wide_passed { AreWide (length read.old) passed.now }
    ensures { read.new ≡ slice_set read.old event.now.thread (joined_if (is_load event.now) (row read.old event.now.thread) (row passed.now event.now.from)) }
{
    keep_read(&mut read[event.thread as usize], event, passed);
}

// What the event leaves with its thread as a release fence or an End.
fn note_own(table: &mut [Clock], condition: bool, thread: u32, own: &Clock)
    requires thread { thread < length table.old }
    requires wide { AreWide (length own.now) table.old }
    ensures { table.new ≡ slice_set table.old thread (joined_if condition (row table.old thread) own.now) }
{
    join_if(condition, &mut table[thread as usize], own);
}

impl Tables {
    /// No event yet, with room for so many.
    pub(crate) fn open(alloc: Global, threads: u32, events: u32) -> Result<Tables, NoMemory>
        ensures kept { IfOk result (λ kept. IsKept threads events [] (contents kept)) }
        ensures room { IfOk result (λ kept. events ≤ spare kept.mutexes) }
    {
        let rows = events as usize + 1;
        let count = threads as usize;
        Ok(Tables {
            created: 0,
            clocks: blank_clocks(alloc, rows, threads)?,
            passed: blank_clocks(alloc, rows, threads)?,
            known: blank_clocks(alloc, count, threads)?,
            fenced: blank_clocks(alloc, count, threads)?,
            read: blank_clocks(alloc, count, threads)?,
            ended: blank_clocks(alloc, count, threads)?,
            mutexes: HashMap::with_capacity(alloc, events as usize)?,
        })
    }

    /// Brings the clocks up to date with the event. There is room for it.
    pub(crate) fn note(&mut self, event: &Event)
        requires ready { IsReady (contents self.old) event.now }
        requires created { self.old.created + 1 < 2 ^ 32 }
        requires room { 0 < spare self.old.mutexes }
        ensures noted { IsNoted (contents self.old) event.now (contents self.new) }
        ensures room { spare self.old.mutexes ≤ spare self.new.mutexes + 1 }
    {
        note_clock(
            &mut self.known,
            &mut self.clocks,
            event,
            &self.passed,
            &self.read,
            &self.ended,
            &self.mutexes,
        );
        note_read(&mut self.read, event, &self.passed);
        let own = &self.clocks[event.number as usize];
        hand_on(&mut self.passed, event, &self.mutexes, &self.fenced, own);
        note_own(
            &mut self.fenced,
            event.kind.is_release_fence(),
            event.thread,
            own,
        );
        note_own(&mut self.ended, event.kind.is_end(), event.thread, own);
        note_create(&mut self.known, &mut self.created, event, own);
        note_mutex(&mut self.mutexes, event);
    }
}
