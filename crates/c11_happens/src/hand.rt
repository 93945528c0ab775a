//! What later events may take over from an event.
#![tactic(auto, using(crate::proofs::Places::length_joined))]

ghost use Rattle.std.specs.Prelude.{◌≡◌, ◌+◌, ◌^◌, ◌<◌, ℕ, true, length, slice_set, if◌then◌else◌};
ghost use Rattle.c11_events.specs.Events.{unlocked_mutex, is_create};
ghost use Rattle.c11_happens.specs.Noting.{row, AreWide, by_stored, by_unlocked, is_load, is_store, started, joined_if};
ghost use Rattle.c11_happens.specs.Mutexes.{state_in};

use crate::mutexes::{Mutexes, state_of};
use crate::take::join_if;
use c11_clock::Clock;
use c11_events::Event;

/// Whether the event reads an atomic cell.
pub(crate) fn is_load(event: &Event) -> bool
    ensures { result ≡ is_load event.now }
{
    event.kind.loaded_cell().is_some()
}

// Whether the event writes an atomic cell.
fn is_store(event: &Event) -> bool
    ensures { result ≡ is_store event.now }
{
    event.kind.stored_cell().is_some()
}

/// What a load's thread may take over by a later acquire fence.
pub(crate) fn keep_read(clock: &mut Clock, event: &Event, passed: &[Clock])
    requires within { is_load event.now ≡ true → event.now.from < length passed.now }
    requires wide { AreWide (length clock.old) passed.now }
    ensures joined { clock.new ≡ joined_if (is_load event.now) clock.old (row passed.now event.now.from) }
    ensures places { length clock.new ≡ length clock.old }
{
    if is_load(event) {
        clock.join(&passed[event.from as usize]);
    }
}

// What a store hands on: by itself where it is a release, by the last release fence, and as a read-modify-write what it reads.
fn hand_store(clock: &mut Clock, event: &Event, passed: &[Clock], fenced: &[Clock], own: &Clock)
    requires within { is_load event.now ≡ true → event.now.from < length passed.now }
    requires thread { event.now.thread < length fenced.now }
    requires wide { AreWide (length clock.old) passed.now }
    requires wide_fenced { AreWide (length clock.old) fenced.now }
    requires own { length own.now ≡ length clock.old }
    ensures joined { clock.new ≡ by_stored event.now passed.now fenced.now own.now clock.old }
    ensures places { length clock.new ≡ length clock.old }
{
    let stores = is_store(event);
    join_if(stores, clock, &fenced[event.thread as usize]);
    join_if(event.kind.is_release_store(), clock, own);
    if stores && is_load(event) {
        clock.join(&passed[event.from as usize]);
    }
}

// What an unlock hands on: itself, and what the unlock before it did.
fn hand_unlock(clock: &mut Clock, event: &Event, mutexes: &Mutexes, passed: &[Clock], own: &Clock)
    requires within { (mutex : ℕ) → (state_in mutexes.now mutex).last_unlock < length passed.now }
    requires wide { AreWide (length clock.old) passed.now }
    requires own { length own.now ≡ length clock.old }
    ensures joined { clock.new ≡ by_unlocked (unlocked_mutex event.now.kind) (state_in mutexes.now) passed.now own.now clock.old }
    ensures places { length clock.new ≡ length clock.old }
{
    if let Some(mutex) = event.kind.unlocked_mutex() {
        clock.join(own);
        clock.join(&passed[state_of(mutexes, mutex).last_unlock as usize]);
    }
}

/// What later events may take over from the event, at its number.
pub(crate) fn hand_on(
    passed: &mut [Clock],
    event: &Event,
    mutexes: &Mutexes,
    fenced: &[Clock],
    own: &Clock,
)
    requires number { event.now.number < length passed.old }
    requires within { is_load event.now ≡ true → event.now.from < event.now.number }
    requires unlocks { (mutex : ℕ) → (state_in mutexes.now mutex).last_unlock < event.now.number }
    requires thread { event.now.thread < length fenced.now }
    requires wide { AreWide (length own.now) passed.old }
    requires wide_fenced { AreWide (length own.now) fenced.now }
    ensures { passed.new ≡ slice_set passed.old event.now.number (by_unlocked (unlocked_mutex event.now.kind) (state_in mutexes.now) passed.old own.now (by_stored event.now passed.old fenced.now own.now (row passed.old event.now.number))) }
{
    let (earlier, rest) = passed.split_at_mut(event.number as usize);
    let clock = &mut rest[0];
    hand_store(clock, event, earlier, fenced, own);
    hand_unlock(clock, event, mutexes, earlier, own);
}

// A created thread that has done nothing yet knows what its Create knows.
fn start(known: &mut [Clock], thread: u32, own: &Clock)
    requires wide { AreWide (length own.now) known.old }
    requires threads { length known.old ≡ length own.now }
    ensures { known.new ≡ started known.old own.now thread }
{
    if (thread as usize) < known.len() && known[thread as usize].get(thread) == 0 {
        known[thread as usize].join(own);
    }
}

/// Counts a Create, and starts the thread that it makes.
pub(crate) fn note_create(known: &mut [Clock], created: &mut u32, event: &Event, own: &Clock)
    requires fits { created.old + 1 < 2 ^ 32 }
    requires wide { AreWide (length own.now) known.old }
    requires threads { length known.old ≡ length own.now }
    ensures created { created.new ≡ created.old + (if is_create event.now.kind then 1 else 0) }
    ensures known { known.new ≡ (if is_create event.now.kind then started known.old own.now (created.old + 1) else known.old) }
{
    if event.kind.is_create() {
        *created += 1;
        start(known, *created, own);
    }
}
