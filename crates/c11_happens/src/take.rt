//! What an event takes over from others before it happens.
#![tactic(auto, using(crate::proofs::Places::length_joined))]

ghost use Rattle.std.specs.Prelude.{◌≡◌, ◌<◌, ℕ, true, length, slice_set};
ghost use Rattle.c11_events.specs.Events.{is_acquire_load, is_acquire_fence, locked_mutex, joined_thread};
ghost use Rattle.c11_happens.specs.Noting.{row, AreWide, joined_if, after_store, after_fence, after_unlock, after_end, after_taking, raised};
ghost use Rattle.c11_clock.specs.Clocks.{joined};
ghost use Rattle.c11_happens.specs.Mutexes.{state_in};

use crate::mutexes::{Mutexes, state_of};
use c11_clock::Clock;
use c11_events::Event;

/// Joins the other clock where the condition holds.
pub(crate) fn join_if(condition: bool, clock: &mut Clock, other: &Clock)
    requires { length other.now ≡ length clock.old }
    ensures joined { clock.new ≡ joined_if condition clock.old other.now }
    ensures places { length clock.new ≡ length clock.old }
{
    if condition {
        clock.join(other);
    }
}

// What an acquire takes over from the store that it reads.
fn take_from_store(clock: &mut Clock, event: &Event, passed: &[Clock])
    requires within { is_acquire_load event.now.kind ≡ true → event.now.from < length passed.now }
    requires wide { AreWide (length clock.old) passed.now }
    ensures joined { clock.new ≡ after_store event.now passed.now clock.old }
    ensures places { length clock.new ≡ length clock.old }
{
    if event.kind.is_acquire_load() {
        clock.join(&passed[event.from as usize]);
    }
}

// What an acquire fence takes over from the stores that its thread has read.
fn take_by_fence(clock: &mut Clock, event: &Event, read: &[Clock])
    requires within { event.now.thread < length read.now }
    requires wide { AreWide (length clock.old) read.now }
    ensures joined { clock.new ≡ after_fence event.now read.now clock.old }
    ensures places { length clock.new ≡ length clock.old }
{
    if event.kind.is_acquire_fence() {
        clock.join(&read[event.thread as usize]);
    }
}

// What a lock of a free mutex takes over from the unlocks.
fn take_from_unlock(clock: &mut Clock, event: &Event, mutexes: &Mutexes, passed: &[Clock])
    requires within { (mutex : ℕ) → (state_in mutexes.now mutex).last_unlock < length passed.now }
    requires wide { AreWide (length clock.old) passed.now }
    ensures joined { clock.new ≡ after_unlock (locked_mutex event.now.kind) (state_in mutexes.now) passed.now clock.old }
    ensures places { length clock.new ≡ length clock.old }
{
    if let Some(mutex) = event.kind.locked_mutex() {
        let state = state_of(mutexes, mutex);
        if state.holder.is_none() {
            clock.join(&passed[state.last_unlock as usize]);
        }
    }
}

// What a join takes over from the ends of the thread.
fn take_from_end(clock: &mut Clock, event: &Event, ended: &[Clock])
    requires { AreWide (length clock.old) ended.now }
    ensures joined { clock.new ≡ after_end (joined_thread event.now.kind) ended.now clock.old }
    ensures places { length clock.new ≡ length clock.old }
{
    if let Some(thread) = event.kind.joined_thread() {
        if (thread as usize) < ended.len() {
            clock.join(&ended[thread as usize]);
        }
    }
}

/// What the event takes over from others.
pub(crate) fn take(
    clock: &mut Clock,
    event: &Event,
    passed: &[Clock],
    read: &[Clock],
    ended: &[Clock],
    mutexes: &Mutexes,
)
    requires from { is_acquire_load event.now.kind ≡ true → event.now.from < length passed.now }
    requires unlocks { (mutex : ℕ) → (state_in mutexes.now mutex).last_unlock < length passed.now }
    requires thread { event.now.thread < length read.now }
    requires wide_passed { AreWide (length clock.old) passed.now }
    requires wide_read { AreWide (length clock.old) read.now }
    requires wide_ended { AreWide (length clock.old) ended.now }
    ensures joined { clock.new ≡ after_end (joined_thread event.now.kind) ended.now (after_unlock (locked_mutex event.now.kind) (state_in mutexes.now) passed.now (after_fence event.now read.now (after_store event.now passed.now clock.old))) }
    ensures places { length clock.new ≡ length clock.old }
{
    take_from_store(clock, event, passed);
    take_by_fence(clock, event, read);
    take_from_unlock(clock, event, mutexes, passed);
    take_from_end(clock, event, ended);
}

/// The event's own clock: what its thread knows and what it takes over, with its number. It becomes the thread's clock, and is kept.
pub(crate) fn note_clock(
    known: &mut [Clock],
    clocks: &mut [Clock],
    event: &Event,
    passed: &[Clock],
    read: &[Clock],
    ended: &[Clock],
    mutexes: &Mutexes,
)
    requires thread { event.now.thread < length known.old }
    requires number { event.now.number < length clocks.old }
    requires from { is_acquire_load event.now.kind ≡ true → event.now.from < length passed.now }
    requires unlocks { (mutex : ℕ) → (state_in mutexes.now mutex).last_unlock < length passed.now }
    requires threads { length read.now ≡ length known.old }
    requires wide_known { AreWide (length known.old) known.old }
    requires wide_clocks { AreWide (length known.old) clocks.old }
    requires wide_passed { AreWide (length known.old) passed.now }
    requires wide_read { AreWide (length known.old) read.now }
    requires wide_ended { AreWide (length known.old) ended.now }
    ensures known { known.new ≡ slice_set known.old event.now.thread (raised (after_taking event.now known.old passed.now read.now ended.now (state_in mutexes.now)) event.now.thread event.now.number) }
    ensures clocks { clocks.new ≡ slice_set clocks.old event.now.number (joined (row clocks.old event.now.number) (raised (after_taking event.now known.old passed.now read.now ended.now (state_in mutexes.now)) event.now.thread event.now.number)) }
    ensures own { length (row clocks.new event.now.number) ≡ length known.old }
    ensures wide { AreWide (length known.old) known.new }
{
    let clock = &mut known[event.thread as usize];
    take(clock, event, passed, read, ended, mutexes);
    clock.raise(event.thread, event.number);
    clocks[event.number as usize].join(clock);
}
