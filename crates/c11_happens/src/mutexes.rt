//! What is kept of each mutex.
ghost use Rattle.std.specs.Prelude.{◌≡◌, ◌+◌, ◌<◌, ◌≤◌, ℕ, nat_eq, if◌then◌else◌};
ghost use Rattle.c11_events.specs.Events.{locked_mutex, unlocked_mutex};
ghost use Rattle.c11_events.specs.Threads.{holder_next, option_is};
ghost use Rattle.std.specs.HashMap.{spare};
ghost use Rattle.c11_happens.specs.Mutexes.{state_in};
ghost use Rattle.c11_happens.specs.Noting.{mutex_next};

use crate::kinds;
use c11_events::Event;
use std::collections::HashMap;

/// Who holds a mutex, and which Unlock was its last.
#[derive(Clone, Copy)]
pub(crate) struct MutexState {
    pub(crate) holder: Option<u32>,
    /// The number of the last Unlock, 0 where there was none.
    pub(crate) last_unlock: u32,
}

/// What is kept of the mutexes that were locked or unlocked, by their numbers.
pub(crate) type Mutexes = HashMap<u32, MutexState>;

// Whether the event asks for the mutex.
fn locks(event: &Event, mutex: u32) -> bool
    ensures { result ≡ option_is (locked_mutex event.now.kind) mutex }
{
    match event.kind.locked_mutex() {
        Some(locked) => locked == mutex,
        None => false,
    }
}

// Whether the event gives the mutex back.
fn unlocks(event: &Event, mutex: u32) -> bool
    ensures { result ≡ option_is (unlocked_mutex event.now.kind) mutex }
{
    match event.kind.unlocked_mutex() {
        Some(unlocked) => unlocked == mutex,
        None => false,
    }
}

// Who holds the mutex after the event.
fn next_holder(holder: Option<u32>, mutex: u32, event: &Event) -> Option<u32>
    ensures { result ≡ holder_next holder mutex event.now }
{
    match holder {
        None => {
            if locks(event, mutex) {
                Some(event.thread)
            } else {
                None
            }
        }
        Some(owner) => {
            if unlocks(event, mutex) && event.thread == owner {
                None
            } else {
                Some(owner)
            }
        }
    }
}

// What is kept of the mutex after the event.
fn next_state(state: MutexState, mutex: u32, event: &Event) -> MutexState
    ensures { result ≡ mutex_next mutex state event.now }
{
    MutexState {
        holder: next_holder(state.holder, mutex, event),
        last_unlock: if unlocks(event, mutex) {
            event.number
        } else {
            state.last_unlock
        },
    }
}

/// What is kept of the mutex.
pub(crate) fn state_of(mutexes: &Mutexes, mutex: u32) -> MutexState
    ensures { result ≡ state_in mutexes.now mutex }
{
    match mutexes.get(&mutex) {
        Some(state) => *state,
        None => MutexState {
            holder: None,
            last_unlock: 0,
        },
    }
}

// Keeps what has become of the mutex. There is room for it.
fn put(mutexes: &mut Mutexes, mutex: u32, state: MutexState)
    requires { 0 < spare mutexes.old }
    ensures states { (other : ℕ) → state_in mutexes.new other ≡ (if nat_eq mutex other then state else state_in mutexes.old other) }
    ensures spare { spare mutexes.old ≤ spare mutexes.new + 1 }
{
    match mutexes.insert(mutex, state) {
        Ok(_) => {}
        Err(_) => unreachable!(),
    }
}

/// Keeps what a lock or an unlock has made of its mutex. There is room for it.
pub(crate) fn note_mutex(mutexes: &mut Mutexes, event: &Event)
    requires { 0 < spare mutexes.old }
    ensures states { (mutex : ℕ) → state_in mutexes.new mutex ≡ mutex_next mutex (state_in mutexes.old mutex) event.now }
    ensures spare { spare mutexes.old ≤ spare mutexes.new + 1 }
{
    match kinds::mutex_of(&event.kind) {
        Some(mutex) => {
            let state = state_of(mutexes, mutex);
            put(mutexes, mutex, next_state(state, mutex, event));
        }
        None => {}
    }
}
