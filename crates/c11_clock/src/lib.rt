//! Clock vectors: for each thread, the number of its last event that is known.
#![tactic(auto)]

ghost use Rattle.std.specs.Prelude.{◌≡◌, ◌<◌, ◌≤◌, ◌↔◌, IsTrue, IsOk, IfOk, max, length, replicate, slice_index, slice_set};
ghost use Rattle.c11_clock.specs.Clocks.{joined, HasBelow};

mod steps;
#[cfg(test)]
mod tests;

use smallvec::SmallVec;
use std::alloc::Global;
use std::marker::Model;
pub use steps::Steps;

/// There was no memory.
#[derive(Clone, Copy, Debug, PartialEq, Eq)]
pub struct NoMemory;

/// A number for each of a fixed count of threads, numbered from 0. Contracts see it as the list of the numbers.
#[derive(Debug, Drop)]
pub struct Clock {
    // Up to 16 numbers stand in the clock itself.
    numbers: SmallVec<u32, 16>,
}

impl Model for Clock {
    ghost use Rattle.std.specs.Prelude.{List, ℕ};

    ghost Value = { List ℕ };

    ghost view = { λ c. c.numbers.items };
}

impl Clock {
    /// A clock for so many threads, 0 at each. With at most 16 threads it takes no memory, and so always succeeds.
    pub fn new(alloc: Global, threads: u32) -> Result<Clock, NoMemory>
        ensures zeros { IfOk result (λ clock. clock ≡ replicate threads 0) }
        ensures small { threads ≤ 16 → IsOk result }
    {
        match SmallVec::from_elem(alloc, 0, threads as usize) {
            Ok(numbers) => Ok(Clock { numbers }),
            Err(_) => Err(NoMemory),
        }
    }

    /// The thread's number.
    pub fn get(&self, thread: u32) -> u32
        requires { thread < length self.now }
        ensures { result ≡ slice_index self.now thread }
    {
        self.numbers.as_slice()[thread as usize]
    }

    /// Whether the number is at most the thread's.
    pub fn covers(&self, thread: u32, number: u32) -> bool
        requires { thread < length self.now }
        ensures { IsTrue result ↔ (number ≤ slice_index self.now thread) }
    {
        number <= self.get(thread)
    }

    /// Raises the thread's number to the larger of both.
    pub fn raise(&mut self, thread: u32, number: u32)
        requires { thread < length self.old }
        ensures { self.new ≡ slice_set self.old thread (max (slice_index self.old thread) number) }
    {
        let numbers = self.numbers.as_mut_slice();
        numbers[thread as usize] = numbers[thread as usize].max(number);
    }

    /// Raises each thread's number to the larger of both clocks.
    pub fn join(&mut self, other: &Clock)
        requires { length other.now ≡ length self.old }
        ensures { self.new ≡ joined self.old other.now }
    {
        join_into(self.numbers.as_mut_slice(), other.numbers.as_slice());
    }

    /// Raises each thread's number to the larger of both clocks, and tells whether one was raised.
    pub fn grow_to(&mut self, other: &Clock) -> bool
        requires { length other.now ≡ length self.old }
        ensures joined { self.new ≡ joined self.old other.now }
        ensures raised { IsTrue result ↔ HasBelow self.old other.now }
    {
        grow_into(self.numbers.as_mut_slice(), other.numbers.as_slice())
    }
}

fn join_into(mine: &mut [u32], theirs: &[u32])
    requires { length theirs.now ≡ length mine.old }
    ensures { mine.new ≡ joined mine.old theirs.now }
{
    for i in 0..mine.len() {
        mine[i] = mine[i].max(theirs[i]);
    }
}

fn grow_into(mine: &mut [u32], theirs: &[u32]) -> bool
    requires { length theirs.now ≡ length mine.old }
    ensures joined { mine.new ≡ joined mine.old theirs.now }
    ensures raised { IsTrue result ↔ HasBelow mine.old theirs.now }
{
    let mut raised = false;
    for place in 0..mine.len() {
        if mine[place] < theirs[place] {
            mine[place] = theirs[place];
            raised = true;
        }
    }
    raised
}
