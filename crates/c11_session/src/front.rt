//! The second word of the table.
ghost use Rattle.std.specs.Prelude.{◌≡◌, ◌+◌, ◌<◌, ◌≤◌, ℕ, Bool, length, is_some};
ghost use Rattle.c11_session.specs.Views.{second_word};

use c11_memory::Memory;

/// What one load tells: the length of the history, and whether the session has stopped.
#[derive(Clone, Copy, Debug, PartialEq, Eq)]
pub struct Front {
    pub length: u32,
    pub stopped: bool,
}

impl Front {
    /// The front in a second word.
    pub(crate) fn of(word: u64) -> Front
        ensures length { (served n : ℕ) (stopped : Bool) → n ≤ 14096 → word ≡ second_word served n stopped → result.length ≡ n }
        ensures stopped { (served n : ℕ) (stopped : Bool) → word ≡ second_word served n stopped → result.stopped ≡ stopped }
    {
        Front {
            length: (word % 4_294_967_296 / 2) as u32,
            stopped: word % 2 == 1,
        }
    }
}

/// How many turns are served by a second word.
pub(crate) fn served_in(word: u64) -> u64
    ensures { (served n : ℕ) (stopped : Bool) → n ≤ 14096 → word ≡ second_word served n stopped → result ≡ served }
{
    word / 4_294_967_296
}

/// The second word after so many turns, with this memory.
pub(crate) fn word_with(served: u64, memory: &Memory) -> u64
    requires few { served < 4194304 }
    requires fits { length memory.now.history ≤ 14096 }
    ensures { result ≡ second_word served (length memory.now.history) (is_some memory.now.verdict) }
{
    let low = 2 * memory.history().len() as u64;
    let bit = if memory.verdict().is_some() { 1 } else { 0 };
    served * 4_294_967_296 + (low + bit)
}
