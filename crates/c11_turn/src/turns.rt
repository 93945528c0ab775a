//! The turn of a thread.
ghost use Rattle.std.specs.Prelude.{◌≡◌, Some, None};
ghost use Rattle.c11_events.specs.EventOf.{events_of};
ghost use Rattle.c11_events.specs.Threads.{blocked_by};
ghost use Rattle.c11_turn.specs.Hand.{IsDue, IsTurn};
ghost use Rattle.c11_turn.specs.declared.terms.Terms.{Terms as SpecTerms};

use c11_events::{Ask, Holder, Reply, Verdict};
use c11_meaning::laws::{asks_are_legal, asks_no_more};
use c11_memory::{Memory, StepStop};

/// What became of a turn.
#[derive(Clone, Copy, Debug, PartialEq, Eq)]
pub enum Turned {
    /// The thread made its step, and this is the reply.
    Went(Reply),
    /// The thread waits for this holder, after a history of this length.
    Waits { holder: Holder, length: u32 },
    /// The execution has ended with this verdict.
    Stopped(Verdict),
    /// Memory ran out.
    NoMemory,
}

/// The turn of a thread with what it asks for next, on the memory in hand.
///
/// The thread makes its step; or it waits, and is marked if it is live; or the execution has ended, before this turn or by this mark.
/// Where memory ran out nothing has changed.
pub fn turn(memory: &mut Memory, thread: u32, ask: &Ask) -> Turned
    requires due { (terms : SpecTerms) × IsDue terms memory.old thread ask.now }
    ensures turn { (terms : SpecTerms) → IsDue terms memory.old thread ask.now → IsTurn terms memory.old memory.new thread ask.now result }
{
    asks_are_legal();
    if let Some(verdict) = memory.verdict() {
        return Turned::Stopped(verdict);
    }
    match memory.blocked(thread, ask) {
        Some(holder) => wait(memory, thread, ask, holder),
        None => go(memory, thread, ask),
    }
}

// The thread is blocked by this holder. One that is not created yet is not live, so no deadlock waits for its mark.
fn wait(memory: &mut Memory, thread: u32, ask: &Ask, holder: Holder) -> Turned
    requires due { (terms : SpecTerms) × IsDue terms memory.old thread ask.now }
    requires none { memory.old.verdict ≡ None }
    requires blocked { blocked_by (events_of memory.old.history) thread ask.now.op ≡ Some holder }
    ensures turn { (terms : SpecTerms) → IsDue terms memory.old thread ask.now → IsTurn terms memory.old memory.new thread ask.now result }
{
    asks_are_legal();
    let length = memory.history().len() as u32;
    if !memory.live(thread) {
        return Turned::Waits { holder, length };
    }
    match memory.wait(thread, ask) {
        Some(verdict) => Turned::Stopped(verdict),
        None => Turned::Waits { holder, length },
    }
}

// The thread can go.
fn go(memory: &mut Memory, thread: u32, ask: &Ask) -> Turned
    requires due { (terms : SpecTerms) × IsDue terms memory.old thread ask.now }
    requires none { memory.old.verdict ≡ None }
    requires free { blocked_by (events_of memory.old.history) thread ask.now.op ≡ None }
    ensures turn { (terms : SpecTerms) → IsDue terms memory.old thread ask.now → IsTurn terms memory.old memory.new thread ask.now result }
{
    asks_are_legal();
    asks_no_more();
    let reply = match memory.step(thread, ask) {
        Ok(reply) => reply,
        Err(StepStop::NoMemory) => return Turned::NoMemory,
        Err(StepStop::Stopped(_)) => unreachable!(),
        Err(StepStop::NotOffered(_)) => unreachable!(),
    };
    Turned::Went(reply)
}
