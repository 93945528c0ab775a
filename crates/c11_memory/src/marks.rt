//! What threads wait with.
ghost use Rattle.std.specs.Prelude.{◌≡◌, ◌<◌, ◌↔◌, ℕ, IsTrue, length};
ghost use Rattle.c11_events.specs.EventOf.{events_of};
ghost use Rattle.c11_events.specs.Replies.{thread_limit};
ghost use Rattle.c11_events.specs.Threads.{created, IsLive};
ghost use Rattle.c11_memory.specs.Marks.{ask_of, AreWithin, IsAwaiting, IsStuck};

use c11_events::{Ask, Op};
use c11_history::History;

/// How many threads there may be, with `main`.
pub(crate) const THREADS: u32 = 16;

/// What a thread waits with: an operation that was blocked, and the line that asks for it.
#[derive(Clone, Copy, Debug, PartialEq, Eq)]
pub(crate) struct Mark {
    line: u32,
    awaits: Awaited,
}

#[derive(Clone, Copy, Debug, PartialEq, Eq)]
enum Awaited {
    /// That this mutex is free.
    Mutex(u32),
    /// The end of this thread.
    Thread(u32),
    /// That the thread itself is created.
    Birth,
}

impl Mark {
    /// The mark of what is asked for.
    pub(crate) fn of(ask: &Ask) -> Mark
        requires { IsAwaiting ask.now.op }
        ensures { ask_of result ≡ ask.now }
    {
        let awaits = match &ask.op {
            Op::Lock { mutex } => Awaited::Mutex(*mutex),
            Op::Join { thread } => Awaited::Thread(*thread),
            Op::Begin => Awaited::Birth,
            _ => unreachable!(),
        };
        Mark {
            line: ask.line,
            awaits,
        }
    }

    /// The operation.
    pub(crate) fn operation(self) -> Op
        ensures { result ≡ (ask_of self).op }
    {
        match self.awaits {
            Awaited::Mutex(mutex) => Op::Lock { mutex },
            Awaited::Thread(thread) => Op::Join { thread },
            Awaited::Birth => Op::Begin,
        }
    }
}

/// Whether each live thread is marked with what is still blocked.
pub(crate) fn all_stuck(history: &History, marks: &[Option<Mark>]) -> bool
    requires few { created (events_of history.now.entries) < thread_limit }
    requires each { length marks.now ≡ thread_limit }
    requires within { AreWithin history.now marks.now }
    ensures { IsTrue result ↔ ((thread : ℕ) → IsLive (events_of history.now.entries) thread → IsStuck (events_of history.now.entries) marks.now thread) }
{
    for thread in 0..THREADS {
        if history.is_live(thread) && !is_stuck(history, marks, thread) {
            return false;
        }
    }
    true
}

// Whether the thread is marked with what is still blocked.
fn is_stuck(history: &History, marks: &[Option<Mark>], thread: u32) -> bool
    requires thread { thread < length marks.now }
    requires within { AreWithin history.now marks.now }
    ensures { IsTrue result ↔ IsStuck (events_of history.now.entries) marks.now thread }
{
    match marks[thread as usize] {
        Some(mark) => history.blocked(thread, &mark.operation()).is_some(),
        None => false,
    }
}
