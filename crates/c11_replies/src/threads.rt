//! What is kept of each thread.
ghost use Rattle.std.specs.Prelude.{◌≡◌, ◌<◌, ◌+◌, ◌^◌, ◌&&◌, ◌||◌, ◌∷◌, true, false, pos, IfOk, nat_eq, nat_lt, is_none, replicate, unwrap_or, if◌then◌else◌};
ghost use Rattle.c11_events.specs.Replies.{thread_limit};
ghost use Rattle.c11_replies.specs.Changed.{AreChanged, thread_next};

use c11_events::{Event, EventKind, FaultKind, Holder, Reply};
use c11_num::NoMemory;
use std::alloc::Global;

// With `main`.
const THREAD_LIMIT: usize = 16;

/// What is kept of one thread.
#[derive(Clone, Copy, Debug, PartialEq, Eq)]
pub struct ThreadState {
    /// What its Begin is told; nothing where it is not created.
    pub(crate) told: Reply,
    /// The value of its End, where it has ended.
    pub(crate) ended: Option<i32>,
    /// Whether some thread has joined it.
    pub(crate) joined: bool,
}

impl ThreadState {
    /// What a Join of this thread waits for, which has the number; `main` is waited for by none.
    pub(crate) fn blocks(&self, thread: u32) -> Option<Holder>
        ensures { result ≡ (if nat_lt 0 thread && is_none self.now.ended then Some (Holder.Join thread) else None) }
    {
        if thread > 0 && self.ended.is_none() {
            Some(Holder::Join { thread })
        } else {
            None
        }
    }

    /// What a Join of this thread is told, which has the number.
    pub(crate) fn join_reply(&self, thread: u32) -> Reply
        ensures { result ≡ (if nat_eq thread 0 || self.now.joined then Reply.Fault FaultKind.Join else Reply.Joined (unwrap_or self.now.ended (pos 0))) }
    {
        if thread == 0 || self.joined {
            Reply::Fault(FaultKind::Join)
        } else {
            Reply::Joined(self.ended.unwrap_or(0))
        }
    }
}

/// The threads before any event: `main` is told of its function, and no other is created.
pub(crate) fn first_threads(alloc: Global, main: u32) -> Result<Vec<ThreadState>, NoMemory>
    ensures { IfOk result (λ threads. threads.items ≡ record { told = Reply.Began main (pos 0); ended = None; joined = false } ∷ replicate 15 (record { told = Reply.Done; ended = None; joined = false })) }
{
    let unborn = ThreadState {
        told: Reply::Done,
        ended: None,
        joined: false,
    };
    let mut threads = vec![in alloc; unborn; THREAD_LIMIT]?;
    threads[0].told = Reply::Began {
        function: main,
        argument: 0,
    };
    Ok(threads)
}

/// What a Create is told, where so many threads are created.
pub(crate) fn create_reply(created: u32) -> Reply
    ensures { result ≡ (if nat_lt (created + 1) thread_limit then Reply.Created (created + 1) else Reply.Fault FaultKind.Threads) }
{
    if (created as usize) < THREAD_LIMIT - 1 {
        Reply::Created(created + 1)
    } else {
        Reply::Fault(FaultKind::Threads)
    }
}

// Where the thread is kept, this is what its Begin is told.
fn set_told(threads: &mut [ThreadState], thread: u32, told: Reply)
    ensures { AreChanged (λ u state. if nat_eq thread u then record state { told = told } else state) threads.old threads.new }
{
    let place = thread as usize;
    if place < threads.len() {
        threads[place].told = told;
    }
}

// Where the thread is kept, it ends with the value.
fn set_ended(threads: &mut [ThreadState], thread: u32, value: i32)
    ensures { AreChanged (λ u state. if nat_eq thread u then record state { ended = Some value } else state) threads.old threads.new }
{
    let place = thread as usize;
    if place < threads.len() {
        threads[place].ended = Some(value);
    }
}

// Where the thread is kept, it is joined.
fn set_joined(threads: &mut [ThreadState], thread: u32)
    ensures { AreChanged (λ u state. if nat_eq thread u then record state { joined = true } else state) threads.old threads.new }
{
    let place = thread as usize;
    if place < threads.len() {
        threads[place].joined = true;
    }
}

/// Adds an event to what is kept of the threads, of which so many were created before.
pub(crate) fn note_threads(threads: &mut [ThreadState], created: u32, event: &Event)
    requires { created + 1 < 2 ^ 32 }
    ensures { AreChanged (thread_next created event.now.thread event.now.kind) threads.old threads.new }
{
    match &event.kind {
        EventKind::Create { function, argument } => {
            let told = Reply::Began {
                function: *function,
                argument: *argument,
            };
            set_told(threads, created + 1, told);
        }
        EventKind::End { value } => set_ended(threads, event.thread, *value),
        EventKind::Join { thread } => set_joined(threads, *thread),
        _ => {}
    }
}
