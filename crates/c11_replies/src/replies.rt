ghost use Rattle.std.specs.Prelude.{◌≡◌, ◌<◌, ◌≤◌, ◌+◌, ◌^◌, ◌↔◌, ◌++◌, ◌∷◌, [], ℕ, List, IsTrue, IfOk, cond, length, slice_get};
ghost use Rattle.std.specs.Ordering.{int_eq};
ghost use Rattle.c11_events.specs.declared.event.Event.{Event};
ghost use Rattle.c11_events.specs.Events.{is_create};
ghost use Rattle.c11_events.specs.Threads.{created, blocked_by, IsLive};
ghost use Rattle.c11_events.specs.Replies.{Setting, answer, thread_limit};
ghost use Rattle.c11_events.specs.Values.{value_of};
ghost use Rattle.c11_replies.specs.Words.{HaveSameCounts, IsWithin, StandsFor};

use crate::mutexes::{MutexState, note_mutexes};
use crate::threads::{ThreadState, create_reply, first_threads, note_threads};
use crate::values::{first_values, note_values};
use c11_events::{CellInfo, Event, EventKind, Holder, Op, Reply};
use c11_num::{CValue, NoMemory};
use std::alloc::Global;
use std::marker::Model;

// What a compare-exchange that reads this value is told.
fn exchanged(read: CValue, expected: &CValue) -> Reply
    ensures { result ≡ Reply.Exchanged read (int_eq read.number expected.now.number) }
{
    Reply::Exchanged {
        old: read,
        success: read.number() == expected.number(),
    }
}

// How many threads are created after an event of this kind.
fn next_created(created: u32, kind: &EventKind) -> u32
    requires { created + 1 < 2 ^ 32 }
    ensures { result ≡ created + cond (is_create kind.now) 1 0 }
{
    if kind.is_create() {
        created + 1
    } else {
        created
    }
}

/// The threads, mutexes and plain cells of one execution. Contracts see what is kept of them, and the events for which that stands.
#[derive(Debug, Drop)]
pub struct Replies {
    created: u32,
    threads: Vec<ThreadState>,
    mutexes: Vec<MutexState>,
    values: Vec<CValue>,
}

impl Model for Replies {
    ghost use Rattle.c11_replies.specs.Words.{Words};

    ghost Value = { Words };

    ghost view = { λ r. record { created = r.created; threads = r.threads.items; mutexes = r.mutexes.items; values = r.values.items } };
}

impl Replies {
    /// Before any event, of a program with these plain cells, so many mutexes, and `main` as this function. All memory is taken here.
    pub fn open(
        alloc: Global,
        plains: &[CellInfo],
        mutexes: u32,
        main: u32,
    ) -> Result<Replies, NoMemory>
        ensures stands { IfOk result (λ replies. (setting : Setting) → setting.plain ≡ plains.now → setting.main ≡ main → StandsFor replies setting []) }
        ensures threads { IfOk result (λ replies. length replies.threads ≡ thread_limit) }
        ensures mutexes { IfOk result (λ replies. length replies.mutexes ≡ mutexes) }
        ensures values { IfOk result (λ replies. length replies.values ≡ length plains.now) }
    {
        Ok(Replies {
            created: 0,
            threads: first_threads(alloc, main)?,
            mutexes: vec![in alloc; MutexState::FIRST; mutexes as usize]?,
            values: first_values(alloc, plains)?,
        })
    }

    // What is kept of the thread.
    fn thread(&self, thread: u32) -> &ThreadState
        requires { thread < length self.now.threads }
        ensures { slice_get self.now.threads thread ≡ Some result.now }
    {
        &self.threads[thread as usize]
    }

    // What is kept of the mutex.
    fn mutex(&self, mutex: u32) -> &MutexState
        requires { mutex < length self.now.mutexes }
        ensures { slice_get self.now.mutexes mutex ≡ Some result.now }
    {
        &self.mutexes[mutex as usize]
    }

    // What the plain cell holds.
    fn value(&self, cell: u32) -> &CValue
        requires { cell < length self.now.values }
        ensures { slice_get self.now.values cell ≡ Some result.now }
    {
        &self.values[cell as usize]
    }

    /// How many threads were created, without `main`.
    pub fn created(&self) -> u32
        ensures count { result ≡ self.now.created }
        ensures stands { (setting : Setting) (events : List Event) → StandsFor self.now setting events → result ≡ created events }
    {
        self.created
    }

    /// Whether the thread is created, as `main` is from the start, and has not ended.
    pub fn is_live(&self, thread: u32) -> bool
        requires { thread < length self.now.threads }
        ensures { (setting : Setting) (events : List Event) → StandsFor self.now setting events → IsTrue result ↔ IsLive events thread }
    {
        thread <= self.created && self.thread(thread).ended.is_none()
    }

    /// What the thread's operation waits for, if it is blocked.
    pub fn blocked(&self, thread: u32, op: &Op) -> Option<Holder>
        requires { IsWithin self.now op.now }
        ensures { (setting : Setting) (events : List Event) → StandsFor self.now setting events → result ≡ blocked_by events thread op.now }
    {
        match op {
            Op::Lock { mutex } => self.mutex(*mutex).blocks(*mutex),
            Op::Join { thread } => self.thread(*thread).blocks(*thread),
            Op::Begin if self.created < thread => Some(Holder::Unborn),
            _ => None,
        }
    }

    /// What the thread is told of its operation; `read` is the value that it reads, if it reads an atomic cell.
    pub fn answer(&self, thread: u32, op: &Op, read: CValue) -> Reply
        requires thread { thread < length self.now.threads }
        requires within { IsWithin self.now op.now }
        ensures { (setting : Setting) (events : List Event) (x : ℕ) → StandsFor self.now setting events → read ≡ value_of events x
            → result ≡ answer setting events thread op.now x }
    {
        match op {
            Op::AtomicLoad { cell: _, order: _ } => Reply::Value(read),
            Op::Rmw {
                cell: _,
                order: _,
                kind: _,
                operand: _,
            } => Reply::Value(read),
            Op::CompareExchange {
                cell: _,
                success: _,
                failure: _,
                weak: _,
                expected,
                desired: _,
            } => exchanged(read, expected),
            Op::PlainRead { cell } => Reply::Value(*self.value(*cell)),
            Op::MutexInit { mutex } => self.mutex(*mutex).init_reply(),
            Op::Lock { mutex } => self.mutex(*mutex).lock_reply(),
            Op::TryLock { mutex } => self.mutex(*mutex).try_lock_reply(),
            Op::Unlock { mutex } => self.mutex(*mutex).unlock_reply(thread),
            Op::Create {
                function: _,
                argument: _,
            } => create_reply(self.created),
            Op::Join { thread } => self.thread(*thread).join_reply(*thread),
            Op::Begin => self.thread(thread).told,
            _ => Reply::Done,
        }
    }

    /// Adds the next event. Takes no memory. What is not kept, as a thread or a mutex of a higher number, is passed over.
    pub fn note(&mut self, event: &Event)
        requires { self.old.created + 1 < 2 ^ 32 }
        ensures stands { (setting : Setting) (events : List Event) → StandsFor self.old setting events
            → StandsFor self.new setting (events ++ event.now ∷ []) }
        ensures same { HaveSameCounts self.old self.new }
    {
        note_threads(&mut self.threads, self.created, event);
        note_mutexes(&mut self.mutexes, event);
        note_values(&mut self.values, &event.kind);
        self.created = next_created(self.created, &event.kind);
    }
}
