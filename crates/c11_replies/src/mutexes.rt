//! What is kept of each mutex.
ghost use Rattle.std.specs.Prelude.{◌≡◌, true, nat_eq, is_none, if◌then◌else◌};
ghost use Rattle.c11_events.specs.Threads.{held_by, option_is};
ghost use Rattle.c11_replies.specs.Changed.{AreChanged, freed, mutex_next, taken};

use c11_events::{Event, EventKind, FaultKind, Holder, Reply};

/// What is kept of one mutex.
#[derive(Clone, Copy, Debug, PartialEq, Eq)]
pub struct MutexState {
    pub(crate) initialised: bool,
    /// The thread that holds it.
    pub(crate) holder: Option<u32>,
}

impl MutexState {
    /// Neither initialised nor held.
    pub(crate) const FIRST: MutexState = MutexState {
        initialised: false,
        holder: None,
    };

    /// What a Lock of this mutex waits for, which has the number.
    pub(crate) fn blocks(&self, mutex: u32) -> Option<Holder>
        ensures { result ≡ (if self.now.initialised then held_by mutex self.now.holder else None) }
    {
        match self.holder {
            Some(owner) if self.initialised => Some(Holder::Mutex { mutex, owner }),
            _ => None,
        }
    }

    /// What an initialisation is told.
    pub(crate) fn init_reply(&self) -> Reply
        ensures { result ≡ (if self.now.initialised then Reply.Fault FaultKind.Mutex else Reply.Done) }
    {
        if self.initialised {
            Reply::Fault(FaultKind::Mutex)
        } else {
            Reply::Done
        }
    }

    /// What a Lock is told once it is not blocked.
    pub(crate) fn lock_reply(&self) -> Reply
        ensures { result ≡ (if self.now.initialised then Reply.Locked true else Reply.Fault FaultKind.Mutex) }
    {
        if self.initialised {
            Reply::Locked(true)
        } else {
            Reply::Fault(FaultKind::Mutex)
        }
    }

    /// What a TryLock is told.
    pub(crate) fn try_lock_reply(&self) -> Reply
        ensures { result ≡ (if self.now.initialised then Reply.Locked (is_none self.now.holder) else Reply.Fault FaultKind.Mutex) }
    {
        if self.initialised {
            Reply::Locked(self.holder.is_none())
        } else {
            Reply::Fault(FaultKind::Mutex)
        }
    }

    // Whether the thread holds the mutex.
    fn is_held_by(&self, thread: u32) -> bool
        ensures { result ≡ option_is self.now.holder thread }
    {
        match self.holder {
            Some(owner) => owner == thread,
            None => false,
        }
    }

    /// What an Unlock by the thread is told.
    pub(crate) fn unlock_reply(&self, thread: u32) -> Reply
        ensures { result ≡ (if self.now.initialised then (if option_is self.now.holder thread then Reply.Done else Reply.Fault FaultKind.Unlock) else Reply.Fault FaultKind.Mutex) }
    {
        if !self.initialised {
            Reply::Fault(FaultKind::Mutex)
        } else if self.is_held_by(thread) {
            Reply::Done
        } else {
            Reply::Fault(FaultKind::Unlock)
        }
    }
}

// Who holds a mutex once the thread has asked for it.
fn taken(holder: Option<u32>, thread: u32) -> Option<u32>
    ensures { result ≡ taken holder thread }
{
    match holder {
        None => Some(thread),
        Some(owner) => Some(owner),
    }
}

// Who holds a mutex once the thread has given it back, where it was the thread's.
fn freed(holder: Option<u32>, thread: u32) -> Option<u32>
    ensures { result ≡ freed holder thread }
{
    match holder {
        None => None,
        Some(owner) => { if thread == owner { None } else { Some(owner) } }
    }
}

// Where the mutex is kept, it is initialised.
fn set_initialised(mutexes: &mut [MutexState], mutex: u32)
    ensures { AreChanged (λ m state. if nat_eq mutex m then record state { initialised = true } else state) mutexes.old mutexes.new }
{
    let place = mutex as usize;
    if place < mutexes.len() {
        mutexes[place].initialised = true;
    }
}

// Where the mutex is kept, the thread takes it, if it is free.
fn take(mutexes: &mut [MutexState], mutex: u32, thread: u32)
    ensures { AreChanged (λ m state. if nat_eq mutex m then record state { holder = taken state.holder thread } else state) mutexes.old mutexes.new }
{
    let place = mutex as usize;
    if place < mutexes.len() {
        mutexes[place].holder = taken(mutexes[place].holder, thread);
    }
}

// Where the mutex is kept, the thread gives it back, if it holds it.
fn free(mutexes: &mut [MutexState], mutex: u32, thread: u32)
    ensures { AreChanged (λ m state. if nat_eq mutex m then record state { holder = freed state.holder thread } else state) mutexes.old mutexes.new }
{
    let place = mutex as usize;
    if place < mutexes.len() {
        mutexes[place].holder = freed(mutexes[place].holder, thread);
    }
}

/// Adds an event to what is kept of the mutexes.
pub(crate) fn note_mutexes(mutexes: &mut [MutexState], event: &Event)
    ensures { AreChanged (mutex_next event.now.thread event.now.kind) mutexes.old mutexes.new }
{
    match &event.kind {
        EventKind::MutexInit { mutex } => set_initialised(mutexes, *mutex),
        EventKind::Lock { mutex } => take(mutexes, *mutex, event.thread),
        EventKind::TryLock { mutex } => take(mutexes, *mutex, event.thread),
        EventKind::Unlock { mutex } => free(mutexes, *mutex, event.thread),
        _ => {}
    }
}
