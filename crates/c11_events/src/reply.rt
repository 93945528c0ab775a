use c11_num::CValue;

/// What a thread is told of its operation.
#[derive(Clone, Copy, Debug, PartialEq, Eq)]
pub enum Reply {
    /// It was done, and there is nothing to tell.
    Done,
    /// The value that was read.
    Value(CValue),
    /// The value that a compare-exchange read, and whether it wrote.
    Exchanged { old: CValue, success: bool },
    /// Whether the mutex is the thread's now.
    Locked(bool),
    /// The number of the new thread.
    Created(u32),
    /// The function that the thread runs, and its argument.
    Began { function: u32, argument: i64 },
    /// The value of the ended thread.
    Joined(i32),
    /// The operation is a fault, and the run ends.
    Fault(FaultKind),
}

/// A fault of the tested program.
#[derive(Clone, Copy, Debug, PartialEq, Eq)]
pub enum FaultKind {
    /// A result that its signed type does not hold.
    Overflow,
    /// A division by 0.
    Divide,
    /// A shift by a negative count, or by the width or more.
    Shift,
    /// An index outside its array.
    Bounds,
    /// Too many calls inside one another.
    Depth,
    /// Too many threads.
    Threads,
    /// A join of a thread that is joined already, or of none.
    Join,
    /// A mutex that is not initialised, or initialised again.
    Mutex,
    /// An unlock by a thread that does not hold the mutex.
    Unlock,
}

/// What a blocked operation waits for.
#[derive(Clone, Copy, Debug, PartialEq, Eq)]
pub enum Holder {
    /// The mutex is held by this thread.
    Mutex { mutex: u32, owner: u32 },
    /// This thread has not ended.
    Join { thread: u32 },
    /// The thread that is to begin is not created.
    Unborn,
}
