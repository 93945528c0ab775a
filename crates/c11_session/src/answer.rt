use c11_events::{Holder, Reply, Verdict};

/// What a seat is told when it asks for its thread's next step.
#[derive(Clone, Copy, Debug, PartialEq, Eq)]
pub enum Turn {
    /// The thread has had the reply to its End or a Stop, or a Fault.
    Ended,
    /// The thread made its step, and this is the reply.
    Went(Reply),
    /// The thread waits for this holder, in a history of this length.
    Waits { holder: Holder, length: u32 },
    /// The session has stopped with this verdict.
    Stopped(Verdict),
    /// Memory ran out.
    NoMemory,
}
