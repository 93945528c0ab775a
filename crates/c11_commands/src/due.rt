//! Texts that are due, and how they are written.
ghost use Rattle.std.specs.Prelude.{};
ghost use Rattle.c11_commands.specs.Answers.{Writes};

use crate::words::Status;
use c11_io::{Sink, write_all};

/// A text that is due, with the status that goes with it.
#[derive(Drop)]
pub(crate) struct Due {
    pub(crate) text: Vec<u8>,
    pub(crate) status: Status,
}

/// Why no text is due.
#[derive(Clone, Copy, Debug, PartialEq, Eq)]
pub(crate) enum DueStop {
    /// The source failed.
    Fault,
    /// There was no memory.
    NoMemory,
}

/// Writes a text, and answers the status that goes with it, or that writing failed.
pub(crate) fn write_due<K: Sink>(sink: &mut K, text: &[u8], status: Status) -> Status
    ensures { Writes (K.taken sink.old) (K.taken sink.new) (K.faults sink.old) (K.faults sink.new)
        (K.empties sink.old) (K.empties sink.new) text.now status result }
{
    match write_all(sink, text) {
        Ok(()) => status,
        Err(_) => Status::WriteFault,
    }
}
