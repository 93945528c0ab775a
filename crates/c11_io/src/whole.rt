ghost use Rattle.std.specs.Prelude.{◌≡◌, ◌≤◌, length, IfOk, IfErr, OnOk, OnErr};
ghost use Rattle.std.specs.Io.KnownBytes.{Appends};
ghost use Rattle.c11_io.specs.Whole.{ReadsWhole, StopsReading, HasStopCause, AppendsPart, OneRose};
ghost use Rattle.c11_io.specs.declared.whole.ReadStop.TheVariants.{Fault as ReadFault, NoMemory};
ghost use Rattle.c11_io.specs.declared.whole.WriteStop.TheVariants.{Fault as WriteFault};

use crate::sink::Sink;
use crate::source::{Failed, Source};
use std::alloc::{AllocError, Global};

/// Why a reading stopped before the end of the input.
#[derive(Clone, Copy, Debug, PartialEq, Eq)]
pub enum ReadStop {
    /// A read failed.
    Fault,
    /// There were more bytes than the limit.
    TooLong,
    /// There was no memory for the bytes.
    NoMemory,
}

impl From<Failed> for ReadStop {
    ghost from_gives = { λ _ stop. stop ≡ ReadFault };

    fn from(_failed: Failed) -> ReadStop {
        ReadStop::Fault
    }
}

impl From<AllocError> for ReadStop {
    ghost from_gives = { λ _ stop. stop ≡ NoMemory };

    fn from(_error: AllocError) -> ReadStop {
        ReadStop::NoMemory
    }
}

/// Why a writing stopped before the last byte.
#[derive(Clone, Copy, Debug, PartialEq, Eq)]
pub enum WriteStop {
    /// A write failed, or took nothing.
    Fault,
}

impl From<Failed> for WriteStop {
    ghost from_gives = { λ _ stop. stop ≡ WriteFault };

    fn from(_failed: Failed) -> WriteStop {
        WriteStop::Fault
    }
}

// How many bytes are read at once.
const CHUNK: usize = 4096;

/// Reads to the end of the input, which is to have at most `limit` bytes. It stops at the first
/// read that fails, and as soon as it has taken `limit + 1` bytes.
pub fn read_all<S: Source>(alloc: Global, source: &mut S, limit: usize) -> Result<Vec<u8>, ReadStop>
    // The end of the input: all bytes that were left, at most `limit`, and no read failed.
    ensures whole { IfOk result (λ bytes.
        ReadsWhole (S.left source.old) (S.left source.new) limit bytes.items) }
    ensures kept { OnOk result (S.faults source.new ≡ S.faults source.old) }

    // A stop: how many of those bytes are gone, and whether a read failed.
    ensures stops { IfErr result (StopsReading (S.left source.old) (S.left source.new) limit) }
    ensures cause { IfErr result (HasStopCause (S.faults source.old) (S.faults source.new)) }
    ensures never_falls { S.faults source.old ≤ S.faults source.new }
{
    let mut bytes = Vec::new(alloc);
    let mut chunk = [0u8; CHUNK];
    loop {
        let room = (limit - bytes.len()).min(CHUNK - 1) + 1;
        let count = source.read(&mut chunk[..room])?;
        if count == 0 {
            return Ok(bytes);
        }
        if count > limit - bytes.len() {
            return Err(ReadStop::TooLong);
        }
        bytes.extend_from_slice(&chunk[..count])?;
    }
}

/// Appends all of `bytes`, and takes no memory. It stops at the first write that fails or takes
/// nothing, and tries none again. Where there are no bytes the sink is not called.
pub fn write_all<K: Sink>(sink: &mut K, bytes: &[u8]) -> Result<(), WriteStop>
    ensures all { OnOk result (Appends (K.taken sink.old) (K.taken sink.new) bytes.now) }
    ensures faults_kept { OnOk result (K.faults sink.new ≡ K.faults sink.old) }
    ensures empties_kept { OnOk result (K.empties sink.new ≡ K.empties sink.old) }
    ensures untouched { length bytes.now ≡ 0 → sink.new ≡ sink.old }

    // A stop: some first bytes, but not all, and one failed or one empty write.
    ensures part { OnErr result (AppendsPart (K.taken sink.old) (K.taken sink.new) bytes.now) }
    ensures cause { OnErr result
        (OneRose (K.faults sink.old) (K.faults sink.new) (K.empties sink.old) (K.empties sink.new)) }
    ensures faults_never_fall { K.faults sink.old ≤ K.faults sink.new }
    ensures empties_never_fall { K.empties sink.old ≤ K.empties sink.new }
{
    let mut written = 0;
    while written < bytes.len() {
        let count = sink.write(&bytes[written..])?;
        if count == 0 {
            return Err(WriteStop::Fault);
        }
        written += count;
    }
    Ok(())
}
