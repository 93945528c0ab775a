ghost use Rattle.std.specs.Prelude.{◌≡◌};

use crate::sink::Sink;
use crate::source::{Failed, Source};
use std::io::{Read, Write};
use std::marker::Model;

/// A reader of the standard library as a source, which tells the bytes that the reader tells.
/// Each read that the reader fails is a fault, also one that a signal interrupted. The count of
/// them stands still at the largest `u64`.
#[derive(Drop)]
pub struct StdSource<R> {
    reader: R,
    faults: u64,
}

impl<R> Model for StdSource<R> {
    ghost use Rattle.c11_io.specs.Standard.{CountedReader};

    ghost Value = { CountedReader R };

    ghost view = { λ s. record { reader = s.reader; faults = s.faults } };
}

impl<R: Read> StdSource<R> {
    /// A source over `reader`, with no fault so far.
    pub fn new(reader: R) -> StdSource<R>
        ensures { result ≡ record { reader = reader; faults = 0 } }
    {
        StdSource { reader, faults: 0 }
    }
}

impl<R: Read> Source for StdSource<R> {
    ghost left = { λ s. R.remaining s.reader };

    ghost faults = { λ s. s.faults };

    fn read(&mut self, into: &mut [u8]) -> Result<usize, Failed> {
        match self.reader.read(into) {
            Ok(count) => Ok(count),
            Err(_) => {
                self.faults = self.faults.saturating_add(1);
                Err(Failed)
            }
        }
    }
}

/// A writer of the standard library as a sink, which tells the bytes that the writer tells.
/// Each write that the writer fails is a fault, also one that a signal interrupted, and each other
/// write that takes nothing is an empty take. Both counts stand still at the largest `u64`.
///
/// Nothing is flushed here. The standard streams keep no buffer, so what they took has been handed
/// to the system. Over a writer that keeps one, a byte that was taken may still be lost.
#[derive(Drop)]
pub struct StdSink<W> {
    writer: W,
    faults: u64,
    empties: u64,
}

impl<W> Model for StdSink<W> {
    ghost use Rattle.c11_io.specs.Standard.{CountedWriter};

    ghost Value = { CountedWriter W };

    ghost view = { λ s. record { writer = s.writer; faults = s.faults; empties = s.empties } };
}

impl<W: Write> StdSink<W> {
    /// A sink over `writer`, with no fault and no empty take so far.
    pub fn new(writer: W) -> StdSink<W>
        ensures { result ≡ record { writer = writer; faults = 0; empties = 0 } }
    {
        StdSink {
            writer,
            faults: 0,
            empties: 0,
        }
    }
}

impl<W: Write> Sink for StdSink<W> {
    ghost taken = { λ s. W.contents s.writer };

    ghost faults = { λ s. s.faults };

    ghost empties = { λ s. s.empties };

    fn write(&mut self, bytes: &[u8]) -> Result<usize, Failed> {
        match self.writer.write(bytes) {
            Ok(count) => {
                if count == 0 {
                    self.empties = self.empties.saturating_add(1);
                }
                Ok(count)
            }
            Err(_) => {
                self.faults = self.faults.saturating_add(1);
                Err(Failed)
            }
        }
    }
}
