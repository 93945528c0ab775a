ghost use Rattle.std.specs.Prelude.{◌≡◌, ◌<◌, length, min, take};
ghost use Rattle.std.specs.Io.{ReadsAtMost, WritesAtMost};
ghost use Rattle.std.specs.Io.KnownBytes.{ReadConsumes, WriteAppends};
ghost use Rattle.c11_io.specs.Causes.{HasCause, HasEmptyCause};

use crate::sink::Sink;
use crate::source::{Failed, Source};
use std::marker::Model;

/// Bytes in memory, read with no fault. Contracts see the bytes that are left.
#[derive(Debug, Drop)]
pub struct SureSource {
    bytes: Vec<u8>,
    next: usize,
}

impl Model for SureSource {
    ghost use Rattle.std.specs.Prelude.{List, ℕ, ◌≤◌, drop, length};

    ghost Value = { List ℕ };

    ghost view = { λ s. drop s.next s.bytes.items };

    ghost invariant = { λ s. s.next ≤ length s.bytes.items };
}

impl SureSource {
    /// A source of `bytes`.
    pub fn new(bytes: Vec<u8>) -> SureSource
        ensures { result ≡ bytes.items }
    {
        SureSource { bytes, next: 0 }
    }
}

impl Source for SureSource {
    ghost use Rattle.std.specs.Prelude.{Some};

    ghost left = { λ s. Some s };

    ghost faults = { λ _. 0 };

    fn read(&mut self, into: &mut [u8]) -> Result<usize, Failed>
        requires { 0 < length into.old }
        ensures bound { ReadsAtMost result into.new }
        ensures bytes { ReadConsumes (Some self.old) (Some self.new) result into.new }
        ensures cause { HasCause 0 0 result }
        ensures all { result ≡ Ok (min (length into.old) (length self.old)) }
    {
        let count = copy_front(into, &self.bytes.as_slice()[self.next..]);
        self.next += count;
        Ok(count)
    }
}

// Copies as many bytes as both have, and answers how many.
fn copy_front(into: &mut [u8], from: &[u8]) -> usize
    ensures count { result ≡ min (length into.old) (length from.now) }
    ensures bytes { take result into.new ≡ take result from.now }
{
    let count = into.len().min(from.len());
    into[..count].copy_from_slice(&from[..count]);
    count
}

/// Takes all bytes with no fault, keeps none of them and tells none.
#[derive(Clone, Copy, Debug, Default)]
pub struct SureSink;

impl SureSink {
    /// A sink that no fault and no empty take can come from.
    pub fn new() -> SureSink
        ensures taken { ⟦<SureSink as Sink>⟧.taken result ≡ None }
        ensures faults { ⟦<SureSink as Sink>⟧.faults result ≡ 0 }
        ensures empties { ⟦<SureSink as Sink>⟧.empties result ≡ 0 }
    {
        SureSink
    }
}

impl Sink for SureSink {
    ghost use Rattle.std.specs.Prelude.{None};

    ghost taken = { λ _. None };

    ghost faults = { λ _. 0 };

    ghost empties = { λ _. 0 };

    fn write(&mut self, bytes: &[u8]) -> Result<usize, Failed>
        requires { 0 < length bytes.now }
        ensures bound { WritesAtMost result bytes.now }
        ensures bytes { WriteAppends None None result bytes.now }
        ensures cause { HasCause 0 0 result }
        ensures empty_cause { HasEmptyCause 0 0 result }
        ensures all { result ≡ Ok (length bytes.now) }
    {
        Ok(bytes.len())
    }
}
