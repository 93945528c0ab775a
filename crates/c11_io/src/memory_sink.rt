ghost use Rattle.std.specs.Prelude.{◌≡◌, ◌++◌, ◌↔◌, ◌<◌, ◌≤◌, [], length, take, IsOk, IsErr, IfOk, OnErr};
ghost use Rattle.std.specs.Io.{WritesAtMost};
ghost use Rattle.std.specs.Io.KnownBytes.{WriteAppends};
ghost use Rattle.c11_io.specs.Causes.{HasCause, HasEmptyCause, raised};
ghost use Rattle.c11_io.specs.Memory.{FailsToWrite, taken_count};

use crate::memory_source::limited;
use crate::sink::Sink;
use crate::source::Failed;
use std::alloc::{AllocError, Global};
use std::marker::Model;

/// There was no memory.
#[derive(Clone, Copy, Debug, PartialEq, Eq)]
pub struct NoMemory;

impl From<AllocError> for NoMemory {
    fn from(_error: AllocError) -> NoMemory {
        NoMemory
    }
}

/// A buffer of a fixed size that takes bytes in parts, with faults at chosen calls.
#[derive(Debug, Drop)]
pub struct MemSink {
    bytes: Vec<u8>,
    room: usize,
    per_write: usize,
    failing: Vec<u64>,
    calls: u64,
    faults: u64,
}

impl Model for MemSink {
    ghost use Rattle.std.specs.Prelude.{◌≤◌, length, vec_capacity};
    ghost use Rattle.c11_io.specs.Memory.{MemorySink};

    ghost Value = { MemorySink };

    ghost view = { λ s. record {
      taken = s.bytes.items;
      room = s.room;
      per_write = s.per_write;
      failing = s.failing.items;
      calls = s.calls;
      faults = s.faults;
    } };

    ghost invariant = { λ s. (length s.bytes.items ≤ s.room) × (s.room ≤ vec_capacity s.bytes) };
}

impl MemSink {
    /// A sink with room for `room` bytes that takes at most `per_write` bytes a call, where 0 is
    /// no limit. It fails at the calls whose numbers, counted from 1, stand in `failing`, and
    /// where no byte is free. A call that fails is counted too. The count of calls stands still
    /// at the largest `u64`. All its memory is taken here, and none for no room.
    pub fn new(
        alloc: Global,
        room: usize,
        per_write: usize,
        failing: Vec<u64>,
    ) -> Result<MemSink, NoMemory>
        ensures made { IfOk result (λ sink. sink ≡ record {
          taken = [];
          room = room;
          per_write = per_write;
          failing = failing.items;
          calls = 0;
          faults = 0;
        }) }
        ensures no_room { room ≡ 0 → IsOk result }
    {
        Ok(MemSink {
            bytes: Vec::with_capacity(alloc, room)?,
            room,
            per_write,
            failing,
            calls: 0,
            faults: 0,
        })
    }

    /// The bytes taken so far, which are at most the sink's room.
    pub fn taken(&self) -> &[u8]
        ensures bytes { result.now ≡ self.now.taken }
        ensures within { length self.now.taken ≤ self.now.room }
    {
        self.bytes.as_slice()
    }
}

impl Sink for MemSink {
    ghost use Rattle.std.specs.Prelude.{Some};

    ghost taken = { λ s. Some s.taken };

    ghost faults = { λ s. s.faults };

    ghost empties = { λ _. 0 };

    fn write(&mut self, bytes: &[u8]) -> Result<usize, Failed>
        requires { 0 < length bytes.now }
        ensures bound { WritesAtMost result bytes.now }
        ensures bytes { WriteAppends (Some self.old.taken) (Some self.new.taken) result bytes.now }
        ensures cause { HasCause self.old.faults self.new.faults result }
        ensures empty_cause { HasEmptyCause 0 0 result }

        // The exact answer, and the sink after it.
        ensures fails { IsErr result ↔ FailsToWrite self.old }
        ensures takes { IfOk result (λ count. count ≡ taken_count self.old (length bytes.now)) }
        ensures after { IfOk result (λ count. self.new ≡ record self.old {
          taken = self.old.taken ++ take count bytes.now;
          calls = raised self.old.calls;
        }) }
        ensures after_fault { OnErr result (self.new ≡ record self.old {
          calls = raised self.old.calls;
          faults = raised self.old.faults;
        }) }
    {
        self.calls = self.calls.saturating_add(1);
        let free = self.room - self.bytes.len();
        if free == 0 || self.failing.contains(&self.calls) {
            self.faults = self.faults.saturating_add(1);
            return Err(Failed);
        }
        let count = limited(self.per_write, free.min(bytes.len()));
        self.bytes.extend_from_slice(&bytes[..count]).unwrap();
        Ok(count)
    }
}
