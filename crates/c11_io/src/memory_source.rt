ghost use Rattle.std.specs.Prelude.{◌≡◌, ◌↔◌, ◌<◌, length, drop, IsErr, IfOk, OnErr};
ghost use Rattle.std.specs.Io.{ReadsAtMost};
ghost use Rattle.std.specs.Io.KnownBytes.{ReadConsumes};
ghost use Rattle.c11_io.specs.Causes.{HasCause, raised};
ghost use Rattle.c11_io.specs.Memory.{FailsToRead, given_count, limited};

use crate::source::{Failed, Source};
use crate::sure::SureSource;
use std::marker::Model;

/// Bytes in memory, read in parts, with faults at chosen calls.
#[derive(Debug, Drop)]
pub struct MemSource {
    bytes: SureSource,
    per_read: usize,
    failing: Vec<u64>,
    calls: u64,
    faults: u64,
}

impl Model for MemSource {
    ghost use Rattle.c11_io.specs.Memory.{MemorySource};

    ghost Value = { MemorySource };

    ghost view = { λ s. record {
      left = s.bytes;
      per_read = s.per_read;
      failing = s.failing.items;
      calls = s.calls;
      faults = s.faults;
    } };
}

impl MemSource {
    /// A source of `bytes` that gives at most `per_read` bytes a call, where 0 is no limit, and
    /// fails at the calls whose numbers, counted from 1, stand in `failing`. A call that fails
    /// is counted too. The count of calls stands still at the largest `u64`.
    pub fn new(bytes: Vec<u8>, per_read: usize, failing: Vec<u64>) -> MemSource
        ensures { result ≡ record {
          left = bytes.items;
          per_read = per_read;
          failing = failing.items;
          calls = 0;
          faults = 0;
        } }
    {
        MemSource {
            bytes: SureSource::new(bytes),
            per_read,
            failing,
            calls: 0,
            faults: 0,
        }
    }
}

impl Source for MemSource {
    ghost use Rattle.std.specs.Prelude.{Some};

    ghost left = { λ s. Some s.left };

    ghost faults = { λ s. s.faults };

    fn read(&mut self, into: &mut [u8]) -> Result<usize, Failed>
        requires { 0 < length into.old }
        ensures bound { ReadsAtMost result into.new }
        ensures bytes { ReadConsumes (Some self.old.left) (Some self.new.left) result into.new }
        ensures cause { HasCause self.old.faults self.new.faults result }

        // The exact answer, and the source after it.
        ensures fails { IsErr result ↔ FailsToRead self.old }
        ensures gives { IfOk result (λ count. count ≡ given_count self.old (length into.old)) }
        ensures after { IfOk result (λ count. self.new ≡ record self.old {
          left = drop count self.old.left;
          calls = raised self.old.calls;
        }) }
        ensures after_fault { OnErr result (self.new ≡ record self.old {
          calls = raised self.old.calls;
          faults = raised self.old.faults;
        }) }
    {
        self.calls = self.calls.saturating_add(1);
        if self.failing.contains(&self.calls) {
            self.faults = self.faults.saturating_add(1);
            return Err(Failed);
        }
        let most = limited(self.per_read, into.len());
        self.bytes.read(&mut into[..most])
    }
}

/// At most `most` of `count` bytes, where 0 is no limit.
pub(crate) fn limited(most: usize, count: usize) -> usize
    ensures { result ≡ limited most count }
{
    if most == 0 { count } else { most.min(count) }
}
