ghost use Rattle.std.specs.Prelude.{◌<◌, List, ℕ, Option, length};
ghost use Rattle.std.specs.Io.{WritesAtMost};
ghost use Rattle.std.specs.Io.KnownBytes.{WriteAppends};
ghost use Rattle.c11_io.specs.Causes.{HasCause, HasEmptyCause};

use crate::source::Failed;

/// A stream of bytes to write.
pub trait Sink {
    /// The bytes taken so far, where the sink tells them.
    ghost taken: { Self → Option (List ℕ) };

    /// How many writes have failed.
    ghost faults: { Self → ℕ };

    /// How many writes have taken nothing and not failed.
    ghost empties: { Self → ℕ };

    /// Writes from the front of `bytes`, which is not empty, and answers how many bytes it took.
    /// After an error nothing was taken.
    fn write(&mut self, bytes: &[u8]) -> Result<usize, Failed>
        requires { 0 < length bytes.now }
        ensures bound { WritesAtMost result bytes.now }
        ensures bytes { WriteAppends (taken self.old) (taken self.new) result bytes.now }
        ensures cause { HasCause (faults self.old) (faults self.new) result }
        ensures empty_cause { HasEmptyCause (empties self.old) (empties self.new) result };
}
