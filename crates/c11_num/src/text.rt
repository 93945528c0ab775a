ghost use Rattle.std.specs.Prelude.{◌≡◌, ◌<◌, IfOk, All};

use crate::memory::NoMemory;
use std::marker::Model;

/// A list of bytes, which contracts see as a list.
#[derive(Debug, Drop)]
pub struct Bytes {
    bytes: Vec<u8>,
}

impl Model for Bytes {
    ghost use Rattle.std.specs.Prelude.{List, ℕ};

    ghost Value = { List ℕ };

    ghost view = { λ b. b.bytes.items };
}

impl Bytes {
    /// These bytes. It takes no memory.
    pub fn new(bytes: Vec<u8>) -> Bytes
        ensures { result ≡ bytes.items }
    {
        Bytes { bytes }
    }

    /// The bytes as a slice.
    pub fn as_slice(&self) -> &[u8]
        ensures { result.now ≡ self.now }
    {
        self.bytes.as_slice()
    }

    /// The same bytes again, on the same allocator.
    pub fn copy(&self) -> Result<Bytes, NoMemory>
        ensures { IfOk result (λ copy. copy ≡ self.now) }
    {
        match Vec::from_slice(*self.bytes.allocator(), self.bytes.as_slice()) {
            Ok(bytes) => Ok(Bytes { bytes }),
            Err(_) => Err(NoMemory),
        }
    }
}

/// A word of ASCII bytes, which contracts see as a list.
#[derive(Debug, Drop)]
pub struct Name {
    bytes: Vec<u8>,
}

impl Model for Name {
    ghost use Rattle.std.specs.Prelude.{List, ℕ, All, ◌<◌};

    ghost Value = { List ℕ };

    ghost view = { λ n. n.bytes.items };

    ghost invariant = { λ n. All (λ byte. byte < 128) n.bytes.items };
}

impl Name {
    /// The word of these bytes, each of them ASCII. It takes no memory.
    pub fn new(bytes: Vec<u8>) -> Name
        requires { All (λ byte. byte < 128) bytes.items }
        ensures { result ≡ bytes.items }
    {
        Name { bytes }
    }

    /// The word's bytes as a slice.
    pub fn as_slice(&self) -> &[u8]
        ensures bytes { result.now ≡ self.now }
        ensures ascii { All (λ byte. byte < 128) self.now }
    {
        self.bytes.as_slice()
    }

    /// The same word again, on the same allocator.
    pub fn copy(&self) -> Result<Name, NoMemory>
        ensures { IfOk result (λ copy. copy ≡ self.now) }
    {
        match Vec::from_slice(*self.bytes.allocator(), self.bytes.as_slice()) {
            Ok(bytes) => Ok(Name { bytes }),
            Err(_) => Err(NoMemory),
        }
    }
}
