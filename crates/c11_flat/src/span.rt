ghost use Rattle.std.specs.Prelude.{◌≡◌, ◌+◌, ◌≤◌, ◌^◌};

use std::marker::Model;

/// An array: its first place, cell or mutex, and how many it has. The numbers of all of them fit 32 bits.
#[derive(Clone, Copy, Debug)]
pub struct Span {
    base: u32,
    size: u32,
}

impl Model for Span {
    ghost use Rattle.std.specs.Prelude.{◌+◌, ◌≤◌, ◌^◌};
    ghost use Rattle.c11_flat.specs.Spans as spec;

    ghost Value = { spec.Span };

    ghost view = { λ s. record { base = s.base; size = s.size } };

    ghost invariant = { λ s. s.base + s.size ≤ 2 ^ 32 };

    ghost inverse = { λ s. record { base = s.base; size = s.size } };
}

impl Span {
    /// The array of so many from this one on.
    pub fn new(base: u32, size: u32) -> Span
        requires { base + size ≤ 2 ^ 32 }
        ensures base { result.base ≡ base }
        ensures size { result.size ≡ size }
    {
        Span { base, size }
    }

    /// The first.
    pub fn base(&self) -> u32
        ensures { result ≡ self.now.base }
    {
        self.base
    }

    /// How many.
    pub fn size(&self) -> u32
        ensures size { result ≡ self.now.size }
        ensures within { self.now.base + self.now.size ≤ 2 ^ 32 }
    {
        self.size
    }
}
