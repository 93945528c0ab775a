//! The rule of the word and the seats, and the three kinds of step.

use atomic_table::{Join, Play, Split, TableRule};
use std::collections::LinkedList;

/// What a seat knows: the count, its shares, and the numbers that it claimed. No value of it is made.
pub struct View {
    pub count: u64,
    pub shares: u64,
    pub claimed: LinkedList<u64>,
}

/// The numbers below the word are claimed, each once. The table is told the count.
pub struct Numbers;

impl TableRule<u8, View, u64> for Numbers {
    ghost use Rattle.std.specs.Prelude.{[]};
    ghost use Rattle.c11_claims.specs.Claims.{IsClaimed, view_of};

    ghost holds = { λ _ s. IsClaimed s };

    ghost first = { λ count. view_of count 64 [] };
}

/// An addition of 1: the seat gains the number found. A seat makes it that has a share, and no number that is not below the
/// count.
pub struct Next;

impl Play<u8, View> for Next {
    ghost use Rattle.c11_claims.specs.Claims.{Gains};

    ghost then = { λ _ before found after. Gains before found after };
}

/// A new seat gets one share, the same count and no number. A seat makes it that keeps a share, and as many as it holds numbers that
/// are not below the count (`another` asks for both).
pub struct OneShare;

impl Split<View> for OneShare {
    ghost use Rattle.std.specs.Prelude.{[], ◌-◌};
    ghost use Rattle.c11_claims.specs.Claims.{view_of};

    ghost left = { λ v. view_of v.count (v.shares - 1) v.claimed };

    ghost right = { λ v. view_of v.count 1 [] };
}

/// A seat gains the numbers and shares of another, which keeps none and is spent.
pub struct Both;

impl Join<View> for Both {
    ghost use Rattle.std.specs.Prelude.{[], ◌+◌, ◌++◌};
    ghost use Rattle.c11_claims.specs.Claims.{view_of};

    ghost both = { λ v w. view_of v.count (v.shares + w.shares) (v.claimed ++ w.claimed) };

    ghost spent = { view_of 0 0 [] };
}
