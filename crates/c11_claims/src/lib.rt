//! The numbers 0, 1, 2, .., which workers claim, each once, by one addition to one shared word.
//!
//! Each worker has a seat, and claims until a number is not below the count. Who has gathered all seats at the end holds
//! each number below the count exactly once. No call waits.
#![tactic(auto)]

ghost use Rattle.std.specs.Prelude.{◌≡◌, ℕ, ◌+◌, ◌-◌, ◌<◌, ◌≤◌, [], ◌∷◌, ◌++◌, length, All, IfOk, IfSome, IfNone};
ghost use Rattle.c11_claims.specs.Claims.{hand, beyond, HoldsEachOnce};

mod rule;
#[cfg(test)]
mod tests;

use crate::rule::{Both, Next, Numbers, OneShare, View};
use atomic_table::{Seat, Table};
use c11_num::NoMemory;
use std::alloc::Global;
use std::marker::Model;

/// What the workers share. Contracts see which counter it is, and the count below which its numbers are to be claimed.
#[derive(Drop)]
pub struct Claims {
    table: Table<u8, View, u64, Numbers, Global>,
    count: u64,
}

impl Model for Claims {
    ghost use Rattle.std.specs.Prelude.{◌≡◌, ◌≤◌};
    ghost use Rattle.c11_claims.specs.Claims.{Counter, counter};

    ghost Value = { Counter };

    ghost view = { λ c. counter c.table.shared.table_id c.count };

    ghost invariant = { λ c. (c.table.shared.table_id.words ≡ 1) × (c.table.shared.table_id.slots ≡ 0) × (c.count ≤ 1000000) };
}

/// A worker's seat. Contracts see whose it is, the shares that it has of all 64, and the numbers that it claimed, in order.
#[derive(Drop)]
pub struct Claimer {
    seat: Seat<u8, View>,
}

impl Model for Claimer {
    ghost use Rattle.std.specs.Prelude.{◌≡◌, ◌<◌, []};
    ghost use Rattle.c11_claims.specs.Claims.{Hand, counter, hand};

    ghost Value = { Hand };

    ghost view = { λ c. hand (counter c.seat.table_id c.seat.me.0.count) c.seat.me.0.shares c.seat.me.0.claimed };

    ghost invariant = { λ c. (c.seat.me.1 ≡ []) × (0 < c.seat.me.0.shares) };
}

impl Claims {
    /// A counter for the numbers below a count of at most 1,000,000, and the seat that has all shares. Nothing is claimed yet.
    ///
    /// The only error is that memory ran out.
    pub fn open(alloc: Global, count: u64) -> Result<(Claims, Claimer), NoMemory>
        requires { count ≤ 1000000 }
        ensures claims { IfOk result (λ r. r.0.count ≡ count) }
        ensures claimer { IfOk result (λ r. r.1 ≡ hand r.0 64 []) }
    {
        let (table, seat) = Table::of_words(alloc, &[0], &count)?;
        Ok((Claims { table, count }, Claimer { seat }))
    }

    /// A seat for one more worker, which gets one share of this one's and no number. This one keeps at least as many shares
    /// as it holds numbers that are not below the count, and at least one.
    pub fn another(&self, claimer: &mut Claimer) -> Claimer
        requires here { claimer.old.claims ≡ self.now }
        requires shares { 2 ≤ claimer.old.shares }
        requires room { beyond self.now.count claimer.old.claimed < claimer.old.shares }
        ensures old { claimer.new ≡ hand self.now (claimer.old.shares - 1) claimer.old.claimed }
        ensures new { result ≡ hand self.now 1 [] }
    {
        Claimer {
            seat: self.table.shared.split_seat::<OneShare>(&mut claimer.seat),
        }
    }

    /// The next number, or `None` if it is not below the count. The seat holds it then too, and may claim no more. It is at most 63
    /// above the count, whoever claims.
    pub fn claim(&self, claimer: &mut Claimer) -> Option<u64>
        requires here { claimer.old.claims ≡ self.now }
        requires going { beyond self.now.count claimer.old.claimed ≡ 0 }
        ensures some { IfSome result (λ n. (n < self.now.count)
            × (claimer.new ≡ hand self.now claimer.old.shares (claimer.old.claimed ++ n ∷ []))) }
        ensures none { IfNone result ((m : ℕ) × (self.now.count ≤ m) × (m < self.now.count + 64)
            × (claimer.new ≡ hand self.now claimer.old.shares (claimer.old.claimed ++ m ∷ []))) }

        // A claim is larger than those before it, and no less than how many they are: so a worker's loop ends.
        ensures larger { IfSome result (λ n. All (λ m. m < n) claimer.old.claimed) }
        ensures fewer { IfSome result (λ n. length claimer.old.claimed ≤ n) }

        // What the next claim asks, and the end.
        ensures going { IfSome result (λ _. beyond self.now.count claimer.new.claimed ≡ 0) }
        ensures ended { IfNone result (beyond self.now.count claimer.new.claimed ≡ 1) }
    {
        let number = self.table.shared.fetch_add::<Next>(&mut claimer.seat, 0, 1);
        if number < self.count {
            Some(number)
        } else {
            None
        }
    }

    /// Takes in the other seat, with its shares and its numbers.
    pub fn gather(&self, claimer: &mut Claimer, other: Claimer)
        requires here { claimer.old.claims ≡ self.now }
        requires other { other.claims ≡ self.now }
        ensures { claimer.new ≡ hand self.now (claimer.old.shares + other.shares) (claimer.old.claimed ++ other.claimed) }
    {
        let Claimer { seat } = other;
        self.table.shared.join_seat::<Both>(&mut claimer.seat, seat);
    }

    /// Ends the claims by the seat with all shares, once some number claimed is not below the count. So each number below
    /// the count was claimed, and none twice.
    pub fn close(self, claimer: Claimer)
        requires here { claimer.claims ≡ self }
        requires all { claimer.shares ≡ 64 }
        requires ended { 0 < beyond self.count claimer.claimed }
        ensures { HoldsEachOnce self.count claimer.claimed }
    {
        let Claims { table, count: _ } = self;
        let Claimer { seat } = claimer;
        let closed = table.close_with(seat);
        closed.free();
    }
}
