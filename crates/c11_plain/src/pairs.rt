ghost use Rattle.std.specs.Prelude.{◌≡◌, ◌*◌, vec_len};

use crate::search::some_below;
use c11_num::NoMemory;
use std::alloc::Global;

/// A relation on the numbers below a count, as a table.
#[derive(Debug, Drop)]
pub struct Pairs {
    count: u32,
    bits: Vec<bool>,
    ghost square: { vec_len bits ≡ count * count },
}

impl Pairs {
    ghost use Rattle.std.specs.Prelude.{◌≡◌, ℕ, ◌<◌, ◌≤◌, ◌*◌, ◌^◌, ◌↔◌, ◌⊎◌, IsTrue, IfOk};
    ghost use Rattle.c11_events.specs.Closure.{Closure};
    ghost use Rattle.c11_plain.specs.Pairs.{Holds, IsTableOf, Tabulates, Selects, AllPass};
    ghost use Rattle.c11_plain.specs.Parts.{Joined};

    /// Whether the pair of these numbers is in the relation.
    pub fn holds(&self, a: u32, b: u32) -> bool
        ensures { IsTrue result ↔ Holds self.now a b }
    {
        a < self.count && b < self.count && self.bits[a as usize * self.count as usize + b as usize]
    }

    /// The table of a test.
    pub(crate) fn new<F: Fn(u32, u32) -> bool>(
        alloc: Global,
        count: u32,
        test: F,
    ) -> Result<Pairs, NoMemory>
        requires { F.IsAlwaysCallable test }
        ensures { IfOk result (λ table. Tabulates count (F.post test) table) }
    {
        let width = count as usize;
        let mut bits = Vec::new(alloc);
        for place in 0..width * width {
            bits.push(test((place / width) as u32, (place % width) as u32))?;
        }
        Ok(Pairs { count, bits })
    }

    /// Whether each pair of the relation passes the test.
    pub(crate) fn all<F: Fn(u32, u32) -> bool>(&self, test: F) -> bool
        requires { F.IsAlwaysCallable test }
        ensures { AllPass self.now (F.post test) result }
    {
        for a in 0..self.count {
            for b in 0..self.count {
                if self.holds(a, b) && !test(a, b) {
                    return false;
                }
            }
        }
        true
    }

    /// The pairs of the relation that pass the test.
    pub(crate) fn only<F: Fn(u32, u32) -> bool>(
        &self,
        alloc: Global,
        test: F,
    ) -> Result<Pairs, NoMemory>
        requires { F.IsAlwaysCallable test }
        ensures { IfOk result (λ table. Selects self.now (F.post test) table) }
    {
        Pairs::new(alloc, self.count, |a, b| self.holds(a, b) && test(a, b))
    }

    /// The pairs that are in the one relation or in the other.
    pub(crate) fn or(&self, alloc: Global, other: &Pairs) -> Result<Pairs, NoMemory>
        ensures { IfOk result (λ table. IsTableOf table (λ a b. Holds self.now a b ⊎ Holds other.now a b)) }
    {
        Pairs::new(alloc, self.count.max(other.count), |a, b| {
            self.holds(a, b) || other.holds(a, b)
        })
    }

    /// The pairs (a, b) for which some number comes behind a in this relation and before b in the other.
    pub(crate) fn then(&self, alloc: Global, other: &Pairs) -> Result<Pairs, NoMemory>
        ensures { IfOk result (λ table. IsTableOf table (Joined (Holds self.now) (Holds other.now))) }
    {
        Pairs::new(
            alloc,
            self.count.max(other.count),
            |a, b| self.meets(other, a, b),
        )
    }

    // Whether some number comes behind a in this relation and before b in the other.
    fn meets(&self, other: &Pairs, a: u32, b: u32) -> bool
        ensures { IsTrue result ↔ Joined (Holds self.now) (Holds other.now) a b }
    {
        some_below(self.count, |k| self.holds(a, k) && other.holds(k, b))
    }

    /// The pairs that steps of the relation lead to, one or more.
    pub(crate) fn closure(&self, alloc: Global) -> Result<Pairs, NoMemory>
        ensures { IfOk result (λ table. IsTableOf table (Closure (Holds self.now))) }
    {
        let mut ways = Pairs::new(alloc, self.count, |a, b| self.holds(a, b))?;
        for k in 0..self.count {
            ways = ways.through(alloc, k)?;
        }
        Ok(ways)
    }

    // The pairs of the relation, and those that it joins at k.
    fn through(&self, alloc: Global, k: u32) -> Result<Pairs, NoMemory>
        ensures { IfOk result (λ table. IsTableOf table (λ a b. Holds self.now a b ⊎ (Holds self.now a k × Holds self.now k b))) }
    {
        Pairs::new(alloc, self.count, |a, b| {
            self.holds(a, b) || self.holds(a, k) && self.holds(k, b)
        })
    }
}
