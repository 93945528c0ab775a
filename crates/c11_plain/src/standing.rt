ghost use Rattle.std.specs.Prelude.{◌≡◌, ◌<◌, ◌+◌, ◌↔◌, ℕ, IsTrue, MatchOption, length};
ghost use Rattle.c11_events.specs.Events.{IsStore, IsRmw, ReadsEarlier};
ghost use Rattle.c11_plain.specs.ChainParts.{HasRank, InChain, KeepsRank, IsLone, IsLoneBelow};

use crate::events::{is_rmw, is_store};
use crate::ranks::Rank;
use crate::rules::load_of;
use crate::search::some_below;
use c11_events::Event;

/// Where x stands in its chain, if it is a store of the cell.
pub(crate) fn rank_of(events: &[Event], cell: u32, x: u32) -> Option<Rank>
    requires { ReadsEarlier events.now }
    ensures { MatchOption result (IsStore events.now cell x → ⊥) (HasRank events.now cell x) }
{
    if !is_store(events, cell, x) {
        return None;
    }
    match load_of(events, cell, x) {
        Some(y) => match rank_of(events, cell, y) {
            Some(before) => Some(Rank {
                head: before.head,
                rank: before.rank + 1,
            }),
            None => None,
        },
        None => Some(Rank { head: x, rank: 0 }),
    }
}

/// Whether x is in the chain that h begins.
pub(crate) fn in_chain(events: &[Event], cell: u32, h: u32, x: u32) -> bool
    requires { ReadsEarlier events.now }
    ensures { IsTrue result ↔ InChain events.now cell h x }
{
    match rank_of(events, cell, x) {
        Some(rank) => rank.head == h,
        None => false,
    }
}

// Whether the first stands behind the second in one chain.
fn is_behind(first: Rank, second: Rank) -> bool
    ensures { IsTrue result ↔ ((first.head ≡ second.head) × (second.rank < first.rank)) }
{
    first.head == second.head && second.rank < first.rank
}

/// Whether a is not behind b in their chain.
pub(crate) fn keeps_rank(events: &[Event], cell: u32, a: u32, b: u32) -> bool
    requires { ReadsEarlier events.now }
    ensures { IsTrue result ↔ KeepsRank events.now cell a b }
{
    match rank_of(events, cell, a) {
        Some(first) => match rank_of(events, cell, b) {
            Some(second) => !is_behind(first, second),
            None => true,
        },
        None => true,
    }
}

// Whether b and c are one, if both are read-modify-writes that read x.
fn is_one(events: &[Event], cell: u32, b: u32, c: u32, x: u32) -> bool
    ensures { IsTrue result ↔ (IsRmw events.now cell b x → IsRmw events.now cell c x → b ≡ c) }
{
    b == c || !is_rmw(events, cell, b, x) || !is_rmw(events, cell, c, x)
}

// Whether b and c are one, if they are read-modify-writes that read the same store.
fn is_lone(events: &[Event], cell: u32, b: u32, c: u32) -> bool
    ensures { IsTrue result ↔ IsLone events.now cell b c }
{
    match load_of(events, cell, b) {
        Some(x) => is_one(events, cell, b, c, x),
        None => true,
    }
}

// The same of b and each number below the count.
fn is_lone_below(events: &[Event], cell: u32, count: u32, b: u32) -> bool
    ensures { IsTrue result ↔ IsLoneBelow events.now cell count b }
{
    !some_below(count, |c| !is_lone(events, cell, b, c))
}

/// Whether no two read-modify-writes of the cell read the same store. The events' numbers are below the count.
pub(crate) fn are_lone(events: &[Event], cell: u32, count: u32) -> bool
    requires { count ≡ length events.now + 1 }
    ensures { IsTrue result ↔ ((b c x : ℕ) → IsRmw events.now cell b x → IsRmw events.now cell c x → b ≡ c) }
{
    !some_below(count, |b| !is_lone_below(events, cell, count, b))
}
