ghost use Rattle.std.specs.Prelude.{◌≡◌, ◌<◌, ◌↔◌, ℕ, IsTrue, Some, slice_get};
ghost use Rattle.c11_events.specs.Lawful.{Precedes, IsNext};
ghost use Rattle.c11_plain.specs.Orders.{StandsBefore, HasNoRepeat};

use crate::search::some_place;

/// Whether x stands at the place of the order.
pub(crate) fn stands(order: &[u32], place: usize, x: u32) -> bool
    ensures { IsTrue result ↔ (slice_get order.now place ≡ Some x) }
{
    order.get(place).copied() == Some(x)
}

/// Whether x stands before the place of the order.
pub(crate) fn stands_before(order: &[u32], place: usize, x: u32) -> bool
    ensures { IsTrue result ↔ StandsBefore order.now place x }
{
    some_place(place, |i| stands(order, i, x))
}

/// Whether x stands before y in the order.
pub(crate) fn precedes(order: &[u32], x: u32, y: u32) -> bool
    ensures { IsTrue result ↔ Precedes order.now x y }
{
    some_place(order.len(), |j| {
        stands(order, j, y) && stands_before(order, j, x)
    })
}

/// Whether y stands right behind x in the order.
pub(crate) fn is_next(order: &[u32], x: u32, y: u32) -> bool
    ensures { IsTrue result ↔ IsNext order.now x y }
{
    some_place(order.len(), |j| {
        j > 0 && stands(order, j - 1, x) && stands(order, j, y)
    })
}

// Whether what stands at the place stands before it too.
fn repeats(order: &[u32], place: usize) -> bool
    ensures { IsTrue result ↔ ((x : ℕ) × ((slice_get order.now place ≡ Some x) × StandsBefore order.now place x)) }
{
    match order.get(place) {
        Some(x) => stands_before(order, place, *x),
        None => false,
    }
}

/// Whether no number stands at two places of the order.
pub(crate) fn has_no_repeat(order: &[u32]) -> bool
    ensures { IsTrue result ↔ HasNoRepeat order.now }
{
    !some_place(order.len(), |j| repeats(order, j))
}
