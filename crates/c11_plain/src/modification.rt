ghost use Rattle.std.specs.Prelude.{◌≡◌, ◌+◌, ◌↔◌, ℕ, IsTrue, Some, length, slice_get};
ghost use Rattle.c11_events.specs.Events.{IsStore};
ghost use Rattle.c11_events.specs.Lawful.{IsModificationOrder};
ghost use Rattle.c11_plain.specs.Orders.{HasIfStore, IsStoreAt, HasEachStore, HasOnlyStores};

use crate::events::is_store;
use crate::orders::{has_no_repeat, stands_before};
use crate::search::{some_below, some_place};
use c11_events::Event;

// Whether x is in the order, if it is a store of the cell.
fn has_if_store(events: &[Event], cell: u32, order: &[u32], x: u32) -> bool
    ensures { IsTrue result ↔ HasIfStore events.now cell order.now x }
{
    !is_store(events, cell, x) || stands_before(order, order.len(), x)
}

// Whether the order has each store of the cell. The events' numbers are below the count.
fn has_each_store(events: &[Event], cell: u32, order: &[u32], count: u32) -> bool
    requires { count ≡ length events.now + 1 }
    ensures { IsTrue result ↔ HasEachStore events.now cell order.now }
{
    !some_below(count, |x| !has_if_store(events, cell, order, x))
}

// Whether what stands at the place is a store of the cell.
fn is_store_at(events: &[Event], cell: u32, order: &[u32], place: usize) -> bool
    ensures { IsTrue result ↔ IsStoreAt events.now cell order.now place }
{
    match order.get(place) {
        Some(x) => is_store(events, cell, *x),
        None => true,
    }
}

// Whether the order has nothing but stores of the cell.
fn has_only_stores(events: &[Event], cell: u32, order: &[u32]) -> bool
    ensures { IsTrue result ↔ HasOnlyStores events.now cell order.now }
{
    !some_place(order.len(), |i| !is_store_at(events, cell, order, i))
}

/// Whether the order has each store of the cell once and nothing else. The events' numbers are below the count.
pub(crate) fn is_modification_order(events: &[Event], cell: u32, order: &[u32], count: u32) -> bool
    requires { count ≡ length events.now + 1 }
    ensures { IsTrue result ↔ IsModificationOrder events.now cell order.now }
{
    has_no_repeat(order)
        && has_each_store(events, cell, order, count)
        && has_only_stores(events, cell, order)
}
