ghost use Rattle.std.specs.Prelude.{◌≡◌, ◌+◌, ◌↔◌, ℕ, IsTrue, Some, length};
ghost use Rattle.c11_events.specs.Events.{IsStore, IsLoad};
ghost use Rattle.c11_events.specs.Lawful.{Precedes, IsNext};
ghost use Rattle.c11_plain.specs.Pairs.{Holds};
ghost use Rattle.c11_plain.specs.Rules.{WritesInOrder, ReadsNoOlder, ReadsNoOlderThan, WritesAfterReads, ReadsInOrder, ReadInOrder, RmwsAdjoin};

use crate::events::{event_at, is_store};
use crate::orders::{is_next, precedes};
use crate::pairs::Pairs;
use crate::search::some_below;
use c11_events::Event;

/// What the load of the cell reads.
pub(crate) fn load_of(events: &[Event], cell: u32, l: u32) -> Option<u32>
    ensures { (x : ℕ) → (result ≡ Some x) ↔ IsLoad events.now cell l x }
{
    let event = event_at(events, l)?;
    if event.kind.loaded_cell() == Some(cell) {
        Some(event.from)
    } else {
        None
    }
}

// Whether x does not stand before a, if a is a store of the cell.
fn is_no_older(events: &[Event], cell: u32, order: &[u32], x: u32, a: u32) -> bool
    ensures { IsTrue result ↔ (IsStore events.now cell a → Precedes order.now x a → ⊥) }
{
    !is_store(events, cell, a) || !precedes(order, x, a)
}

// Whether x stands before b, if b is a store of the cell.
fn is_older(events: &[Event], cell: u32, order: &[u32], x: u32, b: u32) -> bool
    ensures { IsTrue result ↔ (IsStore events.now cell b → Precedes order.now x b) }
{
    !is_store(events, cell, b) || precedes(order, x, b)
}

// Whether b stands right behind x, if b is a store of the cell.
fn adjoins(events: &[Event], cell: u32, order: &[u32], x: u32, b: u32) -> bool
    ensures { IsTrue result ↔ (IsStore events.now cell b → IsNext order.now x b) }
{
    !is_store(events, cell, b) || is_next(order, x, b)
}

// Whether the load k reads nothing that stands before x.
fn reads_no_older(events: &[Event], cell: u32, order: &[u32], x: u32, k: u32) -> bool
    ensures { IsTrue result ↔ ((y : ℕ) → IsLoad events.now cell k y → Precedes order.now y x → ⊥) }
{
    match load_of(events, cell, k) {
        Some(y) => !precedes(order, y, x),
        None => true,
    }
}

// Whether a stands before b in the order, if both are stores of the cell.
fn write_write(events: &[Event], cell: u32, order: &[u32], a: u32, b: u32) -> bool
    ensures { IsTrue result ↔ (IsStore events.now cell a → IsStore events.now cell b → Precedes order.now a b) }
{
    !is_store(events, cell, a) || is_older(events, cell, order, a, b)
}

// Whether the load l reads nothing older than a, if a is a store of the cell.
fn write_read(events: &[Event], cell: u32, order: &[u32], a: u32, l: u32) -> bool
    ensures { IsTrue result ↔ ReadsNoOlderThan events.now cell order.now a l }
{
    match load_of(events, cell, l) {
        Some(x) => is_no_older(events, cell, order, x, a),
        None => true,
    }
}

// Whether b stands behind what the load l reads, if b is a store of the cell.
fn read_write(events: &[Event], cell: u32, order: &[u32], l: u32, b: u32) -> bool
    ensures { IsTrue result ↔ ((x : ℕ) → IsLoad events.now cell l x → IsStore events.now cell b → Precedes order.now x b) }
{
    match load_of(events, cell, l) {
        Some(x) => is_older(events, cell, order, x, b),
        None => true,
    }
}

// Whether the load k reads nothing older than the load l.
fn read_read(events: &[Event], cell: u32, order: &[u32], l: u32, k: u32) -> bool
    ensures { IsTrue result ↔ ReadInOrder events.now cell order.now l k }
{
    match load_of(events, cell, l) {
        Some(x) => reads_no_older(events, cell, order, x, k),
        None => true,
    }
}

// Whether b stands right behind what it reads, if it is a read-modify-write of the cell.
fn rmw_adjoins(events: &[Event], cell: u32, order: &[u32], b: u32) -> bool
    ensures { IsTrue result ↔ ((x : ℕ) → IsLoad events.now cell b x → IsStore events.now cell b → IsNext order.now x b) }
{
    match load_of(events, cell, b) {
        Some(x) => adjoins(events, cell, order, x, b),
        None => true,
    }
}

/// Whether of two stores of a pair the first always stands first.
pub(crate) fn writes_in_order(events: &[Event], cell: u32, order: &[u32], table: &Pairs) -> bool
    ensures { IsTrue result ↔ WritesInOrder events.now cell order.now (Holds table.now) }
{
    table.all(|a, b| write_write(events, cell, order, a, b))
}

/// Whether no load reads something older than a store that the table pairs with it.
pub(crate) fn all_read_no_older(events: &[Event], cell: u32, order: &[u32], table: &Pairs) -> bool
    ensures { IsTrue result ↔ ReadsNoOlder events.now cell order.now (Holds table.now) }
{
    table.all(|a, l| write_read(events, cell, order, a, l))
}

/// Whether each store that the table pairs with a load stands behind what the load reads.
pub(crate) fn writes_after_reads(events: &[Event], cell: u32, order: &[u32], table: &Pairs) -> bool
    ensures { IsTrue result ↔ WritesAfterReads events.now cell order.now (Holds table.now) }
{
    table.all(|l, b| read_write(events, cell, order, l, b))
}

/// Whether of two loads of a pair the second never reads something older than the first.
pub(crate) fn reads_in_order(events: &[Event], cell: u32, order: &[u32], table: &Pairs) -> bool
    ensures { IsTrue result ↔ ReadsInOrder events.now cell order.now (Holds table.now) }
{
    table.all(|l, k| read_read(events, cell, order, l, k))
}

/// Whether each read-modify-write stands right behind what it reads. The events' numbers are below the count.
pub(crate) fn rmws_adjoin(events: &[Event], cell: u32, order: &[u32], count: u32) -> bool
    requires { count ≡ length events.now + 1 }
    ensures { IsTrue result ↔ RmwsAdjoin events.now cell order.now }
{
    !some_below(count, |b| !rmw_adjoins(events, cell, order, b))
}
