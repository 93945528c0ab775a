ghost use Rattle.std.specs.Prelude.{◌≡◌, ◌↔◌, ◌∷◌, ◌++◌, [], IsTrue, IfOk};
ghost use Rattle.c11_events.specs.Lawful.{Consistent};
ghost use Rattle.c11_plain.specs.Relations.{AreRelations};
ghost use Rattle.c11_plain.specs.Consistency.{MayStand, Extends, HasOrder, HasOrders};

use crate::events::is_store;
use crate::lawful::keeps_all;
use crate::orders::stands_before;
use crate::reading::reads_earlier;
use crate::relations::{Relations, relations_of};
use c11_events::Event;
use c11_num::NoMemory;
use std::alloc::Global;

// The order with one store more.
fn with_last(alloc: Global, order: &[u32], x: u32) -> Result<Vec<u32>, NoMemory>
    ensures { IfOk result (λ longer. longer.items ≡ order.now ++ x ∷ []) }
{
    let mut longer = Vec::from_slice(alloc, order)?;
    longer.push(x)?;
    Ok(longer)
}

// Whether x is a store of the cell that is not in the order.
fn may_stand(events: &[Event], cell: u32, order: &[u32], x: u32) -> bool
    ensures { IsTrue result ↔ MayStand events.now cell order.now x }
{
    is_store(events, cell, x) && !stands_before(order, order.len(), x)
}

// Whether the order can be made a lawful one by so many further stores or fewer.
fn extends(
    alloc: Global,
    events: &[Event],
    all: &Relations,
    cell: u32,
    order: &[u32],
    depth: u32,
) -> Result<bool, NoMemory>
    requires { AreRelations events.now all.now }
    ensures { IfOk result (λ found. IsTrue found ↔ Extends events.now cell order.now depth) }
{
    if keeps_all(events, all, cell, order) {
        return Ok(true);
    }
    if depth == 0 {
        return Ok(false);
    }
    for x in 0..all.count {
        if may_stand(events, cell, order, x) {
            let longer = with_last(alloc, order, x)?;
            if extends(alloc, events, all, cell, longer.as_slice(), depth - 1)? {
                return Ok(true);
            }
        }
    }
    Ok(false)
}

// Whether the cell has a lawful modification order.
fn has_order(alloc: Global, events: &[Event], all: &Relations, cell: u32) -> Result<bool, NoMemory>
    requires { AreRelations events.now all.now }
    ensures { IfOk result (λ found. IsTrue found ↔ HasOrder events.now cell) }
{
    extends(alloc, events, all, cell, &[], all.count)
}

// Whether the cell that the event stores to has a lawful modification order.
fn has_order_of(
    alloc: Global,
    events: &[Event],
    all: &Relations,
    event: &Event,
) -> Result<bool, NoMemory>
    requires { AreRelations events.now all.now }
    ensures { IfOk result (λ found. IsTrue found ↔ HasOrders events.now event.now) }
{
    match event.kind.stored_cell() {
        Some(cell) => has_order(alloc, events, all, cell),
        None => Ok(true),
    }
}

/// Whether each load reads an earlier store, and each cell has a lawful modification order. Tries all orders of each cell's
/// stores. `Err` only where memory runs out.
pub fn is_consistent(alloc: Global, events: &[Event]) -> Result<bool, NoMemory>
    ensures { IfOk result (λ consistent. IsTrue consistent ↔ Consistent events.now) }
{
    if !reads_earlier(events) {
        return Ok(false);
    }
    let all = relations_of(alloc, events)?;
    for event in events {
        if !has_order_of(alloc, events, &all, event)? {
            return Ok(false);
        }
    }
    Ok(true)
}
