ghost use Rattle.std.specs.Prelude.{◌≡◌, ◌↔◌, [], IsTrue, IfOk, MatchOption};
ghost use Rattle.c11_events.specs.Offered.{op_cell, op_reading, IsOffered, Offered};

use crate::consistent::is_consistent;
use crate::copies::extended;
use crate::events::is_store;
use crate::operations;
use crate::tables::count_of;
use c11_events::{Event, Op};
use c11_num::NoMemory;
use std::alloc::Global;

// Whether x is a store of the cell that the thread's operation may read.
fn is_offered(
    alloc: Global,
    events: &[Event],
    thread: u32,
    op: &Op,
    cell: u32,
    x: u32,
) -> Result<bool, NoMemory>
    ensures { IfOk result (λ offered. IsTrue offered ↔ IsOffered events.now thread (op_reading events.now op.now) cell x) }
{
    if !is_store(events, cell, x) {
        return Ok(false);
    }
    let longer = extended(alloc, events, thread, op, x)?;
    is_consistent(alloc, longer.as_slice())
}

// The stores of the cell that the thread's operation may read.
fn offered_of(
    alloc: Global,
    events: &[Event],
    thread: u32,
    op: &Op,
    cell: u32,
) -> Result<Vec<u32>, NoMemory>
    ensures { IfOk result (λ offers. Offered events.now thread (op_reading events.now op.now) cell offers.items) }
{
    let count = count_of(events)?;
    let mut offers = Vec::new(alloc);
    for x in 0..count {
        if is_offered(alloc, events, thread, op, cell, x)? {
            offers.push(x)?;
        }
    }
    Ok(offers)
}

/// The stores that the thread's operation may read, in rising order: for a compare-exchange both those with which it would
/// succeed and those with which it would fail. None where the operation reads no atomic cell. `Err` only where memory runs
/// out.
pub fn offered(alloc: Global, events: &[Event], thread: u32, op: &Op) -> Result<Vec<u32>, NoMemory>
    ensures { IfOk result (λ offers. MatchOption (op_cell op.now) (offers.items ≡ []) (λ cell. Offered events.now thread (op_reading events.now op.now) cell offers.items)) }
{
    match operations::op_cell(op) {
        Some(cell) => offered_of(alloc, events, thread, op, cell),
        None => Ok(Vec::new(alloc)),
    }
}
