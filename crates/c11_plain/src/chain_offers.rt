ghost use Rattle.std.specs.Prelude.{◌≡◌, ◌↔◌, [], IsTrue, IfOk, MatchOption};
ghost use Rattle.c11_events.specs.Offered.{op_cell, op_reading, IsChainOffered, ChainOffered};

use crate::chain_lawful::is_chain_lawful;
use crate::copies::extended;
use crate::events::is_store;
use crate::operations;
use crate::tables::count_of;
use c11_events::{Event, Op};
use c11_num::NoMemory;
use std::alloc::Global;

// Whether x is a store of the cell that the thread's operation may read by the chains.
fn is_chain_offered(
    alloc: Global,
    events: &[Event],
    thread: u32,
    op: &Op,
    cell: u32,
    x: u32,
) -> Result<bool, NoMemory>
    ensures { IfOk result (λ offered. IsTrue offered ↔ IsChainOffered events.now thread (op_reading events.now op.now) cell x) }
{
    if !is_store(events, cell, x) {
        return Ok(false);
    }
    let longer = extended(alloc, events, thread, op, x)?;
    is_chain_lawful(alloc, longer.as_slice())
}

// The stores of the cell that the thread's operation may read by the chains.
fn chain_offered_of(
    alloc: Global,
    events: &[Event],
    thread: u32,
    op: &Op,
    cell: u32,
) -> Result<Vec<u32>, NoMemory>
    ensures { IfOk result (λ offers. ChainOffered events.now thread (op_reading events.now op.now) cell offers.items) }
{
    let count = count_of(events)?;
    let mut offers = Vec::new(alloc);
    for x in 0..count {
        if is_chain_offered(alloc, events, thread, op, cell, x)? {
            offers.push(x)?;
        }
    }
    Ok(offers)
}

/// The stores that the thread's operation may read by the chains, in rising order, as `offered` has them. None where the
/// operation reads no atomic cell. `Err` only where memory runs out.
pub fn chain_offered(
    alloc: Global,
    events: &[Event],
    thread: u32,
    op: &Op,
) -> Result<Vec<u32>, NoMemory>
    ensures { IfOk result (λ offers. MatchOption (op_cell op.now) (offers.items ≡ []) (λ cell. ChainOffered events.now thread (op_reading events.now op.now) cell offers.items)) }
{
    match operations::op_cell(op) {
        Some(cell) => chain_offered_of(alloc, events, thread, op, cell),
        None => Ok(Vec::new(alloc)),
    }
}
