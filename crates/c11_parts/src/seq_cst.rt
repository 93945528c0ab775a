//! The tables of seq_cst stores and fences.
ghost use Rattle.std.specs.Prelude.{◌≡◌, ◌<◌, ℕ, Some, IfOk};
ghost use Rattle.c11_events.specs.Events.{stored_cell};
ghost use Rattle.c11_scorder.specs.Tables.{cells_of, threads_of};

use super::mismatch::Mismatch;
use super::row::{Row, int};
use c11_events::{Event, EventKind, Order};
use c11_num::RmwKind;
use c11_scorder::ScOrder;
use c11_tables::Part;
use std::alloc::Global;

/// What one of three threads does, with one of two cells.
#[derive(Clone, Copy, Debug)]
pub enum Act {
    Init(u32),
    Load(u32, Order),
    Store(u32, Order),
    Add(u32, Order),
    Fence(Order),
    Begin,
}

fn event(number: u32, thread: u32, act: Act) -> Event
    ensures number { result.number ≡ number }
    ensures thread { result.thread ≡ thread }
    ensures cell { (cell : ℕ) → stored_cell result.kind ≡ Some cell → cell < 2 }
{
    let value = int(1);
    let kind = match act {
        Act::Init(cell) => EventKind::Init {
            cell: cell % 2,
            value,
        },
        Act::Load(cell, order) => EventKind::AtomicLoad { cell, order },
        Act::Store(cell, order) => EventKind::AtomicStore {
            cell: cell % 2,
            order,
            value,
        },
        Act::Add(cell, order) => EventKind::Rmw {
            cell: cell % 2,
            order,
            kind: RmwKind::Add,
            operand: value,
        },
        Act::Fence(order) => EventKind::Fence { order },
        Act::Begin => EventKind::Begin,
    };
    Event {
        number,
        thread,
        kind,
        from: 0,
    }
}

/// Notes what the threads do, in its order.
pub fn noted(alloc: Global, acts: &[(u32, Act)]) -> Result<ScOrder, Mismatch>
    ensures cells { IfOk result (λ order. cells_of order ≡ 2) }
    ensures threads { IfOk result (λ order. threads_of order ≡ 3) }
{
    let mut order = ScOrder::open(alloc, 2, 3, 32)?;
    for place in 0..acts.len().min(32) {
        let (thread, act) = acts[place];
        order.note(&event(place as u32 + 1, thread % 3, act));
    }
    Ok(order)
}

/// `THREAD`, and `init CELL`, `load CELL ORDER`, `store CELL ORDER`, `add CELL ORDER`, `fence ORDER` or `begin`.
fn act_of(row: &Row) -> Result<(u32, Act), Mismatch> {
    match row.words() {
        [thread, "init", cell] => Ok((row.below(thread, 3)?, Act::Init(row.cell(cell)?))),
        [thread, "load", cell, order] => Ok((
            row.below(thread, 3)?,
            Act::Load(row.cell(cell)?, row.order(order)?),
        )),
        [thread, "store", cell, order] => Ok((
            row.below(thread, 3)?,
            Act::Store(row.cell(cell)?, row.order(order)?),
        )),
        [thread, "add", cell, order] => Ok((
            row.below(thread, 3)?,
            Act::Add(row.cell(cell)?, row.order(order)?),
        )),
        [thread, "fence", order] => Ok((row.below(thread, 3)?, Act::Fence(row.order(order)?))),
        [thread, "begin"] => Ok((row.below(thread, 3)?, Act::Begin)),
        _ => Err(row.unread()),
    }
}

/// `last store CELL EVENT` and `last fence THREAD EVENT`: the last seq_cst store of the cell, and the last seq_cst fence of the
/// thread. `last store CELL by THREAD before FENCE EVENT`: the last store that the fence holds. The event may be `none`.
fn ask(alloc: Global, acts: &[(u32, Act)], row: &Row) -> Result<(), Mismatch> {
    let order = noted(alloc, acts)?;
    match row.words() {
        ["last", "store", cell, event] => {
            let found = order.last_store(row.cell(cell)?);
            row.expect(&found, &row.some_number(event)?)
        }
        ["last", "fence", thread, event] => {
            let found = order.last_fence(row.below(thread, 3)?);
            row.expect(&found, &row.some_number(event)?)
        }
        ["last", "store", cell, "by", thread, "before", fence, event] => {
            let thread = row.below(thread, 3)?;
            let found = order.store_before_fence(row.cell(cell)?, thread, row.number(fence)?);
            row.expect(&found, &row.some_number(event)?)
        }
        _ => Err(row.unread()),
    }
}

/// What comes first: the next event is the 8th.
const FIRST_EVENTS: &str = "0 init x,0 init y,0 begin,0 begin,0 begin,1 begin,2 begin";

fn begin(alloc: Global, acts: &mut Vec<(u32, Act)>) -> Result<(), Mismatch> {
    for event in FIRST_EVENTS.split(',') {
        let row = Row::new(alloc, 0, event)?;
        acts.push(act_of(&row)?)?;
    }
    Ok(())
}

/// `two cells`, which says what comes first, and then events, each behind its thread, and questions with their answers.
pub fn play(alloc: Global, part: &mut Part, lines: &str) -> Result<(), Mismatch> {
    let mut acts = Vec::new(alloc);
    for line in lines.lines() {
        let row = Row::new(alloc, part.next(), line)?;
        match row.words() {
            ["two", "cells"] if acts.is_empty() => begin(alloc, &mut acts)?,
            ["last", ..] => ask(alloc, acts.as_slice(), &row)?,
            _ if acts.len() < 32 => acts.push(act_of(&row)?)?,
            _ => return Err(row.unread()),
        }
    }
    Ok(())
}
