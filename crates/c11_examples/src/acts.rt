//! Operations and events.
ghost use Rattle.std.specs.Prelude.{◌≡◌, Some};
ghost use Rattle.c11_events.specs.Offered.{op_cell};

use c11_events::{Event, EventKind, Op, Order};
use c11_num::{CType, CValue, NoMemory, RmwKind};

pub fn int(number: i32) -> CValue {
    CValue::new(CType::Int, i128::from(number))
}

pub fn load(cell: u32, order: Order) -> Op
    ensures { op_cell result ≡ Some cell }
{
    Op::AtomicLoad { cell, order }
}

pub fn add(cell: u32, order: Order, number: i32) -> Op
    ensures { op_cell result ≡ Some cell }
{
    let operand = int(number);
    Op::Rmw {
        cell,
        order,
        kind: RmwKind::Add,
        operand,
    }
}

pub fn exchange(cell: u32, success: Order, failure: Order, expected: i32, desired: i32) -> Op
    ensures { op_cell result ≡ Some cell }
{
    let expected = int(expected);
    let desired = int(desired);
    Op::CompareExchange {
        cell,
        success,
        failure,
        weak: false,
        expected,
        desired,
    }
}

pub fn store(cell: u32, order: Order, number: i32) -> EventKind {
    let value = int(number);
    EventKind::AtomicStore { cell, order, value }
}

/// One event more, which reads no atomic cell.
pub fn push(events: &mut Vec<Event>, thread: u32, kind: EventKind) -> Result<(), NoMemory> {
    let number = u32::try_from(events.len() + 1).map_err(|_| NoMemory)?;
    events.push(Event {
        number,
        thread,
        kind,
        from: 0,
    })?;
    Ok(())
}

/// The Inits of so many cells.
pub fn push_inits(events: &mut Vec<Event>, cells: u32) -> Result<(), NoMemory> {
    for cell in 0..cells {
        let value = int(0);
        push(events, 0, EventKind::Init { cell, value })?;
    }
    Ok(())
}
