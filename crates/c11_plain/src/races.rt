ghost use Rattle.std.specs.Prelude.{◌≡◌, ◌⊎◌, ◌↔◌, ℕ, IsTrue, IfOk, Some};
ghost use Rattle.c11_events.specs.HappensBefore.{HappensBefore};
ghost use Rattle.c11_events.specs.Races.{IsRead, IsWrite, Races, IsRacing};
ghost use Rattle.c11_plain.specs.Pairs.{IsTableOf};
ghost use Rattle.c11_plain.specs.Parts.{WriteConflict, ReadConflict, RacesAnywhere};

use crate::direct::same_thread;
use crate::events::event_at;
use crate::happens::happens_before;
use crate::pairs::Pairs;
use c11_events::Event;
use c11_num::NoMemory;
use std::alloc::Global;

// Whether a is a plain read of the cell.
fn is_read(events: &[Event], cell: u32, a: u32) -> bool
    ensures { IsTrue result ↔ IsRead events.now cell a }
{
    match event_at(events, a) {
        Some(event) => event.kind.read_cell() == Some(cell),
        None => false,
    }
}

// Whether a is a plain write of the cell.
fn is_write(events: &[Event], cell: u32, a: u32) -> bool
    ensures { IsTrue result ↔ IsWrite events.now cell a }
{
    match event_at(events, a) {
        Some(event) => event.kind.written_cell() == Some(cell),
        None => false,
    }
}

// Whether m is a plain write, and n a plain access of its cell.
fn write_conflict(events: &[Event], m: u32, n: u32) -> bool
    ensures { IsTrue result ↔ WriteConflict events.now m n }
{
    let Some(event) = event_at(events, m) else {
        return false;
    };
    match event.kind.written_cell() {
        Some(cell) => is_read(events, cell, n) || is_write(events, cell, n),
        None => false,
    }
}

// Whether m is a plain read, and n a plain write of its cell.
fn read_conflict(events: &[Event], m: u32, n: u32) -> bool
    ensures { IsTrue result ↔ ReadConflict events.now m n }
{
    let Some(event) = event_at(events, m) else {
        return false;
    };
    match event.kind.read_cell() {
        Some(cell) => is_write(events, cell, n),
        None => false,
    }
}

// Whether one of two plain accesses of a cell is a write.
fn conflict(events: &[Event], m: u32, n: u32) -> bool
    ensures { IsTrue result ↔ (WriteConflict events.now m n ⊎ ReadConflict events.now m n) }
{
    write_conflict(events, m, n) || read_conflict(events, m, n)
}

// Whether the earlier access m races with n.
fn races(events: &[Event], before: &Pairs, m: u32, n: u32) -> bool
    requires { IsTableOf before.now (HappensBefore events.now) }
    ensures { IsTrue result ↔ RacesAnywhere events.now m n }
{
    if n <= m || same_thread(events, m, n) || before.holds(m, n) {
        return false;
    }
    conflict(events, m, n)
}

/// The latest plain access that races with the event of this number. `Err` only where memory runs out.
pub fn racing(alloc: Global, events: &[Event], number: u32) -> Result<Option<u32>, NoMemory>
    ensures { IfOk result (λ found. (m : ℕ) → (found ≡ Some m) ↔ ((cell : ℕ) × IsRacing events.now cell number m)) }
{
    let before = happens_before(alloc, events)?;
    Ok(latest_race(events, &before, number))
}

// The latest access that races with the event.
fn latest_race(events: &[Event], before: &Pairs, number: u32) -> Option<u32>
    requires { IsTableOf before.now (HappensBefore events.now) }
    ensures { (m : ℕ) → (result ≡ Some m) ↔ ((cell : ℕ) × IsRacing events.now cell number m) }
{
    let mut latest = None;
    for m in 0..number {
        if races(events, before, m, number) {
            latest = Some(m);
        }
    }
    latest
}
