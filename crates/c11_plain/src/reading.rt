ghost use Rattle.std.specs.Prelude.{◌≤◌, ◌↔◌, IsTrue};
ghost use Rattle.c11_events.specs.Events.{IsStore, ReadsEarlier};
ghost use Rattle.c11_plain.specs.Reading.{ReadsWell};

use crate::events::is_store;
use c11_events::Event;

// Whether x is a store of the cell, and at most this number.
fn is_store_within(events: &[Event], cell: u32, x: u32, most: usize) -> bool
    ensures { IsTrue result ↔ (IsStore events.now cell x × (x ≤ most)) }
{
    x as usize <= most && is_store(events, cell, x)
}

// Whether the event at the place, from 0, reads a store of its cell with a smaller number, if it is a load.
fn reads_well(events: &[Event], event: &Event, place: usize) -> bool
    ensures { IsTrue result ↔ ReadsWell events.now event.now place }
{
    match event.kind.loaded_cell() {
        Some(cell) => is_store_within(events, cell, event.from, place),
        None => true,
    }
}

/// Whether each load reads an earlier store of its cell.
pub fn reads_earlier(events: &[Event]) -> bool
    ensures { IsTrue result ↔ ReadsEarlier events.now }
{
    for (place, event) in events.iter().enumerate() {
        if !reads_well(events, event, place) {
            return false;
        }
    }
    true
}
