//! What each plain cell holds.
ghost use Rattle.std.specs.Prelude.{◌≡◌, IfOk, map, nat_eq, if◌then◌else◌};
ghost use Rattle.c11_num.specs.Ranges.{TypedNumber};
ghost use Rattle.c11_events.specs.declared.cells.CellInfo.{CellInfo};
ghost use Rattle.c11_replies.specs.Changed.{AreChanged, value_next};

use c11_events::{CellInfo, EventKind};
use c11_num::{CValue, NoMemory};
use std::alloc::Global;

/// The initial values of the cells.
pub(crate) fn first_values(alloc: Global, plains: &[CellInfo]) -> Result<Vec<CValue>, NoMemory>
    ensures { IfOk result (λ values. values.items ≡ map (λ (info : CellInfo). info.initial) plains.now) }
{
    let mut values = Vec::with_capacity(alloc, plains.len())?;
    for plain in plains {
        values.push(plain.initial)?;
    }
    Ok(values)
}

// Where the cell is kept, it holds this value.
fn set_value(values: &mut [CValue], cell: u32, value: CValue)
    ensures { AreChanged (λ c old. if nat_eq cell c then value else old) values.old values.new }
{
    let place = cell as usize;
    if place < values.len() {
        values[place] = value;
    }
}

/// Adds an event of this kind to what is kept of the plain cells.
pub(crate) fn note_values(values: &mut [CValue], kind: &EventKind)
    ensures { AreChanged (value_next kind.now) values.old values.new }
{
    match kind {
        EventKind::PlainWrite { cell, value } => set_value(values, *cell, *value),
        _ => {}
    }
}
