ghost use Rattle.std.specs.Prelude.{IfOk};
ghost use Rattle.c11_plain.specs.Relations.{AreRelations};

use crate::fences::{fenced, fenced_after, fenced_before, fenced_between, seq_cst_order};
use crate::happens::happens_before;
use crate::pairs::Pairs;
use crate::tables::count_of;
use c11_events::Event;
use c11_num::NoMemory;
use std::alloc::Global;

/// The relations of a list of events that the rules speak of.
#[derive(Drop)]
pub(crate) struct Relations {
    /// One more than the number of the last event.
    pub(crate) count: u32,
    /// What happens before what.
    pub(crate) before: Pairs,
    /// The order of the seq_cst events.
    pub(crate) seq_cst: Pairs,
    pub(crate) fence_before: Pairs,
    pub(crate) fence_after: Pairs,
    pub(crate) fence_between: Pairs,
    /// The three ways through fences together.
    pub(crate) fenced: Pairs,
}

/// The relations of the events.
pub(crate) fn relations_of(alloc: Global, events: &[Event]) -> Result<Relations, NoMemory>
    ensures { IfOk result (AreRelations events.now) }
{
    Ok(Relations {
        count: count_of(events)?,
        before: happens_before(alloc, events)?,
        seq_cst: seq_cst_order(alloc, events)?,
        fence_before: fenced_before(alloc, events)?,
        fence_after: fenced_after(alloc, events)?,
        fence_between: fenced_between(alloc, events)?,
        fenced: fenced(alloc, events)?,
    })
}
