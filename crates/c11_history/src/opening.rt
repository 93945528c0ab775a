//! What a history begins with.
ghost use Rattle.std.specs.Prelude.{◌≡◌, ◌≤◌, ◌+◌, ◌^◌, ◌<◌, [], IfOk, OnOk, length, vec_capacity};
ghost use Rattle.c11_events.specs.EventOf.{events_of};
ghost use Rattle.c11_events.specs.Replies.{Setting};
ghost use Rattle.c11_events.specs.Steps.{init_entries};
ghost use Rattle.c11_mayread.specs.Standing as reading;
ghost use Rattle.c11_replies.specs.Words as replying;
ghost use Rattle.c11_history.specs.Sound.{init_entry, HasRoomForInits};

use crate::adding::{commit, put};
use c11_events::{CellInfo, Entry, Offers, Op, Reply};
use c11_mayread::Reads;
use c11_num::{CValue, NoMemory};
use c11_replies::Replies;
use std::alloc::Global;

// The same cells again.
pub(crate) fn copy_cells(alloc: Global, cells: &[CellInfo]) -> Result<Vec<CellInfo>, NoMemory>
    ensures { IfOk result (λ copies. copies.items ≡ cells.now) }
{
    let mut copies = Vec::with_capacity(alloc, cells.len())?;
    for cell in cells {
        copies.push(cell.copy()?)?;
    }
    Ok(copies)
}

// The Init of an atomic cell.
fn init_entry(alloc: Global, cell: u32, value: CValue) -> Entry
    requires { cell + 1 < 2 ^ 32 }
    ensures { result ≡ init_entry cell value }
{
    Entry {
        number: cell + 1,
        thread: 0,
        line: 0,
        op: Op::Init { cell, value },
        reply: Reply::Done,
        from: 0,
        offered: Offers::new(Vec::new(alloc)),
    }
}

// Adds the Init of each atomic cell.
pub(crate) fn add_inits(
    alloc: Global,
    cells: &[CellInfo],
    entries: &mut Vec<Entry>,
    reads: &mut Reads,
    replies: &mut Replies,
) -> Result<(), NoMemory>
    requires few { length cells.now ≤ 4096 }
    requires empty { entries.old.items ≡ [] }
    requires fits { length cells.now ≤ vec_capacity entries.old }
    requires reads { reading.StandsFor reads.old [] }
    requires room { HasRoomForInits reads.old (length cells.now) }
    requires replies { (setting : Setting) × replying.StandsFor replies.old setting [] }
    ensures entries { OnOk result (entries.new.items ≡ init_entries cells.now) }
    ensures reads { OnOk result (reading.StandsFor reads.new (events_of (init_entries cells.now))) }
    ensures replies { OnOk result ((setting : Setting) → replying.StandsFor replies.old setting [] → replying.StandsFor replies.new setting (events_of (init_entries cells.now))) }
    ensures capacity { vec_capacity entries.old ≤ vec_capacity entries.new }
    ensures reads_counts { reading.HaveSameCounts reads.old reads.new }
    ensures replies_counts { replying.HaveSameCounts replies.old replies.new }
{
    for (cell, info) in cells.iter().enumerate() {
        let entry = init_entry(alloc, cell as u32, info.initial);
        let event = entry.event()?;
        reads.room(&entry.op)?;
        commit(reads, replies, &event);
        put(entries, entry);
    }
    Ok(())
}
