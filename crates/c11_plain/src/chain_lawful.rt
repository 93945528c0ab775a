ghost use Rattle.std.specs.Prelude.{◌↔◌, IsTrue, IfOk};
ghost use Rattle.c11_events.specs.Events.{ReadsEarlier};
ghost use Rattle.c11_events.specs.Chains.{ChainLawful};
ghost use Rattle.c11_plain.specs.Relations.{AreRelations};
ghost use Rattle.c11_plain.specs.ChainParts.{IsAcyclic, KeepsRanks, IsCellChainLawful, IsEventChainLawful};

use crate::links::{links, must_precede};
use crate::reading::reads_earlier;
use crate::relations::{Relations, relations_of};
use crate::seq_cst::seq_cst_reads;
use crate::standing::{are_lone, keeps_rank};
use c11_events::Event;
use c11_num::NoMemory;
use std::alloc::Global;

// Whether no chain of the cell is linked to itself.
fn is_acyclic(alloc: Global, events: &[Event], all: &Relations, cell: u32) -> Result<bool, NoMemory>
    requires reads { ReadsEarlier events.now }
    requires all { AreRelations events.now all.now }
    ensures { IfOk result (λ acyclic. IsTrue acyclic ↔ IsAcyclic events.now cell) }
{
    let link = links(alloc, events, all, cell)?;
    Ok(link.all(|h, k| h != k))
}

// Whether what must precede in a chain stands first in it.
fn keeps_ranks(
    alloc: Global,
    events: &[Event],
    all: &Relations,
    cell: u32,
) -> Result<bool, NoMemory>
    requires reads { ReadsEarlier events.now }
    requires all { AreRelations events.now all.now }
    ensures { IfOk result (λ kept. IsTrue kept ↔ KeepsRanks events.now cell) }
{
    let must = must_precede(alloc, events, all, cell)?;
    Ok(must.all(|a, b| keeps_rank(events, cell, a, b)))
}

// Whether the cell keeps what is asked of its chains.
fn is_cell_chain_lawful(
    alloc: Global,
    events: &[Event],
    all: &Relations,
    cell: u32,
) -> Result<bool, NoMemory>
    requires reads { ReadsEarlier events.now }
    requires all { AreRelations events.now all.now }
    ensures { IfOk result (λ lawful. IsTrue lawful ↔ IsCellChainLawful events.now cell) }
{
    let acyclic = is_acyclic(alloc, events, all, cell)?;
    let ranked = keeps_ranks(alloc, events, all, cell)?;
    if !acyclic || !ranked || !are_lone(events, cell, all.count) {
        return Ok(false);
    }
    Ok(seq_cst_reads(events, cell, &all.before, &all.seq_cst))
}

// Whether the cell that the event stores to keeps what is asked of its chains.
fn is_event_chain_lawful(
    alloc: Global,
    events: &[Event],
    all: &Relations,
    event: &Event,
) -> Result<bool, NoMemory>
    requires reads { ReadsEarlier events.now }
    requires all { AreRelations events.now all.now }
    ensures { IfOk result (λ lawful. IsTrue lawful ↔ IsEventChainLawful events.now event.now) }
{
    match event.kind.stored_cell() {
        Some(cell) => is_cell_chain_lawful(alloc, events, all, cell),
        None => Ok(true),
    }
}

/// Whether each load reads an earlier store, and the chains of each cell keep what is asked of them. `Err` only where memory
/// runs out.
pub fn is_chain_lawful(alloc: Global, events: &[Event]) -> Result<bool, NoMemory>
    ensures { IfOk result (λ lawful. IsTrue lawful ↔ ChainLawful events.now) }
{
    if !reads_earlier(events) {
        return Ok(false);
    }
    let all = relations_of(alloc, events)?;
    for event in events {
        if !is_event_chain_lawful(alloc, events, &all, event)? {
            return Ok(false);
        }
    }
    Ok(true)
}
