//! The links that an event adds to the graph.
ghost use Rattle.std.specs.Prelude.{◌≡◌, ◌<◌, ◌≤◌, ◌*◌, ◌+◌, ◌++◌, ◌∷◌, [], ℕ, List, Some, true, length, vec_capacity};
ghost use Rattle.c11_events.specs.declared.event.Event.{Event};
ghost use Rattle.c11_events.specs.Chains.{ChainLawful};
ghost use Rattle.c11_events.specs.Events.{loaded_cell, stored_cell};
ghost use Rattle.c11_mograph.specs.Made.{Made};
ghost use Rattle.c11_mograph.specs.Words.{StandsFor};
ghost use Rattle.c11_scorder.specs.Tables.{cells_of};
ghost use Rattle.c11_mayread.specs.Accesses.{access_of};
ghost use Rattle.c11_mayread.specs.Agreement.{Agrees};
ghost use Rattle.c11_mayread.specs.Facts.{IsPastOf};
ghost use Rattle.c11_mayread.specs.Linked.{Links, CanLink, AddsAtMostOne};

use crate::kinds::{Access, access_of};
use crate::past::Past;
use c11_events::Event;
use c11_mograph::Graph;

// What must precede what a load reads.
fn link_load(graph: &mut Graph, past: &Past, priors: &mut Vec<u32>, event: &Event, cell: u32)
    requires room { 4 * past.now.threads + 1 ≤ vec_capacity priors.old }
    requires thread { event.now.thread < past.now.threads }
    requires cell { cell < cells_of past.now.order }
    ensures capacity { vec_capacity priors.old ≤ vec_capacity priors.new }
    ensures counts { AddsAtMostOne graph.old graph.new }
    ensures linked { loaded_cell event.now.kind ≡ Some cell → stored_cell event.now.kind ≡ None → Links past.now event.now graph.old graph.new }
{
    past.list_priors(event.thread, cell, event.kind.is_seq_cst(), false, priors);
    graph.order(priors.as_slice(), event.from);
}

// A store that reads nothing, and what must precede it.
fn link_store(graph: &mut Graph, past: &Past, priors: &mut Vec<u32>, event: &Event, cell: u32)
    requires room { 4 * past.now.threads + 1 ≤ vec_capacity priors.old }
    requires thread { event.now.thread < past.now.threads }
    requires cell { cell < cells_of past.now.order }
    requires can { CanLink past.now graph.old }
    ensures capacity { vec_capacity priors.old ≤ vec_capacity priors.new }
    ensures counts { AddsAtMostOne graph.old graph.new }
    ensures linked { loaded_cell event.now.kind ≡ None → stored_cell event.now.kind ≡ Some cell → Links past.now event.now graph.old graph.new }
{
    past.list_priors(event.thread, cell, event.kind.is_seq_cst(), true, priors);
    graph.add(cell, event.number, event.thread, None);
    graph.order(priors.as_slice(), event.number);
}

// A read-modify-write: what must precede its store must precede what that goes on from.
fn link_both(graph: &mut Graph, past: &Past, priors: &mut Vec<u32>, event: &Event, cell: u32)
    requires room { 4 * past.now.threads + 1 ≤ vec_capacity priors.old }
    requires thread { event.now.thread < past.now.threads }
    requires cell { cell < cells_of past.now.order }
    requires can { CanLink past.now graph.old }
    ensures capacity { vec_capacity priors.old ≤ vec_capacity priors.new }
    ensures counts { AddsAtMostOne graph.old graph.new }
    ensures linked { loaded_cell event.now.kind ≡ Some cell → stored_cell event.now.kind ≡ Some cell → Links past.now event.now graph.old graph.new }
{
    past.list_priors(event.thread, cell, event.kind.is_seq_cst(), true, priors);
    graph.order(priors.as_slice(), event.from);
    graph.add(cell, event.number, event.thread, Some(event.from));
}

/// Adds the event's store, where it is one, and links what must precede it and what it reads. Takes no memory.
pub(crate) fn link_event(graph: &mut Graph, past: &Past, priors: &mut Vec<u32>, event: &Event)
    requires room { 4 * past.now.threads + 1 ≤ vec_capacity priors.old }
    requires thread { event.now.thread < past.now.threads }
    requires stored { (cell : ℕ) → stored_cell event.now.kind ≡ Some cell → cell < cells_of past.now.order }
    requires loaded { (cell : ℕ) → loaded_cell event.now.kind ≡ Some cell → cell < cells_of past.now.order }
    requires can { CanLink past.now graph.old }
    ensures capacity { vec_capacity priors.old ≤ vec_capacity priors.new }
    ensures counts { AddsAtMostOne graph.old graph.new }
    ensures linked { Links past.now event.now graph.old graph.new }
{
    match access_of(&event.kind) {
        Access::Load { cell } => link_load(graph, past, priors, event, cell),
        Access::Store { cell } => link_store(graph, past, priors, event, cell),
        Access::LoadAndStore { cell } => link_both(graph, past, priors, event, cell),
        Access::Nothing => {}
    }
}
