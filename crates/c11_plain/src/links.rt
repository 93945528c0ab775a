ghost use Rattle.std.specs.Prelude.{◌↔◌, IsTrue, IfOk};
ghost use Rattle.c11_events.specs.Events.{IsLoad, ReadsEarlier};
ghost use Rattle.c11_events.specs.Chains.{MustPrecede, Links};
ghost use Rattle.c11_plain.specs.Pairs.{IsTableOf};
ghost use Rattle.c11_plain.specs.Relations.{AreRelations};
ghost use Rattle.c11_plain.specs.ChainParts.{Loaded, Chained, InChain, ByOrder, ByFences, AreTwoStores};

use crate::events::{is_load, is_store};
use crate::pairs::Pairs;
use crate::relations::Relations;
use crate::standing::in_chain;
use c11_events::Event;
use c11_num::NoMemory;
use std::alloc::Global;

// Each load of the cell, behind what it reads.
fn loaded(alloc: Global, events: &[Event], all: &Relations, cell: u32) -> Result<Pairs, NoMemory>
    requires reads { ReadsEarlier events.now }
    requires all { AreRelations events.now all.now }
    ensures { IfOk result (λ table. IsTableOf table (Loaded events.now cell)) }
{
    Pairs::new(alloc, all.count, |x, l| is_load(events, cell, l, x))
}

// Each load of the cell, before what it reads.
fn loads(alloc: Global, events: &[Event], all: &Relations, cell: u32) -> Result<Pairs, NoMemory>
    requires reads { ReadsEarlier events.now }
    requires all { AreRelations events.now all.now }
    ensures { IfOk result (λ table. IsTableOf table (IsLoad events.now cell)) }
{
    Pairs::new(alloc, all.count, |l, x| is_load(events, cell, l, x))
}

// Each store of the cell, behind the beginning of its chain.
fn chains(alloc: Global, events: &[Event], all: &Relations, cell: u32) -> Result<Pairs, NoMemory>
    requires reads { ReadsEarlier events.now }
    requires all { AreRelations events.now all.now }
    ensures { IfOk result (λ table. IsTableOf table (InChain events.now cell)) }
{
    Pairs::new(alloc, all.count, |h, x| in_chain(events, cell, h, x))
}

// Each store of the cell, before the beginning of its chain.
fn chained(alloc: Global, events: &[Event], all: &Relations, cell: u32) -> Result<Pairs, NoMemory>
    requires reads { ReadsEarlier events.now }
    requires all { AreRelations events.now all.now }
    ensures { IfOk result (λ table. IsTableOf table (Chained events.now cell)) }
{
    Pairs::new(alloc, all.count, |x, h| in_chain(events, cell, h, x))
}

// What must precede what by happens-before between the stores or their loads.
fn by_order(alloc: Global, events: &[Event], all: &Relations, cell: u32) -> Result<Pairs, NoMemory>
    requires reads { ReadsEarlier events.now }
    requires all { AreRelations events.now all.now }
    ensures { IfOk result (λ table. IsTableOf table (ByOrder events.now cell)) }
{
    let before = loaded(alloc, events, all, cell)?;
    let behind = loads(alloc, events, all, cell)?;
    let write_read = all.before.then(alloc, &behind)?;
    let read_write = before.then(alloc, &all.before)?;
    let read_read = read_write.then(alloc, &behind)?;
    let from_write = all.before.or(alloc, &write_read)?;
    let from_read = read_write.or(alloc, &read_read)?;
    from_write.or(alloc, &from_read)
}

// What must precede what by the order of the seq_cst events and by fences.
fn by_fences(alloc: Global, events: &[Event], all: &Relations, cell: u32) -> Result<Pairs, NoMemory>
    requires reads { ReadsEarlier events.now }
    requires all { AreRelations events.now all.now }
    ensures { IfOk result (λ table. IsTableOf table (ByFences events.now cell)) }
{
    let behind = loads(alloc, events, all, cell)?;
    let fenced_read = all.fenced.then(alloc, &behind)?;
    let by_fence = fenced_read.or(alloc, &all.fenced)?;
    all.seq_cst.or(alloc, &by_fence)
}

// Whether a and b are two stores of the cell.
fn are_two_stores(events: &[Event], cell: u32, a: u32, b: u32) -> bool
    ensures { IsTrue result ↔ AreTwoStores events.now cell a b }
{
    a != b && is_store(events, cell, a) && is_store(events, cell, b)
}

/// What must precede what among the stores of the cell.
pub(crate) fn must_precede(
    alloc: Global,
    events: &[Event],
    all: &Relations,
    cell: u32,
) -> Result<Pairs, NoMemory>
    requires reads { ReadsEarlier events.now }
    requires all { AreRelations events.now all.now }
    ensures { IfOk result (λ table. IsTableOf table (MustPrecede events.now cell)) }
{
    let order = by_order(alloc, events, all, cell)?;
    let fence = by_fences(alloc, events, all, cell)?;
    let cause = order.or(alloc, &fence)?;
    cause.only(alloc, |a, b| are_two_stores(events, cell, a, b))
}

/// Which chains of the cell are linked to which, in one step or more.
pub(crate) fn links(
    alloc: Global,
    events: &[Event],
    all: &Relations,
    cell: u32,
) -> Result<Pairs, NoMemory>
    requires reads { ReadsEarlier events.now }
    requires all { AreRelations events.now all.now }
    ensures { IfOk result (λ table. IsTableOf table (Links events.now cell)) }
{
    let chain = chains(alloc, events, all, cell)?;
    let must = must_precede(alloc, events, all, cell)?;
    let back = chained(alloc, events, all, cell)?;
    let to_store = chain.then(alloc, &must)?;
    let to_chain = to_store.then(alloc, &back)?;
    let link = to_chain.only(alloc, |h, k| h != k)?;
    link.closure(alloc)
}
