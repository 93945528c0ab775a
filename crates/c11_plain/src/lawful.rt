ghost use Rattle.std.specs.Prelude.{◌≡◌, ◌<◌, ◌↔◌, IsTrue, IfOk, MatchOption};
ghost use Rattle.c11_events.specs.Lawful.{Lawful};
ghost use Rattle.c11_plain.specs.Relations.{AreRelations};
ghost use Rattle.c11_plain.specs.Rules.{Rule, IsFirstBroken, place_of};

use crate::broken::Broken;
use crate::modification::is_modification_order;
use crate::relations::{Relations, relations_of};
use crate::rules::{
    all_read_no_older, reads_in_order, rmws_adjoin, writes_after_reads, writes_in_order,
};
use crate::seq_cst::seq_cst_reads;
use c11_events::Event;
use c11_num::NoMemory;
use std::alloc::Global;

// Whether the order keeps the rule.
fn keeps(events: &[Event], all: &Relations, cell: u32, order: &[u32], rule: Broken) -> bool
    requires { AreRelations events.now all.now }
    ensures { IsTrue result ↔ Rule events.now cell order.now rule }
{
    match rule {
        Broken::ModificationOrder => is_modification_order(events, cell, order, all.count),
        Broken::WriteWriteCoherence => writes_in_order(events, cell, order, &all.before),
        Broken::WriteReadCoherence => all_read_no_older(events, cell, order, &all.before),
        Broken::ReadWriteCoherence => writes_after_reads(events, cell, order, &all.before),
        Broken::ReadReadCoherence => reads_in_order(events, cell, order, &all.before),
        Broken::RmwAtomicity => rmws_adjoin(events, cell, order, all.count),
        Broken::SeqCstWriteOrder => writes_in_order(events, cell, order, &all.seq_cst),
        Broken::SeqCstRead => seq_cst_reads(events, cell, &all.before, &all.seq_cst),
        Broken::FenceBeforeRead => all_read_no_older(events, cell, order, &all.fence_before),
        Broken::FenceAfterWrite => all_read_no_older(events, cell, order, &all.fence_after),
        Broken::FencesBetween => all_read_no_older(events, cell, order, &all.fence_between),
        Broken::FencesBetweenWrites => writes_in_order(events, cell, order, &all.fenced),
    }
}

// The rule that so many others stand before.
fn rule_at(place: u8) -> Broken
    requires { place < 12 }
    ensures { place_of result ≡ place }
{
    match place {
        0 => Broken::ModificationOrder,
        1 => Broken::WriteWriteCoherence,
        2 => Broken::WriteReadCoherence,
        3 => Broken::ReadWriteCoherence,
        4 => Broken::ReadReadCoherence,
        5 => Broken::RmwAtomicity,
        6 => Broken::SeqCstWriteOrder,
        7 => Broken::SeqCstRead,
        8 => Broken::FenceBeforeRead,
        9 => Broken::FenceAfterWrite,
        10 => Broken::FencesBetween,
        _ => Broken::FencesBetweenWrites,
    }
}

/// The first rule that the order breaks, by the relations of the events.
pub(crate) fn first_broken(
    events: &[Event],
    all: &Relations,
    cell: u32,
    order: &[u32],
) -> Option<Broken>
    requires { AreRelations events.now all.now }
    ensures { MatchOption result (Lawful events.now cell order.now) (IsFirstBroken events.now cell order.now) }
{
    for place in 0..12u8 {
        let rule = rule_at(place);
        if !keeps(events, all, cell, order, rule) {
            return Some(rule);
        }
    }
    None
}

/// Whether the order is a lawful modification order, by the relations of the events.
pub(crate) fn keeps_all(events: &[Event], all: &Relations, cell: u32, order: &[u32]) -> bool
    requires { AreRelations events.now all.now }
    ensures { IsTrue result ↔ Lawful events.now cell order.now }
{
    first_broken(events, all, cell, order).is_none()
}

/// The first rule that the order of the cell's stores breaks; none where it is a lawful modification order. `Err` only where
/// memory runs out.
pub fn broken_rule(
    alloc: Global,
    events: &[Event],
    cell: u32,
    order: &[u32],
) -> Result<Option<Broken>, NoMemory>
    ensures { IfOk result (λ broken. MatchOption broken (Lawful events.now cell order.now) (IsFirstBroken events.now cell order.now)) }
{
    let all = relations_of(alloc, events)?;
    Ok(first_broken(events, &all, cell, order))
}

/// Whether the order of the cell's stores is a lawful modification order. `Err` only where memory runs out.
pub fn is_lawful(
    alloc: Global,
    events: &[Event],
    cell: u32,
    order: &[u32],
) -> Result<bool, NoMemory>
    ensures { IfOk result (λ lawful. IsTrue lawful ↔ Lawful events.now cell order.now) }
{
    Ok(broken_rule(alloc, events, cell, order)?.is_none())
}
