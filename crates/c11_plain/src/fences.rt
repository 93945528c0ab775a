ghost use Rattle.std.specs.Prelude.{IfOk};
ghost use Rattle.c11_events.specs.HappensBefore.{SeqCstBefore};
ghost use Rattle.c11_events.specs.Lawful.{IsFence, IsFencedBefore, IsFencedAfter, IsFencedBetween, Fenced};
ghost use Rattle.c11_plain.specs.Pairs.{Holds, IsTableOf};

use crate::direct::seq_cst_before;
use crate::events::is_fence;
use crate::pairs::Pairs;
use crate::tables::{count_of, program};
use c11_events::Event;
use c11_num::NoMemory;
use std::alloc::Global;

/// The seq_cst events, in order.
pub(crate) fn seq_cst_order(alloc: Global, events: &[Event]) -> Result<Pairs, NoMemory>
    ensures { IfOk result (λ table. IsTableOf table (SeqCstBefore events.now)) }
{
    Pairs::new(
        alloc,
        count_of(events)?,
        |a, b| seq_cst_before(events, a, b),
    )
}

// The pairs of which the second is a fence.
fn to_fences(alloc: Global, events: &[Event], table: &Pairs) -> Result<Pairs, NoMemory>
    ensures { IfOk result (λ kept. IsTableOf kept (λ a f. Holds table.now a f × IsFence events.now f)) }
{
    table.only(alloc, |_, f| is_fence(events, f))
}

/// Each event behind a seq_cst fence of its thread, behind each seq_cst event before the fence.
pub(crate) fn fenced_before(alloc: Global, events: &[Event]) -> Result<Pairs, NoMemory>
    ensures { IfOk result (λ table. IsTableOf table (IsFencedBefore events.now)) }
{
    let order = seq_cst_order(alloc, events)?;
    let thread = program(alloc, events)?;
    let to_fence = to_fences(alloc, events, &order)?;
    to_fence.then(alloc, &thread)
}

/// Each seq_cst event behind a fence, behind each event before the fence in its thread.
pub(crate) fn fenced_after(alloc: Global, events: &[Event]) -> Result<Pairs, NoMemory>
    ensures { IfOk result (λ table. IsTableOf table (IsFencedAfter events.now)) }
{
    let order = seq_cst_order(alloc, events)?;
    let thread = program(alloc, events)?;
    let to_fence = to_fences(alloc, events, &thread)?;
    to_fence.then(alloc, &order)
}

/// Each event behind a fence of its thread, behind each event before an earlier fence in the fence's thread.
pub(crate) fn fenced_between(alloc: Global, events: &[Event]) -> Result<Pairs, NoMemory>
    ensures { IfOk result (λ table. IsTableOf table (IsFencedBetween events.now)) }
{
    let order = seq_cst_order(alloc, events)?;
    let thread = program(alloc, events)?;
    let to_first = to_fences(alloc, events, &thread)?;
    let to_next = to_fences(alloc, events, &order)?;
    let to_second = to_first.then(alloc, &to_next)?;
    to_second.then(alloc, &thread)
}

/// What seq_cst fences hold apart in one of the three ways.
pub(crate) fn fenced(alloc: Global, events: &[Event]) -> Result<Pairs, NoMemory>
    ensures { IfOk result (λ table. IsTableOf table (Fenced events.now)) }
{
    let before = fenced_before(alloc, events)?;
    let after = fenced_after(alloc, events)?;
    let between = fenced_between(alloc, events)?;
    let either = after.or(alloc, &between)?;
    before.or(alloc, &either)
}
