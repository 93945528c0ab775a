use super::steps::{atomic, place};
use super::stop::Stop;
use c11_events::Event;
use c11_plain::{
    Broken, broken_rule, happens_before, is_lawful, racing, reads_earlier, synchronizes_with,
    value_of,
};
use c11_tables::numbers;
use std::alloc::Global;

/// What is said of the steps so far is one of these, and holds:
///
/// - `event NUMBER races with OTHER`: this is the latest plain access that races with it, or `none`
/// - `event NUMBER happens before OTHER`, `event NUMBER happens not before OTHER`, `event NUMBER synchronizes with OTHER`
/// - `event NUMBER stores VALUE`: 0 where it is no store of an atomic cell
/// - `order CELL STORES breaks RULE`: the first rule that this modification order breaks, or `none`, and then it is lawful
/// - `all read earlier`: each load reads an earlier store of its cell
pub fn claim(alloc: Global, events: &[Event], words: &[&str]) -> Result<(), Stop> {
    match words {
        ["event", number, act @ .., other] => event_claim(
            alloc,
            events,
            place(number)?,
            act,
            other,
        ),
        ["order", cell, stores, "breaks", rule] => {
            let Some(stores) = numbers(alloc, stores)? else {
                return Err(Stop::Unread);
            };
            breaks(alloc, events, atomic(cell)?, stores.as_slice(), rule)
        }
        ["all", "read", "earlier"] => unless(alloc, reads_earlier(events), "one does not"),
        _ => Err(Stop::Unread),
    }
}

/// What is said of an event.
fn event_claim(
    alloc: Global,
    events: &[Event],
    number: u32,
    act: &[&str],
    other: &str,
) -> Result<(), Stop> {
    match act {
        ["races", "with"] => races(alloc, events, number, other),
        ["happens", "before"] => {
            let before = happens_before(alloc, events)?;
            unless(alloc, before.holds(number, place(other)?), "it does not")
        }
        ["happens", "not", "before"] => {
            let before = happens_before(alloc, events)?;
            unless(alloc, !before.holds(number, place(other)?), "it does")
        }
        ["synchronizes", "with"] => {
            let with = synchronizes_with(alloc, events)?;
            unless(alloc, with.holds(number, place(other)?), "it does not")
        }
        ["stores"] => stores(alloc, events, number, other),
        _ => Err(Stop::Unread),
    }
}

/// Holds, or these words are found.
fn unless(alloc: Global, holds: bool, words: &str) -> Result<(), Stop> {
    if holds {
        Ok(())
    } else {
        Err(Stop::found(alloc, words))
    }
}

fn races(alloc: Global, events: &[Event], number: u32, other: &str) -> Result<(), Stop> {
    let wanted = match other {
        "none" => None,
        other => Some(place(other)?),
    };
    let found = racing(alloc, events, number)?;
    if found == wanted {
        return Ok(());
    }
    match found {
        Some(latest) => Err(Stop::Found(format!(in alloc; "{latest}")?)),
        None => Err(Stop::found(alloc, "none")),
    }
}

fn stores(alloc: Global, events: &[Event], number: u32, value: &str) -> Result<(), Stop> {
    let wanted = value.parse::<i128>().map_err(|_| Stop::Unread)?;
    let found = value_of(events, number).number();
    if found == wanted {
        return Ok(());
    }
    Err(Stop::Found(format!(in alloc; "{found}")?))
}

fn breaks(
    alloc: Global,
    events: &[Event],
    cell: u32,
    order: &[u32],
    rule: &str,
) -> Result<(), Stop> {
    let found = broken_word(broken_rule(alloc, events, cell, order)?);
    if found != rule {
        return Err(Stop::found(alloc, found));
    }
    let lawful = is_lawful(alloc, events, cell, order)?;
    unless(
        alloc,
        lawful == (rule == "none"),
        "lawful only by one of two ways",
    )
}

/// A rule of lawful modification orders, as a row has it.
fn broken_word(broken: Option<Broken>) -> &'static str {
    match broken {
        None => "none",
        Some(Broken::ModificationOrder) => "modification-order",
        Some(Broken::WriteWriteCoherence) => "write-write-coherence",
        Some(Broken::WriteReadCoherence) => "write-read-coherence",
        Some(Broken::ReadWriteCoherence) => "read-write-coherence",
        Some(Broken::ReadReadCoherence) => "read-read-coherence",
        Some(Broken::RmwAtomicity) => "read-modify-write-atomicity",
        Some(Broken::SeqCstWriteOrder) => "seq_cst-write-order",
        Some(Broken::SeqCstRead) => "seq_cst-read",
        Some(Broken::FenceBeforeRead) => "fence-before-read",
        Some(Broken::FenceAfterWrite) => "fence-after-write",
        Some(Broken::FencesBetween) => "fences-between",
        Some(Broken::FencesBetweenWrites) => "fences-between-writes",
    }
}
