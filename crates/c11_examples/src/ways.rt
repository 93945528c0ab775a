//! Both ways to say what is lawful, by orders of all stores and by chains, decide the same.
use super::acts::{push, push_inits, store};
use super::draws::{draw, drawn_order, drawn_read, drawn_value};
use super::stop::Stop;
use c11_events::{Event, EventKind};
use c11_plain::{chain_offered, extended, is_chain_lawful, is_consistent, offered};
use rand_core::utils::NextWord;
use rand_pcg::Pcg32;
use std::alloc::Global;

const LISTS: u32 = 2000;

const STEPS: u32 = 8;

// Both kinds of lists are drawn, many of each: more than so many are consistent, and fewer than so many.
const LEAST: u32 = 500;

const MOST: u32 = 1500;

/// Random lists of events: each read is offered the same in both ways, and each list is lawful in both or in none.
pub fn chains_decide_what_orders_decide(alloc: Global) -> Result<String, Stop> {
    let mut words = Pcg32::new(11, 1_442_695_040_888_963_407);
    let mut consistent = 0u32;
    for _ in 0..LISTS {
        if draw_list(alloc, &mut words)? {
            consistent = consistent.saturating_add(1);
        }
    }
    if consistent <= LEAST || MOST <= consistent {
        return Err(Stop::Found(format!(in alloc;
            "{consistent} of {LISTS} random lists are consistent"
        )?));
    }
    Ok(format!(in alloc;
        "chains decide what orders decide: {LISTS} random lists, between {LEAST} and {MOST} of them consistent"
    )?)
}

/// A random list of events, by two cells, is consistent by orders and by chains, or by none of them: whether it is.
fn draw_list(alloc: Global, words: &mut Pcg32) -> Result<bool, Stop> {
    let mut events = Vec::new(alloc);
    push_inits(&mut events, 2)?;
    for _ in 0..STEPS {
        draw_step(words, &mut events)?;
    }
    let by_orders = is_consistent(alloc, events.as_slice())?;
    let by_chains = is_chain_lawful(alloc, events.as_slice())?;
    if by_orders == by_chains {
        return Ok(by_orders);
    }
    Err(Stop::Found(format!(in alloc; "by orders {by_orders}, by chains {by_chains}: {events:?}")?))
}

/// A step of one of three threads on one of two cells.
fn draw_step(words: &mut Pcg32, events: &mut Vec<Event>) -> Result<(), Stop> {
    let thread = draw(words, 3);
    let cell = draw(words, 2);
    match draw(words, 6) {
        0 | 1 | 2 => draw_read(words, events, thread, cell),
        3 | 4 => {
            let kind = store(cell, drawn_order(words), drawn_value(words));
            Ok(push(events, thread, kind)?)
        }
        _ => {
            let order = drawn_order(words);
            Ok(push(events, thread, EventKind::Fence { order })?)
        }
    }
}

/// A read behind the events is offered the same in both ways. Mostly it reads an offered store, and now and then any event.
fn draw_read(
    words: &mut Pcg32,
    events: &mut Vec<Event>,
    thread: u32,
    cell: u32,
) -> Result<(), Stop> {
    let alloc = *events.allocator();
    let op = drawn_read(words, cell);
    let all = offered(alloc, events.as_slice(), thread, &op)?;
    let by_chains = chain_offered(alloc, events.as_slice(), thread, &op)?;
    if all.as_slice() != by_chains.as_slice() {
        return Err(Stop::Found(format!(in alloc;
            "offered {all:?}, by chains {by_chains:?}: t{thread} {op:?} behind {events:?}"
        )?));
    }
    let place = words.next_word() as usize;
    let from = match all.get(place % all.len().max(1)) {
        Some(x) if draw(words, 6) > 0 => *x,
        _ => draw(words, 8),
    };
    *events = extended(alloc, events.as_slice(), thread, &op, from)?;
    Ok(())
}
