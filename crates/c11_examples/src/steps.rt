use super::acts::{add, exchange, int, load, push, push_inits, store};
use super::stop::Stop;
use c11_events::{Event, EventKind, Op, Order};
use c11_num::NoMemory;
use c11_plain::{chain_offered, extended, offered};
use c11_tables::{number, numbers, order};
use std::alloc::Global;

/// The events before the first step: the Inits of the cells, and then main and the threads that it creates.
pub fn begun(alloc: Global, cells: u32, threads: u32) -> Result<Vec<Event>, NoMemory> {
    let mut events = Vec::new(alloc);
    push_inits(&mut events, cells)?;
    push(&mut events, 0, EventKind::Begin)?;
    push_creates(&mut events, threads)?;
    for thread in 0..threads {
        push(&mut events, thread.saturating_add(1), EventKind::Begin)?;
    }
    Ok(events)
}

fn push_creates(events: &mut Vec<Event>, threads: u32) -> Result<(), NoMemory> {
    for function in 0..threads {
        let argument = 0;
        push(events, 0, EventKind::Create { function, argument })?;
    }
    Ok(())
}

/// The number of a word.
pub fn place(word: &str) -> Result<u32, Stop> {
    number(word).ok_or(Stop::Unread)
}

/// The atomic cell of a word.
pub fn atomic(word: &str) -> Result<u32, Stop> {
    match word {
        "x" => Ok(0),
        "y" => Ok(1),
        "z" => Ok(2),
        _ => Err(Stop::Unread),
    }
}

/// The plain cell of a word.
fn plain(word: &str) -> Result<u32, Stop> {
    match word {
        "a" => Ok(0),
        "b" => Ok(1),
        _ => Err(Stop::Unread),
    }
}

fn order_of(word: &str) -> Result<Order, Stop> {
    order(word).ok_or(Stop::Unread)
}

/// The value of a word.
pub fn value(word: &str) -> Result<i32, Stop> {
    word.parse::<i32>().map_err(|_| Stop::Unread)
}

/// A step of the thread, which is one of these:
///
/// - `store CELL ORDER VALUE`, `fence ORDER`, `read PLAIN`, `write PLAIN VALUE`, `end`, `join THREAD`
/// - `load CELL ORDER reads STORE of STORES`, `add CELL ORDER NUMBER reads STORE of STORES`,
///   `exchange CELL ORDER EXPECTED DESIRED reads STORE of STORES`: these stores are offered to it, by their numbers among the events
///   and in both ways, and it reads this one
///
/// Atomic cells are x, y and z, and plain ones a and b.
pub fn step(events: &mut Vec<Event>, thread: u32, words: &[&str]) -> Result<(), Stop> {
    match words {
        [act @ .., "reads", from, "of", offers] => {
            let op = asked(act)?;
            let from = place(from)?;
            let Some(offers) = numbers(*events.allocator(), offers)? else {
                return Err(Stop::Unread);
            };
            read(events, thread, &op, offers.as_slice(), from)
        }
        _ => Ok(push(events, thread, kind(words)?)?),
    }
}

/// The operation that reads an atomic cell.
fn asked(words: &[&str]) -> Result<Op, Stop> {
    match words {
        ["load", cell, order] => Ok(load(atomic(cell)?, order_of(order)?)),
        ["add", cell, order, number] => Ok(add(atomic(cell)?, order_of(order)?, value(number)?)),
        ["exchange", cell, order, expected, desired] => {
            let order = order_of(order)?;
            Ok(exchange(
                atomic(cell)?,
                order,
                order,
                value(expected)?,
                value(desired)?,
            ))
        }
        _ => Err(Stop::Unread),
    }
}

/// What an event does that reads no atomic cell.
fn kind(words: &[&str]) -> Result<EventKind, Stop> {
    match words {
        ["store", cell, order, number] => Ok(store(
            atomic(cell)?,
            order_of(order)?,
            value(number)?,
        )),
        ["fence", order] => Ok(EventKind::Fence {
            order: order_of(order)?,
        }),
        ["read", cell] => Ok(EventKind::PlainRead { cell: plain(cell)? }),
        ["write", cell, number] => {
            let value = int(value(number)?);
            Ok(EventKind::PlainWrite {
                cell: plain(cell)?,
                value,
            })
        }
        ["end"] => Ok(EventKind::End { value: 0 }),
        ["join", thread] => Ok(EventKind::Join {
            thread: place(thread)?,
        }),
        _ => Err(Stop::Unread),
    }
}

/// The thread's operation reads this one of the stores that are offered to it, which are these in both ways.
fn read(
    events: &mut Vec<Event>,
    thread: u32,
    op: &Op,
    offers: &[u32],
    from: u32,
) -> Result<(), Stop> {
    let alloc = *events.allocator();
    let by_orders = offered(alloc, events.as_slice(), thread, op)?;
    let by_chains = chain_offered(alloc, events.as_slice(), thread, op)?;
    *events = extended(alloc, events.as_slice(), thread, op, from)?;
    if by_orders.as_slice() != offers {
        return Err(Stop::Found(format!(in alloc; "offered {by_orders:?}")?));
    }
    if by_chains.as_slice() != offers {
        return Err(Stop::Found(format!(in alloc; "by chains offered {by_chains:?}")?));
    }
    Ok(())
}
