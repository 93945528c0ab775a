use super::stop::{Stop, told};
use super::{claims, steps};
use c11_events::Event;
use c11_tables::{Part, number};
use std::alloc::{AllocError, Global};

/// What is found instead of what the row says, in words; nothing where it holds. Blank lines, and remarks behind `//`, are no
/// rows.
pub fn found(
    alloc: Global,
    part: &mut Option<Part>,
    events: &mut Option<Vec<Event>>,
    row: &str,
) -> Result<Option<String>, AllocError> {
    if row.is_empty() || row.starts_with("// ") {
        return Ok(None);
    }
    let Some(part) = part else {
        return Ok(Some(format!(in alloc; "a row without a part: {row}")?));
    };
    let number = part.next();
    let stop = match holds(alloc, part.kind(), events, row) {
        Ok(()) => return Ok(None),
        Err(stop) => stop,
    };
    let found = told(alloc, Err(stop))?;
    Ok(Some(format!(in alloc; "row {number}, {found}: {row}")?))
}

/// `cells CELLS threads THREADS` begins a list of steps: the cells x, y, z have their Inits, and thread 0 has created the threads 1,
/// 2 and so on. Each further line is a step of a thread, which begins with the thread's number, or a claim about the steps so far.
fn holds(
    alloc: Global,
    kind: &str,
    events: &mut Option<Vec<Event>>,
    row: &str,
) -> Result<(), Stop> {
    if kind != "steps" {
        return Err(Stop::found(alloc, "no such kind"));
    }
    let words: Vec<&str> = row.split(' ').collect(alloc)?;
    if let ["cells", cells, "threads", threads] = words.as_slice() {
        let cells = number(cells).ok_or(Stop::Unread)?;
        let threads = number(threads).ok_or(Stop::Unread)?;
        *events = Some(steps::begun(alloc, cells, threads)?);
        return Ok(());
    }
    let Some(events) = events else {
        return Err(Stop::found(alloc, "no list has begun"));
    };
    match words.as_slice() {
        [] => Err(Stop::Unread),
        [first, rest @ ..] => match number(first) {
            Some(thread) => steps::step(events, thread, rest),
            None => claims::claim(alloc, events.as_slice(), words.as_slice()),
        },
    }
}
