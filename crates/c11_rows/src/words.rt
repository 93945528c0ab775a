//! What becomes of a step, in the words of a row.
use c11_events::{CellInfo, Holder, Reply, Verdict};
use c11_num::{CType, CValue};
use std::alloc::{AllocError, Global};

/// The words of a line, which single spaces part.
pub fn split(alloc: Global, line: &str) -> Result<Vec<&str>, AllocError> {
    let mut words = Vec::new(alloc);
    for word in line.split(' ') {
        words.push(word)?;
    }
    Ok(words)
}

/// Numbers with a comma between each two; `-` for none.
pub fn push_numbers(words: &mut String, numbers: &[u32]) -> Result<(), AllocError> {
    let Some((first, rest)) = numbers.split_first() else {
        return words.push('-');
    };
    write!(words, "{first}")?;
    for number in rest {
        write!(words, ",{number}")?;
    }
    Ok(())
}

/// The name of the object with this number, and its place in an array.
fn push_name(words: &mut String, cells: &[CellInfo], place: u32) -> Result<(), AllocError> {
    let Some(cell) = cells.get(place as usize) else {
        return write!(words, "object {place}");
    };
    for byte in cell.name.as_slice() {
        words.push(char::from(*byte))?;
    }
    if let Some(index) = cell.index {
        write!(words, "[{index}]")?;
    }
    Ok(())
}

/// A value, and its type where that is not `int`.
fn push_value(words: &mut String, value: CValue) -> Result<(), AllocError> {
    write!(words, "value {}", value.number())?;
    match value.ctype() {
        CType::Int => Ok(()),
        other => write!(words, " of {other:?}"),
    }
}

pub fn push_reply(words: &mut String, reply: Reply) -> Result<(), AllocError> {
    match reply {
        Reply::Done => words.push_str("done"),
        Reply::Value(value) => push_value(words, value),
        Reply::Exchanged { old, success } => {
            push_value(words, old)?;
            words.push_str(if success { " succeeds" } else { " fails" })
        }
        Reply::Locked(locked) => words.push_str(if locked { "locked" } else { "not locked" }),
        Reply::Created(thread) => write!(words, "created {thread}"),
        Reply::Began { function, argument } => write!(words, "began {function} with {argument}"),
        Reply::Joined(value) => write!(words, "joined {value}"),
        Reply::Fault(kind) => write!(words, "fault {kind:?}"),
    }
}

pub fn push_holder(
    words: &mut String,
    mutexes: &[CellInfo],
    holder: Holder,
) -> Result<(), AllocError> {
    match holder {
        Holder::Mutex { mutex, owner } => {
            words.push_str("waits for mutex ")?;
            push_name(words, mutexes, mutex)?;
            write!(words, " of {owner}")
        }
        Holder::Join { thread } => write!(words, "waits for thread {thread}"),
        Holder::Unborn => words.push_str("waits for its birth"),
    }
}

pub fn push_verdict(
    words: &mut String,
    plains: &[CellInfo],
    verdict: Verdict,
) -> Result<(), AllocError> {
    match verdict {
        Verdict::Done => words.push_str("done"),
        Verdict::Bound => words.push_str("bound"),
        Verdict::Deadlock => words.push_str("deadlock"),
        Verdict::Race {
            first,
            second,
            cell,
        } => {
            write!(words, "race {first} {second} ")?;
            push_name(words, plains, cell)
        }
        other => write!(words, "{other:?}"),
    }
}
