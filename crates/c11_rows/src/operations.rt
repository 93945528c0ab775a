//! The operations that the words of a row stand for. Cells, mutexes and functions go by their names.
use c11_check::Checked;
use c11_events::{CellInfo, Op};
use c11_num::{CType, CValue, RmwKind};
use c11_tables::{number, order};

/// What a thread does in a row.
#[derive(Drop)]
pub struct Step {
    pub number: u32,
    pub thread: u32,
    pub op: Op,
}

/// `NUMBER THREAD OPERATION`: the number of the entry that the operation is to be, and its thread.
pub fn step_of(checked: &Checked, words: &[&str]) -> Option<Step> {
    match words {
        [place, thread, rest @ ..] => Some(Step {
            number: number(place)?,
            thread: number(thread)?,
            op: op_of(checked, rest)?,
        }),
        _ => None,
    }
}

/// `load CELL ORDER`, `store CELL ORDER NUMBER`, `add CELL ORDER NUMBER`, `fence ORDER`, `read CELL`, `write CELL NUMBER`,
/// `init MUTEX`, `lock MUTEX`, `unlock MUTEX`, `end NUMBER`, `join THREAD`, or
/// `exchange CELL SUCCESS FAILURE EXPECTED DESIRED`, which is a strong compare-exchange.
fn op_of(checked: &Checked, words: &[&str]) -> Option<Op> {
    match words {
        ["read", cell] => Some(Op::PlainRead {
            cell: place_of(checked.plains(), cell)?,
        }),
        ["write", cell, value] => Some(Op::PlainWrite {
            cell: place_of(checked.plains(), cell)?,
            value: int(value)?,
        }),
        ["init", mutex] => Some(Op::MutexInit {
            mutex: place_of(checked.mutexes(), mutex)?,
        }),
        ["lock", mutex] => Some(Op::Lock {
            mutex: place_of(checked.mutexes(), mutex)?,
        }),
        ["unlock", mutex] => Some(Op::Unlock {
            mutex: place_of(checked.mutexes(), mutex)?,
        }),
        ["end", value] => Some(Op::End {
            value: value.parse::<i32>().ok()?,
        }),
        ["join", thread] => Some(Op::Join {
            thread: number(thread)?,
        }),
        _ => atomic_op(checked.atomics(), words),
    }
}

/// The same of what is done with atomic cells.
fn atomic_op(cells: &[CellInfo], words: &[&str]) -> Option<Op> {
    match words {
        ["load", cell, word] => Some(Op::AtomicLoad {
            cell: place_of(cells, cell)?,
            order: order(word)?,
        }),
        ["store", cell, word, value] => Some(Op::AtomicStore {
            cell: place_of(cells, cell)?,
            order: order(word)?,
            value: int(value)?,
        }),
        ["add", cell, word, value] => Some(Op::Rmw {
            cell: place_of(cells, cell)?,
            order: order(word)?,
            kind: RmwKind::Add,
            operand: int(value)?,
        }),
        ["exchange", cell, success, failure, expected, desired] => Some(Op::CompareExchange {
            cell: place_of(cells, cell)?,
            success: order(success)?,
            failure: order(failure)?,
            weak: false,
            expected: int(expected)?,
            desired: int(desired)?,
        }),
        ["fence", word] => Some(Op::Fence {
            order: order(word)?,
        }),
        _ => None,
    }
}

/// The number of the object with this name, which is no array.
fn place_of(cells: &[CellInfo], word: &str) -> Option<u32> {
    let place = cells.iter().position(|cell| cell.index.is_none()
        && cell.name.as_slice() == word.as_bytes())?;
    u32::try_from(place).ok()
}

/// The `int` of a word.
fn int(word: &str) -> Option<CValue> {
    let value = word.parse::<i32>().ok()?;
    Some(CValue::new(CType::Int, i128::from(value)))
}
