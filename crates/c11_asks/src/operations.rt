//! Operations in words, on objects by their numbers.
use super::words::{quoted, value_words};
use c11_events::{Ask, Op};
use std::alloc::{AllocError, Global};

/// What a thread asks for: the line, and the operation.
pub fn ask_words(alloc: Global, ask: &Ask) -> Result<String, AllocError> {
    let op = match &ask.op {
        Op::Init { .. }
        | Op::AtomicLoad { .. }
        | Op::AtomicStore { .. }
        | Op::Rmw { .. }
        | Op::CompareExchange { .. }
        | Op::Fence { .. } => atomic_words(alloc, &ask.op)?,
        _ => other_words(alloc, &ask.op)?,
    };
    format!(in alloc; "{} {op}", ask.line)
}

/// An operation on atomic objects.
fn atomic_words(alloc: Global, op: &Op) -> Result<String, AllocError> {
    match op {
        Op::Init { cell, value } => {
            format!(in alloc; "init {cell} {}", value_words(alloc, *value)?)
        }
        Op::AtomicLoad { cell, order } => format!(in alloc; "load {cell} {order:?}"),
        Op::AtomicStore { cell, order, value } => {
            format!(in alloc; "store {cell} {order:?} {}", value_words(alloc, *value)?)
        }
        Op::Rmw {
            cell,
            order,
            kind,
            operand,
        } => format!(in alloc;
            "rmw {cell} {order:?} {kind:?} {}",
            value_words(alloc, *operand)?
        ),
        Op::CompareExchange {
            cell,
            success,
            failure,
            weak,
            expected,
            desired,
        } => {
            let name = if *weak { "wcas" } else { "cas" };
            let expected = value_words(alloc, *expected)?;
            let desired = value_words(alloc, *desired)?;
            format!(in alloc; "{name} {cell} {success:?} {failure:?} {expected} {desired}")
        }
        Op::Fence { order } => format!(in alloc; "fence {order:?}"),
        _ => format!(in alloc; "{op:?}"),
    }
}

/// Another operation.
fn other_words(alloc: Global, op: &Op) -> Result<String, AllocError> {
    match op {
        Op::PlainRead { cell } => format!(in alloc; "read {cell}"),
        Op::PlainWrite { cell, value } => {
            format!(in alloc; "write {cell} {}", value_words(alloc, *value)?)
        }
        Op::MutexInit { mutex } => format!(in alloc; "minit {mutex}"),
        Op::Lock { mutex } => format!(in alloc; "lock {mutex}"),
        Op::TryLock { mutex } => format!(in alloc; "trylock {mutex}"),
        Op::Unlock { mutex } => format!(in alloc; "unlock {mutex}"),
        Op::Create { function, argument } => format!(in alloc; "create {function} {argument}"),
        Op::Begin => format!(in alloc; "begin"),
        Op::End { value } => format!(in alloc; "end {value}"),
        Op::Join { thread } => format!(in alloc; "join {thread}"),
        Op::Out { bytes } => format!(in alloc; "out {}", quoted(alloc, bytes.as_slice())?),
        Op::Stop { kind } => format!(in alloc; "stop {kind:?}"),
        _ => format!(in alloc; "{op:?}"),
    }
}
