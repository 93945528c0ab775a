ghost use Rattle.std.specs.Prelude.{◌≡◌, IfOk};
ghost use Rattle.c11_events.specs.EventOf.{kind_of};

use crate::op::{Op, StopKind};
use crate::order::Order;
use crate::reply::Reply;
use c11_num::{Bytes, CValue, NoMemory, RmwKind};

/// What the memory model sees of an entry.
#[derive(Debug, Drop)]
pub struct Event {
    /// The event's place among the events, from 1.
    pub number: u32,
    pub thread: u32,
    pub kind: EventKind,
    /// The number of the store that was read, and 0 where nothing was read from an atomic cell.
    pub from: u32,
}

/// What an event does: an operation in which a compare-exchange has become a read-modify-write or a load.
#[derive(Debug, Drop)]
pub enum EventKind {
    Init {
        cell: u32,
        value: CValue,
    },
    AtomicLoad {
        cell: u32,
        order: Order,
    },
    AtomicStore {
        cell: u32,
        order: Order,
        value: CValue,
    },
    Rmw {
        cell: u32,
        order: Order,
        kind: RmwKind,
        operand: CValue,
    },
    Fence {
        order: Order,
    },
    PlainRead {
        cell: u32,
    },
    PlainWrite {
        cell: u32,
        value: CValue,
    },
    MutexInit {
        mutex: u32,
    },
    Lock {
        mutex: u32,
    },
    TryLock {
        mutex: u32,
    },
    Unlock {
        mutex: u32,
    },
    Create {
        function: u32,
        argument: i64,
    },
    Begin,
    End {
        value: i32,
    },
    Join {
        thread: u32,
    },
    Out {
        bytes: Bytes,
    },
    Stop {
        kind: StopKind,
    },
}

/// What the operation with this reply is as an event.
pub(crate) fn kind_of(op: &Op, reply: Reply) -> Result<EventKind, NoMemory>
    ensures { IfOk result (λ kind. kind ≡ kind_of op.now reply) }
{
    match op {
        Op::Init { cell, value } => Ok(EventKind::Init {
            cell: *cell,
            value: *value,
        }),
        Op::AtomicLoad { cell, order } => Ok(EventKind::AtomicLoad {
            cell: *cell,
            order: *order,
        }),
        Op::AtomicStore { cell, order, value } => Ok(EventKind::AtomicStore {
            cell: *cell,
            order: *order,
            value: *value,
        }),
        Op::Rmw {
            cell,
            order,
            kind,
            operand,
        } => Ok(EventKind::Rmw {
            cell: *cell,
            order: *order,
            kind: *kind,
            operand: *operand,
        }),
        Op::CompareExchange {
            cell,
            success,
            failure,
            weak: _,
            expected: _,
            desired,
        } => Ok(exchange_kind(*cell, *success, *failure, *desired, reply)),
        Op::Fence { order } => Ok(EventKind::Fence { order: *order }),
        Op::PlainRead { cell } => Ok(EventKind::PlainRead { cell: *cell }),
        Op::PlainWrite { cell, value } => Ok(EventKind::PlainWrite {
            cell: *cell,
            value: *value,
        }),
        Op::MutexInit { mutex } => Ok(EventKind::MutexInit { mutex: *mutex }),
        Op::Lock { mutex } => Ok(EventKind::Lock { mutex: *mutex }),
        Op::TryLock { mutex } => Ok(EventKind::TryLock { mutex: *mutex }),
        Op::Unlock { mutex } => Ok(EventKind::Unlock { mutex: *mutex }),
        Op::Create { function, argument } => Ok(EventKind::Create {
            function: *function,
            argument: *argument,
        }),
        Op::Begin => Ok(EventKind::Begin),
        Op::End { value } => Ok(EventKind::End { value: *value }),
        Op::Join { thread } => Ok(EventKind::Join { thread: *thread }),
        Op::Out { bytes } => Ok(EventKind::Out {
            bytes: bytes.copy()?,
        }),
        Op::Stop { kind } => Ok(EventKind::Stop { kind: *kind }),
    }
}

ghost use Rattle.c11_events.specs.EventOf.{exchange_kind};

// What a compare-exchange with this reply is.
fn exchange_kind(
    cell: u32,
    success: Order,
    failure: Order,
    desired: CValue,
    reply: Reply,
) -> EventKind
    ensures { result ≡ exchange_kind cell success failure desired reply }
{
    match reply {
        Reply::Exchanged {
            old: _,
            success: true,
        } => EventKind::Rmw {
            cell,
            order: success,
            kind: RmwKind::Exchange,
            operand: desired,
        },
        _ => EventKind::AtomicLoad {
            cell,
            order: failure,
        },
    }
}
