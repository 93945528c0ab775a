ghost use Rattle.std.specs.Prelude.{◌≡◌, IfOk};

use crate::order::Order;
use c11_num::{Bytes, CValue, NoMemory, RmwKind};

/// One operation of one tested thread.
///
/// Cells, mutexes and functions go by their numbers, each kind from 0; atomic and plain cells are numbered apart.
#[derive(Debug, Drop)]
pub enum Op {
    /// The initial value of an atomic cell, before the first step.
    Init {
        cell: u32,
        value: CValue,
    },
    /// An atomic load.
    AtomicLoad {
        cell: u32,
        order: Order,
    },
    /// An atomic store.
    AtomicStore {
        cell: u32,
        order: Order,
        value: CValue,
    },
    /// An atomic read-modify-write.
    Rmw {
        cell: u32,
        order: Order,
        kind: RmwKind,
        operand: CValue,
    },
    /// An atomic compare-exchange.
    CompareExchange {
        cell: u32,
        success: Order,
        failure: Order,
        weak: bool,
        expected: CValue,
        desired: CValue,
    },
    /// `atomic_thread_fence`
    Fence {
        order: Order,
    },
    /// A read of a plain cell.
    PlainRead {
        cell: u32,
    },
    /// A write of a plain cell.
    PlainWrite {
        cell: u32,
        value: CValue,
    },
    /// `mtx_init`
    MutexInit {
        mutex: u32,
    },
    /// `mtx_lock`
    Lock {
        mutex: u32,
    },
    /// `mtx_trylock`
    TryLock {
        mutex: u32,
    },
    /// `mtx_unlock`
    Unlock {
        mutex: u32,
    },
    /// `thrd_create`
    Create {
        function: u32,
        argument: i64,
    },
    /// The first operation of each thread.
    Begin,
    /// The end of the thread's function, with its value.
    End {
        value: i32,
    },
    /// `thrd_join`
    Join {
        thread: u32,
    },
    /// The bytes that a `printf` writes.
    Out {
        bytes: Bytes,
    },
    /// The thread cannot go on.
    Stop {
        kind: StopKind,
    },
}

/// Why a thread cannot go on.
#[derive(Clone, Copy, Debug, PartialEq, Eq)]
pub enum StopKind {
    /// An `assert` of 0.
    Assert,
    /// Too much local work without an operation.
    Local,
    /// A result that its signed type does not hold.
    Overflow,
    /// A division by 0.
    Divide,
    /// A shift by a negative count, or by the width or more.
    Shift,
    /// An index outside its array.
    Bounds,
    /// Too many calls inside one another.
    Depth,
}

/// What a thread wants to do next, and the line of the program that asks for it (from 1; 0 where none does).
#[derive(Debug, Drop)]
pub struct Ask {
    pub line: u32,
    pub op: Op,
}

impl Op {
    /// The same operation again.
    pub fn copy(&self) -> Result<Op, NoMemory>
        ensures { IfOk result (λ copy. copy ≡ self.now) }
    {
        match self {
            Op::Init { cell, value } => Ok(Op::Init {
                cell: *cell,
                value: *value,
            }),
            Op::AtomicLoad { cell, order } => Ok(Op::AtomicLoad {
                cell: *cell,
                order: *order,
            }),
            Op::AtomicStore { cell, order, value } => Ok(Op::AtomicStore {
                cell: *cell,
                order: *order,
                value: *value,
            }),
            Op::Rmw {
                cell,
                order,
                kind,
                operand,
            } => Ok(Op::Rmw {
                cell: *cell,
                order: *order,
                kind: *kind,
                operand: *operand,
            }),
            Op::CompareExchange {
                cell,
                success,
                failure,
                weak,
                expected,
                desired,
            } => Ok(Op::CompareExchange {
                cell: *cell,
                success: *success,
                failure: *failure,
                weak: *weak,
                expected: *expected,
                desired: *desired,
            }),
            Op::Fence { order } => Ok(Op::Fence { order: *order }),
            Op::PlainRead { cell } => Ok(Op::PlainRead { cell: *cell }),
            Op::PlainWrite { cell, value } => Ok(Op::PlainWrite {
                cell: *cell,
                value: *value,
            }),
            Op::MutexInit { mutex } => Ok(Op::MutexInit { mutex: *mutex }),
            Op::Lock { mutex } => Ok(Op::Lock { mutex: *mutex }),
            Op::TryLock { mutex } => Ok(Op::TryLock { mutex: *mutex }),
            Op::Unlock { mutex } => Ok(Op::Unlock { mutex: *mutex }),
            Op::Create { function, argument } => Ok(Op::Create {
                function: *function,
                argument: *argument,
            }),
            Op::Begin => Ok(Op::Begin),
            Op::End { value } => Ok(Op::End { value: *value }),
            Op::Join { thread } => Ok(Op::Join { thread: *thread }),
            Op::Out { bytes } => Ok(Op::Out {
                bytes: bytes.copy()?,
            }),
            Op::Stop { kind } => Ok(Op::Stop { kind: *kind }),
        }
    }
}
