use crate::span::Span;
use c11_ast::{CastTo, Prefix};
use c11_events::Order;
use c11_num::{BinaryOp, Bytes, CType, CValue, RmwKind};

/// Where an object is: its place, cell or mutex, or what the stack has.
#[derive(Clone, Copy, Debug)]
pub enum Place {
    At(u32),
    OnStack,
}

/// What keeps an object that is not atomic.
#[derive(Clone, Copy, Debug)]
pub enum Storage {
    /// The places of the running function.
    Local,
    /// The plain cells.
    Plain,
}

/// What is done to a mutex.
#[derive(Clone, Copy, Debug)]
pub enum Acts {
    Init,
    Lock,
    TryLock,
    Unlock,
}

/// One instruction. A `line` is that of the operation which it asks for, or of the Stop that stands in its place.
///
/// An instruction takes its operands off the stack, the last first, and puts its result there. The place of an object lies below
/// the values that go with it.
#[derive(Debug, Drop)]
pub enum Instr {
    /// Puts a value on the stack.
    Push(CValue),
    /// Takes a value off.
    Drop,
    /// Makes the place of an element from its index.
    Element {
        line: u32,
        span: Span,
    },
    /// Reads an object.
    Read {
        line: u32,
        storage: Storage,
        ctype: CType,
        place: Place,
    },
    /// Reads an object, whose place stays on the stack.
    Fetch {
        line: u32,
        storage: Storage,
        ctype: CType,
        place: Place,
    },
    /// Writes a value, which stays in the type of the object.
    Write {
        line: u32,
        storage: Storage,
        ctype: CType,
        place: Place,
    },
    /// Computes a binary operator.
    Compute {
        line: u32,
        op: BinaryOp,
    },
    /// Makes the value for `++` or `--`, and keeps the old one below it.
    Step {
        line: u32,
        up: bool,
    },
    /// Writes the value for `++` or `--`; it stays, or the old one does.
    Stepped {
        line: u32,
        storage: Storage,
        ctype: CType,
        place: Place,
        before: bool,
    },
    /// Computes an operator before its operand.
    Prefix {
        line: u32,
        op: Prefix,
    },
    Cast(CastTo),
    /// Makes 1 of a value that is not 0.
    Truth,
    /// Goes forward to the place where the value is 0.
    JumpIfZero(usize),
    /// Goes forward to the place.
    Jump(usize),
    /// Counts a turn of a loop.
    Turn {
        line: u32,
    },
    /// Where the value is not 0, counts a turn of a loop and goes back to the place.
    TurnIf {
        line: u32,
        to: usize,
    },
    /// Loads from an atomic cell.
    Load {
        line: u32,
        order: Order,
        cell: Place,
    },
    /// Stores to an atomic cell a value, which stays in the type of the object.
    Store {
        line: u32,
        order: Order,
        ctype: CType,
        cell: Place,
    },
    /// Makes a read-modify-write; the old value stays, or the new one.
    Modify {
        line: u32,
        order: Order,
        kind: RmwKind,
        ctype: CType,
        cell: Place,
        old: bool,
    },
    /// Makes a compare-exchange. The place of the local lies above that of the atomic object.
    Compare {
        line: u32,
        weak: bool,
        success: Order,
        failure: Order,
        ctype: CType,
        expected: CType,
        cell: Place,
        local: Place,
    },
    Fence {
        line: u32,
        order: Order,
    },
    Mutex {
        line: u32,
        acts: Acts,
        mutex: Place,
    },
    /// Creates a thread; its handle gets the number.
    Create {
        line: u32,
        function: u32,
        handle: Place,
    },
    /// Joins the thread whose handle was read; a place gets its value, where there is one. That lies above the handle.
    Join {
        line: u32,
        answer: Option<Place>,
    },
    Assert {
        line: u32,
    },
    /// Writes the text, and the last so many values in it.
    Print {
        line: u32,
        text: Bytes,
        count: usize,
    },
    /// Calls a function with the last so many values.
    Call {
        line: u32,
        function: u32,
        count: usize,
    },
    Return {
        line: u32,
    },
    /// Makes so many places 0, from this one on.
    Clear {
        place: u32,
        count: u32,
    },
}
