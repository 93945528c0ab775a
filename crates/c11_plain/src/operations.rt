ghost use Rattle.std.specs.Prelude.{◌≡◌};
ghost use Rattle.c11_events.specs.EventOf.{kind_of};
ghost use Rattle.c11_events.specs.Offered as spec;

use crate::values::value_of;
use c11_events::{Event, Op, Reply};

/// The atomic cell that the operation reads.
pub(crate) fn op_cell(op: &Op) -> Option<u32>
    ensures { result ≡ spec.op_cell op.now }
{
    match op {
        Op::AtomicLoad { cell, order: _ } => Some(*cell),
        Op::Rmw {
            cell,
            order: _,
            kind: _,
            operand: _,
        } => Some(*cell),
        Op::CompareExchange {
            cell,
            success: _,
            failure: _,
            weak: _,
            expected: _,
            desired: _,
        } => Some(*cell),
        _ => None,
    }
}

/// A reply with which the operation is the event that it becomes when it reads the store x: a compare-exchange is told whether
/// the value is the expected one, and of the others the reply makes no difference.
pub(crate) fn reply_of(events: &[Event], op: &Op, x: u32) -> Reply
    ensures { kind_of op.now result ≡ spec.op_reading events.now op.now x }
{
    match op {
        Op::CompareExchange {
            cell: _,
            success: _,
            failure: _,
            weak: _,
            expected,
            desired: _,
        } => {
            let old = value_of(events, x);
            let success = old.number() == expected.number();
            Reply::Exchanged { old, success }
        }
        _ => Reply::Done,
    }
}
