ghost use Rattle.std.specs.Prelude.{◌≡◌};
ghost use Rattle.c11_report.specs.Execution.{order_bytes, kind_bytes, stop_bytes, fault_bytes};

use c11_events::{FaultKind, Order, StopKind};
use c11_num::RmwKind;

pub(crate) fn order_word(order: Order) -> &'static str
    ensures { result.now ≡ order_bytes order }
{
    match order {
        Order::Relaxed => "relaxed",
        Order::Consume => "consume",
        Order::Acquire => "acquire",
        Order::Release => "release",
        Order::AcqRel => "acq_rel",
        Order::SeqCst => "seq_cst",
    }
}

pub(crate) fn kind_word(kind: RmwKind) -> &'static str
    ensures { result.now ≡ kind_bytes kind }
{
    match kind {
        RmwKind::Exchange => "swap",
        RmwKind::Add => "add",
        RmwKind::Sub => "sub",
        RmwKind::And => "and",
        RmwKind::Or => "or",
        RmwKind::Xor => "xor",
    }
}

pub(crate) fn stop_word(kind: StopKind) -> &'static str
    ensures { result.now ≡ stop_bytes kind }
{
    match kind {
        StopKind::Assert => "assert",
        StopKind::Local => "local",
        StopKind::Overflow => "overflow",
        StopKind::Divide => "divide",
        StopKind::Shift => "shift",
        StopKind::Bounds => "bounds",
        StopKind::Depth => "depth",
    }
}

pub(crate) fn fault_word(kind: FaultKind) -> &'static str
    ensures { result.now ≡ fault_bytes kind }
{
    match kind {
        FaultKind::Overflow => "overflow",
        FaultKind::Divide => "divide",
        FaultKind::Shift => "shift",
        FaultKind::Bounds => "bounds",
        FaultKind::Depth => "depth",
        FaultKind::Threads => "threads",
        FaultKind::Join => "join",
        FaultKind::Mutex => "mutex",
        FaultKind::Unlock => "unlock",
    }
}
