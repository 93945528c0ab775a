//! How an execution stands after a step.
ghost use Rattle.std.specs.Prelude.{◌≡◌};
ghost use Rattle.c11_events.specs.Verdicts.{stop_verdict, step_verdict};
ghost use Rattle.c11_memory.specs.Sound.{ended};

use c11_events::{FaultKind, Op, Reply, StopKind, Verdict};
use c11_history::Race;

// What a Stop of this kind ends the run with.
fn stopped(kind: StopKind) -> Verdict
    ensures { result ≡ stop_verdict kind }
{
    match kind {
        StopKind::Assert => Verdict::Assert,
        StopKind::Local => Verdict::Local,
        StopKind::Overflow => Verdict::Fault(FaultKind::Overflow),
        StopKind::Divide => Verdict::Fault(FaultKind::Divide),
        StopKind::Shift => Verdict::Fault(FaultKind::Shift),
        StopKind::Bounds => Verdict::Fault(FaultKind::Bounds),
        StopKind::Depth => Verdict::Fault(FaultKind::Depth),
    }
}

/// What the thread's operation ends the run with, with its reply.
pub(crate) fn said(thread: u32, op: &Op, reply: Reply) -> Option<Verdict>
    ensures { result ≡ step_verdict thread op.now reply }
{
    if let Reply::Fault(kind) = reply {
        return Some(Verdict::Fault(kind));
    }
    match op {
        Op::Stop { kind } => Some(stopped(*kind)),
        Op::End { value: _ } if thread == 0 => Some(Verdict::Done),
        _ => None,
    }
}

/// How the run stands after the entry of this number: by a race with it, else by what it says, else by the bound on steps.
pub(crate) fn verdict_after(
    race: Option<Race>,
    number: u32,
    said: Option<Verdict>,
    steps: u32,
    bound: u32,
) -> Option<Verdict>
    ensures { result ≡ ended race number said steps bound }
{
    if let Some(race) = race {
        return Some(Verdict::Race {
            first: race.first,
            second: number,
            cell: race.cell,
        });
    }
    match said {
        Some(verdict) => Some(verdict),
        None if steps == bound => Some(Verdict::Bound),
        None => None,
    }
}
