//! The command `run`.
ghost use Rattle.std.specs.Prelude.{◌≡◌, ◌<◌, ◌≤◌, IfOk, OnOk, IfErr};
ghost use Rattle.c11_commands.specs.Answers.{Answers, HasDueCause, IsDue, PrintsWhole};
ghost use Rattle.c11_commands.specs.Jobs.{run_job, IsRunText};
ghost use Rattle.c11_commands.specs.Statuses.{status_of, IsWhole};

use crate::due::{Due, DueStop, write_due};
use crate::program::{Judged, read_program};
use crate::words::Status;
use c11_accepts::laws::not_both;
use c11_check::Checked;
use c11_events::Verdict;
use c11_io::{Sink, Source};
use c11_lower::lower;
use c11_num::NoMemory;
use c11_report::{Head, Mode, execution_text};
use c11_run::run;
use std::alloc::Global;

/// Executes the program that the source holds, and writes its execution to the sink, or why it is refused.
///
/// `steps` is the bound on steps, from 1 to 10,000. The execution is made whole in memory before the first byte is written.
pub fn run_command<S: Source, K: Sink>(
    alloc: Global,
    seed: u64,
    steps: u32,
    source: &mut S,
    sink: &mut K,
) -> Status
    requires some_step { 0 < steps }
    requires few_steps { steps ≤ 10000 }
    // The headline: what was printed is the one run of the program that the source held, or why the text is refused.
    ensures headline { IsWhole result
        → PrintsWhole (run_job seed steps) (S.left source.old) (S.left source.new) result (K.taken sink.old) (K.taken sink.new) }
    // The same with all else that an answer tells.
    ensures answers { Answers S.left S.faults K.taken K.faults K.empties (run_job seed steps)
        source.old source.new sink.old sink.new result }
{
    not_both();
    match run_due(alloc, seed, steps, source) {
        Ok(due) => write_due(sink, due.text.as_slice(), due.status),
        Err(DueStop::Fault) => Status::ReadFault,
        Err(DueStop::NoMemory) => Status::NoMemory,
    }
}

// Reads the program and makes the text that is due for it.
fn run_due<S: Source>(alloc: Global, seed: u64, steps: u32, source: &mut S) -> Result<Due, DueStop>
    requires some_step { 0 < steps }
    requires few_steps { steps ≤ 10000 }
    ensures due { IfOk result (λ due. IsDue (run_job seed steps) (S.left source.old) (S.left source.new) due.status due.text.items) }
    ensures kept { OnOk result (S.faults source.new ≡ S.faults source.old) }
    ensures stop { IfErr result (HasDueCause (S.faults source.old) (S.faults source.new)) }
{
    match read_program(alloc, source) {
        Ok(Judged::Accepted(checked)) => printed_run(alloc, &checked, seed, steps),
        Ok(Judged::Refused(due)) => Ok(due),
        Err(stop) => Err(stop),
    }
}

// What is due for a program.
fn printed_run(alloc: Global, checked: &Checked, seed: u64, steps: u32) -> Result<Due, DueStop>
    requires some_step { 0 < steps }
    requires few_steps { steps ≤ 10000 }
    ensures due { IfOk result (λ due. IsRunText checked.now seed steps due.status due.text.items) }
    ensures stop { IfErr result (λ stop. stop ≡ DueStop.NoMemory) }
{
    match print_run(alloc, checked, seed, steps) {
        Ok(due) => Ok(due),
        Err(_) => Err(DueStop::NoMemory),
    }
}

// The text of the run of a program.
fn print_run(alloc: Global, checked: &Checked, seed: u64, steps: u32) -> Result<Due, NoMemory>
    requires some_step { 0 < steps }
    requires few_steps { steps ≤ 10000 }
    ensures { IfOk result (λ due. IsRunText checked.now seed steps due.status due.text.items) }
{
    let code = lower(alloc, checked)?;
    let run = run(alloc, checked, &code, seed, steps)?;
    let head = Head {
        mode: Mode::Run,
        seed,
        steps,
    };
    let text = execution_text(alloc, checked, &head, run.entries.as_slice(), &run.verdict)?;
    Ok(Due {
        text,
        status: status_of(run.verdict),
    })
}

// The status of a run with this verdict.
fn status_of(verdict: Verdict) -> Status
    ensures { result ≡ status_of verdict }
{
    match verdict {
        Verdict::Done => Status::Done,
        Verdict::Bound => Status::Bound,
        _ => Status::Found,
    }
}
