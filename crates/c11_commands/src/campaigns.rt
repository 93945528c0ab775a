//! The commands `campaign` and `trial`.
ghost use Rattle.std.specs.Prelude.{◌≡◌, ◌<◌, ◌≤◌, IfOk, OnOk, IfErr};
ghost use Rattle.c11_commands.specs.Answers.{Answers, AnswersAlone, HasDueCause, IsDue, PrintsWhole};
ghost use Rattle.c11_commands.specs.Jobs.{campaign_job, trial_job, IsCampaignOf, IsSummaryText};
ghost use Rattle.c11_commands.specs.Statuses.{IsWhole, found_some, status_of_tallies};
ghost use Rattle.c11_commands.specs.Words.{IsGoodCampaign};
ghost use Rattle.c11_ring.specs.Ring.{ring_bytes};

use crate::due::{Due, DueStop, write_due};
use crate::program::{Judged, read_program};
use crate::words::Status;
use c11_accepts::laws::not_both;
use c11_accepts::{AcceptStop, accept};
use c11_campaign::campaign;
use c11_check::Checked;
use c11_io::{Gate, Sink, Source};
use c11_num::NoMemory;
use c11_report::{Tallies, summary_text};
use c11_ring::laws::ring_is_accepted;
use c11_ring::make_ring;
use std::alloc::Global;
use std::thread::Threads;

/// Runs the program that the source holds once for each of `count` seeds from `first` on, and writes the summary to the sink, or why the
/// text is refused. It is the same for each number of workers.
///
/// `count` is from 1 to 1,000,000, and the last seed is a `u64`; `steps`, the bound on the steps of each run, is from 1 to 4,000, and
/// `workers` from 1 to 64. Each worker passes the gate before it claims a seed. The summary is made whole before the first byte is written.
pub fn campaign_command<R: Threads + Sync, S: Source, K: Sink, G: Gate + Sync>(
    rt: &R,
    alloc: Global,
    first: u64,
    count: u64,
    steps: u32,
    workers: u32,
    source: &mut S,
    sink: &mut K,
    gate: &G,
) -> Status
    requires { IsGoodCampaign first count steps workers }
    // What was printed is the summary of the one runs of the program that the source held, or why the text is refused.
    ensures headline { IsWhole result
        → PrintsWhole (campaign_job first count steps) (S.left source.old) (S.left source.new) result (K.taken sink.old) (K.taken sink.new) }
    // The same with all else that an answer tells.
    ensures answers { Answers S.left S.faults K.taken K.faults K.empties (campaign_job first count steps)
        source.old source.new sink.old sink.new result }
{
    not_both();
    match campaign_due(rt, alloc, first, count, steps, workers, source, gate) {
        Ok(due) => write_due(sink, due.text.as_slice(), due.status),
        Err(DueStop::Fault) => Status::ReadFault,
        Err(DueStop::NoMemory) => Status::NoMemory,
    }
}

// Reads the program and makes the text that is due for it.
fn campaign_due<R: Threads + Sync, S: Source, G: Gate + Sync>(
    rt: &R,
    alloc: Global,
    first: u64,
    count: u64,
    steps: u32,
    workers: u32,
    source: &mut S,
    gate: &G,
) -> Result<Due, DueStop>
    requires { IsGoodCampaign first count steps workers }
    ensures due { IfOk result (λ due. IsDue (campaign_job first count steps) (S.left source.old) (S.left source.new) due.status due.text.items) }
    ensures kept { OnOk result (S.faults source.new ≡ S.faults source.old) }
    ensures stop { IfErr result (HasDueCause (S.faults source.old) (S.faults source.new)) }
{
    match read_program(alloc, source) {
        Ok(Judged::Accepted(checked)) => {
            summed(rt, alloc, &checked, first, count, steps, workers, gate)
        }
        Ok(Judged::Refused(due)) => Ok(due),
        Err(stop) => Err(stop),
    }
}

/// Runs the ring program that is made from `number` and `size` once for each of `count` seeds from `first` on, and writes the summary.
///
/// `size` is from 1 to 200; the other numbers are as those of a campaign. Nothing is read.
pub fn trial_command<R: Threads + Sync, K: Sink, G: Gate + Sync>(
    rt: &R,
    alloc: Global,
    number: u64,
    size: u32,
    first: u64,
    count: u64,
    steps: u32,
    workers: u32,
    sink: &mut K,
    gate: &G,
) -> Status
    requires some_packet { 0 < size }
    requires few_packets { size ≤ 200 }
    requires numbers { IsGoodCampaign first count steps workers }
    ensures { AnswersAlone K.taken K.faults K.empties (trial_job number size first count steps) sink.old sink.new result }
{
    match trial_due(rt, alloc, number, size, first, count, steps, workers, gate) {
        Ok(due) => write_due(sink, due.text.as_slice(), due.status),
        Err(_) => Status::NoMemory,
    }
}

// Makes the ring, and the text that is due for it.
fn trial_due<R: Threads + Sync, G: Gate + Sync>(
    rt: &R,
    alloc: Global,
    number: u64,
    size: u32,
    first: u64,
    count: u64,
    steps: u32,
    workers: u32,
    gate: &G,
) -> Result<Due, NoMemory>
    requires some_packet { 0 < size }
    requires few_packets { size ≤ 200 }
    requires numbers { IsGoodCampaign first count steps workers }
    ensures { IfOk result (λ due. IsCampaignOf first count steps (ring_bytes number size) due.status due.text.items) }
{
    let text = make_ring(alloc, number, size)?;
    ring_is_accepted();
    not_both();
    match accept(alloc, text.as_slice()) {
        Ok(checked) => print_summary(rt, alloc, &checked, first, count, steps, workers, gate),
        Err(AcceptStop::NoMemory) => Err(NoMemory),
        Err(AcceptStop::Refused(_)) => unreachable!(),
    }
}

// What is due for a program.
fn summed<R: Threads + Sync, G: Gate + Sync>(
    rt: &R,
    alloc: Global,
    checked: &Checked,
    first: u64,
    count: u64,
    steps: u32,
    workers: u32,
    gate: &G,
) -> Result<Due, DueStop>
    requires { IsGoodCampaign first count steps workers }
    ensures due { IfOk result (λ due. IsSummaryText checked.now first count steps due.status due.text.items) }
    ensures stop { IfErr result (λ stop. stop ≡ DueStop.NoMemory) }
{
    match print_summary(rt, alloc, checked, first, count, steps, workers, gate) {
        Ok(due) => Ok(due),
        Err(_) => Err(DueStop::NoMemory),
    }
}

// The text of the summary of a program's runs.
fn print_summary<R: Threads + Sync, G: Gate + Sync>(
    rt: &R,
    alloc: Global,
    checked: &Checked,
    first: u64,
    count: u64,
    steps: u32,
    workers: u32,
    gate: &G,
) -> Result<Due, NoMemory>
    requires { IsGoodCampaign first count steps workers }
    ensures { IfOk result (λ due. IsSummaryText checked.now first count steps due.status due.text.items) }
{
    let summary = campaign(rt, alloc, checked, first, count, steps, workers, gate)?;
    let text = summary_text(alloc, &summary)?;
    Ok(Due {
        text,
        status: status_of_tallies(&summary.tallies),
    })
}

// The status of a campaign that counted so.
fn status_of_tallies(tallies: &Tallies) -> Status
    ensures { result ≡ status_of_tallies tallies.now }
{
    if found_some(tallies) {
        Status::Found
    } else if tallies.bound.count > 0 {
        Status::Bound
    } else {
        Status::Done
    }
}

// Whether a run ended otherwise than with `done` or `bound`.
fn found_some(tallies: &Tallies) -> bool
    ensures { result ≡ found_some tallies.now }
{
    tallies.race.count > 0
        || tallies.assert_.count > 0
        || tallies.fault.count > 0
        || tallies.local.count > 0
        || tallies.deadlock.count > 0
}
