//! A whole campaign.
ghost use Rattle.std.specs.Prelude.{◌≡◌, ◌+◌, ◌^◌, ◌<◌, ◌≤◌, IfOk};
ghost use Rattle.std.specs.Thread.{IsSync};
ghost use Rattle.c11_flat.specs.Code.{whole_of};
ghost use Rattle.c11_machine.specs.Programs.{program_of};
ghost use Rattle.c11_report.specs.Summaries.{HaveLeasts};
ghost use Rattle.c11_campaign.specs.Summaries.{IsSummary};
ghost use Rattle.c11_campaign.specs.Workers.{Gives, IsFresh};

use crate::gathering::{deal, gather};
use crate::hunt::{Hunt, Worked, Worker, work};
use c11_check::Checked;
use c11_claims::Claims;
use c11_io::Gate;
use c11_lower::lower;
use c11_num::NoMemory;
use c11_report::Summary;
use c11_tally::laws::order_is_free;
use std::alloc::Global;
use std::thread::{Threads, map_vec};

/// Makes one run of the program for each of `count` seeds from `first` on, and sums them up. What is answered does not depend on the
/// number of workers, nor on who makes which run.
///
/// `count` is from 1 to 1,000,000, and the last seed is a `u64`; `steps`, the bound on the steps of each run, is from 1 to 4,000, and
/// `workers` from 1 to 64. Each worker passes the gate before it claims a seed. The only error is that memory ran out.
pub fn campaign<R: Threads + Sync, G: Gate + Sync>(
    rt: &R,
    alloc: Global,
    checked: &Checked,
    first: u64,
    count: u64,
    steps: u32,
    workers: u32,
    gate: &G,
) -> Result<Summary, NoMemory>
    requires some_seed { 0 < count }
    requires few_seeds { count ≤ 1000000 }
    requires last_seed { first + count ≤ 2 ^ 64 }
    requires some_step { 0 < steps }
    requires few_steps { steps ≤ 4000 }
    requires some_worker { 0 < workers }
    requires few_workers { workers ≤ 64 }
    ensures summary { IfOk result (IsSummary (program_of checked.now) first count steps) }
    ensures leasts { IfOk result (λ summary. HaveLeasts summary.tallies) }
{
    let code = lower(alloc, checked)?;
    let hunt = Hunt {
        checked,
        code: &code,
        first,
        steps,
    };
    let (claims, claimer) = Claims::open(alloc, count)?;
    let team = deal(alloc, &claims, claimer, workers)?;
    let job = |worker: Worker| -> Worked
        requires code { hunt.code.now ≡ whole_of hunt.checked.now.program }
        requires some_step { 0 < hunt.steps }
        requires few_steps { hunt.steps ≤ 10000 }
        requires count { claims.count ≡ count }
        requires few { count ≤ 1000000 }
        requires last { hunt.first + count ≤ 2 ^ 64 }
        requires seat { IsFresh claims worker }
        ensures { Gives (program_of hunt.entry.checked.now) hunt.entry.first hunt.entry.steps claims worker result }
    { work(alloc, &hunt, &claims, count, gate, worker) };
    let worked = map_vec(rt, team, &job)?;
    order_is_free();
    let tallied = gather(&hunt, claims, worked)?;
    tallied.summary(first, count, steps)
}
