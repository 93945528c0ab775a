//! What one worker of a campaign does.
ghost use Rattle.std.specs.Prelude.{◌≡◌, ◌+◌, ◌^◌, ◌<◌, ◌≤◌, [], IfOk};
ghost use Rattle.c11_flat.specs.Code.{whole_of};
ghost use Rattle.c11_machine.specs.Programs.{program_of};
ghost use Rattle.c11_campaign.specs.Workers.{HasWorked};

use c11_check::Checked;
use c11_claims::{Claimer, Claims};
use c11_io::Gate;
use c11_machine::Code;
use c11_num::NoMemory;
use c11_run::run;
use c11_tally::Tallied;
use std::alloc::Global;

/// A worker before its first seed.
#[derive(Drop)]
pub(crate) struct Worker {
    /// Its number, by which it passes the gate.
    pub(crate) number: u32,
    pub(crate) claimer: Claimer,
}

/// A worker behind its last seed, or where it found no memory.
#[derive(Drop)]
pub(crate) struct Worked {
    pub(crate) claimer: Claimer,
    pub(crate) tallied: Result<Tallied, NoMemory>,
}

/// What is run: a program with its code, the seed that belongs to the number 0, and the bound on steps.
#[derive(Clone, Copy)]
pub(crate) struct Hunt<'a> {
    pub(crate) checked: &'a Checked,
    pub(crate) code: &'a Code,
    pub(crate) first: u64,
    pub(crate) steps: u32,
}

/// Makes the run of each seed that the worker claims, until none is left.
pub(crate) fn work<G: Gate>(
    alloc: Global,
    hunt: &Hunt,
    claims: &Claims,
    count: u64,
    gate: &G,
    worker: Worker,
) -> Worked
    requires code { hunt.now.code.now ≡ whole_of hunt.now.checked.now.program }
    requires some_step { 0 < hunt.now.steps }
    requires few_steps { hunt.now.steps ≤ 10000 }
    requires count { claims.now.count ≡ count }
    requires few { count ≤ 1000000 }
    requires last { hunt.now.first + count ≤ 2 ^ 64 }
    requires here { worker.claimer.claims ≡ claims.now }
    requires fresh { worker.claimer.claimed ≡ [] }
    ensures here { result.claimer.claims ≡ claims.now }
    ensures shares { result.claimer.shares ≡ worker.claimer.shares }
    ensures tallied { IfOk result.tallied (HasWorked (program_of hunt.now.checked.now) hunt.now.first hunt.now.steps claims.now result.claimer.claimed) }
{
    let Worker {
        number,
        mut claimer,
    } = worker;
    let tallied = tally_seeds(alloc, hunt, claims, count, gate, number, &mut claimer);
    Worked { claimer, tallied }
}

// Makes the runs, and tallies them.
fn tally_seeds<G: Gate>(
    alloc: Global,
    hunt: &Hunt,
    claims: &Claims,
    count: u64,
    gate: &G,
    worker: u32,
    claimer: &mut Claimer,
) -> Result<Tallied, NoMemory>
    requires code { hunt.now.code.now ≡ whole_of hunt.now.checked.now.program }
    requires some_step { 0 < hunt.now.steps }
    requires few_steps { hunt.now.steps ≤ 10000 }
    requires count { claims.now.count ≡ count }
    requires few { count ≤ 1000000 }
    requires last { hunt.now.first + count ≤ 2 ^ 64 }
    requires here { claimer.old.claims ≡ claims.now }
    requires fresh { claimer.old.claimed ≡ [] }
    ensures here { claimer.new.claims ≡ claims.now }
    ensures shares { claimer.new.shares ≡ claimer.old.shares }
    ensures tallied { IfOk result (HasWorked (program_of hunt.now.checked.now) hunt.now.first hunt.now.steps claims.now claimer.new.claimed) }
{
    let mut tallied = Tallied::new(alloc);
    for turn in 0..count + 1 {
        gate.pass(worker, turn);
        let Some(number) = claims.claim(claimer) else {
            return Ok(tallied);
        };
        let seed = hunt.first + number;
        let run = run(alloc, hunt.checked, hunt.code, seed, hunt.steps)?;
        tallied.add(seed, run.verdict, run.entries.as_slice())?;
    }
    unreachable!()
}
