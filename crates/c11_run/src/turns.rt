ghost use Rattle.std.specs.Prelude.{◌≡◌, ◌<◌, ◌≤◌, ◌↔◌, ℤ, IfOk, IsTrue, OnOk, length, None};
ghost use Rattle.c11_events.specs.EventOf.{events_of};
ghost use Rattle.c11_events.specs.Lawful.{Consistent};
ghost use Rattle.c11_events.specs.Offered.{IsRisingList, Offered};
ghost use Rattle.c11_events.specs.Replies.{thread_limit};
ghost use Rattle.c11_events.specs.Steps.{step_count};
ghost use Rattle.c11_events.specs.Verdicts.{StepVerdict};
ghost use Rattle.c11_flat.specs.Code.{whole_of};
ghost use Rattle.c11_machine.specs.Programs.{program_of};
ghost use Rattle.c11_machine.specs.Runs.{OneRun};
ghost use Rattle.c11_run.specs.Going.{GoesOn, IsAt};

use crate::team::Team;
use crate::whole::Run;
use c11_check::Checked;
use c11_check::laws::faultless_lies_within;
use c11_events::{Op, Verdict};
use c11_machine::Code;
use c11_meaning::laws::asks_are_legal;
use c11_memory::Memory;
use c11_num::NoMemory;
use std::alloc::Global;

/// Makes the one run of the program with the seed and the bound on steps, which is from 1 to 10,000. The code is the program's.
///
/// Each step goes to one of the threads that can go on, and each read takes one of its offers, as the words of the seed choose.
pub fn run(
    alloc: Global,
    checked: &Checked,
    code: &Code,
    seed: u64,
    steps: u32,
) -> Result<Run, NoMemory>
    requires code { code.now ≡ whole_of checked.now.program }
    requires some_step { 0 < steps }
    requires few_steps { steps ≤ 10000 }
    ensures run { IfOk result (λ run. OneRun Offered (program_of checked.now) seed steps run.entries.items run.verdict) }
    ensures consistent { IfOk result (λ run. Consistent (events_of run.entries.items)) }
{
    let mut memory = Memory::open(alloc, checked, seed, steps)?;
    let mut team = Team::open(alloc, checked, code)?;
    let verdict = run_to_end(alloc, &mut memory, &mut team, checked, code)?;
    Ok(Run {
        entries: memory.into_history(),
        verdict,
    })
}

// Makes each further step of the run, and answers how it ended.
fn run_to_end(
    alloc: Global,
    memory: &mut Memory,
    team: &mut Team,
    checked: &Checked,
    code: &Code,
) -> Result<Verdict, NoMemory>
    requires code { code.now ≡ whole_of checked.now.program }
    requires at { IsAt checked.now memory.old team.old.members.items }
    ensures { IfOk result (λ verdict. OneRun Offered (program_of checked.now) memory.old.seed memory.old.bound memory.new.history verdict) }
{
    asks_are_legal();
    loop {
        if let Some(verdict) = memory.verdict() {
            return Ok(verdict);
        }
        let enabled = team.enabled(alloc, memory)?;
        if enabled.is_empty() {
            return Ok(Verdict::Deadlock);
        }
        go(memory, team, checked, code, enabled.as_slice())?;
    }
}

// The next step of the run: of one of the threads that can go on, as the seed chooses.
fn go(
    memory: &mut Memory,
    team: &mut Team,
    checked: &Checked,
    code: &Code,
    enabled: &[u32],
) -> Result<(), NoMemory>
    requires code { code.now ≡ whole_of checked.now.program }
    requires at { IsAt checked.now memory.old team.old.members.items }
    requires goes_on { memory.old.verdict ≡ None }
    requires undecided { StepVerdict memory.old.bound memory.old.history None }
    requires enabled { IsRisingList (GoesOn (events_of memory.old.history) team.old.members.items) enabled.now }
    requires some { 0 < length enabled.now }
    requires few { length enabled.now ≤ thread_limit }
    ensures at { OnOk result (IsAt checked.now memory.new team.new.members.items) }
    ensures same { OnOk result ((memory.new.seed ≡ memory.old.seed) × (memory.new.bound ≡ memory.old.bound)) }
    ensures steps { OnOk result (step_count memory.old.history < step_count memory.new.history) }
{
    asks_are_legal();
    faultless_lies_within();
    let (thread, reply) = team.step(memory, enabled)?;
    let member = &mut team.members[thread as usize];
    if memory.verdict().is_some() || is_end(&member.ask.op) {
        return Ok(());
    }
    member.tell(&reply, checked, code)
}

// Whether the operation ends its thread.
fn is_end(op: &Op) -> bool
    ensures { IsTrue result ↔ ((value : ℤ) × (op.now ≡ Op.End value)) }
{
    matches!(op, Op::End { .. })
}
