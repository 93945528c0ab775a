ghost use Rattle.std.specs.Prelude.{◌≡◌, ◌+◌, ◌<◌, ◌^◌, ◌∷◌, [], ◌++◌, List, OnOk, OnErr, IfOk};
ghost use Rattle.c11_report.specs.Summaries.{HaveLeasts};
ghost use Rattle.c11_tally.specs.Joined.{no_tallies};
ghost use Rattle.c11_tally.specs.Tallies.{Ran, ran_of, StandsFor, kept_in, runs};

use crate::joined::{joined_tallies, no_tallies, with_run};
use crate::outputs::{add_outputs, count_output, output_list, read_output};
use c11_events::{Entry, Verdict};
use c11_num::NoMemory;
use c11_report::{Summary, Tallies};
use std::alloc::Global;
use std::collections::BTreeMap;
use std::marker::Model;

/// What is kept of the runs so far: how they ended and what they printed, which contracts see as a record.
#[derive(Drop)]
pub struct Tallied {
    alloc: Global,
    tallies: Tallies,
    outputs: BTreeMap<Vec<u8>, u64>,
    // The output of the run that is added.
    buffer: Vec<u8>,
}

impl Model for Tallied {
    ghost use Rattle.c11_tally.specs.Tallies.{Kept};

    ghost Value = { Kept };

    ghost use Rattle.std.specs.Prelude.{◌≤◌, List, ℕ};
    ghost use Rattle.c11_report.specs.Summaries.{HaveLeasts};
    ghost use Rattle.c11_tally.specs.Pairs.{pairs_of};
    ghost use Rattle.c11_tally.specs.Tallies.{listed, runs};

    ghost view = { λ t. record { tallies = t.tallies; outputs = pairs_of t.outputs.entries } };

    ghost invariant = { λ t. HaveLeasts t.tallies × ((bytes : List ℕ) → listed (pairs_of t.outputs.entries) bytes ≤ runs t.tallies) };
}

impl Tallied {
    /// What is kept of no run.
    pub fn new(alloc: Global) -> Tallied
        ensures stands { StandsFor result [] }
        ensures none { runs result.tallies ≡ 0 }
    {
        Tallied {
            alloc,
            tallies: no_tallies(),
            outputs: BTreeMap::new(alloc),
            buffer: Vec::new(alloc),
        }
    }

    /// Adds a run: its seed, its verdict and its history.
    ///
    /// The only error is that memory ran out; what is kept then is as before.
    pub fn add(&mut self, seed: u64, verdict: Verdict, entries: &[Entry]) -> Result<(), NoMemory>
        requires { runs self.old.tallies + 1 < 2 ^ 64 }
        ensures stands { OnOk result ((rans : List Ran) → StandsFor self.old rans → StandsFor self.new (rans ++ ran_of seed verdict entries.now ∷ [])) }
        ensures runs { OnOk result (runs self.new.tallies ≡ runs self.old.tallies + 1) }
        ensures err { OnErr result (self.new ≡ self.old) }
    {
        read_output(&mut self.buffer, entries)?;
        count_output(self.alloc, &mut self.outputs, self.buffer.as_slice())?;
        self.tallies = with_run(self.tallies, seed, verdict);
        Ok(())
    }

    /// Adds the runs of the other.
    ///
    /// The only error is that memory ran out; what is kept then is of no use.
    pub fn merge(&mut self, other: Tallied) -> Result<(), NoMemory>
        requires { runs self.old.tallies + runs other.tallies < 2 ^ 64 }
        ensures stands { OnOk result ((xs ys : List Ran) → StandsFor self.old xs → StandsFor other ys → StandsFor self.new (xs ++ ys)) }
        ensures runs { OnOk result (runs self.new.tallies ≡ runs self.old.tallies + runs other.tallies) }
    {
        let Tallied {
            alloc: _,
            tallies,
            outputs,
            buffer: _,
        } = other;
        self.tallies = joined_tallies(self.tallies, tallies);
        add_outputs(&mut self.outputs, outputs)
    }

    /// The summary of a campaign over these runs.
    ///
    /// The only error is that memory ran out.
    pub fn summary(self, first: u64, count: u64, steps: u32) -> Result<Summary, NoMemory>
        ensures head { IfOk result (λ summary. (summary.first ≡ first) × (summary.count ≡ count) × (summary.steps ≡ steps)) }
        ensures kept { IfOk result (λ summary. kept_in summary ≡ self) }
        ensures leasts { IfOk result (λ summary. HaveLeasts summary.tallies) }
    {
        let Tallied {
            alloc,
            tallies,
            outputs,
            buffer: _,
        } = self;
        Ok(Summary {
            first,
            count,
            steps,
            tallies,
            outputs: output_list(alloc, outputs)?,
        })
    }
}
