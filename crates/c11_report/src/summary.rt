ghost use Rattle.std.specs.Prelude.{◌≡◌, ◌++◌, ◌∷◌, [], OnOk, IfOk, flat_map};
ghost use Rattle.std.specs.Fmt.{decimal};
ghost use Rattle.c11_report.specs.Summaries.{HaveLeasts, summary_bytes, campaign_bytes, tallies_bytes, tally_bytes, least_bytes, outputs_bytes, output_bytes};

use crate::line::push_bytes;
use crate::outputs::OutputList;
use crate::tally::{Tallies, Tally};
use crate::text::Text;
use c11_num::{Bytes, NoMemory};
use std::alloc::Global;

/// What came of a campaign: runs of one program from `count` seeds, `first` and those after it.
#[derive(Debug, Drop)]
pub struct Summary {
    pub first: u64,
    pub count: u64,
    /// The bound on the steps of each run.
    pub steps: u32,
    pub tallies: Tallies,
    pub outputs: OutputList,
}

/// The text of a summary: its head, a line for each way to end, and one for each output.
///
/// The only error is that memory ran out.
pub fn summary_text(alloc: Global, summary: &Summary) -> Result<Vec<u8>, NoMemory>
    requires { HaveLeasts summary.now.tallies }
    ensures { IfOk result (λ text. text.items ≡ summary_bytes summary.now) }
{
    let mut text = Text::new(alloc);
    push_campaign(&mut text, summary.first, summary.count, summary.steps)?;
    push_tallies(&mut text, summary.tallies)?;
    push_outputs(&mut text, summary.outputs.pairs())?;
    Ok(text.into_bytes())
}

fn push_campaign(text: &mut Text, first: u64, count: u64, steps: u32) -> Result<(), NoMemory>
    ensures { OnOk result (text.new ≡ text.old ++ campaign_bytes first count steps) }
{
    push_field(text, "campaign 1 first ", first)?;
    push_field(text, " count ", count)?;
    push_field(text, " steps ", u64::from(steps))?;
    text.word("\n")
}

// Adds a word and a number.
fn push_field(text: &mut Text, word: &str, number: u64) -> Result<(), NoMemory>
    ensures { OnOk result (text.new ≡ text.old ++ (word.now ++ decimal number)) }
{
    text.word(word)?;
    text.number(number)
}

fn push_tallies(text: &mut Text, tallies: Tallies) -> Result<(), NoMemory>
    ensures { OnOk result (text.new ≡ text.old ++ tallies_bytes tallies) }
{
    push_tally(text, "done", tallies.done)?;
    push_tally(text, "bound", tallies.bound)?;
    push_tally(text, "race", tallies.race)?;
    push_tally(text, "assert", tallies.assert_)?;
    push_tally(text, "fault", tallies.fault)?;
    push_tally(text, "local", tallies.local)?;
    push_tally(text, "deadlock", tallies.deadlock)
}

fn push_tally(text: &mut Text, word: &str, tally: Tally) -> Result<(), NoMemory>
    ensures { OnOk result (text.new ≡ text.old ++ tally_bytes word.now tally) }
{
    text.word(word)?;
    text.word(" ")?;
    text.number(tally.count)?;
    text.word(" ")?;
    push_least(text, tally.least)?;
    text.word("\n")
}

fn push_least(text: &mut Text, least: Option<u64>) -> Result<(), NoMemory>
    ensures { OnOk result (text.new ≡ text.old ++ least_bytes least) }
{
    match least {
        Some(seed) => text.number(seed),
        None => text.word("-"),
    }
}

fn push_outputs(text: &mut Text, pairs: &[(Bytes, u64)]) -> Result<(), NoMemory>
    ensures { OnOk result (text.new ≡ text.old ++ outputs_bytes pairs.now) }
{
    text.word("outputs ")?;
    text.number(pairs.len() as u64)?;
    text.word("\n")?;
    push_pairs(text, pairs)
}

fn push_pairs(text: &mut Text, pairs: &[(Bytes, u64)]) -> Result<(), NoMemory>
    ensures { OnOk result (text.new ≡ text.old ++ flat_map output_bytes pairs.now) }
{
    for pair in pairs {
        push_output(text, &pair.0, pair.1)?;
    }
    Ok(())
}

fn push_output(text: &mut Text, output: &Bytes, count: u64) -> Result<(), NoMemory>
    ensures { OnOk result (text.new ≡ text.old ++ output_bytes (output.now, count)) }
{
    text.number(count)?;
    text.word(" ")?;
    push_bytes(text, output.as_slice())?;
    text.word("\n")
}
