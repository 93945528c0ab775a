ghost use Rattle.std.specs.Prelude.{◌≡◌, ◌++◌, ◌∷◌, [], OnOk, IfOk, flat_map};
ghost use Rattle.c11_report.specs.Execution.{mode_bytes, head_bytes, entry_bytes, verdict_bytes, execution_bytes, names_of, names_in};

use crate::line::push_entry;
use crate::object::{Objects, objects_of, push_cell};
use crate::spelling::fault_word;
use crate::text::{Mode, Text};
use c11_check::Checked;
use c11_events::{Entry, Verdict};
use c11_num::NoMemory;
use std::alloc::Global;

/// The command, the seed and the bound on steps of an execution.
#[derive(Clone, Copy, Debug, PartialEq, Eq)]
pub struct Head {
    pub mode: Mode,
    pub seed: u64,
    pub steps: u32,
}

/// The text of an execution of the program: its head, a line for each entry, and its verdict.
///
/// The only error is that memory ran out.
pub fn execution_text(
    alloc: Global,
    checked: &Checked,
    head: &Head,
    entries: &[Entry],
    verdict: &Verdict,
) -> Result<Vec<u8>, NoMemory>
    ensures { IfOk result (λ text. text.items ≡ execution_bytes (names_of checked.now) head.now.mode head.now.seed head.now.steps entries.now verdict.now) }
{
    text_over(alloc, objects_of(checked), *head, entries, *verdict)
}

// The same over the objects that the text names.
pub(crate) fn text_over(
    alloc: Global,
    objects: Objects,
    head: Head,
    entries: &[Entry],
    verdict: Verdict,
) -> Result<Vec<u8>, NoMemory>
    ensures { IfOk result (λ text. text.items ≡ execution_bytes (names_in objects.entry) head.mode head.seed head.steps entries.now verdict) }
{
    let mut text = Text::new(alloc);
    push_head(&mut text, head)?;
    push_entries(&mut text, objects, entries)?;
    text.word("verdict ")?;
    push_verdict(&mut text, objects, verdict)?;
    text.word("\n")?;
    Ok(text.into_bytes())
}

fn push_head(text: &mut Text, head: Head) -> Result<(), NoMemory>
    ensures { OnOk result (text.new ≡ text.old ++ head_bytes head.mode head.seed head.steps) }
{
    text.word("c11t 1 ")?;
    text.word(mode_word(head.mode))?;
    text.word(" seed ")?;
    text.number(head.seed)?;
    text.word(" steps ")?;
    text.number(u64::from(head.steps))?;
    text.word("\n")
}

fn mode_word(mode: Mode) -> &'static str
    ensures { result.now ≡ mode_bytes mode }
{
    match mode {
        Mode::Run => "run",
        Mode::Threads => "threads",
    }
}

fn push_entries(text: &mut Text, objects: Objects, entries: &[Entry]) -> Result<(), NoMemory>
    ensures { OnOk result (text.new ≡ text.old ++ flat_map (entry_bytes (names_in objects.entry)) entries.now) }
{
    for entry in entries {
        push_entry(text, objects, entry)?;
    }
    Ok(())
}

fn push_verdict(text: &mut Text, objects: Objects, verdict: Verdict) -> Result<(), NoMemory>
    ensures { OnOk result (text.new ≡ text.old ++ verdict_bytes (names_in objects.entry) verdict) }
{
    match verdict {
        Verdict::Done => text.word("done"),
        Verdict::Bound => text.word("bound"),
        Verdict::Race {
            first,
            second,
            cell,
        } => {
            text.word("race ")?;
            text.number(u64::from(first))?;
            text.word(" ")?;
            text.number(u64::from(second))?;
            text.word(" ")?;
            push_cell(text, objects.plain, cell)
        }
        Verdict::Assert => text.word("assert"),
        Verdict::Fault(kind) => {
            text.word("fault ")?;
            text.word(fault_word(kind))
        }
        Verdict::Local => text.word("local"),
        Verdict::Deadlock => text.word("deadlock"),
    }
}
