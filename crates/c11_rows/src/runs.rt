//! What whole runs are offered and print, and the choices of a seed.
use super::words::{push_numbers, split};
use c11_accepts::accept;
use c11_check::Checked;
use c11_events::{Entry, Verdict};
use c11_lower::lower;
use c11_memory::Memory;
use c11_num::NoMemory;
use c11_plain::offered;
use c11_report::{Head, Mode, execution_text};
use c11_run::{Run, run};
use c11_tables::{number, numbers};
use std::alloc::{AllocError, Global};

/// How many reads were compared, and how many of them were offered two stores or more.
#[derive(Clone, Copy)]
struct Compared {
    reads: u32,
    choices: u32,
}

/// The run of the program with this seed and this bound on steps.
fn run_of(alloc: Global, checked: &Checked, seed: u64, bound: u32) -> Result<Run, NoMemory> {
    if bound == 0 || bound > 10_000 {
        return Err(NoMemory);
    }
    let code = lower(alloc, checked)?;
    run(alloc, checked, &code, seed, bound)
}

/// What is found where an entry is not offered what the plain program offers for the events before it.
fn compare(
    alloc: Global,
    entries: &[Entry],
    compared: &mut Compared,
) -> Result<Option<String>, NoMemory> {
    let mut events = Vec::new(alloc);
    for entry in entries {
        let expected = offered(alloc, events.as_slice(), entry.thread, &entry.op)?;
        if entry.offered.as_slice() != expected.as_slice() {
            return Ok(Some(format!(in alloc; "{entry:?}, not {expected:?}")?));
        }
        if !expected.is_empty() {
            compared.reads = compared.reads.saturating_add(1);
        }
        if expected.len() > 1 {
            compared.choices = compared.choices.saturating_add(1);
        }
        events.push(entry.event()?)?;
    }
    Ok(None)
}

/// The same of the runs with the first seeds, each of which goes to its end.
fn compare_runs(
    alloc: Global,
    checked: &Checked,
    (seeds, bound): (u32, u32),
    compared: &mut Compared,
) -> Result<Option<String>, NoMemory> {
    for seed in 0..seeds {
        let run = run_of(alloc, checked, u64::from(seed), bound)?;
        if run.verdict != Verdict::Done {
            return Ok(Some(format!(in alloc; "{:?} with {seed}", run.verdict)?));
        }
        if let Some(found) = compare(alloc, run.entries.as_slice(), compared)? {
            return Ok(Some(found));
        }
    }
    Ok(None)
}

/// `seeds COUNT bound STEPS reads MORE choices MORE`: in the runs of the program with the first seeds, each of which goes to its end,
/// each step is offered what the plain program offers. More reads than the one number are compared, and more of them than the other
/// are offered two stores or more.
pub fn offers(alloc: Global, text: &str, row: &str) -> Result<Option<String>, AllocError> {
    let Ok(checked) = accept(alloc, text.as_bytes()) else {
        return Ok(Some(String::from_str(alloc, "the text is not accepted")?));
    };
    let Some((range, least)) = range_of(split(alloc, row)?.as_slice()) else {
        return Ok(Some(String::from_str(alloc, "cannot be read")?));
    };
    let mut compared = Compared {
        reads: 0,
        choices: 0,
    };
    match compare_runs(alloc, &checked, range, &mut compared) {
        Ok(None) if compared.reads > least.reads && compared.choices > least.choices => Ok(None),
        Ok(None) => Ok(Some(format!(in alloc;
            "{} reads, {} with a choice",
            compared.reads, compared.choices
        )?)),
        Ok(found) => Ok(found),
        Err(_) => Err(AllocError),
    }
}

/// How many seeds with which bound, and the numbers that are to be exceeded.
fn range_of(words: &[&str]) -> Option<((u32, u32), Compared)> {
    match words {
        [
            "seeds",
            seeds,
            "bound",
            bound,
            "reads",
            reads,
            "choices",
            choices,
        ] => Some((
            (number(seeds)?, number(bound)?),
            Compared {
                reads: number(reads)?,
                choices: number(choices)?,
            },
        )),
        _ => None,
    }
}

/// `seed SEED bound STEPS WORD REST`: the seed, the bound and the rest.
fn opening<'a>(row: &'a str, word: &str) -> Option<(u64, u32, &'a str)> {
    let (seed, rest) = row.strip_prefix("seed ")?.split_once(" bound ")?;
    let (bound, rest) = rest.split_once(' ')?;
    let rest = rest.strip_prefix(word)?.strip_prefix(" ")?;
    Some((seed.parse::<u64>().ok()?, number(bound)?, rest))
}

/// Printed bytes, as a row has them.
fn printed(alloc: Global, bytes: &[u8]) -> Result<String, AllocError> {
    let mut words = String::new(alloc);
    for byte in bytes {
        words.push(if *byte == b'\n' {
            '`'
        } else {
            char::from(*byte)
        })?;
    }
    Ok(words)
}

/// What is found where these bytes are not the wanted ones, in which a backtick stands for the end of a line.
fn compared_text(alloc: Global, found: &[u8], wanted: &str) -> Result<Option<String>, AllocError> {
    let mut bytes = Vec::new(alloc);
    for byte in wanted.as_bytes() {
        bytes.push(if *byte == b'`' { b'\n' } else { *byte })?;
    }
    if found == bytes.as_slice() {
        return Ok(None);
    }
    Ok(Some(printed(alloc, found)?))
}

/// `seed SEED bound STEPS prints TEXT`: what the run of the program prints. A backtick stands for the end of a line.
pub fn prints(alloc: Global, text: &str, row: &str) -> Result<Option<String>, AllocError> {
    let Ok(checked) = accept(alloc, text.as_bytes()) else {
        return Ok(Some(String::from_str(alloc, "the text is not accepted")?));
    };
    let Some((seed, bound, wanted)) = opening(row, "prints") else {
        return Ok(Some(String::from_str(alloc, "cannot be read")?));
    };
    let Ok(run) = run_of(alloc, &checked, seed, bound) else {
        return Ok(Some(String::from_str(alloc, "no run")?));
    };
    let Ok(output) = run.output() else {
        return Err(AllocError);
    };
    compared_text(alloc, output.as_slice(), wanted)
}

/// The text of the run of the program under the head of the command `threads`, which has no reading yet.
fn threads_text(
    alloc: Global,
    checked: &Checked,
    seed: u64,
    steps: u32,
) -> Result<Vec<u8>, NoMemory> {
    let run = run_of(alloc, checked, seed, steps)?;
    let head = Head {
        mode: Mode::Threads,
        seed,
        steps,
    };
    execution_text(alloc, checked, &head, run.entries.as_slice(), &run.verdict)
}

/// `seed SEED bound STEPS threads TEXT`: that text. A backtick stands for the end of a line.
pub fn threads(alloc: Global, text: &str, row: &str) -> Result<Option<String>, AllocError> {
    let Ok(checked) = accept(alloc, text.as_bytes()) else {
        return Ok(Some(String::from_str(alloc, "the text is not accepted")?));
    };
    let Some((seed, bound, wanted)) = opening(row, "threads") else {
        return Ok(Some(String::from_str(alloc, "cannot be read")?));
    };
    let Ok(text) = threads_text(alloc, &checked, seed, bound) else {
        return Ok(Some(String::from_str(alloc, "no run")?));
    };
    compared_text(alloc, text.as_slice(), wanted)
}

/// Choices among so many, one after another, and how the memory stands then, in the words of a row.
fn choices(alloc: Global, memory: &mut Memory, counts: &[u32]) -> Result<String, AllocError> {
    let mut all = Vec::new(alloc);
    for count in counts {
        if *count == 0 {
            return String::from_str(alloc, "no choice");
        }
        all.push(memory.draw(*count))?;
    }
    let mut words = String::new(alloc);
    push_numbers(&mut words, all.as_slice())?;
    write!(words, " entries {}", memory.history().len())?;
    if let Some(verdict) = memory.verdict() {
        write!(words, ", verdict {verdict:?}")?;
    }
    Ok(words)
}

/// The same on a new memory of the text's program.
fn drawn(
    alloc: Global,
    text: &str,
    (seed, bound): (u64, u32),
    counts: &[u32],
) -> Result<String, AllocError> {
    if bound == 0 || bound > 10_000 {
        return String::from_str(alloc, "no such bound");
    }
    let Ok(checked) = accept(alloc, text.as_bytes()) else {
        return String::from_str(alloc, "the text is not accepted");
    };
    match Memory::open(alloc, &checked, seed, bound) {
        Ok(mut memory) => choices(alloc, &mut memory, counts),
        Err(_) => Err(AllocError),
    }
}

/// `seed SEED bound STEPS choices COUNTS draws NUMBERS entries COUNT`: choices among so many, one after another, are these, and then
/// the memory of the program has so many entries, and no verdict.
pub fn draws(alloc: Global, text: &str, row: &str) -> Result<Option<String>, AllocError> {
    let (asked, wanted) = row.split_once(" draws ").unwrap_or((row, ""));
    let Some((seed, bound, counts)) = opening(asked, "choices") else {
        return Ok(Some(String::from_str(alloc, "cannot be read")?));
    };
    let Some(counts) = numbers(alloc, counts)? else {
        return Ok(Some(String::from_str(alloc, "cannot be read")?));
    };
    let words = drawn(alloc, text, (seed, bound), counts.as_slice())?;
    Ok(if words.as_str() == wanted {
        None
    } else {
        Some(words)
    })
}
