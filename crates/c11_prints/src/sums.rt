//! What a campaign is to print, made from the prints of its runs.
use super::answer::answer_to;
use super::line::Seeds;
use super::streams::Streams;
use std::alloc::{AllocError, Global};
use std::str::from_utf8;
use std::thread::Threads;

// How runs end, in the order of a summary. None of the words begins with another.
const VERDICTS: [&str; 7] = [
    "done", "bound", "race", "assert", "fault", "local", "deadlock",
];

// The digits of the bytes by which outputs are compared.
const DIGITS: usize = 512;

/// How a run ended, and the digits of what it put out.
#[derive(Drop)]
struct Ended {
    seed: u64,
    verdict: String,
    output: String,
}

impl Seeds {
    /// The summary of the runs of a text with these seeds, each made by a call of its own.
    pub fn summary<R: Threads + Sync>(
        &self,
        rt: &R,
        alloc: Global,
        text: &str,
    ) -> Result<String, AllocError> {
        let runs = self.runs(rt, alloc, text)?;
        let mut summary = String::new(alloc);
        writeln!(
            summary,
            "campaign 1 first {} count {} steps {}",
            self.first, self.count, self.steps
        )?;
        for word in VERDICTS {
            write_tally(&mut summary, word, runs.as_slice())?;
        }
        write_outputs(alloc, &mut summary, runs.as_slice())?;
        Ok(summary)
    }

    /// Makes the runs, in the order of their seeds.
    fn runs<R: Threads + Sync>(
        &self,
        rt: &R,
        alloc: Global,
        text: &str,
    ) -> Result<Vec<Ended>, AllocError> {
        let mut runs = Vec::new(alloc);
        for number in 0..self.count {
            let seed = self.first.saturating_add(number);
            let words = format!(in alloc; "c11t run --seed {seed} --steps {}", self.steps)?;
            let answer = answer_to(rt, alloc, words.as_str(), text, Streams::OPEN)?;
            let printed = from_utf8(answer.printed.as_slice()).unwrap_or("");
            runs.push(Ended {
                seed,
                verdict: verdict_of(alloc, printed)?,
                output: output_of(alloc, printed)?,
            })?;
        }
        Ok(runs)
    }
}

/// The last line of a run's print, behind its first word.
fn verdict_of(alloc: Global, printed: &str) -> Result<String, AllocError> {
    let (_, verdict) = printed.split_once("\nverdict ").unwrap_or(("", ""));
    String::from_str(alloc, verdict)
}

/// The digits of what a run put out, as far as it counts; `-` where it put out nothing.
fn output_of(alloc: Global, printed: &str) -> Result<String, AllocError> {
    let mut digits = String::new(alloc);
    for line in printed.lines() {
        let (_, more) = line.split_once(" out ").unwrap_or(("", "-"));
        if more != "-" {
            digits.push_str(more)?;
        }
    }
    if digits.is_empty() {
        digits.push('-')?;
    }
    let counted = digits.as_str().get(..DIGITS).unwrap_or(digits.as_str());
    String::from_str(alloc, counted)
}

/// The line of a verdict: how many runs ended with it, and the least of their seeds.
fn write_tally(summary: &mut String, word: &str, runs: &[Ended]) -> Result<(), AllocError> {
    let mut count: u64 = 0;
    let mut least = None;
    for run in runs {
        if run.verdict.as_str().starts_with(word) {
            count = count.saturating_add(1);
            if least.is_none() {
                least = Some(run.seed);
            }
        }
    }
    match least {
        Some(seed) => writeln!(summary, "{word} {count} {seed}"),
        None => writeln!(summary, "{word} {count} -"),
    }
}

/// The lines of the outputs. Their digits are in the order of their bytes, and `-` is before all digits.
fn write_outputs(alloc: Global, summary: &mut String, runs: &[Ended]) -> Result<(), AllocError> {
    let mut outputs = Vec::new(alloc);
    for run in runs {
        outputs.push(run.output.as_str())?;
    }
    outputs.sort()?;
    outputs.dedup();
    writeln!(summary, "outputs {}", outputs.len())?;
    for output in outputs {
        writeln!(summary, "{} {output}", count_of(output, runs))?;
    }
    Ok(())
}

/// How many runs put this out.
fn count_of(output: &str, runs: &[Ended]) -> u64 {
    let mut count: u64 = 0;
    for run in runs {
        if run.output.as_str() == output {
            count = count.saturating_add(1);
        }
    }
    count
}
