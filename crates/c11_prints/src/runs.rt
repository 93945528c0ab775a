//! Runs of many seeds.
use super::answer::answer_to;
use super::line::{Runs, Wanted};
use super::streams::Streams;
use std::alloc::{AllocError, Global};
use std::str::from_utf8;
use std::thread::Threads;

impl Runs<'_> {
    /// Runs the text with each of the seeds, and finds those that do not end with the status or print what is wanted.
    pub fn run<R: Threads + Sync>(
        &self,
        rt: &R,
        alloc: Global,
        text: &str,
        found: &mut String,
    ) -> Result<(), AllocError> {
        for seed in self.first..=self.last {
            let words = format!(in alloc; "c11t run --seed {seed}")?;
            let answer = answer_to(rt, alloc, words.as_str(), text, Streams::OPEN)?;
            let printed = from_utf8(answer.printed.as_slice()).unwrap_or("");
            if answer.status != self.status || !self.wanted.is_met(alloc, printed)? {
                writeln!(found, "seed {seed}, status {}: {printed}", answer.status)?;
            }
        }
        Ok(())
    }
}

impl Wanted<'_> {
    /// Whether each print would do.
    pub fn is_empty(&self) -> bool {
        match self {
            Wanted::End(words) => words.is_empty(),
            Wanted::Count(_, words) => words.is_empty(),
        }
    }

    /// Whether a print has what is wanted.
    fn is_met(&self, alloc: Global, printed: &str) -> Result<bool, AllocError> {
        match self {
            Wanted::End(words) => Ok(printed.ends_with(lines(alloc, words)?.as_str())),
            Wanted::Count(count, words) => Ok(printed.matches(*words).count() == *count),
        }
    }
}

/// The words with a line's end for each backtick, and one behind them.
fn lines(alloc: Global, words: &str) -> Result<String, AllocError> {
    let mut text = String::new(alloc);
    for line in words.split('`') {
        text.push_str(line)?;
        text.push('\n')?;
    }
    Ok(text)
}
