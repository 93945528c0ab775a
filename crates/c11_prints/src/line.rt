//! What the lines of the rows say.
use super::streams::Stream;

/// What a line says.
#[derive(Clone, Copy)]
pub enum Line<'a> {
    /// The rows above have ended.
    Space,
    /// One more line of a program's text.
    Text(&'a str),
    /// The text is made so long by line feeds.
    Length(usize),
    /// How the source of the next call gives its bytes.
    Source(Stream),
    /// How the sink of the next call takes its bytes.
    Sink(Stream),
    /// How many bytes that sink has room for.
    Room(usize),
    /// A call, whose print the lines that follow have.
    Call(Call<'a>),
    /// Runs of many seeds.
    Runs(Runs<'a>),
    /// One more line that is printed.
    Printed(&'a str),
    /// What is printed is the summary of these runs.
    Sums(Seeds),
    /// The beginning of one, where what is printed is cut off.
    Cut(&'a str),
}

/// A command line, with the program's own name, the status that it ends with, and whether the source is to be left as it was.
#[derive(Clone, Copy)]
pub struct Call<'a> {
    pub words: &'a str,
    pub status: u8,
    pub leaves: bool,
}

/// The seeds of runs, both ends among them, the status that each run ends with, and what its print is to have.
#[derive(Clone, Copy)]
pub struct Runs<'a> {
    pub first: u64,
    pub last: u64,
    pub status: u8,
    pub wanted: Wanted<'a>,
}

/// The seeds of a campaign, from the first on, and the bound on the steps of each run.
#[derive(Clone, Copy)]
pub struct Seeds {
    pub first: u64,
    pub count: u64,
    pub steps: u32,
}

/// What a print is to have.
#[derive(Clone, Copy)]
pub enum Wanted<'a> {
    /// These last lines, with a backtick between each two.
    End(&'a str),
    /// These words, so many times.
    Count(usize, &'a str),
}

impl Line<'_> {
    /// Whether it is one of the rows that are counted.
    pub fn is_row(&self) -> bool {
        matches!(self, Line::Call(_) | Line::Runs(_))
    }
}

/// What the line says, where it says something.
///
/// Two spaces stand before a line of a text, `> ` before one that is printed, and `>> ` before the beginning of one;
/// `sums FIRST COUNT STEPS` stands for the lines that a campaign is to print. Rows are `c11t WORDS = STATUS`, with `unread` behind
/// it where the source is left, `ends FIRST LAST = STATUS WORDS` and `has FIRST LAST = STATUS COUNT WORDS`. `pad BYTES` makes a
/// text so long; `reads BYTES CALL`, `writes BYTES CALL` and `room BYTES` say how the bytes of the next call pass.
pub fn read(line: &str) -> Option<Line<'_>> {
    if line.is_empty() || line.starts_with("# ") {
        return Some(Line::Space);
    }
    if let Some(text) = line.strip_prefix("  ") {
        return Some(Line::Text(text));
    }
    if let Some(printed) = line.strip_prefix("> ") {
        return Some(Line::Printed(printed));
    }
    if let Some(printed) = line.strip_prefix(">> ") {
        return Some(Line::Cut(printed));
    }
    match line.split_once(" = ") {
        Some((asked, wanted)) => read_row(asked, wanted),
        None => read_setting(line),
    }
}

/// What a line without an answer says.
fn read_setting(line: &str) -> Option<Line<'_>> {
    let (kind, rest) = line.split_once(' ')?;
    match kind {
        "pad" => Some(Line::Length(rest.parse().ok()?)),
        "room" => Some(Line::Room(rest.parse().ok()?)),
        "reads" => Some(Line::Source(read_stream(rest)?)),
        "writes" => Some(Line::Sink(read_stream(rest)?)),
        "sums" => Some(Line::Sums(read_seeds(rest)?)),
        _ => None,
    }
}

fn read_stream(words: &str) -> Option<Stream> {
    let (per_call, failing) = words.split_once(' ')?;
    Some(Stream {
        per_call: per_call.parse().ok()?,
        failing: failing.parse().ok()?,
    })
}

fn read_seeds(words: &str) -> Option<Seeds> {
    let (first, rest) = words.split_once(' ')?;
    let (count, steps) = rest.split_once(' ')?;
    Some(Seeds {
        first: first.parse().ok()?,
        count: count.parse().ok()?,
        steps: steps.parse().ok()?,
    })
}

/// What a row says, by the words on the two sides of its sign.
fn read_row<'a>(asked: &'a str, wanted: &'a str) -> Option<Line<'a>> {
    let (kind, rest) = asked.split_once(' ').unwrap_or((asked, ""));
    let (status, wanted) = wanted.split_once(' ').unwrap_or((wanted, ""));
    let status = status.parse::<u8>().ok()?;
    match kind {
        "c11t" => read_call(asked, status, wanted),
        "ends" => read_runs(rest, status, Wanted::End(wanted)),
        "has" => {
            let (count, words) = wanted.split_once(' ')?;
            let wanted = Wanted::Count(count.parse().ok()?, words);
            read_runs(rest, status, wanted)
        }
        _ => None,
    }
}

fn read_call<'a>(words: &'a str, status: u8, wanted: &str) -> Option<Line<'a>> {
    let leaves = wanted == "unread";
    if !leaves && !wanted.is_empty() {
        return None;
    }
    Some(Line::Call(Call {
        words,
        status,
        leaves,
    }))
}

/// Runs, where there is a seed and something is wanted.
fn read_runs<'a>(seeds: &str, status: u8, wanted: Wanted<'a>) -> Option<Line<'a>> {
    let (first, last) = seeds.split_once(' ')?;
    let (first, last) = (first.parse::<u64>().ok()?, last.parse::<u64>().ok()?);
    if first > last || wanted.is_empty() {
        return None;
    }
    Some(Line::Runs(Runs {
        first,
        last,
        status,
        wanted,
    }))
}
