use super::player::play;
use super::words::split;
use c11_tables::number;
use std::alloc::{AllocError, Global};

/// How many threads a row has beside main, its seed and its bound on steps.
#[derive(Clone, Copy)]
pub struct Start {
    pub threads: u32,
    pub seed: u64,
    pub bound: u32,
}

/// The program that the rows are of, and the row that is played.
#[derive(Drop)]
pub struct Scene {
    text: String,
    /// Whether the next line may be one of the text.
    has_open_text: bool,
    row: u32,
    start: Option<Start>,
    /// The steps so far, with those of the one ending that is played.
    steps: Vec<String>,
    /// How many of them stand before the row's endings, if one has begun.
    before_endings: Option<usize>,
}

impl Scene {
    pub fn new(alloc: Global) -> Scene {
        Scene {
            text: String::new(alloc),
            has_open_text: false,
            row: 0,
            start: None,
            steps: Vec::new(alloc),
            before_endings: None,
        }
    }

    pub fn row(&self) -> u32 {
        self.row
    }

    pub fn text(&self) -> &str {
        self.text.as_str()
    }

    /// The row of this number begins, and the text of its program has ended.
    pub fn count(&mut self, row: u32) {
        self.has_open_text = false;
        self.row = row;
    }

    /// Another program begins.
    pub fn clear(&mut self, alloc: Global) -> Option<String> {
        self.text = String::new(alloc);
        self.has_open_text = true;
        self.start = None;
        None
    }

    /// A line of the program's text.
    pub fn add(&mut self, alloc: Global, line: &str) -> Result<Option<String>, AllocError> {
        if !self.has_open_text {
            return Ok(Some(String::from_str(alloc, "no program begins here")?));
        }
        self.text.push_str(line)?;
        self.text.push('\n')?;
        Ok(None)
    }

    /// `row threads COUNT seed SEED bound STEPS`: main creates so many threads, and all begin. Each further line is a step, or
    /// `ending`: then what follows stands behind the steps before the row's first ending.
    pub fn begin(&mut self, alloc: Global, line: &str) -> Result<Option<String>, AllocError> {
        self.steps = Vec::new(alloc);
        self.before_endings = None;
        self.start = start_of(split(alloc, line)?.as_slice());
        self.play_all(alloc)
    }

    /// A step of the row, or the beginning of an ending.
    pub fn play(&mut self, alloc: Global, line: &str) -> Result<Option<String>, AllocError> {
        if line == "ending" {
            let before = self.before_endings.unwrap_or(self.steps.len());
            self.before_endings = Some(before);
            self.steps.truncate(before);
        } else {
            self.steps.push(String::from_str(alloc, line)?)?;
        }
        self.play_all(alloc)
    }

    /// What is found in all steps so far, on a new memory. Behind a difference the row goes no further.
    fn play_all(&mut self, alloc: Global) -> Result<Option<String>, AllocError> {
        let Some(start) = self.start else {
            return Ok(Some(String::from_str(alloc, "no row that can be played")?));
        };
        let found = play(alloc, self.text.as_str(), start, self.steps.as_slice())?;
        if found.is_some() {
            self.start = None;
        }
        Ok(found)
    }
}

/// What the words of a row's first line say.
fn start_of(words: &[&str]) -> Option<Start> {
    match words {
        ["row", "threads", threads, "seed", seed, "bound", bound] => Some(Start {
            threads: number(threads)?,
            seed: seed.parse::<u64>().ok()?,
            bound: number(bound)?,
        }),
        _ => None,
    }
}
