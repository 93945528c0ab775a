//! The texts of programs, and the rows over them.
use super::answer::answer_to;
use super::line::{Call, Line, read};
use super::streams::Streams;
use c11_tables::Part;
use std::alloc::{AllocError, Global};
use std::thread::Threads;

/// The text of a program, and the calls over it whose prints are being compared.
#[derive(Drop)]
pub struct Case {
    text: String,
    // Whether there has been a row over the text, so that a further line of a text begins another.
    is_whole: bool,
    streams: Streams,
    prints: Vec<Print>,
    wanted: String,
}

/// A row's words, and what was printed for them.
#[derive(Drop)]
struct Print {
    row: String,
    printed: Vec<u8>,
}

impl Case {
    pub fn new(alloc: Global) -> Case {
        Case {
            text: String::new(alloc),
            is_whole: false,
            streams: Streams::OPEN,
            prints: Vec::new(alloc),
            wanted: String::new(alloc),
        }
    }

    /// Takes a line, and answers what is found where a row that it ends, or that it is, does not hold.
    ///
    /// Calls on lines one below the other have one print, that of the lines behind them.
    pub fn take<R: Threads + Sync>(
        &mut self,
        rt: &R,
        alloc: Global,
        part: &mut Option<Part>,
        line: &str,
    ) -> Result<String, AllocError> {
        let mut found = String::new(alloc);
        let Some(said) = read(line) else {
            writeln!(found, "no such line: {line}")?;
            return Ok(found);
        };
        if self.is_settled_by(&said) {
            self.settle(alloc, &mut found)?;
        }
        if said.is_row() {
            self.is_whole = true;
            if let Some(part) = part {
                let _ = part.next();
            }
        }
        self.take_said(rt, alloc, said, &mut found)?;
        Ok(found)
    }

    /// Whether no line of the prints that are being compared can follow.
    fn is_settled_by(&self, said: &Line<'_>) -> bool {
        match said {
            Line::Printed(_) | Line::Cut(_) | Line::Sums(_) => false,
            Line::Space | Line::Text(_) => true,
            _ => !self.wanted.is_empty(),
        }
    }

    /// Takes what a line says.
    fn take_said<R: Threads + Sync>(
        &mut self,
        rt: &R,
        alloc: Global,
        said: Line<'_>,
        found: &mut String,
    ) -> Result<(), AllocError> {
        match said {
            Line::Space => {}
            Line::Text(text) => self.extend(alloc, text)?,
            Line::Length(bytes) => self.pad(alloc, bytes)?,
            Line::Source(source) => self.streams.source = source,
            Line::Sink(sink) => self.streams.sink = sink,
            Line::Room(room) => self.streams.room = room,
            Line::Call(call) => self.call(rt, alloc, call, found)?,
            Line::Runs(runs) => runs.run(rt, alloc, self.text.as_str(), found)?,
            Line::Printed(text) => {
                self.wanted.push_str(text)?;
                self.wanted.push('\n')?;
            }
            Line::Cut(text) => self.wanted.push_str(text)?,
            Line::Sums(seeds) => {
                let summary = seeds.summary(rt, alloc, self.text.as_str())?;
                self.wanted.push_str(summary.as_str())?;
            }
        }
        Ok(())
    }

    /// Begins a text, where there has been a row over the last one.
    fn begin(&mut self, alloc: Global) {
        if self.is_whole {
            self.text = String::new(alloc);
            self.is_whole = false;
        }
    }

    /// One more line of a text.
    fn extend(&mut self, alloc: Global, line: &str) -> Result<(), AllocError> {
        self.begin(alloc);
        self.text.push_str(line)?;
        self.text.push('\n')
    }

    /// A text that is made so long by line feeds.
    fn pad(&mut self, alloc: Global, bytes: usize) -> Result<(), AllocError> {
        self.begin(alloc);
        for _ in self.text.len()..bytes {
            self.text.push('\n')?;
        }
        Ok(())
    }

    /// Calls the program over the text. The streams that were set are those of this call alone.
    fn call<R: Threads + Sync>(
        &mut self,
        rt: &R,
        alloc: Global,
        call: Call<'_>,
        found: &mut String,
    ) -> Result<(), AllocError> {
        let answer = answer_to(rt, alloc, call.words, self.text.as_str(), self.streams)?;
        self.streams = Streams::OPEN;
        if answer.status != call.status {
            writeln!(found, "{} ends with status {}", call.words, answer.status)?;
        }
        if call.leaves && !answer.is_unread {
            writeln!(found, "{} reads the source", call.words)?;
        }
        self.prints.push(Print {
            row: String::from_str(alloc, call.words)?,
            printed: answer.printed,
        })?;
        Ok(())
    }

    /// Finds the calls that end here and printed more or other bytes than are wanted, and lines that no call prints.
    pub fn settle(&mut self, alloc: Global, found: &mut String) -> Result<(), AllocError> {
        if self.prints.is_empty() && !self.wanted.is_empty() {
            writeln!(found, "no call prints {}", self.wanted)?;
        }
        for print in &self.prints {
            if print.printed.as_slice() != self.wanted.as_bytes() {
                let printed = String::from_utf8_lossy(alloc, print.printed.as_slice())?;
                writeln!(found, "{} prints {printed}", print.row)?;
            }
        }
        self.prints = Vec::new(alloc);
        self.wanted = String::new(alloc);
        Ok(())
    }
}
