use super::stop::Stop;
use std::alloc::{AllocError, Global};

/// A row, and its number in its part.
#[derive(Drop)]
pub struct Row {
    pub number: u32,
    pub words: String,
}

impl Row {
    /// The row does not hold: this is found instead.
    pub fn stop(&self, alloc: Global, found: &str) -> Stop {
        match format!(in alloc; "row {}, {found}: {}", self.number, self.words) {
            Ok(found) => Stop::Found(found),
            Err(_) => Stop::Memory,
        }
    }
}

/// This is found of the text of the rows; it is told at the first.
pub fn stop_at_first(alloc: Global, rows: &[Row], found: &str) -> Stop {
    match rows.first() {
        Some(row) => row.stop(alloc, found),
        None => match String::from_str(alloc, found) {
            Ok(found) => Stop::Found(found),
            Err(_) => Stop::Memory,
        },
    }
}

/// The text that was read last, and the rows of it that are still to be compared.
#[derive(Drop)]
pub struct Block {
    pub text: String,
    /// Whether the text is of this block; else it is of one before.
    pub is_begun: bool,
    pub rows: Vec<Row>,
}

impl Block {
    /// The block before all lines.
    pub fn new(alloc: Global) -> Block {
        Block {
            text: String::new(alloc),
            is_begun: false,
            rows: Vec::new(alloc),
        }
    }

    /// One more line of the text.
    pub fn push_line(&mut self, line: &str) -> Result<(), AllocError> {
        if !self.is_begun {
            self.text.clear();
            self.is_begun = true;
        }
        self.text.push_str(line)?;
        self.text.push('\n')
    }

    /// One more row.
    pub fn push_row(&mut self, alloc: Global, number: u32, row: &str) -> Result<(), AllocError> {
        let words = String::from_str(alloc, row)?;
        self.rows.push(Row { number, words })?;
        Ok(())
    }

    /// The block ends; its text stays.
    pub fn end(&mut self) {
        self.is_begun = false;
        self.rows.clear();
    }
}
