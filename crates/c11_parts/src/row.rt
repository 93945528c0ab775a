ghost use Rattle.std.specs.Prelude.{◌<◌, IfOk};

use super::mismatch::{Mismatch, expect};
use c11_events::Order;
use c11_num::{CType, CValue};
use std::alloc::{AllocError, Global};
use std::fmt;

/// A line of the rows: its number in its part, and its words.
#[derive(Drop)]
pub struct Row<'a> {
    alloc: Global,
    number: u32,
    line: &'a str,
    words: Vec<&'a str>,
}

impl<'a> Row<'a> {
    pub fn new(alloc: Global, number: u32, line: &'a str) -> Result<Row<'a>, AllocError> {
        let words = line.split_whitespace().collect(alloc)?;
        Ok(Row {
            alloc,
            number,
            line,
            words,
        })
    }

    pub fn words(&self) -> &[&'a str] {
        self.words.as_slice()
    }

    /// The row is none that its part can read.
    pub fn unread(&self) -> Mismatch {
        let number = self.number;
        let line = self.line;
        match format!(in self.alloc; "row {number} cannot be read: {line}") {
            Ok(words) => Mismatch::Found(words),
            Err(_) => Mismatch::NoMemory,
        }
    }

    /// What is found is what the row says.
    pub fn expect<T: PartialEq + fmt::Debug>(&self, found: &T, wanted: &T) -> Result<(), Mismatch> {
        let number = self.number;
        let line = self.line;
        let place = format!(in self.alloc; "row {number}, {line}")?;
        expect(self.alloc, place.as_str(), found, wanted)
    }

    pub fn number(&self, word: &str) -> Result<u32, Mismatch> {
        match c11_tables::number(word) {
            Some(number) => Ok(number),
            None => Err(self.unread()),
        }
    }

    /// A number that is less than the limit.
    pub fn below(&self, word: &str, limit: u32) -> Result<u32, Mismatch>
        ensures { IfOk result (λ number. number < limit) }
    {
        let number = self.number(word)?;
        if number < limit {
            Ok(number)
        } else {
            Err(self.unread())
        }
    }

    /// A number, or `none`.
    pub fn some_number(&self, word: &str) -> Result<Option<u32>, Mismatch> {
        match word {
            "none" => Ok(None),
            word => Ok(Some(self.number(word)?)),
        }
    }

    pub fn numbers(&self, word: &str) -> Result<Vec<u32>, Mismatch> {
        match c11_tables::numbers(self.alloc, word)? {
            Some(numbers) => Ok(numbers),
            None => Err(self.unread()),
        }
    }

    pub fn int(&self, word: &str) -> Result<i32, Mismatch> {
        match word.parse::<i32>() {
            Ok(number) => Ok(number),
            Err(_) => Err(self.unread()),
        }
    }

    pub fn order(&self, word: &str) -> Result<Order, Mismatch> {
        match c11_tables::order(word) {
            Some(order) => Ok(order),
            None => Err(self.unread()),
        }
    }

    /// The atomic cell of a name: `x` is the first and `y` the second.
    pub fn cell(&self, word: &str) -> Result<u32, Mismatch>
        ensures { IfOk result (λ cell. cell < 2) }
    {
        match word {
            "x" => Ok(0),
            "y" => Ok(1),
            _ => Err(self.unread()),
        }
    }

    pub fn is_yes(&self, word: &str) -> Result<bool, Mismatch> {
        match word {
            "yes" => Ok(true),
            "no" => Ok(false),
            _ => Err(self.unread()),
        }
    }
}

/// The value of type `int` with this number.
pub fn int(number: i32) -> CValue {
    CValue::new(CType::Int, i128::from(number))
}
