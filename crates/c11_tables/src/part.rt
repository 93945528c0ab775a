use std::alloc::{AllocError, Global};
use std::fmt;

/// A part of the rows: what kind they are of, what they show, and how many there are so far.
#[derive(Drop)]
pub struct Part {
    kind: String,
    name: String,
    rows: u32,
}

impl Part {
    /// The part that a line begins, if it does.
    pub fn begun(alloc: Global, line: &str) -> Result<Option<Part>, AllocError> {
        let Some(heading) = line.strip_prefix("# ") else {
            return Ok(None);
        };
        let (kind, name) = heading.split_once(": ").unwrap_or((heading, ""));
        Ok(Some(Part {
            kind: String::from_str(alloc, kind)?,
            name: String::from_str(alloc, name)?,
            rows: 0,
        }))
    }

    pub fn kind(&self) -> &str {
        self.kind.as_str()
    }

    /// One more row is read: its number, from 1.
    pub fn next(&mut self) -> u32 {
        self.rows = self.rows.saturating_add(1);
        self.rows
    }
}

impl fmt::Display for Part {
    fn fmt<W: fmt::Write>(&self, f: &mut fmt::Formatter<W>) -> fmt::Result {
        write!(f, "{}: {} rows", self.name, self.rows)
    }
}
