use std::alloc::{AllocError, Global};

/// The text that a row stands for, and the place of the `@` in it, which is no part of it. A backtick stands for the end of a line.
#[derive(Drop)]
pub struct Marked {
    pub text: Vec<u8>,
    pub place: Option<(u32, u32)>,
}

impl Marked {
    pub fn new(alloc: Global, row: &str) -> Result<Marked, AllocError> {
        let mut text = Vec::new(alloc);
        let mut line: u32 = 1;
        let mut column: u32 = 1;
        let mut place = None;
        for byte in row.as_bytes() {
            match *byte {
                b'@' => place = Some((line, column)),
                b'`' => {
                    text.push(b'\n')?;
                    line = line.saturating_add(1);
                    column = 1;
                }
                other => {
                    text.push(other)?;
                    column = column.saturating_add(1);
                }
            }
        }
        Ok(Marked { text, place })
    }
}
