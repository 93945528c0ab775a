//! Places in a text.

/// A place in a text.
#[derive(Clone, Copy, Debug)]
pub struct Cursor {
    /// Counted from 1.
    pub line: u32,
    /// In bytes, counted from 1.
    pub column: u32,
    /// How many bytes stand before it.
    pub offset: u32,
    /// The line of the last token before it, 0 where there is none.
    pub token_line: u32,
}
