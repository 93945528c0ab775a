use c11_num::{CValue, Name};

/// A place in the text: the line and the column, in bytes, both counted from 1.
#[derive(Clone, Copy, Debug, PartialEq, Eq)]
pub struct Spot {
    pub line: u32,
    pub column: u32,
}

/// A name, and where it stands.
#[derive(Debug, Drop)]
pub struct Word {
    pub spot: Spot,
    pub name: Name,
}

/// What a constant is written as.
#[derive(Debug, Drop)]
pub enum Known {
    /// An integer constant.
    Literal(CValue),
    /// A name. The checks look whether a `#define` gives it a value.
    Named(Word),
}

/// A constant, in an array's size or in the start of a global.
#[derive(Debug, Drop)]
pub struct Constant {
    pub spot: Spot,
    /// Whether a `-` stands before it.
    pub negative: bool,
    pub value: Known,
}

/// A declared name, with the size where it is an array.
#[derive(Debug, Drop)]
pub struct Place {
    pub word: Word,
    pub size: Option<Constant>,
}
