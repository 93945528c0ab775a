use c11_ast::Spot;

/// What is wrong, in the order in which faults of one place are reported.
#[derive(Clone, Copy, Debug, PartialEq, Eq)]
pub enum Rule {
    /// A name is used that denotes nothing.
    Unknown,
    /// A name is declared that may not be declared there.
    Twice,
    /// A name stands where another kind of thing is needed, or a keyword outside of a loop.
    Kind,
    /// The arguments of a call are not those that are wanted.
    Arguments,
    /// A memory order is missing, or is not allowed.
    Order,
    /// There is no `main`.
    NoMain,
    /// An array has no size that arrays have.
    Size,
    /// A declaration passes a limit.
    TooMany,
    /// A value of another type is needed, or there is none.
    Typing,
}

/// A fault of a program, and where it is.
#[derive(Clone, Copy, Debug, PartialEq, Eq)]
pub struct Fault {
    pub rule: Rule,
    pub spot: Spot,
}

/// Why a program is refused, with the line and the column, in the order of their numbers.
#[derive(Clone, Copy, Debug, PartialEq, Eq)]
pub enum CheckFault {
    /// A name is used that denotes nothing.
    Unknown(u32, u32),
    /// A name is declared again in its scope, or is of the library or of a `#define`.
    Twice(u32, u32),
    /// A name stands where another kind of thing is needed, or a keyword outside of a loop.
    Kind(u32, u32),
    /// The arguments of the call are not those that are wanted.
    Arguments(u32, u32),
    /// A memory order is missing, or is not allowed.
    Order(u32, u32),
    /// There is no `main` that answers `int` and has no parameters.
    NoMain(u32, u32),
    /// An array has no size that arrays have.
    Size(u32, u32),
    /// A declaration passes a limit.
    TooMany(u32, u32),
    /// A value of another type is needed, or there is none.
    Typing(u32, u32),
    NoMemory,
}
