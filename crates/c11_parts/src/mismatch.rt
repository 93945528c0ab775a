use c11_num::NoMemory;
use std::alloc::{AllocError, AllocFailed, Global};
use std::fmt;

/// Why a row or a comparison does not hold.
#[derive(Debug, Drop)]
pub enum Mismatch {
    /// What is found, in words.
    Found(String),
    NoMemory,
}

impl From<NoMemory> for Mismatch {
    fn from(_error: NoMemory) -> Mismatch {
        Mismatch::NoMemory
    }
}

impl From<c11_clock::NoMemory> for Mismatch {
    fn from(_error: c11_clock::NoMemory) -> Mismatch {
        Mismatch::NoMemory
    }
}

impl From<AllocError> for Mismatch {
    fn from(_error: AllocError) -> Mismatch {
        Mismatch::NoMemory
    }
}

impl<T: Drop> From<AllocFailed<T>> for Mismatch {
    fn from(_error: AllocFailed<T>) -> Mismatch {
        Mismatch::NoMemory
    }
}

impl fmt::Display for Mismatch {
    fn fmt<W: fmt::Write>(&self, f: &mut fmt::Formatter<W>) -> fmt::Result {
        match self {
            Mismatch::Found(words) => write!(f, "{words}"),
            Mismatch::NoMemory => write!(f, "memory ran out"),
        }
    }
}

/// What is found at the place is what is wanted.
pub fn expect<T: PartialEq + fmt::Debug>(
    alloc: Global,
    place: &str,
    found: &T,
    wanted: &T,
) -> Result<(), Mismatch> {
    if *found == *wanted {
        return Ok(());
    }
    Err(Mismatch::Found(format!(in alloc; "{found:?} is found and {wanted:?} wanted: {place}")?))
}
