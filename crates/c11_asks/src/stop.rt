use c11_num::NoMemory;
use std::alloc::{AllocError, AllocFailed};

/// Why the rows of a block are not compared any more.
#[derive(Drop)]
pub enum Stop {
    /// One of them does not hold. These words say which, and what is found instead.
    Found(String),
    Memory,
}

impl From<AllocError> for Stop {
    fn from(_error: AllocError) -> Stop {
        Stop::Memory
    }
}

impl<T: Drop> From<AllocFailed<T>> for Stop {
    fn from(_error: AllocFailed<T>) -> Stop {
        Stop::Memory
    }
}

impl From<NoMemory> for Stop {
    fn from(_error: NoMemory) -> Stop {
        Stop::Memory
    }
}

/// What was found, if not all rows held.
pub fn found_by(compared: Result<(), Stop>) -> Result<Option<String>, AllocError> {
    match compared {
        Ok(()) => Ok(None),
        Err(Stop::Found(found)) => Ok(Some(found)),
        Err(Stop::Memory) => Err(AllocError),
    }
}
