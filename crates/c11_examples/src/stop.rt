use c11_num::NoMemory;
use std::alloc::{AllocError, AllocFailed, Global};

/// Why a row or a comparison ends before its end.
#[derive(Drop)]
pub enum Stop {
    NoMemory,
    /// The row is no row of its kind.
    Unread,
    /// What was found instead of what is wanted, in words.
    Found(String),
}

impl From<NoMemory> for Stop {
    fn from(_error: NoMemory) -> Stop {
        Stop::NoMemory
    }
}

impl From<AllocError> for Stop {
    fn from(_error: AllocError) -> Stop {
        Stop::NoMemory
    }
}

impl<T: Drop> From<AllocFailed<T>> for Stop {
    fn from(_error: AllocFailed<T>) -> Stop {
        Stop::NoMemory
    }
}

impl Stop {
    /// These words were found.
    pub fn found(alloc: Global, words: &str) -> Stop {
        match String::from_str(alloc, words) {
            Ok(words) => Stop::Found(words),
            Err(_) => Stop::NoMemory,
        }
    }
}

/// What is to be printed: the words at the end, or those at which it stopped.
pub fn told(alloc: Global, ended: Result<String, Stop>) -> Result<String, AllocError> {
    match ended {
        Ok(words) | Err(Stop::Found(words)) => Ok(words),
        Err(Stop::Unread) => String::from_str(alloc, "cannot be read"),
        Err(Stop::NoMemory) => Err(AllocError),
    }
}
