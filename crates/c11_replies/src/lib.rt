//! What the threads and the mutexes of an execution are, what its plain cells hold, and what each operation is told.
#![tactic(auto)]

mod mutexes;
mod replies;
mod threads;
mod values;

pub use replies::Replies;
