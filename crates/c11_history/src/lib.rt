//! The history of an execution, with all that is kept of it to go on.
#![tactic(auto)]

mod adding;
mod history;
mod opening;

pub use history::{History, Race};
