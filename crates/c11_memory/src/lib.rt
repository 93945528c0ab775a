//! One execution, step by step.
#![tactic(auto)]

mod marks;
mod memory;
mod verdicts;

pub use c11_events::Holder;
pub use memory::{Memory, StepStop};
