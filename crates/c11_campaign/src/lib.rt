//! Campaigns: one run of a program for each of many seeds, on many workers, and one summary of them.
//!
//! What a summary is stands in `specs/Summaries`, with its law in [`laws`].
#![tactic(auto)]

mod gathering;
mod hunt;
pub mod laws;
mod whole;

pub use whole::campaign;
