//! The one run of a program with a seed.
#![tactic(auto)]

pub mod laws;
mod team;
mod turns;
mod whole;

pub use turns::run;
pub use whole::Run;
