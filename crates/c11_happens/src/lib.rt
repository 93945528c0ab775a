//! Happens-before, kept by clocks: each event is noted once, at the cost of a few joins of clocks, and then each question about two
//! events is one comparison.
#![tactic(auto)]

mod copy;
mod hand;
mod happens;
mod kinds;
pub mod laws;
mod mutexes;
mod tables;
mod take;

pub use happens::Happens;
