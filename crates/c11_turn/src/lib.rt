//! What a turn of a session does to the memory in hand.
#![tactic(auto)]

pub mod laws;
mod terms;
mod turns;

pub use terms::Terms;
pub use turns::{Turned, turn};
