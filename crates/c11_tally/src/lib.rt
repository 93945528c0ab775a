//! What a campaign keeps of its runs, and how two such are put together.
//!
//! Of each run its seed, its verdict and the first 256 bytes of its output count; the order of the runs does not matter.
#![tactic(auto)]

mod joined;
pub mod laws;
mod outputs;
mod tallied;
#[cfg(test)]
mod tests;

pub use tallied::Tallied;
