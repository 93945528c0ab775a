//! Ring programs: texts of programs in which a producer hands packets to a consumer through a ring of places.
//!
//! `specs/Ring` has the text, to the byte, and `specs/Laws` that each such text is accepted as a program.
#![tactic(auto)]

pub mod laws;
mod ring;
#[cfg(test)]
mod tests;

pub use ring::make_ring;
