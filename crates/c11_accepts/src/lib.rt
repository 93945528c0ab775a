//! What becomes of a text: the program that it is accepted as, or why it is refused, and where: through the lexer, the parser and
//! the checks.
//!
//! `specs/Texts` says which texts are accepted and how the others are refused, and `specs/Laws` that each is one or the other.
#![tactic(auto)]

pub mod laws;
mod whole;

pub use whole::{AcceptStop, accept};
