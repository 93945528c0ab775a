//! The program that the tokens of a text are, or the place where they are none (ISO/IEC 9899:2011, 6.5 to 6.9).
#![tactic(auto)]

mod item;
pub mod laws;
mod mark;
mod sort;
mod whole;

pub use whole::{SyntaxFault, parse};
