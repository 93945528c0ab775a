//! The tokens of a program text (ISO/IEC 9899:2011, 6.4), by longest match, or its first fault.
#![tactic(auto)]

mod bytes;
mod comment;
mod cursor;
mod directive;
pub mod laws;
mod number;
mod piece;
mod place;
mod quote;
mod scan;
#[cfg(test)]
mod tests;
mod token;

pub use scan::lex;
pub use token::{LexFault, Token, TokenKind};
