//! The grammar of the tested programs (ISO/IEC 9899:2011, 6.5 to 6.10), as a relation between tokens and trees, and
//! its laws; and the functions that look at the first token, for the parsers above.
//!
//! The relation stands in `specs/`: `Tokens`, `Types`, `Expressions`, `Declarations`, `Statements` and `Programs`.
#![tactic(auto)]

pub mod front;
pub mod laws;
mod stop;
mod token;
pub mod types;

pub use stop::Stop;
pub use token::{Lexeme, Mark, Sort};
