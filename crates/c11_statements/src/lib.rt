//! Declarations and statements from tokens, by recursive descent (ISO/IEC 9899:2011, 6.7 and 6.8).
#![tactic(auto)]

mod declaration;
mod stmt;

pub use declaration::{params, vars};
pub use stmt::block_after;
