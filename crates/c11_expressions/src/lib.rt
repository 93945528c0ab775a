//! Expressions from tokens, by recursive descent (ISO/IEC 9899:2011, 6.5).
#![tactic(auto)]

mod build;
mod descent;

pub use descent::assign;
