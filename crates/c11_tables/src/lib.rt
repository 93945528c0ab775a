//! Rows of tests are data: each line of a text is one, and a line `# KIND: NAME` begins a part of them.
#![tactic(auto)]

mod part;
mod words;

pub use part::Part;
pub use words::{number, numbers, order};
