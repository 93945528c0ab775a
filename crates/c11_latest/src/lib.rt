//! The last event of a cell and a thread up to a number, found by search.
//!
//! Of each pair of a cell and a thread the rising numbers of some events are noted. Each note leads back to the one before it of its
//! pair and, by a jump, to an older one (E. W. Myers, An applicative random-access stack, 1983), so that a search takes logarithmic time.
#![tactic(auto)]

mod latest;
mod links;
#[cfg(test)]
mod tests;

pub use latest::{Latest, Note};
