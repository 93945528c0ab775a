//! The stores of each cell, the chains that read-modify-writes make of them, and which chain is reached from which.
//!
//! A modification order keeps a chain together, so which stores may precede which is a matter of chains: a pair of stores that the
//! rules put in an order links their chains, and a read may take a store that no link forbids. Each chain has a clock with, for each
//! thread, the largest of its stores in that chain and in those that lead there, so that one comparison tells whether a store is
//! reached. All of this is this project's own.
#![tactic(auto)]

mod clocks;
mod graph;
mod heads;
mod kept;
mod lists;

pub use graph::Graph;
