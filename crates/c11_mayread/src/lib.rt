//! The stores that a read may take, decided as the events come and without an order of all stores.
//!
//! Before a thread reads a cell, a few stores of each thread stand for all stores that must not follow what it reads: the last one that
//! the thread knows of, what the last load that it knows of read, and those that seq_cst fences hold. A store may be read where the graph
//! of chains lets these precede it. All of this is this project's own.
#![tactic(auto)]

mod asked;
mod kept;
mod kinds;
pub mod laws;
mod linking;
mod lists;
mod past;
mod reads;

pub use reads::Reads;
