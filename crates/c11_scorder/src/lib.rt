//! The order of the seq_cst events, as far as the rules of a lawful modification order need it.
//!
//! That order is the order of the events' numbers. Kept are the last seq_cst store of each cell and the last seq_cst fence of each
//! thread, and, to be searched, the stores of each cell and thread and the fences of each thread. That this is all that the rules
//! need, is said by laws.
#![tactic(auto)]

mod kinds;
pub mod laws;
mod order;
mod tables;

pub use order::ScOrder;
