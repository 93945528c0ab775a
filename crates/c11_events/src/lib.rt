//! What the tested threads do, step by step, and the definitions of the memory model over these steps.
#![tactic(auto)]

mod cells;
mod entry;
mod event;
mod kinds;
pub mod laws;
mod op;
mod order;
mod reply;
#[cfg(test)]
mod tests;
mod verdict;

pub use cells::{CellInfo, FunctionInfo};
pub use entry::{Entry, Offers};
pub use event::{Event, EventKind};
pub use op::{Ask, Op, StopKind};
pub use order::{Order, OrderUse, failure_allowed, order_allowed};
pub use reply::{FaultKind, Holder, Reply};
pub use verdict::Verdict;
