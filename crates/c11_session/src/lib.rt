//! An execution that callers share, by turns.
#![tactic(auto)]

mod advancing;
mod answer;
mod asking;
mod finishing;
mod front;
mod opening;
mod place;
mod playing;
mod rule;
mod seat;
mod session;
mod steps;
mod taking;
mod waiting;

pub use answer::Turn;
pub use front::Front;
pub use rule::{Account, Stage, Turns, View};
pub use seat::Seat;
pub use session::{Opened, Session};
