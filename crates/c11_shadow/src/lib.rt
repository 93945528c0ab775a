//! The kept words of plain cells, which decide every race.
//!
//! Of each cell the last write is kept, and of each thread its latest read since. That these decide whether an access races, and
//! with which earlier access, is this project's own; what a race is, is C11 5.1.2.4.
#![tactic(auto)]

mod cell;
mod epoch;
mod laws;
mod shadow;

pub use epoch::{Epoch, epoch_number, epoch_thread, pack};
pub use laws::others_change_nothing;
pub use shadow::Shadow;
