//! The printed texts: of an execution, of a refusal, and of a campaign's summary.
//!
//! Every line ends in one line feed; numbers are decimal, without leading zeros. The texts are this project's own.
#![tactic(auto)]

mod execution;
mod line;
mod object;
mod outputs;
mod refusal;
mod spelling;
mod summary;
mod tally;
mod text;

pub use execution::{Head, execution_text};
pub use outputs::OutputList;
pub use refusal::{Refusal, RefusalWord, refusal_text};
pub use summary::{Summary, summary_text};
pub use tally::{Tallies, Tally};
pub use text::Mode;
