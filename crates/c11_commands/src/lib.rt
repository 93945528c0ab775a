//! The commands of `c11t`: what the words of a command line ask for, what each command answers, and the call that does all of it.
#![tactic(auto)]

mod campaigns;
mod due;
pub mod laws;
mod program;
mod runs;
mod top;
mod usage;
mod words;

pub use campaigns::{campaign_command, trial_command};
pub use runs::run_command;
pub use top::c11t;
pub use words::{Command, Status, read_words};
