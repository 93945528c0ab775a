//! Slow, plain programs whose contracts are the definitions of the memory model.
#![tactic(auto)]

mod broken;
mod chain_lawful;
mod chain_offers;
mod consistent;
mod copies;
mod direct;
mod events;
mod fences;
mod happens;
mod lawful;
mod links;
mod modification;
mod offers;
mod operations;
mod orders;
mod pairs;
mod races;
mod ranks;
mod reading;
mod relations;
mod rules;
mod search;
mod seq_cst;
mod standing;
mod tables;
mod values;

pub use broken::Broken;
pub use chain_lawful::is_chain_lawful;
pub use chain_offers::chain_offered;
pub use consistent::is_consistent;
pub use copies::extended;
pub use happens::{happens_before, synchronizes_with};
pub use lawful::{broken_rule, is_lawful};
pub use offers::offered;
pub use pairs::Pairs;
pub use races::racing;
pub use reading::reads_earlier;
pub use values::value_of;
