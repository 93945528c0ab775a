//! The checks of the tested programs: the first of all faults, or the tables of what is declared (ISO/IEC 9899:2011, 6.2 to
//! 6.9, 7.2, 7.17, 7.21 and 7.26).
//!
//! The definitions stand in `specs/`: `Scopes` says what names denote, `Library` what the names of the library are, `Types` the
//! types of expressions, `Faults` the faults, one short clause for each, and `Expressions`, `Statements` and `Programs` where
//! in a tree each may stand; `Tables` says what is declared, `Checked` and `Laws` the rest. `Table`, `Bound`, `Chains`,
//! `Branches` are cited by private functions alone. The modules `scopes`, `declarations`, `statements` and `programs` are for those
//! who walk a program again and have to know what its names denote.
#![tactic(auto)]

mod arguments;
mod around;
mod checked;
pub mod declarations;
mod entity;
mod expressions;
mod fault;
mod first;
mod form;
mod format;
mod kinds;
mod last;
pub mod laws;
mod library;
pub mod programs;
pub mod scopes;
pub mod statements;
mod tables;
mod whole;

pub use around::Around;
pub use checked::Checked;
pub use entity::{Counts, Entity, Signature};
pub use fault::{CheckFault, Fault, Rule};
pub use form::Form;
pub use format::{Within, format_step, values_of_format};
pub use library::{Library, LibraryConstant, Want, library_entity};
pub use whole::check;
