//! The flat code of checked programs (ISO/IEC 9899:2011, 6.8 and 6.9).
//!
//! `c11_flat` says which code a program has; [`lower`] makes it. Code is written from its front to its end and nothing in it is changed
//! afterwards: a loop takes the size of its body, its next and its test first, an `if` its own, so that each jump is written with its
//! place. Sizes are taken again at each level of nesting, of which a checked program has few.
//!
//! What is measured or written leaves the scopes as before; who goes on behind a statement goes past it, so that what it declares is
//! declared. Each arm of an `if` is in the scope behind the arms before it.
#![tactic(auto)]

mod append;
mod declaring;
mod emitting;
mod functions;
mod measuring;
mod passing;
mod whole;

pub use whole::lower;
