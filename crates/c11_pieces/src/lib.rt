//! The flat code of expressions (ISO/IEC 9899:2011, 6.5): how many instructions, and which, as `Pieces` of `c11_flat` defines them.
//!
//! What is public is said in the words of `c11_flat` and `c11_check` alone. Of the private functions, `Growth` in `specs/` says that
//! code grew by a piece, and `Trees` what the parts of an expression are to the code around them; `Places`, `Sizes` and `Calls` take
//! assignments, lengths and calls of the library apart.
#![tactic(auto)]

mod access;
mod arguments;
mod emission;
mod growing;
mod lengths;
mod library;
mod objects;
mod sizes;
mod types;

pub use emission::emit_expr;
pub use sizes::expr_size;
pub use types::type_of;
