//! Flat code: the instructions of a program, which ask what its syntax trees ask (ISO/IEC 9899:2011, 5.1.2.3).
//!
//! `Pieces` and `Code` in `specs/` say which instructions a program has, `Flat` what each does. A thread runs them one after the other,
//! with one stack for all its calls, stops at each operation, and goes on with the reply. The layout is this project's own.
#![tactic(auto)]

mod code;
mod instr;
pub mod laws;
mod slot;
mod span;

pub use code::{Code, Start};
pub use instr::{Acts, Instr, Place, Storage};
pub use slot::Slot;
pub use span::Span;
