//! What a program asks for: the meaning of its syntax trees, given the replies that a thread had (ISO/IEC 9899:2011, 5.1.2.3, 6.5,
//! 6.8 and 6.9).
//!
//! The crate is definitions alone, in `specs/`, for contracts to cite: `Outcome` says what a part of a thread can come to, `Objects`
//! how what a name denotes is read and written, `Parts`, `Expressions` and `Library` what each form of expression does, `Evaluation`
//! puts them together along the tree, `Statements` does the same for statements, and `Asks` says what a thread wants next.
#![tactic(auto)]

pub mod laws;
