//! The machine of one tested thread: it runs flat code, stops at each operation, and goes on with the reply.
//!
//! A `Thread` stands for the replies that it was given: `Stands` in `specs/` says that the code, with these replies, comes to where
//! the thread is. `advance` runs on to the next operation, `give` keeps the reply to it, and the laws say that this is what the
//! program's syntax trees ask.
//!
//! Inside, each instruction is first looked at, which gives an `Effect` and changes nothing; then the effect is applied. Calls and
//! returns, which leave their function, are done by themselves. The commonest instructions are first tried in place (`quick`), which
//! costs less. Of the stack and the callers the last item is the top one.
#![tactic(auto)]

mod answer;
mod calls;
mod clear;
mod code;
mod effect;
mod jumps;
pub mod laws;
mod library;
mod locals;
mod looks;
mod machine;
mod moves;
mod numbers;
mod operations;
mod print;
mod quick;
mod run;
mod slots;
mod step;
mod thread;

pub use c11_flat::Code;
pub use thread::Thread;
