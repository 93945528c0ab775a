//! The numbers of C as the tested programs see them, and the small texts of the tester.
//!
//! `int` and `unsigned` have 32 bits, `long` and `unsigned long` 64, in two's complement
//! (ISO/IEC 9899:2011, 5.2.4.2.1 and 6.2.6.2, with the widths chosen here).
#![tactic(auto)]

mod arithmetic;
mod exact;
mod fault;
mod kind;
mod memory;
mod modular;
mod operator;
mod shift;
#[cfg(test)]
mod tests;
mod text;
mod value;

pub use arithmetic::{negate, usual};
pub use fault::NumFault;
pub use kind::{BinaryOp, RmwKind};
pub use memory::NoMemory;
pub use modular::{convert, wrapping};
pub use operator::binary;
pub use text::{Bytes, Name};
pub use value::{CType, CValue, in_range};
