//! The syntax trees of the tested programs (ISO/IEC 9899:2011, 6.5 to 6.9).
//!
//! Fields are public. Contracts see a tree as plain data: a [`Many`] as the list of its parts, a [`Boxed`] as its part.
//! A `spot` is the place of a part's first token; a part without one begins with its first part.
#![tactic(auto)]

mod build;
mod expr;
mod item;
mod place;
mod stmt;

pub use build::{boxed_expr, boxed_stmt};
pub use expr::{Arg, CastTo, Expr, Infix, Link, Prefix, Target};
pub use item::{Function, GlobalKind, Item, Param, Program, Start, Var};
pub use place::{Constant, Known, Place, Spot, Word};
pub use sqlite_items::Boxed;
pub use stmt::{Arm, Block, Local, Stmt};

/// Parts in their order, which contracts see as a list. `from_vec` and `as_slice` take no memory.
pub type Many<T> = sqlite_items::Items<T>;
