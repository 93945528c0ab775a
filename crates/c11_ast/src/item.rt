ghost use Rattle.std.specs.Prelude.{◌≡◌};

use crate::Many;
use crate::place::{Constant, Place, Spot, Word};
use crate::stmt::Block;
use c11_num::{CType, CValue};

/// What the names of a global declaration are.
#[derive(Clone, Copy, Debug, PartialEq, Eq)]
pub enum GlobalKind {
    /// Plain objects.
    Plain(CType),
    /// Atomic objects (ISO/IEC 9899:2011, 6.7.2.4 and 7.17.6).
    Atomic(CType),
    /// `mtx_t` (ISO/IEC 9899:2011, 7.26.1).
    Mutex,
}

/// What a global starts with.
#[derive(Debug, Drop)]
pub enum Start {
    /// Nothing is written: zero.
    Absent,
    One(Constant),
    /// Constants in braces.
    Brace(Many<Constant>),
}

/// A declared global.
#[derive(Debug, Drop)]
pub struct Var {
    pub place: Place,
    pub start: Start,
}

/// A parameter of a function.
#[derive(Debug, Drop)]
pub struct Param {
    pub spot: Spot,
    pub word: Word,
    /// Its type; none stands for `void *`.
    pub ctype: Option<CType>,
}

/// A function (ISO/IEC 9899:2011, 6.9.1).
#[derive(Debug, Drop)]
pub struct Function {
    pub spot: Spot,
    pub word: Word,
    /// The type of what it answers; none stands for `void`.
    pub answers: Option<CType>,
    pub params: Many<Param>,
    pub body: Block,
}

/// A part of a program (ISO/IEC 9899:2011, 6.9).
#[derive(Debug, Drop)]
pub enum Item {
    /// `#include` and a header.
    Include(Spot),
    /// `#define` of a name as a literal.
    Define {
        spot: Spot,
        word: Word,
        value: CValue,
    },
    /// A declaration of globals.
    Global {
        spot: Spot,
        kind: GlobalKind,
        vars: Many<Var>,
    },
    Function(Function),
}

/// A program: its items in their order.
#[derive(Debug, Drop)]
pub struct Program {
    pub items: Many<Item>,
}

impl Program {
    /// The items in their order.
    pub fn items(&self) -> &[Item]
        ensures { result.now ≡ self.now.items }
    {
        self.items.as_slice()
    }
}
