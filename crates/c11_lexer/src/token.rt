use c11_num::{Bytes, CValue, NoMemory};
use std::alloc::AllocFailed;

/// What a token is.
#[derive(Debug, Drop)]
pub enum TokenKind {
    /// An identifier or a keyword: at most 127 bytes.
    Word,
    /// An integer constant, with its value and type.
    Literal(CValue),
    /// A string literal, with the at most 256 bytes that it stands for.
    Text(Bytes),
    /// A punctuator.
    Mark,
    /// `#include <H>`, from the `#` to the `>`.
    Include,
    /// `#define`, from the `#` to the end of that word. The name and the literal are the next tokens.
    Define,
}

/// A token of a text: its bytes are those from `start` to before `end`.
#[derive(Debug, Drop)]
pub struct Token {
    /// What the token is.
    pub kind: TokenKind,
    /// The line on which it begins, counted from 1.
    pub line: u32,
    /// The column of its first byte, in bytes, counted from 1.
    pub column: u32,
    /// How many bytes of the text stand before it.
    pub start: u32,
    /// How many bytes of the text stand before what follows it.
    pub end: u32,
}

/// Why a text has no tokens. The numbers are the line and the column of the place, both counted from 1.
#[derive(Clone, Copy, Debug, PartialEq, Eq)]
pub enum LexFault {
    /// This byte begins no token.
    Byte(u32, u32),
    /// A number, a word or a text begins here that is none, or that is too large or too long.
    Literal(u32, u32),
    /// The comment that begins here is not closed.
    Comment(u32, u32),
    /// The line that this `#` begins is no directive.
    Directive(u32, u32),
    /// Memory ran out.
    NoMemory,
}

impl From<NoMemory> for LexFault {
    ghost use Rattle.std.specs.Prelude.{◌≡◌};
    ghost use Rattle.c11_lexer.specs.declared.token.LexFault.TheVariants as fault;

    ghost from_gives = { λ _ e. e ≡ fault.NoMemory };

    fn from(_: NoMemory) -> LexFault {
        LexFault::NoMemory
    }
}

impl<T: Drop> From<AllocFailed<T>> for LexFault {
    ghost use Rattle.std.specs.Prelude.{◌≡◌};
    ghost use Rattle.c11_lexer.specs.declared.token.LexFault.TheVariants as fault;

    ghost from_gives = { λ _ e. e ≡ fault.NoMemory };

    fn from(_: AllocFailed<T>) -> LexFault {
        LexFault::NoMemory
    }
}
