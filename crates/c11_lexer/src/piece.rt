//! The longest piece at the front of a text (ISO/IEC 9899:2011, 6.4).

ghost use Rattle.std.specs.Prelude.{◌≡◌, ◌<◌, ◌+◌, ◌^◌, length, IfOk};
ghost use Rattle.c11_lexer.specs.Pieces as spec;
ghost use Rattle.c11_lexer.specs.Reading as reading;

use crate::bytes::{inline_run, is_doubled, is_mark, is_shift, is_word, takes_equals, word_run};
use crate::comment::close;
use crate::quote::quoted;
use c11_num::{Bytes, NoMemory};
use std::alloc::Global;

/// What a byte begins.
#[derive(Clone, Copy, Debug, PartialEq, Eq)]
pub enum Class {
    /// A blank.
    Blank,
    /// A word or a number.
    Run,
    /// A text.
    Quote,
    /// A comment, or one of the marks `/` and `/=`.
    Slash,
    /// Another mark.
    Mark,
    /// Nothing.
    Other,
}

/// A piece of a text.
#[derive(Debug, Drop)]
pub enum Piece {
    /// One blank.
    Blank,
    /// Letters, digits and `_`.
    Run,
    /// A mark.
    Mark,
    /// A `//` and what follows it on its line.
    LineComment,
    /// A comment that ends with its first `*/`.
    Comment,
    /// A comment that is not closed.
    OpenComment,
    /// A text with the bytes that it stands for.
    Text(Bytes),
    /// A `"` that begins no text.
    OpenText,
    /// A byte that begins nothing.
    Stray,
    /// The whole of an `#include`.
    Include,
    /// A `#define` up to the end of that word.
    Define,
    /// A `#` that is the first of its line and begins no directive.
    NoDirective,
}

#[tactic(auto, unfolding(crate::specs::Pieces::class, crate::specs::Pieces::is_blank))]
fn class_of(b: u8) -> Class
    ensures { result ≡ spec.class b }
{
    if b == b' ' || (9 <= b && b <= 13) {
        Class::Blank
    } else if is_word(b) {
        Class::Run
    } else if b == b'"' {
        Class::Quote
    } else if b == b'/' {
        Class::Slash
    } else if is_mark(b) {
        Class::Mark
    } else {
        Class::Other
    }
}

fn is_pair(b: u8, d: u8) -> bool
    ensures { result ≡ reading.is_pair b d }
{
    (d == b && is_doubled(b)) || (d == b'=' && takes_equals(b))
}

fn is_triple(b: u8, d: u8, e: u8) -> bool
    ensures { result ≡ reading.is_triple b d e }
{
    d == b && e == b'=' && is_shift(b)
}

#[tactic(auto, unfolding(crate::specs::Reading::mark_len))]
fn mark_len(b: u8, rest: &[u8]) -> usize
    ensures { result ≡ reading.mark_len b rest.now }
{
    match rest {
        [] => 1,
        [d, e, ..] if is_triple(b, *d, *e) => 3,
        [d, ..] if is_pair(b, *d) => 2,
        _ => 1,
    }
}

#[tactic(auto, unfolding(crate::specs::Reading::after_slash))]
fn after_slash(rest: &[u8]) -> (Piece, usize)
    requires { length rest.now + 2 < 2 ^ 64 }
    ensures { result ≡ reading.after_slash rest.now }
{
    match rest.first() {
        Some(b'*') => match close(&rest[1..]) {
            Some(end) => (Piece::Comment, end + 2),
            None => (Piece::OpenComment, rest.len() + 1),
        },
        Some(b'/') => (Piece::LineComment, inline_run(&rest[1..]) + 2),
        Some(b'=') => (Piece::Mark, 2),
        _ => (Piece::Mark, 1),
    }
}

fn after_quote(alloc: Global, rest: &[u8]) -> Result<(Piece, usize), NoMemory>
    requires { length rest.now + 1 < 2 ^ 64 }
    ensures { IfOk result (λ found. found ≡ reading.sized (reading.quoted rest.now) rest.now) }
{
    match quoted(alloc, rest)? {
        Some((value, len)) if value.as_slice().len() <= 256 => Ok((Piece::Text(value), len + 1)),
        _ => Ok((Piece::OpenText, rest.len() + 1)),
    }
}

#[tactic(auto, unfolding(crate::specs::Reading::front))]
fn found(alloc: Global, bytes: &[u8]) -> Result<(Piece, usize), NoMemory>
    requires { 0 < length bytes.now }
    ensures { IfOk result (λ found. found ≡ reading.front bytes.now) }
{
    let first = bytes[0];
    let rest = &bytes[1..];
    match class_of(first) {
        Class::Blank => Ok((Piece::Blank, 1)),
        Class::Run => Ok((Piece::Run, word_run(rest) + 1)),
        Class::Quote => after_quote(alloc, rest),
        Class::Slash => Ok(after_slash(rest)),
        Class::Mark => Ok((Piece::Mark, mark_len(first, rest))),
        Class::Other => Ok((Piece::Stray, 1)),
    }
}

/// The longest piece at the front, and its length.
pub fn front(alloc: Global, bytes: &[u8]) -> Result<(Piece, usize), NoMemory>
    requires { 0 < length bytes.now }
    ensures { IfOk result (λ found. spec.Longest bytes.now found.1 found.0) }
{
    found(alloc, bytes)
}
