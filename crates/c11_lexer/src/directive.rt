//! Directives (ISO/IEC 9899:2011, 6.10.2 and 6.10.3).

ghost use Rattle.std.specs.Prelude.{◌≡◌, ◌≤◌, ◌<◌, ◌↔◌, [], length, slice_index, IsTrue, IfOk, IfSome, IfNone, codes};
ghost use Rattle.c11_lexer.specs.Pieces.{Text};
ghost use Rattle.c11_lexer.specs.Pieces as pieces;
ghost use Rattle.c11_lexer.specs.Directives as spec;

use crate::bytes::word_run;
use crate::number::is_number;
use crate::piece::{Piece, front};
use c11_num::NoMemory;
use std::alloc::Global;

fn is_space(piece: &Piece) -> bool
    ensures { result ≡ spec.is_space piece.now }
{
    match piece {
        Piece::Blank | Piece::LineComment | Piece::Comment | Piece::OpenComment => true,
        _ => false,
    }
}

/// What stands after the blanks and comments at the front of a line.
fn skip(alloc: Global, line: &[u8]) -> Result<&[u8], NoMemory>
    ensures rest { IfOk result (λ rest. spec.SkipsTo line.now rest.now) }
    ensures shorter { IfOk result (λ rest. length rest.now ≤ length line.now) }
{
    let mut rest = line;
    'spaces: while !rest.is_empty() {
        let (piece, len) = front(alloc, rest)?;
        if !is_space(&piece) {
            return Ok(rest);
        }
        let (_, after) = rest.split_at(len);
        rest = after;
    }
    Ok(rest)
}

/// Whether nothing but blanks and comments stands on the line.
fn ends(alloc: Global, line: &[u8]) -> Result<bool, NoMemory>
    ensures { IfOk result (λ answer. IsTrue answer ↔ spec.Skips line.now []) }
{
    let rest = skip(alloc, line)?;
    Ok(rest.is_empty())
}

/// Whether the bytes are a word of a length that is allowed.
pub fn is_word(bytes: &[u8]) -> bool
    ensures { IsTrue result ↔ spec.IsWord bytes.now }
{
    match bytes {
        [] => false,
        [first, ..] => !first.is_ascii_digit() && bytes.len() <= 127,
    }
}

fn is_header(bytes: &[u8]) -> bool
    ensures { IsTrue result ↔ spec.IsHeader bytes.now }
{
    bytes == b"<stdatomic.h".as_slice()
        || bytes == b"<threads.h".as_slice()
        || bytes == b"<stdio.h".as_slice()
        || bytes == b"<assert.h".as_slice()
}

#[tactic(auto, unfolding(crate::specs::Directives::is_inside))]
fn is_inside(b: u8) -> bool
    ensures { result ≡ spec.is_inside b }
{
    b != b'>'
}

#[tactic(auto, unfolding(crate::specs::Pieces::run))]
fn inside_run(bytes: &[u8]) -> usize
    ensures value { result ≡ pieces.run spec.is_inside bytes.now }
    ensures within { result ≤ length bytes.now }
{
    for (at, b) in bytes.iter().enumerate() {
        if !is_inside(*b) {
            return at;
        }
    }
    bytes.len()
}

/// What stands after the `>` of a header, where nothing else stands after the word `include`.
fn included(alloc: Global, line: &[u8]) -> Result<Option<&[u8]>, NoMemory>
    ensures found { IfOk result (λ found. IfSome found (λ rest. spec.Included line.now rest.now)) }
    ensures shorter { IfOk result (λ found. IfSome found (λ rest. length rest.now ≤ length line.now)) }
    ensures none { IfOk result (λ found. IfNone found ((rest : Text) → spec.Included line.now rest → ⊥)) }
{
    let header = skip(alloc, line)?;
    let (name, end) = header.split_at(inside_run(header));
    if end.is_empty() {
        return Ok(None);
    }
    if !is_header(name) {
        return Ok(None);
    }
    let (_, rest) = end.split_at(1);
    if !ends(alloc, rest)? {
        return Ok(None);
    }
    Ok(Some(rest))
}

/// Whether a name and a literal, and nothing else, stand after the word `define`.
fn defined(alloc: Global, line: &[u8]) -> Result<bool, NoMemory>
    ensures { IfOk result (λ answer. IsTrue answer ↔ spec.Defined line.now) }
{
    let front = skip(alloc, line)?;
    let (name, after) = front.split_at(word_run(front));
    if !is_word(name) {
        return Ok(false);
    }
    let value = skip(alloc, after)?;
    let (number, end) = value.split_at(word_run(value));
    if !is_number(number) {
        return Ok(false);
    }
    ends(alloc, end)
}

fn is_include(word: &[u8]) -> bool
    ensures { IsTrue result ↔ (word.now ≡ codes "include") }
{
    word == b"include".as_slice()
}

fn is_define(word: &[u8]) -> bool
    ensures { IsTrue result ↔ (word.now ≡ codes "define") }
{
    word == b"define".as_slice()
}

/// The directive that the line is, and how many bytes its first token has.
pub fn directive(alloc: Global, line: &[u8]) -> Result<Option<(Piece, usize)>, NoMemory>
    requires some { 0 < length line.now }
    requires hash { slice_index line.now 0 ≡ 35 }
    ensures found { IfOk result (λ found. IfSome found (λ x. spec.IsDirective line.now x.1 x.0)) }
    ensures none { IfOk result (λ found. IfNone found (spec.NoDirective line.now)) }
{
    let (_, tail) = line.split_at(1);
    let front = skip(alloc, tail)?;
    let (word, after) = front.split_at(word_run(front));
    if is_include(word) {
        let Some(rest) = included(alloc, after)? else {
            return Ok(None);
        };
        return Ok(Some((Piece::Include, line.len() - rest.len())));
    }
    if !is_define(word) {
        return Ok(None);
    }
    if !defined(alloc, after)? {
        return Ok(None);
    }
    Ok(Some((Piece::Define, line.len() - after.len())))
}
