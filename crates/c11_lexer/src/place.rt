//! How a cursor moves.

ghost use Rattle.std.specs.Prelude.{◌≡◌, ◌≤◌, ◌<◌, ◌+◌, ◌^◌, length};
ghost use Rattle.c11_lexer.specs.Scan as spec;

use crate::cursor::Cursor;

/// The place after this byte.
fn after_byte(at: Cursor, b: u8) -> Cursor
    requires line { at.line + 1 < 2 ^ 32 }
    requires column { at.column + 1 < 2 ^ 32 }
    requires offset { at.offset + 1 < 2 ^ 32 }
    ensures value { result ≡ spec.after_byte at b }
    ensures line { result.line ≤ at.line + 1 }
    ensures column { result.column ≤ at.column + 1 }
    ensures offset { result.offset ≡ at.offset + 1 }
{
    let offset = at.offset + 1;
    if b == b'\n' {
        Cursor {
            line: at.line + 1,
            column: 1,
            offset,
            token_line: at.token_line,
        }
    } else {
        Cursor {
            line: at.line,
            column: at.column + 1,
            offset,
            token_line: at.token_line,
        }
    }
}

/// The place after these bytes.
#[tactic(auto, unfolding(crate::specs::Scan::advance))]
pub fn advance(at: Cursor, text: &[u8]) -> Cursor
    requires line { at.line + length text.now < 2 ^ 32 }
    requires column { at.column + length text.now < 2 ^ 32 }
    requires offset { at.offset + length text.now < 2 ^ 32 }
    ensures value { result ≡ spec.advance at text.now }
    ensures line { result.line ≤ at.line + length text.now }
    ensures column { result.column ≤ at.column + length text.now }
    ensures offset { result.offset ≡ at.offset + length text.now }
{
    let mut place = at;
    for b in text {
        place = after_byte(place, *b);
    }
    place
}
