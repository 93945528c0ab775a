//! Texts and their escapes.

ghost use Rattle.std.specs.Prelude.{◌≡◌, ◌≢◌, ◌≤◌, ◌<◌, length, slice_index, option_map, IfOk, IfSome};
ghost use Rattle.c11_lexer.specs.Pieces as spec;
ghost use Rattle.c11_lexer.specs.Reading as reading;

use c11_num::{Bytes, NoMemory};
use std::alloc::Global;

#[tactic(auto, unfolding(crate::specs::Pieces::is_plain))]
fn is_plain(b: u8) -> bool
    ensures { result ≡ spec.is_plain b }
{
    b' ' <= b && b <= b'~' && b != b'"' && b != b'\\'
}

#[tactic(auto, unfolding(crate::specs::Pieces::escaped))]
fn escaped(b: u8) -> Option<u8>
    ensures { result ≡ spec.escaped b }
{
    match b {
        b'n' => Some(b'\n'),
        b't' => Some(b'\t'),
        b'\\' => Some(b'\\'),
        b'"' => Some(b'"'),
        _ => None,
    }
}

/// The byte that the front of the text stands for, and what follows it.
#[tactic(auto, unfolding(crate::specs::Reading::quoted_from))]
fn part(bytes: &[u8]) -> Option<(u8, &[u8])>
    requires some { 0 < length bytes.now }
    requires not_closed { slice_index bytes.now 0 ≢ 34 }
    ensures { reading.IsPart bytes.now (option_map (λ x. (x.0, x.1.now)) result) }
{
    match bytes {
        [b'\\', b, rest @ ..] => {
            let d = escaped(*b)?;
            Some((d, rest))
        }
        [b, rest @ ..] if is_plain(*b) => Some((*b, rest)),
        _ => None,
    }
}

/// The bytes that a text stands for, and how many bytes it takes after its `"`.
pub fn quoted(alloc: Global, bytes: &[u8]) -> Result<Option<(Bytes, usize)>, NoMemory>
    ensures value { IfOk result (λ found. found ≡ reading.quoted bytes.now) }
    ensures within { IfOk result (λ found. IfSome found (λ x. x.1 ≤ length bytes.now)) }
{
    let mut value = Vec::new(alloc);
    let mut rest = bytes;
    while !rest.is_empty() {
        if rest[0] == b'"' {
            return Ok(Some((Bytes::new(value), bytes.len() - rest.len() + 1)));
        }
        let Some((b, after)) = part(rest) else {
            return Ok(None);
        };
        value.push(b)?;
        rest = after;
    }
    Ok(None)
}
