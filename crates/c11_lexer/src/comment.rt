//! Where a comment ends.

ghost use Rattle.std.specs.Prelude.{◌≡◌, ◌≤◌, ◌+◌, ◌==◌, ◌&&◌, length, IfSome};
ghost use Rattle.c11_lexer.specs.Reading as reading;

fn is_close(first: u8, second: u8) -> bool
    ensures { result ≡ (first == 42 && second == 47) }
{
    first == b'*' && second == b'/'
}

/// How many bytes there are up to and with the first `*/`.
pub fn close(bytes: &[u8]) -> Option<usize>
    ensures value { result ≡ reading.close bytes.now }
    ensures within { IfSome result (λ end. end ≤ length bytes.now) }
{
    let mut at = 0;
    while at + 1 < bytes.len() {
        if is_close(bytes[at], bytes[at + 1]) {
            return Some(at + 2);
        }
        at += 1;
    }
    None
}
