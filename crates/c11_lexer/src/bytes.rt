//! What single bytes are, and runs of them.

ghost use Rattle.std.specs.Prelude.{◌≡◌, ◌≤◌, length};
ghost use Rattle.c11_lexer.specs.Pieces as spec;

/// Whether the byte is a letter, a digit or `_`.
#[tactic(auto, unfolding(crate::specs::Pieces::is_word))]
pub fn is_word(b: u8) -> bool
    ensures { result ≡ spec.is_word b }
{
    b.is_ascii_alphanumeric() || b == b'_'
}

/// Whether the byte is a mark.
#[tactic(auto, unfolding(crate::specs::Pieces::is_mark))]
pub fn is_mark(b: u8) -> bool
    ensures { result ≡ spec.is_mark b }
{
    b"+-*/%&|^~!<>=?:;,()[]{}".contains(&b)
}

/// Whether the byte makes a mark when it is doubled.
#[tactic(auto, unfolding(crate::specs::Pieces::is_doubled))]
pub fn is_doubled(b: u8) -> bool
    ensures { result ≡ spec.is_doubled b }
{
    b"<>&|+-=".contains(&b)
}

/// Whether the byte makes a mark with a `=` after it.
#[tactic(auto, unfolding(crate::specs::Pieces::takes_equals))]
pub fn takes_equals(b: u8) -> bool
    ensures { result ≡ spec.takes_equals b }
{
    b"<>=!+-*/%&|^".contains(&b)
}

/// Whether the byte makes a mark when it is doubled and a `=` follows.
#[tactic(auto, unfolding(crate::specs::Pieces::is_shift))]
pub fn is_shift(b: u8) -> bool
    ensures { result ≡ spec.is_shift b }
{
    b"<>".contains(&b)
}

#[tactic(auto, unfolding(crate::specs::Pieces::is_inline))]
fn is_inline(b: u8) -> bool
    ensures { result ≡ spec.is_inline b }
{
    b != b'\n'
}

/// How many letters, digits and `_` stand at the front.
#[tactic(auto, unfolding(crate::specs::Pieces::run))]
pub fn word_run(bytes: &[u8]) -> usize
    ensures value { result ≡ spec.run spec.is_word bytes.now }
    ensures within { result ≤ length bytes.now }
{
    for (at, b) in bytes.iter().enumerate() {
        if !is_word(*b) {
            return at;
        }
    }
    bytes.len()
}

/// How many bytes stand before the first line feed, or at all.
#[tactic(auto, unfolding(crate::specs::Pieces::run))]
pub fn inline_run(bytes: &[u8]) -> usize
    ensures value { result ≡ spec.run spec.is_inline bytes.now }
    ensures within { result ≤ length bytes.now }
{
    for (at, b) in bytes.iter().enumerate() {
        if !is_inline(*b) {
            return at;
        }
    }
    bytes.len()
}
