//! Integer constants (ISO/IEC 9899:2011, 6.4.4.1).

ghost use Rattle.std.specs.Prelude.{◌≡◌, ◌≤◌, ◌<◌, ◌+◌, ◌*◌, ◌^◌, ◌↔◌, length, IsTrue, IfSome, IfNone, SomeIff, option_map, pos};
ghost use Rattle.std.specs.Char.{digit_value};
ghost use Rattle.std.specs.Str.Parse.{digits_value};
ghost use Rattle.c11_num.specs.Ranges.{TypedNumber, IsInRange};
ghost use Rattle.c11_num.specs.declared.value.CType.{CType};
ghost use Rattle.c11_lexer.specs.declared.number.Base.TheVariants as Base;
ghost use Rattle.c11_lexer.specs.Numbers as spec;
ghost use Rattle.c11_lexer.specs.Pieces as pieces;
ghost use Rattle.c11_lexer.specs.Reading as reading;

use c11_num::{CType, CValue, in_range};

/// What the first bytes of a number say of its digits.
#[derive(Clone, Copy, Debug, PartialEq, Eq)]
pub enum Base {
    /// Digits that do not begin with `0`.
    Decimal,
    /// A `0`, and octal digits if any.
    Octal,
    /// `0x` or `0X`, and hexadecimal digits.
    Hexadecimal,
}

/// What the last bytes of a number say of its type.
#[derive(Clone, Copy, Debug, PartialEq, Eq)]
pub enum Suffix {
    /// No suffix.
    Plain,
    /// `u` or `U`.
    U,
    /// `l` or `L`.
    L,
    /// Both, in either order.
    UL,
}

/// A number as it is written.
#[derive(Clone, Copy, Debug)]
pub struct Number<'a> {
    /// The base of its digits.
    pub base: Base,
    /// The digits after the `0x` or the leading `0`, or all of them.
    pub digits: &'a [u8],
    /// Its suffix.
    pub suffix: Suffix,
}

fn radix(base: Base) -> u32
    ensures { result ≡ spec.radix base }
{
    match base {
        Base::Decimal => 10,
        Base::Octal => 8,
        Base::Hexadecimal => 16,
    }
}

#[tactic(auto, unfolding(crate::specs::Numbers::is_digit_of))]
fn is_digit_of(base: Base, byte: u8) -> bool
    ensures { result ≡ spec.is_digit_of base byte }
{
    char::from(byte).is_digit(radix(base))
}

#[tactic(auto, unfolding(crate::specs::Pieces::run))]
fn digit_run(base: Base, bytes: &[u8]) -> usize
    ensures value { result ≡ pieces.run (spec.is_digit_of base) bytes.now }
    ensures within { result ≤ length bytes.now }
{
    for (at, byte) in bytes.iter().enumerate() {
        if !is_digit_of(base, *byte) {
            return at;
        }
    }
    bytes.len()
}

#[tactic(auto, unfolding(crate::specs::Numbers::is_u))]
fn is_u(byte: u8) -> bool
    ensures { result ≡ spec.is_u byte }
{
    byte == b'u' || byte == b'U'
}

#[tactic(auto, unfolding(crate::specs::Numbers::is_l))]
fn is_l(byte: u8) -> bool
    ensures { result ≡ spec.is_l byte }
{
    byte == b'l' || byte == b'L'
}

#[tactic(auto, unfolding(crate::specs::Numbers::suffix_of))]
fn suffix_of(bytes: &[u8]) -> Option<Suffix>
    ensures { result ≡ spec.suffix_of bytes.now }
{
    match bytes {
        [] => Some(Suffix::Plain),
        [d] if is_u(*d) => Some(Suffix::U),
        [d] if is_l(*d) => Some(Suffix::L),
        [d, e] if (is_u(*d) && is_l(*e)) || (is_l(*d) && is_u(*e)) => Some(Suffix::UL),
        _ => None,
    }
}

/// The digits at the front and the suffix after them, where nothing else stands there.
fn spelled(base: Base, bytes: &[u8]) -> Option<(&[u8], Suffix)>
    ensures { option_map (λ x. (x.0.now, x.1)) result ≡ reading.spelled base bytes.now }
{
    let (digits, ending) = bytes.split_at(digit_run(base, bytes));
    let suffix = suffix_of(ending)?;
    Some((digits, suffix))
}

fn hexadecimal(body: &[u8]) -> Option<Number<'_>>
    ensures { option_map (λ n. (n.base, n.digits.now, n.suffix)) result ≡ reading.hexed (reading.spelled Base.Hexadecimal body.now) }
{
    let (digits, suffix) = spelled(Base::Hexadecimal, body)?;
    if digits.is_empty() {
        return None;
    }
    Some(Number {
        base: Base::Hexadecimal,
        digits,
        suffix,
    })
}

fn based(base: Base, body: &[u8]) -> Option<Number<'_>>
    ensures { option_map (λ n. (n.base, n.digits.now, n.suffix)) result ≡ reading.based base (reading.spelled base body.now) }
{
    let (digits, suffix) = spelled(base, body)?;
    Some(Number {
        base,
        digits,
        suffix,
    })
}

/// The number that the bytes are, whatever its value, or none.
#[tactic(auto, unfolding(crate::specs::Reading::number_of, crate::specs::Reading::after_zero))]
fn number_of(bytes: &[u8]) -> Option<Number<'_>>
    ensures { option_map (λ n. (n.base, n.digits.now, n.suffix)) result ≡ reading.number_of bytes.now }
{
    match bytes {
        [b'0', b'x' | b'X', body @ ..] => hexadecimal(body),
        [b'0', body @ ..] => based(Base::Octal, body),
        [d, ..] if is_digit_of(Base::Decimal, *d) => based(Base::Decimal, bytes),
        _ => None,
    }
}

fn digit_of(byte: u8) -> u64
    ensures { result ≡ digit_value byte }
{
    match char::from(byte).to_digit(36) {
        Some(digit) => u64::from(digit),
        None => 36,
    }
}

/// A digit more, where the number still has at most 64 bits.
fn pushed(value: u64, radix: u64, digit: u64) -> Option<u64>
    ensures { SomeIff result (value * radix + digit < 2 ^ 64) (value * radix + digit) }
{
    value.checked_mul(radix)?.checked_add(digit)
}

/// The number that the digits write, where it has at most 64 bits.
fn value_of(base: Base, digits: &[u8]) -> Option<u64>
    ensures { SomeIff result (digits_value (spec.radix base) digits.now < 2 ^ 64) (digits_value (spec.radix base) digits.now) }
{
    let radix = u64::from(radix(base));
    let mut value = 0;
    for byte in digits {
        let Some(more) = pushed(value, radix, digit_of(*byte)) else {
            return None;
        };
        value = more;
    }
    Some(value)
}

fn types_of(base: Base, suffix: Suffix) -> &'static [CType]
    ensures { result.now ≡ spec.types_of base suffix }
{
    match (base, suffix) {
        (Base::Decimal, Suffix::Plain) => &[CType::Int, CType::Long],
        (_, Suffix::Plain) => &[CType::Int, CType::Unsigned, CType::Long, CType::ULong],
        (_, Suffix::U) => &[CType::Unsigned, CType::ULong],
        (Base::Decimal, Suffix::L) => &[CType::Long],
        (_, Suffix::L) => &[CType::Long, CType::ULong],
        (_, Suffix::UL) => &[CType::ULong],
    }
}

fn holds(ctype: CType, number: u64) -> bool
    ensures { IsTrue result ↔ IsInRange ctype (pos number) }
{
    in_range(ctype, i128::from(number))
}

fn typed(ctype: CType, number: u64) -> CValue
    requires { IsInRange ctype (pos number) }
    ensures ctype { result.ctype ≡ ctype }
    ensures number { result.number ≡ pos number }
{
    CValue::new(ctype, i128::from(number))
}

fn first_holding(types: &[CType], number: u64) -> Option<CType>
    ensures found { IfSome result (λ ctype. spec.FirstHolding (pos number) types.now ctype) }
    ensures in_range { IfSome result (λ ctype. IsInRange ctype (pos number)) }
    ensures none { IfNone result ((ctype : CType) → spec.FirstHolding (pos number) types.now ctype → ⊥) }
{
    for ctype in types {
        if holds(*ctype, number) {
            return Some(*ctype);
        }
    }
    None
}

/// The literal that the bytes are, or none.
pub fn literal(bytes: &[u8]) -> Option<CValue>
    ensures found { IfSome result (λ value. spec.IsLiteral bytes.now value) }
    ensures none { IfNone result ((value : TypedNumber) → spec.IsLiteral bytes.now value → ⊥) }
{
    let Some(number) = number_of(bytes) else {
        return None;
    };
    let Some(value) = value_of(number.base, number.digits) else {
        return None;
    };
    let Some(ctype) = first_holding(types_of(number.base, number.suffix), value) else {
        return None;
    };
    Some(typed(ctype, value))
}

/// Whether the bytes are a number, whatever its value.
pub fn is_number(bytes: &[u8]) -> bool
    ensures { IsTrue result ↔ spec.SpellsNumber bytes.now }
{
    number_of(bytes).is_some()
}
