ghost use Rattle.std.specs.Prelude.{◌≡◌, ◌<◌, ◌^◌};
ghost use Rattle.c11_num.specs.Wrapping as spec;
ghost use Rattle.c11_num.specs.Wrapping.{width_of};

use crate::kind::RmwKind;
use crate::value::{CType, CValue};

/// The value in another type: its number modulo two to the width of that type (ISO/IEC 9899:2011, 6.3.1.3).
pub fn convert(value: CValue, to: CType) -> CValue
    ensures { result ≡ spec.converted to value }
{
    wrapped(to, value.number())
}

/// The number modulo two to the width of the type, as a value of it.
#[tactic(auto, unfolding(crate::specs::Wrapping::wrapped))]
pub(crate) fn wrapped(ctype: CType, number: i128) -> CValue
    ensures { result ≡ spec.wrapped ctype number }
{
    of_bits(ctype, bits_of(ctype, number))
}

/// What a read-modify-write writes: the result modulo two to the width, in the type of the old value
/// (ISO/IEC 9899:2011, 7.17.7.5). An operand of another type counts as if it were converted first.
#[tactic(auto, unfolding(crate::specs::Wrapping::wrapping))]
pub fn wrapping(kind: RmwKind, old: CValue, operand: CValue) -> CValue
    ensures { result ≡ spec.wrapping kind old operand }
{
    let ctype = old.ctype();
    let bits = combined(
        kind,
        ctype,
        bits_of(ctype, old.number()),
        bits_of(ctype, operand.number()),
    );
    of_bits(ctype, bits)
}

// Two to the width of the type.
pub(crate) fn modulus(ctype: CType) -> u128
    ensures { result ≡ 2 ^ width_of ctype }
{
    match ctype {
        CType::Int | CType::Unsigned => 1 << 32,
        CType::Long | CType::ULong => 1 << 64,
    }
}

// The bits of the number in the type.
pub(crate) fn bits_of(ctype: CType, number: i128) -> u128
    ensures bits { result ≡ spec.bits_of ctype number }
    ensures bound { result < 2 ^ width_of ctype }
{
    number.rem_euclid(modulus(ctype) as i128) as u128
}

// The value of the type with these bits.
pub(crate) fn of_bits(ctype: CType, bits: u128) -> CValue
    requires { bits < 2 ^ width_of ctype }
    ensures ctype { result.ctype ≡ ctype }
    ensures number { result.number ≡ spec.of_bits ctype bits }
{
    let number = match ctype {
        CType::Int => i128::from((bits as u32).cast_signed()),
        CType::Unsigned => bits as i128,
        CType::Long => i128::from((bits as u64).cast_signed()),
        CType::ULong => bits as i128,
    };
    CValue::new(ctype, number)
}

// The bits of the result.
fn combined(kind: RmwKind, ctype: CType, old: u128, operand: u128) -> u128
    requires old { old < 2 ^ width_of ctype }
    requires operand { operand < 2 ^ width_of ctype }
    ensures bits { result ≡ spec.combined kind (width_of ctype) old operand }
    ensures bound { result < 2 ^ width_of ctype }
{
    let modulus = modulus(ctype);
    match kind {
        RmwKind::Exchange => operand,
        RmwKind::Add => (old + operand) % modulus,
        RmwKind::Sub => (old + (modulus - operand)) % modulus,
        RmwKind::And => old & operand,
        RmwKind::Or => old | operand,
        RmwKind::Xor => old ^ operand,
    }
}
