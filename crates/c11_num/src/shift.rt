//! Shifts, whose count keeps its own type.

ghost use Rattle.std.specs.Prelude.{◌≡◌, ◌<◌, unsigned_abs, Ok};
ghost use Rattle.c11_num.specs.Operators as spec;
ghost use Rattle.c11_num.specs.Wrapping.{width_of};

use crate::exact::exact;
use crate::fault::NumFault;
use crate::value::{CType, CValue};

#[tactic(auto, unfolding(crate::specs::Operators::if_counted))]
pub(crate) fn left_shift(value: CValue, count: CValue) -> Result<CValue, NumFault>
    ensures { result ≡ spec.if_counted value count.number (spec.shifted_left value (unsigned_abs count.number)) }
{
    if !is_count(value.ctype(), count.number()) {
        return Err(NumFault::Shift);
    }
    shifted_left(value, count.number() as u32)
}

#[tactic(auto, unfolding(crate::specs::Operators::if_counted))]
pub(crate) fn right_shift(value: CValue, count: CValue) -> Result<CValue, NumFault>
    ensures { result ≡ spec.if_counted value count.number (Ok (spec.shifted_right value (unsigned_abs count.number))) }
{
    if !is_count(value.ctype(), count.number()) {
        return Err(NumFault::Shift);
    }
    Ok(shifted_right(value, count.number() as u32))
}

// Whether a value of the type can be shifted by this count.
fn is_count(ctype: CType, count: i128) -> bool
    ensures { result ≡ spec.is_count ctype count }
{
    let width = match ctype {
        CType::Int | CType::Unsigned => 32,
        CType::Long | CType::ULong => 64,
    };
    0 <= count && count < width
}

// The value times two to the count. Only a value of a signed type can be negative.
#[tactic(auto, unfolding(crate::specs::Operators::shifted_left))]
fn shifted_left(value: CValue, count: u32) -> Result<CValue, NumFault>
    requires { count < width_of value.ctype }
    ensures { result ≡ spec.shifted_left value count }
{
    if value.number() < 0 {
        return Err(NumFault::Overflow);
    }
    exact(value.ctype(), value.number() * (1 << count))
}

// The value over two to the count, rounded down.
fn shifted_right(value: CValue, count: u32) -> CValue
    requires { count < width_of value.ctype }
    ensures { result ≡ spec.shifted_right value count }
{
    CValue::new(value.ctype(), value.number() >> count)
}
