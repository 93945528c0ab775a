//! Arithmetic on two values of one type, by the exact result.

ghost use Rattle.std.specs.Prelude.{◌≡◌, ◌+ℤ◌, ◌-ℤ◌, ◌*ℤ◌, int_div, int_rem};
ghost use Rattle.c11_num.specs.Operators as spec;

use crate::arithmetic::is_signed;
use crate::fault::NumFault;
use crate::modular::{bits_of, modulus, of_bits, wrapped};
use crate::value::{CType, CValue, in_range};

// The exact result as a value of the type.
#[tactic(auto, unfolding(crate::specs::Operators::exact))]
pub(crate) fn exact(ctype: CType, number: i128) -> Result<CValue, NumFault>
    ensures { result ≡ spec.exact ctype number }
{
    if in_range(ctype, number) {
        return Ok(CValue::new(ctype, number));
    }
    if is_signed(ctype) {
        return Err(NumFault::Overflow);
    }
    Ok(wrapped(ctype, number))
}

pub(crate) fn sum(left: CValue, right: CValue) -> Result<CValue, NumFault>
    ensures { result ≡ spec.exact left.ctype (left.number +ℤ right.number) }
{
    exact(left.ctype(), left.number() + right.number())
}

pub(crate) fn difference(left: CValue, right: CValue) -> Result<CValue, NumFault>
    ensures { result ≡ spec.exact left.ctype (left.number -ℤ right.number) }
{
    exact(left.ctype(), left.number() - right.number())
}

// The product of two values of one type. That of unsigned ones is made of the bits, since `i128` may not hold it.
pub(crate) fn product(left: CValue, right: CValue) -> Result<CValue, NumFault>
    requires { left.ctype ≡ right.ctype }
    ensures { result ≡ spec.exact left.ctype (left.number *ℤ right.number) }
{
    let ctype = left.ctype();
    if is_signed(ctype) {
        return exact(ctype, left.number() * right.number());
    }
    let bits = bits_of(ctype, left.number()) * bits_of(ctype, right.number());
    Ok(of_bits(ctype, bits % modulus(ctype)))
}

#[tactic(auto, unfolding(crate::specs::Operators::unless_zero))]
pub(crate) fn quotient(left: CValue, right: CValue) -> Result<CValue, NumFault>
    ensures { result ≡ spec.unless_zero right.number (spec.exact left.ctype (int_div left.number right.number)) }
{
    if right.number() == 0 {
        return Err(NumFault::Divide);
    }
    exact(left.ctype(), left.number() / right.number())
}

#[tactic(auto, unfolding(crate::specs::Operators::unless_zero))]
pub(crate) fn remainder(left: CValue, right: CValue) -> Result<CValue, NumFault>
    ensures { result ≡ spec.unless_zero right.number (spec.exact left.ctype (int_rem left.number right.number)) }
{
    if right.number() == 0 {
        return Err(NumFault::Divide);
    }
    exact(left.ctype(), left.number() % right.number())
}
