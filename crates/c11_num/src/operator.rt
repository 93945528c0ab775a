//! The binary operators.

ghost use Rattle.std.specs.Prelude.{◌≡◌};
ghost use Rattle.std.specs.Ordering.{int_eq};
ghost use Rattle.c11_num.specs.Operators as spec;

use crate::arithmetic::usual;
use crate::exact::{difference, product, quotient, remainder, sum};
use crate::fault::NumFault;
use crate::kind::{BinaryOp, RmwKind};
use crate::modular::{convert, wrapping};
use crate::shift::{left_shift, right_shift};
use crate::value::{CType, CValue};

/// A binary operator on two values (ISO/IEC 9899:2011, 6.5.5 to 6.5.12). Both are converted to their common type (`usual`),
/// which is that of the result too, but for two kinds: a comparison gives 1 or 0 as `int`, and a shift has the type of its
/// left operand alone. Division rounds toward zero, and a right shift rounds down.
///
/// # Errors
///
/// `Divide` exactly where the right operand of `/` or `%` is 0. `Shift` exactly where the count of a shift is negative, or is
/// the width of the left operand or more. `Overflow` exactly where there is none of these, and the exact result is outside its
/// signed type, or a negative value is shifted to the left.
#[tactic(auto, unfolding(crate::specs::Operators::binary_of, crate::specs::Wrapping::wrapped))]
pub fn binary(op: BinaryOp, a: CValue, b: CValue) -> Result<CValue, NumFault>
    ensures { result ≡ spec.binary_of op a b }
{
    let common = usual(a.ctype(), b.ctype());
    let left = convert(a, common);
    let right = convert(b, common);
    match op {
        BinaryOp::Mul => product(left, right),
        BinaryOp::Div => quotient(left, right),
        BinaryOp::Rem => remainder(left, right),
        BinaryOp::Add => sum(left, right),
        BinaryOp::Sub => difference(left, right),
        BinaryOp::Shl => left_shift(a, b),
        BinaryOp::Shr => right_shift(a, b),
        BinaryOp::Lt => Ok(truth(left.number() < right.number())),
        BinaryOp::Gt => Ok(truth(left.number() > right.number())),
        BinaryOp::Le => Ok(truth(left.number() <= right.number())),
        BinaryOp::Ge => Ok(truth(left.number() >= right.number())),
        BinaryOp::Eq => Ok(truth(is_equal(left, right))),
        BinaryOp::Ne => Ok(truth(!is_equal(left, right))),
        BinaryOp::And => Ok(wrapping(RmwKind::And, left, right)),
        BinaryOp::Xor => Ok(wrapping(RmwKind::Xor, left, right)),
        BinaryOp::Or => Ok(wrapping(RmwKind::Or, left, right)),
    }
}

// Whether the numbers are the same.
fn is_equal(left: CValue, right: CValue) -> bool
    ensures { result ≡ int_eq left.number right.number }
{
    left.number() == right.number()
}

// What a comparison gives.
fn truth(holds: bool) -> CValue
    ensures { result ≡ spec.truth holds }
{
    CValue::new(CType::Int, i128::from(holds))
}
