ghost use Rattle.std.specs.Prelude.{◌≡◌, IfOk, IfErr, neg_ℤ};
ghost use Rattle.c11_num.specs.Ranges.{IsInRange};
ghost use Rattle.c11_num.specs.Wrapping as modular;
ghost use Rattle.c11_num.specs.Arithmetic as spec;
ghost use Rattle.c11_num.specs.Operators as operators;
ghost use Rattle.c11_num.specs.Arithmetic.{Overflows};

use crate::fault::NumFault;
use crate::modular::wrapped;
use crate::value::{CType, CValue, in_range};

/// The type in which two operands are computed: the later of both in the order `int`, `unsigned`, `long`, `unsigned long`
/// (ISO/IEC 9899:2011, 6.3.1.8).
pub fn usual(a: CType, b: CType) -> CType
    ensures { result ≡ spec.usual a b }
{
    match (a, b) {
        (CType::ULong, _) | (_, CType::ULong) => CType::ULong,
        (CType::Long, _) | (_, CType::Long) => CType::Long,
        (CType::Unsigned, _) | (_, CType::Unsigned) => CType::Unsigned,
        (CType::Int, CType::Int) => CType::Int,
    }
}

/// Unary minus in the type of the value (ISO/IEC 9899:2011, 6.5.3.3). In an unsigned type the result is modulo two to the width.
///
/// `Overflow` exactly where the type is signed and does not hold the result; there is no other fault.
#[tactic(auto, unfolding(crate::specs::Operators::exact))]
pub fn negate(a: CValue) -> Result<CValue, NumFault>
    ensures outcome { result ≡ operators.exact a.ctype (neg_ℤ a.number) }
    ensures value { IfOk result (λ value. value ≡ modular.wrapped a.ctype (neg_ℤ a.number)) }
    ensures exact { IfOk result (λ value. IsInRange a.ctype (neg_ℤ a.number) → value.number ≡ neg_ℤ a.number) }
    ensures held { IfOk result (λ _. Overflows a.ctype (neg_ℤ a.number) → ⊥) }
    ensures fault { IfErr result (λ fault. (fault ≡ NumFault.Overflow) × Overflows a.ctype (neg_ℤ a.number)) }
{
    let ctype = a.ctype();
    let exact = -a.number();
    if is_signed(ctype) && !in_range(ctype, exact) {
        return Err(NumFault::Overflow);
    }
    Ok(wrapped(ctype, exact))
}

// Whether the type is signed.
pub(crate) fn is_signed(ctype: CType) -> bool
    ensures { result ≡ spec.is_signed ctype }
{
    match ctype {
        CType::Int | CType::Long => true,
        CType::Unsigned | CType::ULong => false,
    }
}
