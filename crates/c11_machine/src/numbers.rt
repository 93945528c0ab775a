//! What instructions make of single values.

ghost use Rattle.std.specs.Prelude.{◌≡◌};
ghost use Rattle.c11_num.specs.Wrapping.{converted};
ghost use Rattle.c11_num.specs.Operators as operators;
ghost use Rattle.c11_meaning.specs.Objects as objects;
ghost use Rattle.c11_meaning.specs.Expressions as expressions;
ghost use Rattle.c11_meaning.specs.Library.{thread_of};
ghost use Rattle.c11_machine.specs.Effects.{IndexIs, flipped, zero_of};

use c11_ast::CastTo;
use c11_flat::Span;
use c11_num::{BinaryOp, CType, CValue, convert};

// Whether the value is 0.
pub(crate) fn is_zero(value: CValue) -> bool
    ensures { result ≡ objects.is_zero value }
{
    value.number() == 0
}

// The number as an `int`.
pub(crate) fn truth(holds: bool) -> CValue
    ensures { result ≡ operators.truth holds }
{
    CValue::new(CType::Int, i128::from(holds))
}

// What stands for the value of what has none.
pub(crate) fn nothing() -> CValue
    ensures { result ≡ objects.nothing }
{
    CValue::new(CType::Int, 0)
}

// The element with this index.
pub(crate) fn element_of(span: Span, index: CValue) -> Option<u32>
    ensures { IndexIs result span index.number }
{
    let number = index.number();
    if number >= 0 && number < i128::from(span.size()) {
        Some(span.base() + number as u32)
    } else {
        None
    }
}

// The value of a cast.
pub(crate) fn cast_to(to: CastTo, value: CValue) -> CValue
    ensures { result ≡ expressions.cast to value }
{
    match to {
        CastTo::Number(ctype) => convert(value, ctype),
        CastTo::Void => nothing(),
        CastTo::VoidPointer => convert(value, CType::Long),
    }
}

// The new value, or the old one.
pub(crate) fn kept_of(new: bool, value: CValue, old: CValue) -> CValue
    ensures { result ≡ objects.new_or_old new value old }
{
    if new { value } else { old }
}

// The operator of `++` or `--`.
pub(crate) fn step_op(up: bool) -> BinaryOp
    ensures { result ≡ objects.step_op up }
{
    if up { BinaryOp::Add } else { BinaryOp::Sub }
}

// 1 as an `int`.
pub(crate) fn one() -> CValue
    ensures { result ≡ objects.one }
{
    CValue::new(CType::Int, 1)
}

// 0 in this type.
pub(crate) fn zero_in(ctype: CType) -> CValue
    ensures { result ≡ zero_of ctype }
{
    match ctype {
        CType::Int => CValue::new(CType::Int, 0),
        CType::Unsigned => CValue::new(CType::Unsigned, 0),
        CType::Long => CValue::new(CType::Long, 0),
        CType::ULong => CValue::new(CType::ULong, 0),
    }
}

// The value with each bit the other way. Its number is -1 less the value's, which `long` holds for all but `unsigned long`.
pub(crate) fn flip(value: CValue) -> CValue
    ensures { result ≡ flipped value }
{
    let ctype = value.ctype();
    match ctype {
        CType::Int | CType::Unsigned | CType::Long => {
            convert(CValue::new(CType::Long, -1 - value.number()), ctype)
        }
        CType::ULong => convert(
            CValue::new(CType::ULong, i128::from(u64::MAX) - value.number()),
            ctype,
        ),
    }
}

// The number of the value as a `long`.
pub(crate) fn long_number(value: CValue) -> i64
    ensures { result ≡ (converted CType.Long value).number }
{
    convert(value, CType::Long).number() as i64
}

// The number of the value as an `int`.
pub(crate) fn int_number(value: CValue) -> i32
    ensures { result ≡ (converted CType.Int value).number }
{
    convert(value, CType::Int).number() as i32
}

// The thread whose number a handle holds.
pub(crate) fn thread_number(handle: CValue) -> u32
    ensures { result ≡ thread_of handle }
{
    convert(handle, CType::Unsigned).number() as u32
}
