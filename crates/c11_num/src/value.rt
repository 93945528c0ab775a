ghost use Rattle.std.specs.Prelude.{◌≡◌, ◌↔◌, IsTrue};
ghost use Rattle.c11_num.specs.Ranges.{IsInRange};

use std::marker::Model;

/// An integer type of the tested programs (ISO/IEC 9899:2011, 6.2.5).
#[derive(Clone, Copy, Debug, PartialEq, Eq)]
pub enum CType {
    /// `int`: 32 bits, signed.
    Int,
    /// `unsigned`: 32 bits.
    Unsigned,
    /// `long`: 64 bits, signed.
    Long,
    /// `unsigned long`: 64 bits.
    ULong,
}

/// A value of an integer type. Contracts see the type and the number.
#[derive(Clone, Copy, Debug, PartialEq, Eq)]
pub struct CValue {
    ctype: CType,
    number: i128,
}

impl Model for CValue {
    ghost use Rattle.c11_num.specs.Ranges.{TypedNumber, IsInRange};

    ghost Value = { TypedNumber };

    ghost view = { λ v. record { ctype = v.ctype; number = v.number } };

    ghost invariant = { λ v. IsInRange v.ctype v.number };

    ghost inverse = { λ t. record { ctype = t.ctype; number = t.number } };
}

impl CValue {
    /// The value of this type with this number, which is in the type's range.
    pub fn new(ctype: CType, number: i128) -> CValue
        requires { IsInRange ctype number }
        ensures ctype { result.ctype ≡ ctype }
        ensures number { result.number ≡ number }
    {
        CValue { ctype, number }
    }

    /// The value's type.
    pub fn ctype(&self) -> CType
        ensures { result ≡ self.now.ctype }
    {
        self.ctype
    }

    /// The value's number, which is in the range of its type.
    pub fn number(&self) -> i128
        ensures number { result ≡ self.now.number }
        ensures in_range { IsInRange self.now.ctype self.now.number }
    {
        self.number
    }
}

/// Whether the type holds the number.
pub fn in_range(ctype: CType, number: i128) -> bool
    ensures { IsTrue result ↔ IsInRange ctype number }
{
    let (least, most) = match ctype {
        CType::Int => (i128::from(i32::MIN), i128::from(i32::MAX)),
        CType::Unsigned => (0, i128::from(u32::MAX)),
        CType::Long => (i128::from(i64::MIN), i128::from(i64::MAX)),
        CType::ULong => (0, i128::from(u64::MAX)),
    };
    least <= number && number <= most
}
