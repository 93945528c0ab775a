use crate::BinaryOp::{Add, And, Div, Eq, Ge, Gt, Le, Lt, Mul, Ne, Or, Rem, Shl, Shr, Sub, Xor};
use crate::CType::{Int, Long, ULong, Unsigned};
use crate::NumFault::{Divide, Overflow, Shift};
use crate::{
    BinaryOp, Bytes, CType, CValue, Name, NoMemory, NumFault, RmwKind, binary, convert, in_range,
    negate, usual, wrapping,
};
use std::alloc::AllocError;
use std::test::Fail;

#[test]
fn each_type_holds_its_ends_and_nothing_past_them(rt: HostRuntime) {
    let ends: [(CType, i128, i128); 4] = [
        (CType::Int, -2_147_483_648, 2_147_483_647),
        (CType::Unsigned, 0, 4_294_967_295),
        (
            CType::Long,
            -9_223_372_036_854_775_808,
            9_223_372_036_854_775_807,
        ),
        (CType::ULong, 0, 18_446_744_073_709_551_615),
    ];
    for (ctype, least, most) in ends {
        assert!(rt; in_range(ctype, least), "{ctype:?}");
        assert!(rt; in_range(ctype, most), "{ctype:?}");
        let below = least.wrapping_sub(1);
        assert!(rt; !in_range(ctype, below), "{ctype:?}");
        let above = most.wrapping_add(1);
        assert!(rt; !in_range(ctype, above), "{ctype:?}");
    }
    let value = CValue::new(CType::Int, -5);
    assert!(rt; value.ctype() == CType::Int);
    assert_eq!(rt; value.number(), -5);
    assert!(rt; value != CValue::new(CType::Long, -5));
}

#[test]
fn read_modify_writes_and_conversions_wrap(rt: HostRuntime) {
    let least_long = -9_223_372_036_854_775_808;
    let most_long = 9_223_372_036_854_775_807;
    let most_ulong = 18_446_744_073_709_551_615;
    let rows: [(RmwKind, CType, i128, i128, i128); 12] = [
        (RmwKind::Exchange, CType::Long, 1, -5, -5),
        (RmwKind::Add, CType::Int, 2_147_483_647, 1, -2_147_483_648),
        (RmwKind::Add, CType::Unsigned, 4_294_967_295, 3, 2),
        (RmwKind::Add, CType::Long, most_long, 1, least_long),
        (
            RmwKind::Add,
            CType::ULong,
            most_ulong,
            most_ulong,
            18_446_744_073_709_551_614,
        ),
        (RmwKind::Sub, CType::Int, -2_147_483_648, 1, 2_147_483_647),
        (RmwKind::Sub, CType::Unsigned, 0, 1, 4_294_967_295),
        (RmwKind::Sub, CType::Long, 5, 7, -2),
        (RmwKind::Sub, CType::ULong, 0, 1, most_ulong),
        (RmwKind::And, CType::Int, -4, 6, 4),
        (RmwKind::Or, CType::Int, -8, 5, -3),
        (RmwKind::Xor, CType::Long, -1, 5, -6),
    ];
    for (kind, ctype, old, operand, new) in rows {
        assert!(rt; in_range(ctype, old) && in_range(ctype, operand));
        let value = wrapping(kind, CValue::new(ctype, old), CValue::new(ctype, operand));
        assert!(rt; value.ctype() == ctype);
        assert_eq!(rt; value.number(), new, "{kind:?} {old} {operand}");
    }
    let conversions: [(CType, i128, CType, i128); 4] = [
        (CType::Long, 4_294_967_295, CType::Int, -1),
        (CType::Int, -1, CType::Unsigned, 4_294_967_295),
        (CType::Int, -1, CType::ULong, most_ulong),
        (CType::ULong, most_ulong, CType::Long, -1),
    ];
    for (from, number, to, new) in conversions {
        assert!(rt; in_range(from, number));
        let value = convert(CValue::new(from, number), to);
        assert!(rt; value.ctype() == to);
        assert_eq!(rt; value.number(), new, "{number}");
    }
}

#[test]
fn minus_overflows_where_its_type_is_signed(rt: HostRuntime) {
    let least_long = -9_223_372_036_854_775_808;
    let rows: [(CType, i128, Option<i128>); 6] = [
        (CType::Int, 5, Some(-5)),
        (CType::Int, -2_147_483_648, None),
        (CType::Unsigned, 1, Some(4_294_967_295)),
        (CType::Unsigned, 0, Some(0)),
        (CType::Long, least_long, None),
        (CType::ULong, 2, Some(18_446_744_073_709_551_614)),
    ];
    for (ctype, number, minus) in rows {
        assert!(rt; in_range(ctype, number));
        match negate(CValue::new(ctype, number)) {
            Ok(value) => assert!(rt; value.ctype() == ctype && Some(value.number()) == minus),
            Err(fault) => assert!(rt; fault == NumFault::Overflow && minus.is_none()),
        }
    }
    assert!(rt; usual(CType::Unsigned, CType::Int) == CType::Unsigned);
    assert!(rt; usual(CType::Unsigned, CType::Long) == CType::Long);
    assert!(rt; usual(CType::ULong, CType::Long) == CType::ULong);
}

const INT_MIN: i128 = -2_147_483_648;

const INT_MAX: i128 = 2_147_483_647;

const UINT_MAX: i128 = 4_294_967_295;

const LONG_MIN: i128 = -9_223_372_036_854_775_808;

const LONG_MAX: i128 = 9_223_372_036_854_775_807;

const ULONG_MAX: i128 = 18_446_744_073_709_551_615;

/// A value, or none where the type does not hold the number.
fn value((ctype, number): (CType, i128)) -> Option<CValue> {
    if in_range(ctype, number) {
        Some(CValue::new(ctype, number))
    } else {
        None
    }
}

fn gives(op: BinaryOp, a: (CType, i128), b: (CType, i128), known: (CType, i128)) -> bool {
    match (value(a), value(b), value(known)) {
        (Some(left), Some(right), Some(known)) => binary(op, left, right) == Ok(known),
        _ => false,
    }
}

fn refuses(op: BinaryOp, a: (CType, i128), b: (CType, i128), fault: NumFault) -> bool {
    match (value(a), value(b)) {
        (Some(left), Some(right)) => binary(op, left, right) == Err(fault),
        _ => false,
    }
}

// The tables of operators have the results of a C compiler, but for remainders by -1, which are the exact ones.
#[test]
fn products_are_those_of_the_common_type(rt: HostRuntime) {
    let rows: [(BinaryOp, (CType, i128), (CType, i128), (CType, i128)); 7] = [
        (Mul, (Int, 46_340), (Int, 46_340), (Int, 2_147_395_600)),
        (Mul, (Int, -65_536), (Int, 32_768), (Int, INT_MIN)),
        (Mul, (Unsigned, 65_536), (Unsigned, 65_536), (Unsigned, 0)),
        (Mul, (Unsigned, UINT_MAX), (Int, -1), (Unsigned, 1)),
        (
            Mul,
            (Int, -1),
            (Long, LONG_MAX),
            (Long, -9_223_372_036_854_775_807),
        ),
        (
            Mul,
            (Long, 3_037_000_499),
            (Long, 3_037_000_499),
            (Long, 9_223_372_030_926_249_001),
        ),
        (Mul, (ULong, ULONG_MAX), (ULong, ULONG_MAX), (ULong, 1)),
    ];
    for (op, a, b, known) in rows {
        assert!(rt; gives(op, a, b, known), "{op:?} {a:?} {b:?}");
    }
}

#[test]
fn quotients_round_toward_zero(rt: HostRuntime) {
    let rows: [(BinaryOp, (CType, i128), (CType, i128), (CType, i128)); 11] = [
        (Div, (Int, -7), (Int, 2), (Int, -3)),
        (Div, (Int, 7), (Int, -2), (Int, -3)),
        (Div, (Int, -1), (Unsigned, 2), (Unsigned, INT_MAX)),
        (Div, (Int, INT_MIN), (Long, -1), (Long, 2_147_483_648)),
        (
            Div,
            (Long, LONG_MIN),
            (Int, 2),
            (Long, -4_611_686_018_427_387_904),
        ),
        (Div, (ULong, ULONG_MAX), (Int, -1), (ULong, 1)),
        (Rem, (Int, -7), (Int, 2), (Int, -1)),
        (Rem, (Int, 7), (Int, -2), (Int, 1)),
        (Rem, (Int, INT_MIN), (Int, -1), (Int, 0)),
        (Rem, (Long, LONG_MIN), (Int, -1), (Long, 0)),
        (Rem, (ULong, ULONG_MAX), (Unsigned, 10), (ULong, 5)),
    ];
    for (op, a, b, known) in rows {
        assert!(rt; gives(op, a, b, known), "{op:?} {a:?} {b:?}");
    }
}

#[test]
fn sums_are_those_of_the_common_type(rt: HostRuntime) {
    let rows: [(BinaryOp, (CType, i128), (CType, i128), (CType, i128)); 9] = [
        (Add, (Int, -1), (Unsigned, 0), (Unsigned, UINT_MAX)),
        (Add, (Unsigned, UINT_MAX), (Int, 1), (Unsigned, 0)),
        (Add, (Unsigned, UINT_MAX), (Long, 1), (Long, 4_294_967_296)),
        (Add, (Int, INT_MAX), (Long, 1), (Long, 2_147_483_648)),
        (
            Add,
            (ULong, ULONG_MAX),
            (ULong, ULONG_MAX),
            (ULong, 18_446_744_073_709_551_614),
        ),
        (Sub, (Int, -1), (Int, INT_MAX), (Int, INT_MIN)),
        (Sub, (Unsigned, 0), (Unsigned, 1), (Unsigned, UINT_MAX)),
        (Sub, (Long, LONG_MIN), (Long, LONG_MIN), (Long, 0)),
        (Sub, (ULong, 0), (Int, 1), (ULong, ULONG_MAX)),
    ];
    for (op, a, b, known) in rows {
        assert!(rt; gives(op, a, b, known), "{op:?} {a:?} {b:?}");
    }
}

#[test]
fn shifts_have_the_type_of_the_left_operand(rt: HostRuntime) {
    let rows: [(BinaryOp, (CType, i128), (CType, i128), (CType, i128)); 12] = [
        (Shl, (Int, 1), (Int, 30), (Int, 1_073_741_824)),
        (Shl, (Int, 3), (ULong, 29), (Int, 1_610_612_736)),
        (Shl, (Unsigned, 1), (Int, 31), (Unsigned, 2_147_483_648)),
        (
            Shl,
            (Unsigned, UINT_MAX),
            (Long, 4),
            (Unsigned, 4_294_967_280),
        ),
        (
            Shl,
            (Long, 1),
            (Unsigned, 62),
            (Long, 4_611_686_018_427_387_904),
        ),
        (
            Shl,
            (ULong, ULONG_MAX),
            (Int, 63),
            (ULong, 9_223_372_036_854_775_808),
        ),
        (Shl, (Int, 0), (Int, 31), (Int, 0)),
        (Shr, (Int, -5), (Int, 1), (Int, -3)),
        (Shr, (Int, INT_MIN), (Long, 31), (Int, -1)),
        (Shr, (Unsigned, UINT_MAX), (Int, 31), (Unsigned, 1)),
        (Shr, (Long, LONG_MIN), (Int, 63), (Long, -1)),
        (Shr, (ULong, ULONG_MAX), (Int, 63), (ULong, 1)),
    ];
    for (op, a, b, known) in rows {
        assert!(rt; gives(op, a, b, known), "{op:?} {a:?} {b:?}");
    }
}

#[test]
fn comparisons_are_made_in_the_common_type(rt: HostRuntime) {
    let rows: [(BinaryOp, (CType, i128), (CType, i128), (CType, i128)); 13] = [
        (Lt, (Int, -1), (Int, 0), (Int, 1)),
        (Lt, (Int, -1), (Unsigned, 0), (Int, 0)),
        (Lt, (Int, -1), (Long, 0), (Int, 1)),
        (Gt, (Int, -1), (Unsigned, 1), (Int, 1)),
        (Gt, (Unsigned, UINT_MAX), (Long, LONG_MAX), (Int, 0)),
        (Le, (Long, LONG_MIN), (Int, INT_MIN), (Int, 1)),
        (Le, (Unsigned, 1), (Int, 1), (Int, 1)),
        (Ge, (ULong, 0), (Int, -1), (Int, 0)),
        (Ge, (Int, INT_MAX), (Int, INT_MIN), (Int, 1)),
        (Eq, (Int, -1), (Unsigned, UINT_MAX), (Int, 1)),
        (Eq, (Int, -1), (Long, UINT_MAX), (Int, 0)),
        (Ne, (Int, -1), (ULong, ULONG_MAX), (Int, 0)),
        (Ne, (Int, 0), (Long, 4_294_967_296), (Int, 1)),
    ];
    for (op, a, b, known) in rows {
        assert!(rt; gives(op, a, b, known), "{op:?} {a:?} {b:?}");
    }
}

#[test]
fn bits_are_those_of_the_common_type(rt: HostRuntime) {
    let rows: [(BinaryOp, (CType, i128), (CType, i128), (CType, i128)); 7] = [
        (And, (Int, -4), (Int, 6), (Int, 4)),
        (And, (Int, -1), (Unsigned, 5), (Unsigned, 5)),
        (And, (Int, -1), (Long, LONG_MAX), (Long, LONG_MAX)),
        (Xor, (Int, -1), (Int, INT_MAX), (Int, INT_MIN)),
        (Xor, (Long, -1), (Int, 5), (Long, -6)),
        (Or, (Int, INT_MIN), (Int, 1), (Int, -2_147_483_647)),
        (
            Or,
            (Int, -8),
            (ULong, 5),
            (ULong, 18_446_744_073_709_551_613),
        ),
    ];
    for (op, a, b, known) in rows {
        assert!(rt; gives(op, a, b, known), "{op:?} {a:?} {b:?}");
    }
}

#[test]
fn arithmetic_without_a_result_is_refused(rt: HostRuntime) {
    let rows: [(BinaryOp, (CType, i128), (CType, i128), NumFault); 15] = [
        (Mul, (Int, 46_341), (Int, 46_341), Overflow),
        (Mul, (Int, INT_MIN), (Int, -1), Overflow),
        (Mul, (Long, 3_037_000_500), (Long, 3_037_000_500), Overflow),
        (Mul, (Long, LONG_MIN), (Long, LONG_MIN), Overflow),
        (Div, (Int, INT_MIN), (Int, -1), Overflow),
        (Div, (Long, LONG_MIN), (Int, -1), Overflow),
        (Div, (Int, INT_MIN), (Int, 0), Divide),
        (Div, (ULong, 1), (Int, 0), Divide),
        (Rem, (Long, 5), (Int, 0), Divide),
        (Rem, (Unsigned, 0), (Unsigned, 0), Divide),
        (Add, (Int, INT_MAX), (Int, 1), Overflow),
        (Add, (Int, INT_MIN), (Int, -1), Overflow),
        (Add, (Long, LONG_MAX), (Unsigned, 1), Overflow),
        (Sub, (Int, 0), (Int, INT_MIN), Overflow),
        (Sub, (Long, LONG_MIN), (Int, 1), Overflow),
    ];
    for (op, a, b, fault) in rows {
        assert!(rt; refuses(op, a, b, fault), "{op:?} {a:?} {b:?}");
    }
}

#[test]
fn shifts_without_a_result_are_refused(rt: HostRuntime) {
    let rows: [(BinaryOp, (CType, i128), (CType, i128), NumFault); 11] = [
        (Shl, (Int, 1), (Int, 31), Overflow),
        (Shl, (Int, -1), (Int, 0), Overflow),
        (Shl, (Int, -1), (Int, 32), Shift),
        (Shl, (Int, 1), (Long, 32), Shift),
        (Shl, (Long, 1), (Int, 63), Overflow),
        (Shl, (Long, 1), (Int, 64), Shift),
        (Shl, (Unsigned, 1), (Int, -1), Shift),
        (Shl, (ULong, 1), (Int, 64), Shift),
        (Shr, (Int, 1), (Int, 32), Shift),
        (Shr, (Long, -1), (Long, LONG_MIN), Shift),
        (Shr, (Unsigned, 1), (ULong, ULONG_MAX), Shift),
    ];
    for (op, a, b, fault) in rows {
        assert!(rt; refuses(op, a, b, fault), "{op:?} {a:?} {b:?}");
    }
}

#[test]
fn texts_give_back_what_they_were_made_of(rt: HostRuntime) -> Result<(), Fail> {
    let bytes = Bytes::new(Vec::from_slice(rt.alloc(), &[0, 255, 10])?);
    assert_eq!(rt; bytes.copy()?.as_slice(), [0, 255, 10].as_slice());
    let name = Name::new(Vec::from_slice(rt.alloc(), b"head")?);
    assert_eq!(rt; name.copy()?.as_slice(), b"head".as_slice());
    assert!(rt; NoMemory::from(AllocError) == NoMemory);
    Ok(())
}

// The values are those of a C compiler: atomic_fetch_add and its kin on an atomic object of the old value's type, with an argument
// of the operand's.
#[test]
fn an_operand_of_another_type_counts_as_if_converted(rt: HostRuntime) {
    let rows: [(RmwKind, (CType, i128), (CType, i128), i128); 6] = [
        (RmwKind::Exchange, (Int, 1), (Long, 4_294_967_301), 5),
        (RmwKind::Add, (Int, 1), (Long, 4_294_967_297), 2),
        (RmwKind::Sub, (ULong, 0), (Unsigned, 1), ULONG_MAX),
        (RmwKind::And, (Long, -1), (Unsigned, UINT_MAX), UINT_MAX),
        (RmwKind::Or, (ULong, 0), (Int, -1), ULONG_MAX),
        (RmwKind::Xor, (Unsigned, 0), (Long, -1), UINT_MAX),
    ];
    for (kind, old, operand, new) in rows {
        match (value(old), value(operand)) {
            (Some(old), Some(operand)) => {
                let made = wrapping(kind, old, operand);
                assert!(rt; made.ctype() == old.ctype(), "{kind:?}");
                assert_eq!(rt; made.number(), new, "{kind:?}");
            }
            _ => assert!(rt; false, "{kind:?}"),
        }
    }
    let conversions: [((CType, i128), CType, i128); 4] = [
        ((Long, 4_294_967_301), Unsigned, 5),
        ((Unsigned, 2_147_483_648), Int, INT_MIN),
        ((Long, INT_MIN), Unsigned, 2_147_483_648),
        ((ULong, 9_223_372_036_854_775_808), Long, LONG_MIN),
    ];
    for (from, to, new) in conversions {
        match value(from) {
            Some(old) => {
                let made = convert(old, to);
                assert!(rt; made.ctype() == to && made.number() == new, "{from:?}");
            }
            None => assert!(rt; false, "{from:?}"),
        }
    }
}
