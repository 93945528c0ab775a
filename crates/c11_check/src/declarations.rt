//! The faults of declarations, and the names that they bring.

ghost use Rattle.std.specs.Prelude.{◌≡◌, ◌+◌, nat_lt, if◌then◌else◌, None, Some};
ghost use Rattle.c11_check.specs.Programs.{keep};
ghost use Rattle.c11_check.specs.Faults as faults;
ghost use Rattle.c11_check.specs.Scopes as spec;
ghost use Rattle.c11_check.specs.Library as library;
ghost use Rattle.c11_check.specs.Statements as statements;

use crate::entity::Entity;
use crate::fault::{Fault, Rule};
use crate::first::found;
use crate::kinds::{is_define, is_misconstant};
use crate::library::{LibraryConstant, library_entity};
use crate::scopes::Scopes;
use c11_ast::{Constant, Known, Place, Word};
use c11_num::{CType, CValue, RmwKind, wrapping};

/// The atomic cells that a program may have.
pub(crate) const ATOMIC_LIMIT: u32 = 4096;
/// The plain cells that it may have.
pub(crate) const PLAIN_LIMIT: u32 = 65536;
/// The mutexes that it may have.
pub(crate) const MUTEX_LIMIT: u32 = 64;
/// The places of locals that a function may have.
pub(crate) const PLACE_LIMIT: u32 = 256;
/// More functions than a program of fewer than 2^32 items has.
pub(crate) const FUNCTION_LIMIT: u32 = u32::MAX;

// Zero in the type.
pub(crate) fn zero(ctype: CType) -> CValue
    ensures { result ≡ library.valued ctype 0 }
{
    match ctype {
        CType::Int => CValue::new(CType::Int, 0),
        CType::Unsigned => CValue::new(CType::Unsigned, 0),
        CType::Long => CValue::new(CType::Long, 0),
        CType::ULong => CValue::new(CType::ULong, 0),
    }
}

/// The value of a constant of the library.
pub fn constant_value(constant: LibraryConstant) -> CValue
    ensures { result ≡ library.constant_value constant }
{
    match constant {
        LibraryConstant::Success => CValue::new(CType::Int, 0),
        LibraryConstant::Busy => CValue::new(CType::Int, 1),
        LibraryConstant::Error => CValue::new(CType::Int, 2),
        LibraryConstant::PlainMutex => CValue::new(CType::Int, 0),
        LibraryConstant::Null => CValue::new(CType::Long, 0),
    }
}

// The value that what a name denotes has as a constant.
fn entity_value(entity: &Option<Entity>) -> Option<CValue>
    ensures { result ≡ spec.entity_value entity.now }
{
    match entity {
        Some(Entity::Defined(value)) => Some(*value),
        Some(Entity::Constant(constant)) => Some(constant_value(*constant)),
        _ => None,
    }
}

// The value with its sign.
fn signed_value(negative: bool, value: CValue) -> CValue
    ensures { result ≡ spec.signed_value negative value }
{
    if negative {
        wrapping(RmwKind::Sub, zero(value.ctype()), value)
    } else {
        value
    }
}

/// The value of the constant; none where its name has none.
pub fn value_of_constant(scopes: &Scopes, constant: &Constant) -> Option<CValue>
    ensures { result ≡ spec.value_of_constant scopes.now constant.now }
{
    let known = match &constant.value {
        Known::Literal(value) => Some(*value),
        Known::Named(word) => entity_value(&scopes.denoted(word.name.as_slice())),
    };
    match known {
        Some(value) => Some(signed_value(constant.negative, value)),
        None => None,
    }
}

// How many elements a size gives.
fn elements(value: Option<CValue>) -> u64
    ensures { result ≡ spec.elements value }
{
    match value {
        Some(value) => {
            let number = value.number();
            if number < 0 { 0 } else { number as u64 }
        }
        None => 0,
    }
}

/// The size of an array; none of a variable.
pub fn size_in(scopes: &Scopes, size: &Option<Constant>) -> Option<u64>
    ensures { result ≡ spec.size_in scopes.now size.now }
{
    match size {
        Some(constant) => Some(elements(value_of_constant(scopes, constant))),
        None => None,
    }
}

// The count with an object of this size; none where it would pass the limit.
fn fitting(limit: u32, count: u32, size: Option<u64>) -> Option<u32>
    ensures { result ≡ (if nat_lt limit (count + spec.taken size) then None else Some (count + spec.taken size)) }
{
    let taken = match size {
        Some(elements) => elements,
        None => 1,
    };
    match u64::from(count).checked_add(taken) {
        Some(sum) if sum <= u64::from(limit) => Some(sum as u32),
        _ => None,
    }
}

/// An object of this size passes the limit.
pub(crate) fn passes(limit: u32, count: u32, size: Option<u64>) -> bool
    ensures { result ≡ spec.passes limit count size }
{
    fitting(limit, count, size).is_none()
}

/// The size of an object that does not pass the limit; none of one that does.
pub(crate) fn fitting_size(limit: u32, count: u32, size: Option<u64>) -> Option<Option<u32>>
    ensures { result ≡ (if spec.passes limit count size then None else Some size) }
{
    match fitting(limit, count, size) {
        Some(sum) => match size {
            Some(_) => Some(Some(sum - count)),
            None => Some(None),
        },
        None => None,
    }
}

/// The count with an object of this size, if it does not pass the limit.
pub(crate) fn counted(limit: u32, count: u32, size: Option<u64>) -> u32
    ensures { result ≡ spec.counted limit count size }
{
    match fitting(limit, count, size) {
        Some(sum) => sum,
        None => count,
    }
}

// The name may not be declared here.
fn is_taken(scopes: &Scopes, name: &[u8]) -> bool
    ensures { result ≡ faults.is_taken scopes.now name.now }
{
    scopes.is_declared_here(name)
        || library_entity(name).is_some()
        || is_define(&scopes.denoted(name))
}

/// The first fault, also of a name that is declared here and may not be.
pub(crate) fn twice(scopes: &Scopes, first: Option<Fault>, word: &Word) -> Option<Fault>
    ensures { result ≡ keep first (faults.twice scopes.now word.now) }
{
    let taken = is_taken(scopes, word.name.as_slice());
    found(first, taken, Rule::Twice, word.spot)
}

/// The first fault, also of the name of a constant.
#[tactic(auto, using(crate::proofs::Keeps::keep_append))]
pub(crate) fn misconstant(scopes: &Scopes, first: Option<Fault>, known: &Known) -> Option<Fault>
    ensures { result ≡ keep first (faults.misconstant scopes.now known.now) }
{
    match known {
        Known::Literal(_) => first,
        Known::Named(word) => {
            let entity = scopes.denoted(word.name.as_slice());
            let first = found(first, entity.is_none(), Rule::Unknown, word.spot);
            found(first, is_misconstant(&entity), Rule::Kind, word.spot)
        }
    }
}

/// The first fault, also of the size of an array.
pub(crate) fn size_faults(
    scopes: &Scopes,
    first: Option<Fault>,
    size: &Option<Constant>,
) -> Option<Fault>
    ensures { result ≡ keep first (statements.size_faults scopes.now size.now) }
{
    match size {
        Some(size) => misconstant(scopes, first, &size.value),
        None => first,
    }
}

// A size is none that arrays have, or there are more starts.
fn is_missized(value: Option<CValue>, starts: usize) -> bool
    ensures { result ≡ faults.is_missized value starts }
{
    if value.is_none() {
        return false;
    }
    let size = elements(value);
    size == 0 || size > 65536 || size < starts as u64
}

/// The first fault, also of an array of this size with so many starts.
pub(crate) fn missized(
    scopes: &Scopes,
    first: Option<Fault>,
    place: &Place,
    starts: usize,
) -> Option<Fault>
    ensures { result ≡ keep first (faults.missized scopes.now place.now starts) }
{
    let value = match &place.size {
        Some(size) => value_of_constant(scopes, size),
        None => None,
    };
    found(
        first,
        is_missized(value, starts),
        Rule::Size,
        place.word.spot,
    )
}

/// The first fault, also of an object of this size that passes the limit.
pub(crate) fn too_many(
    first: Option<Fault>,
    limit: u32,
    count: u32,
    size: Option<u64>,
    word: &Word,
) -> Option<Fault>
    ensures { result ≡ keep first (faults.too_many limit count size word.now) }
{
    found(first, passes(limit, count, size), Rule::TooMany, word.spot)
}
