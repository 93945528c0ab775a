//! Whether what a name denotes may stand where the name stands.

ghost use Rattle.std.specs.Prelude.{◌≡◌, ◌&&◌, is_some};
ghost use Rattle.c11_num.specs.declared.value.CType.TheVariants.{Int};
ghost use Rattle.c11_check.specs.Faults as spec;
ghost use Rattle.c11_check.specs.Expressions as expressions;
ghost use Rattle.c11_check.specs.Types.{call_type};

use crate::entity::{Entity, Signature};
use crate::library::{Library, LibraryConstant, Want};
use c11_num::{BinaryOp, CType, CValue};

pub(crate) fn is_define(entity: &Option<Entity>) -> bool
    ensures { result ≡ spec.is_define entity.now }
{
    matches!(entity, Some(Entity::Defined(_)))
}

fn is_array(entity: &Entity) -> bool
    ensures { result ≡ spec.is_array entity.now }
{
    match entity {
        Entity::Local { size, .. }
        | Entity::Handle { size, .. }
        | Entity::Atomic { size, .. }
        | Entity::Plain { size, .. }
        | Entity::Mutex { size, .. } => size.is_some(),
        _ => false,
    }
}

/// An array stands without an index, or an index on no array.
pub(crate) fn is_misindexed(entity: &Option<Entity>, indexed: bool) -> bool
    ensures { result ≡ spec.is_misindexed entity.now indexed }
{
    match entity {
        Some(entity) => is_array(entity) != indexed,
        None => false,
    }
}

/// What is read has no value.
pub(crate) fn is_misread(entity: &Option<Entity>) -> bool
    ensures { result ≡ spec.is_misread entity.now }
{
    match entity {
        Some(
            Entity::Handle { .. }
            | Entity::Mutex { .. }
            | Entity::Function { .. }
            | Entity::Library(_)
            | Entity::Order(_),
        ) => true,
        _ => false,
    }
}

/// What is assigned or stepped is no variable.
pub(crate) fn is_misassigned(entity: &Option<Entity>) -> bool
    ensures { result ≡ spec.is_misassigned entity.now }
{
    match entity {
        None | Some(Entity::Local { .. } | Entity::Atomic { .. } | Entity::Plain { .. }) => false,
        Some(_) => true,
    }
}

/// What is called is no function.
pub(crate) fn is_miscalled(entity: &Option<Entity>) -> bool
    ensures { result ≡ spec.is_miscalled entity.now }
{
    match entity {
        None | Some(Entity::Function { .. } | Entity::Library(_)) => false,
        Some(_) => true,
    }
}

fn is_int(ctype: CType) -> bool
    ensures { result ≡ spec.is_int ctype }
{
    matches!(ctype, CType::Int)
}

pub(crate) fn answers_int(answers: Option<CType>) -> bool
    ensures { result ≡ spec.answers_int answers }
{
    match answers {
        Some(ctype) => is_int(ctype),
        None => false,
    }
}

fn is_object_for(want: Want, entity: &Entity) -> bool
    ensures { result ≡ spec.is_object_for want entity.now }
{
    match (want, entity) {
        (Want::Atomic, Entity::Atomic { .. }) => true,
        (Want::Expected, Entity::Local { .. }) => true,
        (Want::Mutex, Entity::Mutex { .. }) => true,
        (Want::NewHandle, Entity::Handle { .. }) => true,
        (Want::Answer, Entity::Local { ctype, .. }) => is_int(*ctype),
        _ => false,
    }
}

pub(crate) fn takes_address(want: Want) -> bool
    ensures { result ≡ spec.takes_address want }
{
    match want {
        Want::Atomic | Want::Expected | Want::Mutex | Want::NewHandle | Want::Answer => true,
        _ => false,
    }
}

/// Another object is wanted behind the `&`.
pub(crate) fn is_wrong_object(want: Want, entity: &Option<Entity>) -> bool
    ensures { result ≡ spec.is_wrong_object want entity.now }
{
    match entity {
        Some(entity) => takes_address(want) && !is_object_for(want, entity),
        None => false,
    }
}

fn is_thread_function(signature: Signature) -> bool
    ensures { result ≡ spec.is_thread_function signature }
{
    answers_int(signature.answers) && signature.pointer
}

/// No thread can run the function.
pub(crate) fn is_misthreaded(entity: &Option<Entity>) -> bool
    ensures { result ≡ spec.is_misthreaded entity.now }
{
    match entity {
        Some(Entity::Function { signature, .. }) => !is_thread_function(*signature),
        _ => false,
    }
}

pub(crate) fn is_handle(entity: &Option<Entity>) -> bool
    ensures { result ≡ spec.is_handle entity.now }
{
    matches!(entity, Some(Entity::Handle { .. }))
}

pub(crate) fn is_function(entity: &Option<Entity>) -> bool
    ensures { result ≡ spec.is_function entity.now }
{
    matches!(entity, Some(Entity::Function { .. }))
}

pub(crate) fn is_mutex_kind(entity: &Option<Entity>) -> bool
    ensures { result ≡ spec.is_mutex_kind entity.now }
{
    matches!(entity, Some(Entity::Constant(LibraryConstant::PlainMutex)))
}

pub(crate) fn is_null(entity: &Option<Entity>) -> bool
    ensures { result ≡ spec.is_null entity.now }
{
    matches!(entity, Some(Entity::Constant(LibraryConstant::Null)))
}

pub(crate) fn is_zero(value: CValue) -> bool
    ensures { result ≡ spec.is_zero value }
{
    is_int(value.ctype()) && value.number() == 0
}

/// A constant is a name without a value.
pub(crate) fn is_misconstant(entity: &Option<Entity>) -> bool
    ensures { result ≡ spec.is_misconstant entity.now }
{
    match entity {
        None | Some(Entity::Defined(_) | Entity::Constant(_)) => false,
        Some(_) => true,
    }
}

pub(crate) fn is_print(entity: &Option<Entity>) -> bool
    ensures { result ≡ spec.is_print entity.now }
{
    matches!(entity, Some(Entity::Library(Library::Print)))
}

// How many arguments a call takes; none where it may be any number, or where nothing can be called.
fn wanted_count(entity: &Option<Entity>) -> Option<usize>
    ensures { result ≡ spec.wanted_count entity.now }
{
    match entity {
        Some(Entity::Function { signature, .. }) => Some(signature.params),
        Some(Entity::Library(Library::Print)) => None,
        Some(Entity::Library(library)) => Some(library.wants().len()),
        _ => None,
    }
}

/// A call has the wrong number of arguments.
pub(crate) fn is_miscounted(entity: &Option<Entity>, count: usize) -> bool
    ensures { result ≡ spec.differs (spec.wanted_count entity.now) count }
{
    match wanted_count(entity) {
        Some(wanted) => wanted != count,
        None => false,
    }
}

/// So many values follow a text that asks for these.
pub(crate) fn fits(values: Option<usize>, count: usize) -> bool
    ensures { result ≡ spec.fits values count }
{
    match values {
        Some(values) => values == count && count < 9,
        None => false,
    }
}

/// What a call wants behind its name: a function of the program wants values.
pub(crate) fn wants_in_call(entity: &Option<Entity>) -> &'static [Want]
    ensures { result.now ≡ expressions.wants_in_call entity.now }
{
    match entity {
        Some(Entity::Library(library)) => library.wants(),
        _ => &[],
    }
}

/// A call of what the name denotes has a value.
pub(crate) fn has_value(entity: &Option<Entity>) -> bool
    ensures { result ≡ is_some (call_type entity.now Int) }
{
    match entity {
        Some(Entity::Function { signature, .. }) => signature.answers.is_some(),
        Some(Entity::Library(library)) => library.has_value(),
        _ => true,
    }
}

fn is_atomic(entity: &Option<Entity>) -> bool
    ensures { result ≡ spec.is_atomic entity.now }
{
    matches!(entity, Some(Entity::Atomic { .. }))
}

/// The operator cannot be computed on an atomic object.
fn is_not_atomic(op: Option<BinaryOp>) -> bool
    ensures { result ≡ spec.is_not_atomic op }
{
    match op {
        Some(BinaryOp::Mul | BinaryOp::Div | BinaryOp::Rem | BinaryOp::Shl | BinaryOp::Shr) => true,
        _ => false,
    }
}

/// The operator is made on an atomic object, and cannot be computed there.
pub(crate) fn is_miscomputed(entity: &Option<Entity>, op: Option<BinaryOp>) -> bool
    ensures { result ≡ (spec.is_atomic entity.now && spec.is_not_atomic op) }
{
    is_atomic(entity) && is_not_atomic(op)
}

pub(crate) fn differ(a: CType, b: CType) -> bool
    ensures { result ≡ spec.differ a b }
{
    a != b
}
