//! Whether an argument is what is wanted in its place.

ghost use Rattle.std.specs.Prelude.{◌≡◌};
ghost use Rattle.c11_check.specs.Faults as spec;
ghost use Rattle.c11_check.specs.Expressions as expressions;
ghost use Rattle.c11_check.specs.Programs.{keep};

use crate::entity::Entity;
use crate::fault::{Fault, Rule};
use crate::first::found;
use crate::form::Form;
use crate::kinds::{
    differ, is_function, is_handle, is_misthreaded, is_mutex_kind, is_null, is_wrong_object,
    is_zero, takes_address,
};
use crate::library::Want;
use c11_ast::Spot;
use c11_events::{failure_allowed, order_allowed};

pub(crate) fn first_token(form: &Form) -> Spot
    ensures { result ≡ spec.first_token form.now }
{
    match form {
        Form::Address { spot, .. }
        | Form::Text { spot, .. }
        | Form::Named { spot, .. }
        | Form::Element { spot, .. }
        | Form::Literal { spot, .. }
        | Form::Other { spot } => *spot,
    }
}

/// The argument has a form that is wanted.
pub(crate) fn has_form(want: Want, form: &Form) -> bool
    ensures { result ≡ spec.has_form want form.now }
{
    match want {
        Want::Value | Want::Format | Want::Order(_) | Want::FailureOrder => true,
        Want::Handle => match form {
            Form::Named { entity, .. } | Form::Element { entity, .. } => is_handle(entity),
            _ => false,
        },
        Want::ThreadFunction => match form {
            Form::Named { entity, .. } => is_function(entity),
            _ => false,
        },
        Want::MutexKind => match form {
            Form::Named { entity, .. } => is_mutex_kind(entity),
            _ => false,
        },
        Want::Answer => match form {
            Form::Address { .. } => true,
            Form::Named { entity, .. } => is_null(entity),
            Form::Literal { value, .. } => is_zero(*value),
            _ => false,
        },
        Want::Atomic | Want::Expected | Want::Mutex | Want::NewHandle => {
            matches!(form, Form::Address { .. })
        }
    }
}

/// A text or an `&` stands where neither is wanted.
pub(crate) fn is_stray(want: Want, form: &Form) -> bool
    ensures { result ≡ spec.is_stray want form.now }
{
    match form {
        Form::Address { .. } => !takes_address(want),
        Form::Text { .. } => !matches!(want, Want::Format),
        _ => false,
    }
}

/// Where a memory order is wanted there is one, and it is allowed.
pub(crate) fn has_order(want: Want, form: &Form) -> bool
    ensures { result ≡ spec.has_order want form.now }
{
    match (want, form) {
        (
            Want::Order(operation),
            Form::Named {
                entity: Some(Entity::Order(order)),
                ..
            },
        ) => order_allowed(operation, *order),
        (
            Want::FailureOrder,
            Form::Named {
                entity: Some(Entity::Order(_)),
                ..
            },
        ) => true,
        (Want::Order(_) | Want::FailureOrder, _) => false,
        _ => true,
    }
}

fn is_order(entity: &Option<Entity>) -> bool
    ensures { result ≡ expressions.is_order entity.now }
{
    matches!(entity, Some(Entity::Order(_)))
}

/// The argument is a handle, a function or a memory order, and is wanted as that.
pub(crate) fn is_asked_for(want: Want, form: &Form) -> bool
    ensures { result ≡ expressions.is_asked_for want form.now }
{
    match (want, form) {
        (Want::Handle, Form::Named { entity, .. } | Form::Element { entity, .. }) => {
            is_handle(entity)
        }
        (Want::ThreadFunction, Form::Named { entity, .. }) => is_function(entity),
        (Want::Order(_) | Want::FailureOrder, Form::Named { entity, .. }) => is_order(entity),
        _ => false,
    }
}

/// The second order is not allowed for the failure of a compare-exchange that has the first for its success.
pub(crate) fn is_misfailed(success: &Form, failure: &Form) -> bool
    ensures { result ≡ spec.is_misfailed success.now failure.now }
{
    match (success, failure) {
        (
            Form::Named {
                entity: Some(Entity::Order(success)),
                ..
            },
            Form::Named {
                entity: Some(Entity::Order(failure)),
                ..
            },
        ) => !failure_allowed(*success, *failure),
        _ => false,
    }
}

/// The local with the expected value has another type than the atomic object.
pub(crate) fn is_misexpected(object: &Form, expected: &Form) -> bool
    ensures { result ≡ spec.is_misexpected object.now expected.now }
{
    match (object, expected) {
        (
            Form::Address {
                entity: Some(Entity::Atomic { ctype, .. }),
                ..
            },
            Form::Address {
                entity: Some(Entity::Local { ctype: local, .. }),
                ..
            },
        ) => differ(*ctype, *local),
        _ => false,
    }
}

/// The first fault, also of the wrong object behind an `&`.
pub(crate) fn misaddressed(first: Option<Fault>, want: Want, form: &Form) -> Option<Fault>
    ensures { result ≡ keep first (spec.misaddressed want form.now) }
{
    match form {
        Form::Address { name, entity, .. } => {
            found(first, is_wrong_object(want, entity), Rule::Kind, *name)
        }
        _ => first,
    }
}

/// The first fault, also of a function that no thread can run.
pub(crate) fn misthreaded(first: Option<Fault>, want: Want, form: &Form) -> Option<Fault>
    ensures { result ≡ keep first (spec.misthreaded want form.now) }
{
    match (want, form) {
        (Want::ThreadFunction, Form::Named { spot, entity }) => {
            found(first, is_misthreaded(entity), Rule::Kind, *spot)
        }
        _ => first,
    }
}
