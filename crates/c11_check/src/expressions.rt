//! The faults of expressions.

ghost use Rattle.std.specs.Prelude.{◌≡◌, ◌&&◌, ◌++◌, [], map, not, if◌then◌else◌};
ghost use Rattle.c11_check.specs.Programs.{keep};
ghost use Rattle.c11_check.specs.Faults as faults;
ghost use Rattle.c11_check.specs.Expressions as spec;
ghost use Rattle.c11_check.specs.Chains.{links_behind, want_at};

use crate::arguments::{
    first_token, has_form, has_order, is_asked_for, is_misexpected, is_misfailed, is_stray,
    misaddressed, misthreaded,
};
use crate::entity::Entity;
use crate::fault::{Fault, Rule};
use crate::first::found;
use crate::form::Form;
use crate::format::values_of_format;
use crate::kinds::{
    fits, has_value, is_misassigned, is_miscalled, is_miscomputed, is_miscounted, is_misindexed,
    is_misread, is_print, wants_in_call,
};
use crate::library::{Library, Want};
use crate::scopes::Scopes;
use c11_ast::{Arg, CastTo, Expr, Link, Spot, Target, Word};

// The expression's first token.
fn first_spot(expr: &Expr) -> Spot
    ensures { result ≡ (spec.part_of expr.now).first }
{
    match expr {
        Expr::Assign { target, .. } => target.word.spot,
        Expr::Cond { test, .. } => first_spot(test.get()),
        Expr::Chain { first, .. } => first_spot(first.get()),
        Expr::Prefix { spot, .. } => *spot,
        Expr::Step { spot, .. } => *spot,
        Expr::Cast { spot, .. } => *spot,
        Expr::Call { word, .. } => word.spot,
        Expr::Literal { spot, .. } => *spot,
        Expr::Read(target) => target.word.spot,
        Expr::Paren { spot, .. } => *spot,
    }
}

// How the expression is written, as an argument.
fn form_of_expr(scopes: &Scopes, expr: &Expr) -> Form
    ensures { result ≡ (spec.part_of expr.now).form scopes.now }
{
    match expr {
        Expr::Read(target) => {
            let spot = target.word.spot;
            let entity = scopes.denoted(target.word.name.as_slice());
            if target.index.is_some() {
                Form::Element { spot, entity }
            } else {
                Form::Named { spot, entity }
            }
        }
        Expr::Literal { spot, value } => Form::Literal {
            spot: *spot,
            value: *value,
        },
        _ => Form::Other {
            spot: first_spot(expr),
        },
    }
}

// How the argument is written.
fn form(scopes: &Scopes, arg: &Arg) -> Form
    ensures { result ≡ (spec.part_of_arg arg.now).form scopes.now }
{
    match arg {
        Arg::Address { spot, target } => Form::Address {
            spot: *spot,
            name: target.word.spot,
            entity: scopes.denoted(target.word.name.as_slice()),
        },
        Arg::Text { spot, bytes } => Form::Text {
            spot: *spot,
            values: values_of_format(bytes.as_slice()),
        },
        Arg::Value(expr) => form_of_expr(scopes, expr),
    }
}

// A text comes first, and as many values follow as it asks for.
fn fits_format(scopes: &Scopes, args: &[Arg]) -> bool
    ensures { result ≡ faults.fits_format (spec.forms_in (map spec.part_of_arg args.now) scopes.now) }
{
    match args {
        [text, values @ ..] => match form(scopes, text) {
            Form::Text { values: asked, .. } => fits(asked, values.len()),
            _ => false,
        },
        [] => false,
    }
}

// A call of `printf` has other arguments than its text asks for.
fn is_misprinted(scopes: &Scopes, entity: &Option<Entity>, args: &[Arg]) -> bool
    ensures { result ≡ (faults.is_print entity.now && not (faults.fits_format (spec.forms_in (map spec.part_of_arg args.now) scopes.now))) }
{
    is_print(entity) && !fits_format(scopes, args)
}

// The faults of the orders of a compare-exchange together.
fn misfailed(
    scopes: &Scopes,
    first: Option<Fault>,
    entity: &Option<Entity>,
    args: &[Arg],
) -> Option<Fault>
    ensures { result ≡ keep first (faults.misfailed entity.now (spec.forms_in (map spec.part_of_arg args.now) scopes.now)) }
{
    let Some(Entity::Library(Library::CompareExchange { explicit: true, .. })) = entity else {
        return first;
    };
    match args {
        [_, _, _, success, failure, ..] => {
            let success = form(scopes, success);
            let failure = form(scopes, failure);
            found(
                first,
                is_misfailed(&success, &failure),
                Rule::Order,
                first_token(&failure),
            )
        }
        _ => first,
    }
}

// The fault of the local with the expected value.
fn misexpected(
    scopes: &Scopes,
    first: Option<Fault>,
    entity: &Option<Entity>,
    args: &[Arg],
) -> Option<Fault>
    ensures { result ≡ keep first (faults.misexpected entity.now (spec.forms_in (map spec.part_of_arg args.now) scopes.now)) }
{
    let Some(Entity::Library(Library::CompareExchange { .. })) = entity else {
        return first;
    };
    match args {
        [object, expected, ..] => {
            let object = form(scopes, object);
            let expected = form(scopes, expected);
            found(
                first,
                is_misexpected(&object, &expected),
                Rule::Typing,
                first_token(&expected),
            )
        }
        _ => first,
    }
}

// The calls and casts that have no value, and whose values are used where that of the expression is.
fn voids(scopes: &Scopes, first: Option<Fault>, expr: &Expr) -> Option<Fault>
    ensures { result ≡ keep first (faults.unvalued ((spec.part_of expr.now).voids scopes.now)) }
{
    match expr {
        Expr::Cond { yes, no, .. } => {
            let first = voids(scopes, first, yes.get());
            voids(scopes, first, no.get())
        }
        Expr::Cast {
            spot,
            to: CastTo::Void,
            ..
        } => found(first, true, Rule::Typing, *spot),
        Expr::Call { word, .. } => {
            let entity = scopes.denoted(word.name.as_slice());
            found(first, !has_value(&entity), Rule::Typing, word.spot)
        }
        Expr::Paren { inner, .. } => voids(scopes, first, inner.get()),
        _ => first,
    }
}

/// The first fault, also of those in the expression and of those that its value is used.
#[cycle(expressions)]
#[tactic(auto, using(crate::proofs::Keeps::keep_append))]
pub(crate) fn used(scopes: &Scopes, first: Option<Fault>, expr: &Expr) -> Option<Fault>
    ensures { result ≡ keep first (spec.used (spec.part_of expr.now) scopes.now) }
{
    let first = alone(scopes, first, expr);
    voids(scopes, first, expr)
}

/// The first fault, also of those in the expression, whose value is not used.
#[cycle(expressions)]
#[tactic(auto, using(crate::proofs::Keeps::keep_append))]
pub(crate) fn alone(scopes: &Scopes, first: Option<Fault>, expr: &Expr) -> Option<Fault>
    ensures { result ≡ keep first (spec.alone (spec.part_of expr.now) scopes.now) }
{
    let first = faults(scopes, first, expr);
    misread(scopes, first, expr)
}

// The fault of reading what the expression names, if it is a name.
fn misread(scopes: &Scopes, first: Option<Fault>, expr: &Expr) -> Option<Fault>
    ensures { result ≡ keep first ((spec.part_of expr.now).misread scopes.now) }
{
    match expr {
        Expr::Read(target) => {
            let entity = scopes.denoted(target.word.name.as_slice());
            found(first, is_misread(&entity), Rule::Kind, target.word.spot)
        }
        _ => first,
    }
}

// The faults in the index of an element.
#[cycle(expressions)]
fn within(scopes: &Scopes, first: Option<Fault>, target: &Target) -> Option<Fault>
    ensures { result ≡ keep first ((spec.named_by target.now).within scopes.now) }
{
    match &target.index {
        Some(index) => used(scopes, first, index.get()),
        None => first,
    }
}

// The faults in a variable or an element, wherever it stands.
#[cycle(expressions)]
fn naming(scopes: &Scopes, first: Option<Fault>, target: &Target) -> Option<Fault>
    ensures { result ≡ keep first (spec.naming (spec.named_by target.now) scopes.now) }
{
    let first = within(scopes, first, target);
    let spot = target.word.spot;
    let entity = scopes.denoted(target.word.name.as_slice());
    let first = found(first, entity.is_none(), Rule::Unknown, spot);
    let misindexed = is_misindexed(&entity, target.index.is_some());
    found(first, misindexed, Rule::Kind, spot)
}

// The faults in the expression, wherever it stands.
#[cycle(expressions)]
fn faults(scopes: &Scopes, first: Option<Fault>, expr: &Expr) -> Option<Fault>
    ensures { result ≡ keep first ((spec.part_of expr.now).faults scopes.now) }
{
    match expr {
        Expr::Assign {
            target,
            op,
            value,
            ..
        } => {
            let first = naming(scopes, first, target);
            let entity = scopes.denoted(target.word.name.as_slice());
            let spot = target.word.spot;
            let first = found(first, is_misassigned(&entity), Rule::Kind, spot);
            let first = found(first, is_miscomputed(&entity, *op), Rule::Typing, spot);
            used(scopes, first, value.get())
        }
        Expr::Cond { test, yes, no } => {
            let first = used(scopes, first, test.get());
            let first = alone(scopes, first, yes.get());
            alone(scopes, first, no.get())
        }
        Expr::Chain { first: operand, .. } => {
            let first = used(scopes, first, operand.get());
            links(scopes, first, expr)
        }
        Expr::Prefix { inner, .. } => used(scopes, first, inner.get()),
        Expr::Step { target, .. } => {
            let first = naming(scopes, first, target);
            let entity = scopes.denoted(target.word.name.as_slice());
            found(first, is_misassigned(&entity), Rule::Kind, target.word.spot)
        }
        Expr::Cast { to, inner, .. } => match to {
            CastTo::Void => alone(scopes, first, inner.get()),
            CastTo::Number(_) | CastTo::VoidPointer => used(scopes, first, inner.get()),
        },
        Expr::Call { word, args } => call(scopes, first, word, args.as_slice()),
        Expr::Literal { .. } => first,
        Expr::Read(target) => naming(scopes, first, target),
        Expr::Paren { inner, .. } => alone(scopes, first, inner.get()),
    }
}

// The faults behind the operators of a chain.
#[cycle(expressions)]
fn links(scopes: &Scopes, first: Option<Fault>, chain: &Expr) -> Option<Fault>
    ensures { result ≡ keep first (links_behind chain.now scopes.now) }
{
    let mut first = first;
    if let Expr::Chain { rest, .. } = chain {
        for link in rest.as_slice() {
            first = used(scopes, first, &link.right);
        }
    }
    first
}

// The faults in an argument, wherever it stands.
#[cycle(expressions)]
fn faults_of_arg(scopes: &Scopes, first: Option<Fault>, arg: &Arg) -> Option<Fault>
    ensures { result ≡ keep first ((spec.part_of_arg arg.now).faults scopes.now) }
{
    match arg {
        Arg::Address { target, .. } => naming(scopes, first, target),
        Arg::Text { .. } => first,
        Arg::Value(expr) => faults(scopes, first, expr),
    }
}

// The faults of an argument's value.
#[tactic(auto, using(crate::proofs::Keeps::keep_append))]
fn valued(
    scopes: &Scopes,
    first: Option<Fault>,
    want: Want,
    form: &Form,
    arg: &Arg,
) -> Option<Fault>
    ensures { result ≡ keep first ((if spec.is_asked_for want form.now then [] else (spec.part_of_arg arg.now).misread scopes.now) ++ faults.unvalued ((spec.part_of_arg arg.now).voids scopes.now)) }
{
    let Arg::Value(expr) = arg else {
        return first;
    };
    let first = if is_asked_for(want, form) {
        first
    } else {
        misread(scopes, first, expr)
    };
    voids(scopes, first, expr)
}

// The faults of an argument of a call of the word, in a place where this is wanted.
#[cycle(expressions)]
#[tactic(auto, using(crate::proofs::Keeps::keep_append))]
fn argument(
    scopes: &Scopes,
    first: Option<Fault>,
    word: &Word,
    want: Want,
    arg: &Arg,
) -> Option<Fault>
    ensures { result ≡ keep first (spec.argument word.now want (spec.part_of_arg arg.now) scopes.now) }
{
    let form = form(scopes, arg);
    let first = faults_of_arg(scopes, first, arg);
    let first = valued(scopes, first, want, &form, arg);
    let first = found(first, is_stray(want, &form), Rule::Arguments, word.spot);
    let spot = first_token(&form);
    let first = found(first, !has_form(want, &form), Rule::Kind, spot);
    let first = misaddressed(first, want, &form);
    let first = misthreaded(first, want, &form);
    found(first, !has_order(want, &form), Rule::Order, spot)
}

// What is wanted in a place; behind what is wanted only values are.
fn wanted(wants: &[Want], place: usize) -> Want
    ensures { result ≡ want_at wants.now place }
{
    wants.get(place).copied().unwrap_or(Want::Value)
}

// The faults of the arguments of a call of the word; behind what is wanted only values are.
#[cycle(expressions)]
fn arguments(
    scopes: &Scopes,
    first: Option<Fault>,
    word: &Word,
    wants: &[Want],
    args: &[Arg],
) -> Option<Fault>
    ensures { result ≡ keep first (spec.arguments word.now wants.now (map spec.part_of_arg args.now) scopes.now) }
{
    let mut first = first;
    for (place, arg) in args.iter().enumerate() {
        first = argument(scopes, first, word, wanted(wants, place), arg);
    }
    first
}

// The faults of a call.
#[cycle(expressions)]
fn call(scopes: &Scopes, first: Option<Fault>, word: &Word, args: &[Arg]) -> Option<Fault>
    ensures { result ≡ keep first (spec.call word.now (map spec.part_of_arg args.now) scopes.now) }
{
    let entity = scopes.denoted(word.name.as_slice());
    let spot = word.spot;
    let first = found(first, entity.is_none(), Rule::Unknown, spot);
    let first = found(first, is_miscalled(&entity), Rule::Kind, spot);
    let first = found(
        first,
        is_miscounted(&entity, args.len()),
        Rule::Arguments,
        spot,
    );
    let misprinted = is_misprinted(scopes, &entity, args);
    let first = found(first, misprinted, Rule::Arguments, spot);
    let first = misfailed(scopes, first, &entity, args);
    let first = misexpected(scopes, first, &entity, args);
    arguments(scopes, first, word, wants_in_call(&entity), args)
}
