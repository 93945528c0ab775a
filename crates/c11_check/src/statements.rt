//! The faults of statements, and of the declarations in a function.

ghost use Rattle.std.specs.Prelude.{◌≡◌, OnOk, OnErr, is_some, map};
ghost use Rattle.c11_check.specs.Programs.{keep};
ghost use Rattle.c11_check.specs.Faults as faults;
ghost use Rattle.c11_check.specs.Scopes as scope;
ghost use Rattle.c11_check.specs.Statements as spec;
ghost use Rattle.c11_check.specs.Walks.{Walks};
ghost use Rattle.c11_check.specs.Branches.{arms_walk, start_walk};

use crate::around::Around;
use crate::declarations::{PLACE_LIMIT, counted, missized, size_faults, size_in, too_many, twice};
use crate::entity::{Counts, Entity};
use crate::expressions::{alone, used};
use crate::fault::{Fault, Rule};
use crate::first::found;
use crate::scopes::Scopes;
use c11_ast::{Expr, Local, Place, Spot, Stmt, Word};
use c11_num::{CType, NoMemory};

/// Declares a local of an integer type, or a parameter. After an error the scopes are as before.
pub fn declare_local<'a>(
    scopes: &mut Scopes<'a>,
    word: &'a Word,
    ctype: CType,
    size: Option<u64>,
) -> Result<(), NoMemory>
    ensures declared { OnOk result (scopes.new ≡ scope.with_local scopes.old word.now.name ctype size) }
    ensures unchanged { OnErr result (scopes.new ≡ scopes.old) }
{
    let counts = scopes.counts();
    let places = counted(PLACE_LIMIT, counts.places, size);
    let entity = Entity::Local {
        ctype,
        place: counts.places,
        size,
    };
    scopes.declare(word.name.as_slice(), entity, Counts { places, ..counts })
}

/// Declares a handle. After an error the scopes are as before.
pub fn declare_handle<'a>(
    scopes: &mut Scopes<'a>,
    word: &'a Word,
    size: Option<u64>,
) -> Result<(), NoMemory>
    ensures declared { OnOk result (scopes.new ≡ scope.with_handle scopes.old word.now.name size) }
    ensures unchanged { OnErr result (scopes.new ≡ scopes.old) }
{
    let counts = scopes.counts();
    let places = counted(PLACE_LIMIT, counts.places, size);
    let entity = Entity::Handle {
        place: counts.places,
        size,
    };
    scopes.declare(word.name.as_slice(), entity, Counts { places, ..counts })
}

// The faults of a name that a function declares.
#[tactic(auto, using(crate::proofs::Keeps::keep_append))]
fn declarator(scopes: &Scopes, first: Option<Fault>, place: &Place) -> Option<Fault>
    ensures { result ≡ keep first (spec.declarator_faults scopes.now place.now) }
{
    let first = twice(scopes, first, &place.word);
    let first = size_faults(scopes, first, &place.size);
    let first = missized(scopes, first, place, 0);
    let size = size_in(scopes, &place.size);
    too_many(
        first,
        PLACE_LIMIT,
        scopes.counts().places,
        size,
        &place.word,
    )
}

fn optional_used(scopes: &Scopes, first: Option<Fault>, expr: &Option<Expr>) -> Option<Fault>
    ensures { result ≡ keep first (spec.optional_used expr.now scopes.now) }
{
    match expr {
        Some(expr) => used(scopes, first, expr),
        None => first,
    }
}

fn optional_alone(scopes: &Scopes, first: Option<Fault>, expr: &Option<Expr>) -> Option<Fault>
    ensures { result ≡ keep first (spec.optional_alone expr.now scopes.now) }
{
    match expr {
        Some(expr) => alone(scopes, first, expr),
        None => first,
    }
}

// A local is an array and has a start.
fn misinitialized(first: Option<Fault>, local: &Local) -> Option<Fault>
    ensures { result ≡ keep first (faults.misinitialized local.now.place (is_some local.now.start)) }
{
    let wrong = local.place.size.is_some() && local.start.is_some();
    found(first, wrong, Rule::Kind, local.place.word.spot)
}

// A declared variable or array. It may be used in its own start.
#[tactic(auto, using(crate::proofs::Keeps::keep_append))]
fn local<'a>(
    scopes: &mut Scopes<'a>,
    first: Option<Fault>,
    ctype: CType,
    local: &'a Local,
) -> Result<Option<Fault>, NoMemory>
    ensures { Walks (spec.local_walk ctype local.now scopes.old) first result scopes.new }
{
    let first = declarator(scopes, first, &local.place);
    let first = misinitialized(first, local);
    let size = size_in(scopes, &local.place.size);
    declare_local(scopes, &local.place.word, ctype, size)?;
    Ok(optional_used(scopes, first, &local.start))
}

// A declared handle.
fn handle<'a>(
    scopes: &mut Scopes<'a>,
    first: Option<Fault>,
    place: &'a Place,
) -> Result<Option<Fault>, NoMemory>
    ensures { Walks (spec.handle_walk place.now scopes.old) first result scopes.new }
{
    let first = declarator(scopes, first, place);
    let size = size_in(scopes, &place.size);
    declare_handle(scopes, &place.word, size)?;
    Ok(first)
}

// Variables and arrays, one after the other.
fn locals<'a>(
    scopes: &mut Scopes<'a>,
    first: Option<Fault>,
    ctype: CType,
    locals: &'a [Local],
) -> Result<Option<Fault>, NoMemory>
    ensures { Walks (spec.locals_walk ctype locals.now scopes.old) first result scopes.new }
{
    let mut first = first;
    for declared in locals {
        first = local(scopes, first, ctype, declared)?;
    }
    Ok(first)
}

// Handles, one after the other.
fn handles<'a>(
    scopes: &mut Scopes<'a>,
    first: Option<Fault>,
    places: &'a [Place],
) -> Result<Option<Fault>, NoMemory>
    ensures { Walks (spec.handles_walk places.now scopes.old) first result scopes.new }
{
    let mut first = first;
    for place in places {
        first = handle(scopes, first, place)?;
    }
    Ok(first)
}

// `break` or `continue` stands outside of a loop.
fn outside(first: Option<Fault>, around: Around, spot: Spot) -> Option<Fault>
    ensures { result ≡ keep first (faults.outside around.in_loop spot) }
{
    found(first, !around.in_loop, Rule::Kind, spot)
}

// `return` has a value in a `void` function, or none elsewhere.
fn misreturned(first: Option<Fault>, around: Around, spot: Spot, has_value: bool) -> Option<Fault>
    ensures { result ≡ keep first (faults.misreturned around.answers spot has_value) }
{
    let wrong = match around.answers {
        Some(_) => !has_value,
        None => has_value,
    };
    found(first, wrong, Rule::Typing, spot)
}

// In a loop.
fn looping(around: Around) -> Around
    ensures { result ≡ spec.looping around }
{
    Around {
        answers: around.answers,
        in_loop: true,
    }
}

/// The first fault, also of those of the statement; its declarations are made.
#[cycle(statements)]
pub(crate) fn walk<'a>(
    scopes: &mut Scopes<'a>,
    first: Option<Fault>,
    around: Around,
    stmt: &'a Stmt,
) -> Result<Option<Fault>, NoMemory>
    ensures { Walks (spec.walk_of stmt.now around scopes.old) first result scopes.new }
{
    match stmt {
        Stmt::Block(block) => {
            let mark = scopes.enter();
            let first = in_order(scopes, first, around, block.items.as_slice())?;
            scopes.leave(mark);
            Ok(first)
        }
        Stmt::Empty(_) => Ok(first),
        Stmt::Expr(expr) => Ok(alone(scopes, first, expr)),
        Stmt::If { otherwise, .. } => {
            let first = arms(scopes, first, around, stmt)?;
            match otherwise {
                Some(other) => walk(scopes, first, around, other.get()),
                None => Ok(first),
            }
        }
        Stmt::While { test, body, .. } => {
            let first = used(scopes, first, test);
            walk(scopes, first, looping(around), body.get())
        }
        Stmt::Do { body, test, .. } => {
            let first = walk(scopes, first, looping(around), body.get())?;
            Ok(used(scopes, first, test))
        }
        Stmt::For {
            test,
            next,
            body,
            ..
        } => {
            let mark = scopes.enter();
            let first = start(scopes, first, around, stmt)?;
            let first = optional_used(scopes, first, test);
            let first = optional_alone(scopes, first, next);
            let first = walk(scopes, first, looping(around), body.get())?;
            scopes.leave(mark);
            Ok(first)
        }
        Stmt::Break(spot) => Ok(outside(first, around, *spot)),
        Stmt::Continue(spot) => Ok(outside(first, around, *spot)),
        Stmt::Return { spot, value } => {
            let first = misreturned(first, around, *spot, value.is_some());
            Ok(optional_used(scopes, first, value))
        }
        Stmt::Locals {
            ctype,
            locals: declared,
            ..
        } => locals(scopes, first, *ctype, declared.as_slice()),
        Stmt::Handles { places, .. } => handles(scopes, first, places.as_slice()),
    }
}

// The arms of an `if`, one after the other.
#[cycle(statements)]
fn arms<'a>(
    scopes: &mut Scopes<'a>,
    first: Option<Fault>,
    around: Around,
    chain: &'a Stmt,
) -> Result<Option<Fault>, NoMemory>
    ensures { Walks (arms_walk chain.now around scopes.old) first result scopes.new }
{
    let Stmt::If { arms, .. } = chain else {
        return Ok(first);
    };
    let mut first = first;
    for arm in arms.as_slice() {
        let tested = used(scopes, first, &arm.test);
        first = walk(scopes, tested, around, &arm.body)?;
    }
    Ok(first)
}

// The start of a `for`.
#[cycle(statements)]
fn start<'a>(
    scopes: &mut Scopes<'a>,
    first: Option<Fault>,
    around: Around,
    turning: &'a Stmt,
) -> Result<Option<Fault>, NoMemory>
    ensures { Walks (start_walk turning.now around scopes.old) first result scopes.new }
{
    match turning {
        Stmt::For {
            start: Some(start),
            ..
        } => walk(scopes, first, around, start.get()),
        _ => Ok(first),
    }
}

/// The first fault, also of those of the statements, one after the other; their declarations are made.
#[cycle(statements)]
pub(crate) fn in_order<'a>(
    scopes: &mut Scopes<'a>,
    first: Option<Fault>,
    around: Around,
    items: &'a [Stmt],
) -> Result<Option<Fault>, NoMemory>
    ensures { Walks (spec.in_order (map spec.walk_of items.now) around scopes.old) first result scopes.new }
{
    let mut first = first;
    for item in items {
        first = walk(scopes, first, around, item)?;
    }
    Ok(first)
}
