//! What the arguments of a call name.

ghost use Rattle.std.specs.Prelude.{◌≡◌, map};
ghost use Rattle.c11_meaning.specs.Parts as parts;
ghost use Rattle.c11_flat.specs.Pieces as pieces;
ghost use Rattle.c11_pieces.specs.Trees.{given_of, object_of};

use crate::objects::placed;
use c11_ast::{Arg, Expr, Target};
use c11_check::Entity;
use c11_check::scopes::Scopes;
use c11_events::Order;
use c11_flat::Place;

/// What the name of a variable or an element denotes.
pub(crate) fn entity_of(scopes: &Scopes, target: &Target) -> Option<Entity>
    ensures { result ≡ parts.entity_of (object_of target.now) scopes.now }
{
    scopes.denoted(target.word.name.as_slice())
}

/// The line of a variable or an element.
pub(crate) fn line_of(target: &Target) -> u32
    ensures { result ≡ parts.line_of (object_of target.now) }
{
    target.word.spot.line
}

/// Where a variable or an element is.
pub(crate) fn place_in(scopes: &Scopes, target: &Target) -> Place
    ensures { result ≡ pieces.place_in (object_of target.now) scopes.now }
{
    placed(&entity_of(scopes, target), target.index.is_some())
}

/// An object that is read or changed.
#[derive(Clone, Copy, Debug)]
pub(crate) struct Held {
    /// What its name denotes.
    pub entity: Option<Entity>,
    /// The line of its name.
    pub line: u32,
    /// Where it is.
    pub place: Place,
}

/// The object that a variable or an element is.
pub(crate) fn object_at(scopes: &Scopes, target: &Target) -> Held
    ensures entity { result.entity ≡ parts.entity_of (object_of target.now) scopes.now }
    ensures line { result.line ≡ parts.line_of (object_of target.now) }
    ensures place { result.place ≡ pieces.place_in (object_of target.now) scopes.now }
{
    Held {
        entity: entity_of(scopes, target),
        line: line_of(target),
        place: place_in(scopes, target),
    }
}

/// What an argument denotes, if it is a name.
pub(crate) fn given_entity(scopes: &Scopes, arg: &Arg) -> Option<Entity>
    ensures { result ≡ parts.given_entity (given_of arg.now) scopes.now }
{
    match arg {
        Arg::Value(Expr::Read(target)) => entity_of(scopes, target),
        _ => None,
    }
}

fn order_named(entity: &Option<Entity>) -> Order
    ensures { result ≡ parts.order_named entity.now }
{
    match entity {
        Some(Entity::Order(order)) => *order,
        _ => Order::SeqCst,
    }
}

/// The memory order that comes first in the arguments; seq_cst where none does (ISO/IEC 9899:2011, 7.17.7).
pub(crate) fn order_in(scopes: &Scopes, args: &[Arg]) -> Order
    ensures { result ≡ parts.order_in (map given_of args.now) scopes.now }
{
    match args {
        [arg, ..] => order_named(&given_entity(scopes, arg)),
        [] => Order::SeqCst,
    }
}

/// The memory order that comes second in the arguments; seq_cst where none does.
pub(crate) fn second_order_in(scopes: &Scopes, args: &[Arg]) -> Order
    ensures { result ≡ parts.second_order_in (map given_of args.now) scopes.now }
{
    match args {
        [_, rest @ ..] => order_in(scopes, rest),
        [] => Order::SeqCst,
    }
}

/// The number of the function that an argument names; 0 where it names none.
pub(crate) fn function_in(scopes: &Scopes, arg: &Arg) -> u32
    ensures { result ≡ parts.function_named (parts.given_entity (given_of arg.now) scopes.now) }
{
    match given_entity(scopes, arg) {
        Some(Entity::Function { function, .. }) => function,
        _ => 0,
    }
}
