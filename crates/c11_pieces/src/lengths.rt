//! How many instructions the code of objects and calls has, whatever lines they name.

ghost use Rattle.std.specs.Prelude.{◌≡◌, IfOk};
ghost use Rattle.c11_pieces.specs.Sizes as spec;

use crate::growing::plus;
use c11_check::Entity;
use c11_flat::Place;
use c11_num::NoMemory;

/// The size of what takes the place of an object off the stack.
pub(crate) fn dropped_size(place: Place) -> usize
    ensures { result ≡ spec.dropped_size place }
{
    match place {
        Place::At(_) => 0,
        Place::OnStack => 1,
    }
}

/// The size of what reads an object, or what else a name denotes.
pub(crate) fn read_size(entity: &Option<Entity>, place: Place) -> usize
    ensures { result ≡ spec.read_size entity.now place }
{
    match entity {
        Some(Entity::Local { .. } | Entity::Plain { .. } | Entity::Atomic { .. }) => 1,
        _ => dropped_size(place) + 1,
    }
}

/// The size of what writes a value to an object.
pub(crate) fn write_size(entity: &Option<Entity>, place: Place) -> usize
    ensures { result ≡ spec.write_size entity.now place }
{
    match entity {
        Some(Entity::Local { .. } | Entity::Plain { .. } | Entity::Atomic { .. }) => 1,
        _ => dropped_size(place) + 2,
    }
}

/// The size of a compound assignment behind the place of its object, where its value has size `value`.
pub(crate) fn compound_size(
    entity: &Option<Entity>,
    place: Place,
    value: usize,
) -> Result<usize, NoMemory>
    ensures { IfOk result (λ size. size ≡ spec.compound_size entity.now place value) }
{
    match entity {
        Some(Entity::Local { .. } | Entity::Plain { .. }) => plus(value, 3),
        Some(Entity::Atomic { .. }) => plus(value, 1),
        _ => Ok(dropped_size(place) + 1),
    }
}

/// The size of what makes a `++` or `--`.
pub(crate) fn step_size(entity: &Option<Entity>, place: Place) -> usize
    ensures { result ≡ spec.step_size entity.now place }
{
    match entity {
        Some(Entity::Local { .. } | Entity::Plain { .. }) => 3,
        Some(Entity::Atomic { .. }) => 2,
        _ => dropped_size(place) + 1,
    }
}
