//! Where objects are.

ghost use Rattle.std.specs.Prelude.{◌≡◌, IfOk};
ghost use Rattle.c11_meaning.specs.Objects as meaning;
ghost use Rattle.c11_flat.specs.Pieces as pieces;
ghost use Rattle.c11_pieces.specs.Places as spec;

use c11_check::Entity;
use c11_flat::{Instr, Place, Span};
use c11_num::NoMemory;

/// The first place, cell or mutex of an object; 0 where there is no object.
pub(crate) fn entity_base(entity: &Option<Entity>) -> u32
    ensures { result ≡ meaning.entity_base entity.now }
{
    match entity {
        Some(Entity::Local { place, .. } | Entity::Handle { place, .. }) => *place,
        Some(Entity::Atomic { cell, .. } | Entity::Plain { cell, .. }) => *cell,
        Some(Entity::Mutex { mutex, .. }) => *mutex,
        _ => 0,
    }
}

/// How many elements an array has; none where it is no array.
pub(crate) fn entity_size(entity: &Option<Entity>) -> Option<u64>
    ensures { result ≡ meaning.entity_size entity.now }
{
    match entity {
        Some(
            Entity::Local { size, .. }
            | Entity::Handle { size, .. }
            | Entity::Atomic { size, .. }
            | Entity::Plain { size, .. }
            | Entity::Mutex { size, .. },
        ) => *size,
        _ => None,
    }
}

/// Where an object is: the place of an element comes on the stack.
pub(crate) fn placed(entity: &Option<Entity>, indexed: bool) -> Place
    ensures { result ≡ spec.placed entity.now indexed }
{
    if indexed && entity_size(entity).is_some() {
        Place::OnStack
    } else {
        Place::At(entity_base(entity))
    }
}

// The array of so many from this one on. No program that the checks accept has an array whose places pass 32 bits.
fn span(base: u32, size: u64) -> Result<Span, NoMemory>
    ensures { IfOk result (λ span. span ≡ record { base = base; size = size }) }
{
    let Ok(size) = u32::try_from(size) else {
        return Err(NoMemory);
    };
    if u64::from(base) + u64::from(size) > 1 << 32 {
        return Err(NoMemory);
    }
    Ok(Span::new(base, size))
}

/// What makes the place of an element from its index.
pub(crate) fn element_instr(size: Option<u64>, line: u32, base: u32) -> Result<Instr, NoMemory>
    ensures { IfOk result (λ instr. instr ≡ pieces.element_instr size line base) }
{
    match size {
        Some(size) => {
            let span = span(base, size)?;
            Ok(Instr::Element { line, span })
        }
        None => Ok(Instr::Drop),
    }
}
