//! Places that become 0.

ghost use Rattle.std.specs.Prelude.{◌≡◌, pos, slice_set};
ghost use Rattle.c11_machine.specs.Steps.{zeros};
ghost use Rattle.c11_machine.specs.Views.{numbers_of};

use crate::numbers::nothing;
use c11_num::CValue;

// Makes the place 0, where there is one.
fn clear_place(locals: &mut Vec<CValue>, index: usize)
    ensures { numbers_of locals.new.items ≡ slice_set (numbers_of locals.old.items) index (pos 0) }
{
    if index < locals.len() {
        locals[index] = nothing();
    }
}

// Makes so many places 0, from this one on.
pub(crate) fn clear_places(locals: &mut Vec<CValue>, place: u32, count: u32)
    ensures { numbers_of locals.new.items ≡ zeros place count (numbers_of locals.old.items) }
{
    let first = place as usize;
    for i in 0..count as usize {
        clear_place(locals, first + i);
    }
}
