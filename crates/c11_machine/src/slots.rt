//! Values that lie on a stack.

ghost use Rattle.std.specs.Prelude.{◌≡◌, ◌≤◌, drop, length};
ghost use Rattle.c11_machine.specs.Slots as spec;

use crate::machine::Machine;
use crate::numbers::nothing;
use c11_flat::Slot;
use c11_num::CValue;

// The value of the slot.
pub(crate) fn value_in(slot: Slot) -> CValue
    ensures { result ≡ spec.slot_value slot }
{
    match slot {
        Slot::Value(value) => value,
        Slot::Place(_) => nothing(),
    }
}

// Whether all are values.
fn are_values(slots: &[Slot]) -> bool
    ensures { result ≡ spec.are_values slots.now }
{
    for slot in slots {
        if let Slot::Place(_) = *slot {
            return false;
        }
    }
    true
}

impl Machine {
    // The items of the stack from this one on.
    pub(crate) fn slots_from(&self, bottom: usize) -> &[Slot]
        requires { bottom ≤ length self.now.stack.items }
        ensures { result.now ≡ drop bottom self.now.stack.items }
    {
        &self.stack.as_slice()[bottom..]
    }

    // Where the last so many items begin, if they are values.
    pub(crate) fn values_from(&self, count: usize) -> Option<usize>
        ensures { spec.ValuesFrom result count self.now.stack.items }
    {
        let len = self.stack.len();
        if count > len {
            return None;
        }
        let bottom = len - count;
        if are_values(self.slots_from(bottom)) {
            Some(bottom)
        } else {
            None
        }
    }
}
