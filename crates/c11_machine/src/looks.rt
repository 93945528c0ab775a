//! What a machine finds on its stack and in its places.

ghost use Rattle.std.specs.Prelude.{◌≡◌, ◌+◌, ◌<◌, IfSome, drop, length, reverse};
ghost use Rattle.c11_meaning.specs.Objects.{local_value};
ghost use Rattle.c11_machine.specs.Looks.{SlotIn, ValueIn, PlaceIn};
ghost use Rattle.c11_machine.specs.Views.{config_of};

use crate::machine::Machine;
use c11_flat::{Place, Slot};
use c11_num::{CType, CValue, convert};

/// Where an object is, and how many slots lie above what remains of the stack.
#[derive(Clone, Copy)]
pub(crate) struct Found {
    pub(crate) place: u32,
    pub(crate) below: usize,
}

impl Machine {
    // The slot so far below the top.
    pub(crate) fn slot_at(&self, depth: usize) -> Option<Slot>
        ensures slot { SlotIn result (drop depth (reverse self.now.stack.items)) (drop (depth + 1) (reverse self.now.stack.items)) }
        ensures within { IfSome result (λ _. depth < length self.now.stack.items) }
    {
        let len = self.stack.len();
        if depth < len {
            Some(self.stack[len - 1 - depth])
        } else {
            None
        }
    }

    // The value so far below the top.
    pub(crate) fn value_at(&self, depth: usize) -> Option<CValue>
        ensures value { ValueIn result (drop depth (reverse self.now.stack.items)) (drop (depth + 1) (reverse self.now.stack.items)) }
        ensures within { IfSome result (λ _. depth < length self.now.stack.items) }
    {
        match self.slot_at(depth) {
            Some(slot) => match slot {
                Slot::Value(value) => Some(value),
                Slot::Place(_) => None,
            },
            None => None,
        }
    }

    // Where the object is: at the place that is given, or at the one so far below the top.
    pub(crate) fn found(&self, place: Place, depth: usize) -> Option<Found>
        ensures { PlaceIn place result depth (reverse self.now.stack.items) }
    {
        match place {
            Place::At(place) => Some(Found {
                place,
                below: depth,
            }),
            Place::OnStack => match self.slot_at(depth) {
                Some(slot) => match slot {
                    Slot::Place(place) => Some(Found {
                        place,
                        below: depth + 1,
                    }),
                    Slot::Value(_) => None,
                },
                None => None,
            },
        }
    }

    // What the place holds, as a value of this type.
    pub(crate) fn local(&self, ctype: CType, place: u32) -> CValue
        ensures { result ≡ local_value ctype (config_of self.now).state place }
    {
        match self.locals.get(place as usize) {
            Some(value) => convert(*value, ctype),
            None => convert(CValue::new(CType::Int, 0), ctype),
        }
    }
}
