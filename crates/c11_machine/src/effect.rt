//! What an instruction does to a machine.

ghost use Rattle.std.specs.Prelude.{◌≡◌};
ghost use Rattle.c11_machine.specs.Effects as spec;

use c11_events::Ask;
use c11_flat::Slot;
use c11_num::CValue;

/// A value whose number a place gets.
#[derive(Clone, Copy)]
pub(crate) struct Written {
    pub(crate) place: u32,
    pub(crate) value: CValue,
}

/// What becomes of the turns that are left, and of the reply.
#[derive(Clone, Copy)]
pub(crate) enum Budget {
    /// They stay.
    Kept,
    /// One turn less is left.
    Turn,
    /// The reply was taken, after which all turns are left again.
    Reply,
}

/// A step inside one function.
#[derive(Clone, Copy)]
pub(crate) struct Change {
    /// How many slots it takes off the stack.
    pub(crate) takes: usize,
    /// What it puts there then.
    pub(crate) puts: Option<Slot>,
    /// What it writes.
    pub(crate) writes: Option<Written>,
    /// Where it goes; none is the next instruction.
    pub(crate) to: Option<usize>,
    pub(crate) budget: Budget,
}

/// What an instruction does.
#[derive(Drop)]
pub(crate) enum Effect {
    Moves(Change),
    /// It wants a reply, and there is none.
    Asks(Ask),
    /// There is no answer.
    Stuck,
}

impl Effect {
    // Takes so many slots off, puts one there, and goes to the next instruction.
    pub(crate) fn puts(takes: usize, slot: Slot) -> Effect
        ensures { result ≡ spec.puts takes slot }
    {
        Effect::Moves(Change {
            takes,
            puts: Some(slot),
            writes: None,
            to: None,
            budget: Budget::Kept,
        })
    }

    // The same with a value.
    pub(crate) fn gives(takes: usize, value: CValue) -> Effect
        ensures { result ≡ spec.gives takes value }
    {
        Effect::puts(takes, Slot::Value(value))
    }

    // Takes so many slots off, and goes to this place, or to the next instruction.
    pub(crate) fn goes(takes: usize, to: Option<usize>, budget: Budget) -> Effect
        ensures { result ≡ spec.goes takes to budget }
    {
        Effect::Moves(Change {
            takes,
            puts: None,
            writes: None,
            to,
            budget,
        })
    }
}
