//! What becomes of a machine by one instruction.

ghost use Rattle.std.specs.Prelude.{◌≡◌, ◌+◌, ◌<◌, ◌^◌};
ghost use Rattle.c11_machine.specs.Effects.{meant};
ghost use Rattle.c11_machine.specs.Steps.{Took};
ghost use Rattle.c11_machine.specs.Views.{config_of};

use crate::effect::Effect;
use crate::machine::Machine;
use c11_events::Ask;
use c11_num::NoMemory;

/// What became of it.
#[derive(Drop)]
pub(crate) enum Step {
    /// It goes on.
    On,
    /// It wants a reply, and stays where it is.
    Asks(Ask),
    /// There is no answer.
    Stuck,
}

impl Machine {
    // Does what the effect says.
    pub(crate) fn perform(&mut self, effect: Effect) -> Result<Step, NoMemory>
        requires { self.old.place + 1 < 2 ^ 64 }
        ensures { Took (meant effect (config_of self.old)) (config_of self.old) (config_of self.new) result }
    {
        match effect {
            Effect::Moves(change) => {
                self.apply(change)?;
                Ok(Step::On)
            }
            Effect::Asks(ask) => Ok(Step::Asks(ask)),
            Effect::Stuck => Ok(Step::Stuck),
        }
    }
}
