//! Jumps, and the turns of loops.

ghost use Rattle.std.specs.Prelude.{◌≡◌, drop};
ghost use Rattle.c11_flat.specs.Flat.{To, counted, jumping};
ghost use Rattle.c11_machine.specs.Effects.{ActsAs, meant, target};
ghost use Rattle.c11_machine.specs.Views.{config_of};

use crate::effect::{Budget, Effect};
use crate::machine::Machine;
use crate::numbers::is_zero;
use c11_events::StopKind;
use c11_flat::Instr;

impl Machine {
    // Goes forward to the place.
    fn jumps(&self, to: usize, takes: usize) -> Effect
        ensures { let c = config_of self.now in jumping c to (drop takes c.stack) ≡ meant result c }
    {
        if self.place < to {
            Effect::goes(takes, Some(to), Budget::Kept)
        } else {
            Effect::Stuck
        }
    }

    // Goes to the place, or to the next instruction, where a turn is left.
    fn counts(&self, line: u32, to: Option<usize>, takes: usize) -> Effect
        ensures { let c = config_of self.now in
            counted line c.state (λ st. To (record c { place = target to c.place; stack = drop takes c.stack; state = st })) ≡ meant result c }
    {
        if self.turns == 0 {
            self.stops(line, StopKind::Local)
        } else {
            Effect::goes(takes, to, Budget::Turn)
        }
    }

    pub(crate) fn jump(&self, to: usize) -> Effect
        ensures { ActsAs (Instr.Jump to) result (config_of self.now) }
    {
        self.jumps(to, 0)
    }

    pub(crate) fn jump_if_zero(&self, to: usize) -> Effect
        ensures { ActsAs (Instr.JumpIfZero to) result (config_of self.now) }
    {
        let Some(value) = self.value_at(0) else {
            return Effect::Stuck;
        };
        if is_zero(value) {
            self.jumps(to, 1)
        } else {
            Effect::goes(1, None, Budget::Kept)
        }
    }

    pub(crate) fn turn(&self, line: u32) -> Effect
        ensures { ActsAs (Instr.Turn line) result (config_of self.now) }
    {
        self.counts(line, None, 0)
    }

    pub(crate) fn turn_if(&self, line: u32, to: usize) -> Effect
        ensures { ActsAs (Instr.TurnIf line to) result (config_of self.now) }
    {
        let Some(value) = self.value_at(0) else {
            return Effect::Stuck;
        };
        if is_zero(value) {
            Effect::goes(1, None, Budget::Kept)
        } else {
            self.counts(line, Some(to), 1)
        }
    }
}
