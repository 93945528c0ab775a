//! Operations, which go on with the reply, and Stops in the place of one.

ghost use Rattle.std.specs.Prelude.{◌≡◌, drop};
ghost use Rattle.c11_meaning.specs.Outcome as outcome;
ghost use Rattle.c11_meaning.specs.Outcome.{stop_of};
ghost use Rattle.c11_flat.specs.Flat.{from, giving};
ghost use Rattle.c11_machine.specs.Answers.{answer_of};
ghost use Rattle.c11_machine.specs.Effects.{meant, replied_by, stopped};
ghost use Rattle.c11_machine.specs.Views.{config_of};

use crate::answer::{Answer, Wanted, answer_to};
use crate::effect::{Budget, Change, Effect};
use crate::machine::Machine;
use c11_events::{Ask, Op, StopKind};
use c11_flat::Slot;
use c11_num::{CValue, NumFault};

// The Stop that stands for a computation without a result.
fn stop_kind(fault: NumFault) -> StopKind
    ensures { result ≡ stop_of fault }
{
    match fault {
        NumFault::Overflow => StopKind::Overflow,
        NumFault::Divide => StopKind::Divide,
        NumFault::Shift => StopKind::Shift,
    }
}

impl Machine {
    // A Stop.
    pub(crate) fn stops(&self, line: u32, kind: StopKind) -> Effect
        ensures { result ≡ stopped line kind self.now.pending }
    {
        match self.pending {
            None => Effect::Asks(Ask {
                line,
                op: Op::Stop { kind },
            }),
            Some(_) => Effect::Stuck,
        }
    }

    // A computation, whose value takes the place of so many slots.
    pub(crate) fn computes(
        &self,
        line: u32,
        value: Result<CValue, NumFault>,
        takes: usize,
    ) -> Effect
        ensures { let c = config_of self.now in from (outcome.computed line value c.state) (giving c (drop takes c.stack)) ≡ meant result c }
    {
        match value {
            Ok(value) => Effect::gives(takes, value),
            Err(fault) => self.stops(line, stop_kind(fault)),
        }
    }

    // An operation, whose value takes the place of so many slots.
    pub(crate) fn operates(&self, line: u32, op: Op, wanted: Wanted, takes: usize) -> Effect
        ensures { let c = config_of self.now in from (outcome.operation line op c.state (answer_of wanted)) (giving c (drop takes c.stack)) ≡ meant result c }
    {
        match self.pending {
            None => Effect::Asks(Ask { line, op }),
            Some(reply) => replied(answer_to(wanted, reply), takes),
        }
    }
}

// How an operation goes on.
fn replied(answer: Option<Answer>, takes: usize) -> Effect
    ensures { result ≡ replied_by answer takes }
{
    match answer {
        None => Effect::Stuck,
        Some(answer) => Effect::Moves(Change {
            takes,
            puts: Some(Slot::Value(answer.value)),
            writes: answer.writes,
            to: None,
            budget: Budget::Reply,
        }),
    }
}
