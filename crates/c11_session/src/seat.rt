ghost use Rattle.std.specs.Prelude.{◌≡◌, OnErr, OnOk};
ghost use Rattle.c11_session.specs.Seats.{Advances, MayAsk, StopsShort, TakesPart, code_in};

use crate::place::Place;
use c11_machine::Code;
use c11_num::NoMemory;
use std::marker::Model;

/// The seat of one thread.
#[derive(Drop)]
pub struct Seat {
    pub(crate) place: Place,
}

impl Model for Seat {
    ghost use Rattle.std.specs.Coded.{codes};
    ghost use Rattle.c11_turn.specs.contracts.terms.Terms as terms;
    ghost use Rattle.c11_session.specs.contracts.rule.Account as account;
    ghost use Rattle.c11_session.specs.Seats.{Sitting};
    ghost use Rattle.c11_session.specs.Places.{IsSeated, sitting_of};

    ghost Value = { Sitting };

    ghost coded = { Prim.hlevel (codes, terms.the_row.coded, account.the_row.coded) };

    ghost view = { λ s. sitting_of s.place };

    ghost invariant = { λ s. IsSeated s.place };
}

impl Seat {
    /// The number of its thread.
    pub fn number(&self) -> u32
        ensures { result ≡ self.now.machine.number }
    {
        self.place.thread.number()
    }

    /// Runs the thread's local work, so that the session can be asked for its next step. Where the thread is over, or that was done, it
    /// does nothing. It takes no turn and waits for none.
    ///
    /// # Errors
    ///
    /// Memory ran out. A later call goes on.
    pub fn advance(&mut self, code: &Code) -> Result<(), NoMemory>
        requires { code.now ≡ code_in self.old.terms }
        ensures advances { Advances self.old self.new }
        ensures part { TakesPart self.new }
        ensures asks { OnOk result (MayAsk self.new) }
        ensures short { OnErr result (StopsShort self.old self.new) }
    {
        self.place.advance(code)
    }
}
