//! The local work of a seat's thread.
ghost use Rattle.std.specs.Prelude.{◌≡◌, OnErr, OnOk};
ghost use Rattle.c11_session.specs.Places.{IsSeated, sitting_of};
ghost use Rattle.c11_session.specs.Seats.{Advances, MayAsk, StopsShort, code_in};

use crate::place::Place;
use c11_machine::Code;
use c11_machine::laws::asks_where_wanted;
use c11_num::NoMemory;
use c11_turn::laws::asks_until_over;

impl Place {
    /// Runs the thread's local work until what it asks for is in hand, unless the thread is over.
    ///
    /// # Errors
    ///
    /// Memory ran out. A later call goes on.
    pub(crate) fn advance(&mut self, code: &Code) -> Result<(), NoMemory>
        requires seated { IsSeated self.old }
        requires code { code.now ≡ code_in self.old.terms }
        ensures seated { IsSeated self.new }
        ensures advances { Advances (sitting_of self.old) (sitting_of self.new) }
        ensures asks { OnOk result (MayAsk (sitting_of self.new)) }
        ensures short { OnErr result (StopsShort (sitting_of self.old) (sitting_of self.new)) }
    {
        if self.over || self.ask.is_some() {
            return Ok(());
        }
        asks_until_over();
        asks_where_wanted();
        self.ask = Some(self.thread.advance(code)?);
        Ok(())
    }
}
