//! What a seat is made of, and its load.
ghost use Rattle.std.specs.Prelude.{◌≡◌};
ghost use Rattle.c11_session.specs.Steps.{IsAt};

use crate::front::Front;
use crate::steps::{Board, Chair, look};
use c11_events::{Ask, Holder, Verdict};
use c11_machine::Thread;
use c11_meaning::laws::asks_are_legal;
use c11_turn::Terms;

/// What a seat was told last, as far as it still holds.
#[derive(Clone, Copy, Debug, PartialEq, Eq)]
pub(crate) enum Rest {
    /// Nothing: it may draw a ticket.
    Ready,
    /// Its thread waits for this holder, in the history that the seat has seen, of this length.
    Waits { holder: Holder, length: u32 },
    /// The session has stopped with this verdict.
    Stopped(Verdict),
    /// Memory ran out.
    NoMemory,
}

impl Rest {
    ghost use Rattle.c11_session.specs.Places.{still};

    // What holds of it after a load.
    fn after(self, front: Front) -> Rest
        ensures { result ≡ still self front.length front.stopped }
    {
        match self {
            Rest::Waits { holder, length } => {
                if front.stopped {
                    Rest::Ready
                } else if length == front.length {
                    Rest::Waits { holder, length }
                } else {
                    Rest::Ready
                }
            }
            other => other,
        }
    }
}

/// What a seat is made of.
#[derive(Drop)]
pub(crate) struct Place {
    pub(crate) chair: Chair,
    pub(crate) terms: Terms,
    pub(crate) thread: Thread,
    /// What the thread asks for, from when it has got there until it has the reply.
    pub(crate) ask: Option<Ask>,
    /// Whether the thread has had the reply to its End or a Stop, or a Fault.
    pub(crate) over: bool,
    pub(crate) rest: Rest,
}

impl Place {
    ghost use Rattle.c11_session.specs.Places.{IsSeated, sitting_of, still};
    ghost use Rattle.c11_session.specs.Seats.{Looks};

    /// Loads the second word.
    pub(crate) fn look(&mut self, board: &Board) -> Front
        requires table { IsAt board.now.table_id self.old.chair.table_id }
        requires seated { IsSeated self.old }
        ensures seated { IsSeated self.new }
        ensures looks { Looks (sitting_of self.old) (sitting_of self.new) result }
        ensures ask { self.new.ask ≡ self.old.ask }
        ensures over { self.new.over ≡ self.old.over }
        ensures rest { self.new.rest ≡ still self.old.rest result.length result.stopped }
    {
        asks_are_legal();
        let front = Front::of(look(board, &mut self.chair));
        self.rest = self.rest.after(front);
        front
    }
}
