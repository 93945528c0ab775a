//! A session: one execution, and the seats of its threads.
ghost use Rattle.std.specs.Prelude.{◌≡◌};
ghost use Rattle.c11_session.specs.Seats.{Again, Answers, Keeps, Looks, MayAsk, TakesPart};

use crate::answer::Turn;
use crate::front::Front;
use crate::rule::{Turns, View};
use crate::seat::Seat;
use atomic_table::Table;
use c11_memory::Memory;
use c11_turn::Terms;
use std::alloc::Global;
use std::marker::Model;
use std::sync::Wait;

/// An execution that the seats of its threads share.
#[derive(Drop)]
pub struct Session {
    pub(crate) table: Table<Option<Memory>, View, Terms, Turns, Global>,
}

impl Model for Session {
    ghost use Rattle.std.specs.Prelude.{◌≡◌};
    ghost use Rattle.std.specs.Coded.{codes};
    ghost use Rattle.c11_turn.specs.contracts.terms.Terms as terms;
    ghost use Rattle.c11_session.specs.Sessions.{Sharing};

    ghost Value = { Sharing };

    ghost coded = { Prim.hlevel (codes, terms.the_row.coded) };

    ghost view = { λ s. record { table = s.table.shared.table_id; terms = s.table.shared.key } };

    ghost invariant = { λ s. (s.table.shared.table_id.words ≡ 2) × (s.table.shared.table_id.slots ≡ 1) };
}

/// A session as it opens, with the seats of its threads in order.
#[derive(Drop)]
pub struct Opened {
    pub session: Session,
    pub seats: Vec<Seat>,
}

impl Session {
    /// Loads the front of the execution for this seat. Takes no memory.
    pub fn look(&self, seat: &mut Seat) -> Front
        requires { seat.old.table ≡ self.now.table }
        ensures looks { Looks seat.old seat.new result }
        ensures part { TakesPart seat.new }
    {
        seat.place.look(&self.table.shared)
    }

    /// Offers what the seat's thread asks for, and tells what became of it. Before, the seat's `advance` has answered well since the
    /// opening or since its last reply, unless its thread is over.
    ///
    /// It waits for its turn where one is due. A seat that waited for another thread takes no turn where nothing was added since, and
    /// one that was told the verdict, or that memory ran out, is told so again.
    pub fn ask<R: Wait>(&self, rt: &R, seat: &mut Seat) -> Turn
        requires table { seat.old.table ≡ self.now.table }
        requires may { MayAsk seat.old }
        ensures keeps { Keeps seat.old seat.new }
        ensures answers { Answers seat.old seat.new result }
        ensures again { Again seat.old seat.new }
        ensures part { TakesPart seat.new }
    {
        seat.place.ask(rt, &self.table.shared)
    }
}
