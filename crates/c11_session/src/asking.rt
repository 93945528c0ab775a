//! A seat asks for its thread's next step.
ghost use Rattle.std.specs.Prelude.{◌≡◌, true, false, is_some, ℕ};
ghost use Rattle.c11_events.specs.declared.reply.Holder.{Holder as SpecHolder};
ghost use Rattle.c11_session.specs.declared.place.Rest.TheVariants as rest;
ghost use Rattle.c11_session.specs.Seats.{Again, Answers, Keeps, MayAsk, Tells, says_short};
ghost use Rattle.c11_session.specs.Steps.{IsAt};
ghost use Rattle.c11_session.specs.Places.{IsSeated, sitting_of};

use crate::answer::Turn;
use crate::place::{Place, Rest};
use crate::steps::Board;
use std::sync::Wait;

impl Place {
    /// Offers what the thread asks for.
    pub(crate) fn ask<R: Wait>(&mut self, rt: &R, board: &Board) -> Turn
        requires table { IsAt board.now.table_id self.old.chair.table_id }
        requires seated { IsSeated self.old }
        requires may { MayAsk (sitting_of self.old) }
        ensures seated { IsSeated self.new }
        ensures keeps { Keeps (sitting_of self.old) (sitting_of self.new) }
        ensures answers { Answers (sitting_of self.old) (sitting_of self.new) result }
        ensures again { Again (sitting_of self.old) (sitting_of self.new) }
    {
        if self.over {
            return Turn::Ended;
        }
        match self.rest {
            Rest::Ready => self.play(rt, board),
            Rest::Waits { .. } => self.ask_once_more(rt, board),
            Rest::Stopped(verdict) => Turn::Stopped(verdict),
            Rest::NoMemory => Turn::NoMemory,
        }
    }

    // Looks whether anything was added since its thread was found to wait, and takes a turn only then.
    fn ask_once_more<R: Wait>(&mut self, rt: &R, board: &Board) -> Turn
        requires table { IsAt board.now.table_id self.old.chair.table_id }
        requires seated { IsSeated self.old }
        requires going { self.old.over ≡ false }
        requires asked { is_some self.old.ask ≡ true }
        requires waits { (holder : SpecHolder) × (count : ℕ) × (self.old.rest ≡ rest.Waits holder count) }
        ensures seated { IsSeated self.new }
        ensures keeps { Keeps (sitting_of self.old) (sitting_of self.new) }
        ensures answers { Answers (sitting_of self.old) (sitting_of self.new) result }
        ensures again { Again (sitting_of self.old) (sitting_of self.new) }
    {
        self.look(board);
        if let Rest::Waits { holder, length } = self.rest {
            return Turn::Waits { holder, length };
        }
        self.play(rt, board)
    }

    // Takes a turn and ends it.
    fn play<R: Wait>(&mut self, rt: &R, board: &Board) -> Turn
        requires table { IsAt board.now.table_id self.old.chair.table_id }
        requires seated { IsSeated self.old }
        requires going { self.old.over ≡ false }
        requires asked { is_some self.old.ask ≡ true }
        requires ready { self.old.rest ≡ rest.Ready }
        ensures seated { IsSeated self.new }
        ensures keeps { Keeps (sitting_of self.old) (sitting_of self.new) }
        ensures answers { Answers (sitting_of self.old) (sitting_of self.new) result }
        ensures again { Again (sitting_of self.old) (sitting_of self.new) }
    {
        let played = self.take_turn(rt, board);
        self.finish(board, played.turned, played.word)
    }
}
