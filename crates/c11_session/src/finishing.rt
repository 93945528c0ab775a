//! A seat ends its turn.
ghost use Rattle.std.specs.Prelude.{◌≡◌, ◌↔◌, IsTrue};
ghost use Rattle.c11_meaning.specs.Progress.{Ends};
ghost use Rattle.c11_turn.specs.declared.turns.Turned.TheVariants as deed;
ghost use Rattle.c11_session.specs.Seats.{Keeps, Tells, says_short};
ghost use Rattle.c11_session.specs.Steps.{IsAt};
ghost use Rattle.c11_session.specs.Places.{Finishes, HasPlayed, IsSeated, SameCounts, sitting_of};

use crate::answer::Turn;
use crate::place::{Place, Rest};
use crate::steps::{Board, end_for_good, end_waiting, end_with_entry};
use c11_events::{Holder, Op, Reply, Verdict};
use c11_turn::Turned;

// Whether nothing comes after an operation with this reply.
fn ends(op: &Op, reply: &Reply) -> bool
    ensures { IsTrue result ↔ Ends op.now reply.now }
{
    match op {
        Op::End { value: _ } => true,
        Op::Stop { kind: _ } => true,
        _ => matches!(reply, Reply::Fault(_)),
    }
}

impl Place {
    /// Ends the turn, and keeps what the seat is told.
    pub(crate) fn finish(&mut self, board: &Board, turned: Turned, word: u64) -> Turn
        requires table { IsAt board.now.table_id self.old.chair.table_id }
        requires played { HasPlayed self.old turned word }
        ensures seated { IsSeated self.new }
        ensures keeps { Keeps (sitting_of self.old) (sitting_of self.new) }
        ensures tells { Tells (sitting_of self.old) (sitting_of self.new) result }
        ensures counts { SameCounts self.old.chair.me.0.mine self.new.chair.me.0.mine }
        ensures short { (sitting_of self.new).short ≡ says_short result }
    {
        match turned {
            Turned::Went(reply) => self.end_gone(board, reply, word),
            Turned::Waits { holder, length } => self.end_blocked(board, holder, length, word),
            Turned::Stopped(verdict) => self.end_stopped(board, verdict, word),
            Turned::NoMemory => self.end_short(board, word),
        }
    }

    // The thread made its step. Its machine is told every reply, the last one too: it stands for all of them.
    fn end_gone(&mut self, board: &Board, reply: Reply, word: u64) -> Turn
        requires table { IsAt board.now.table_id self.old.chair.table_id }
        requires played { HasPlayed self.old (deed.Went reply) word }
        ensures { Finishes self.old self.new result }
    {
        let Some(ask) = &self.ask else { unreachable!() };
        self.over = ends(&ask.op, &reply);
        end_with_entry(board, &mut self.chair, word);
        self.thread.give(&reply);
        self.ask = None;
        self.rest = Rest::Ready;
        Turn::Went(reply)
    }

    // The thread waits for this holder.
    fn end_blocked(&mut self, board: &Board, holder: Holder, length: u32, word: u64) -> Turn
        requires table { IsAt board.now.table_id self.old.chair.table_id }
        requires played { HasPlayed self.old (deed.Waits holder length) word }
        ensures { Finishes self.old self.new result }
    {
        end_waiting(board, &mut self.chair, word);
        self.rest = Rest::Waits { holder, length };
        Turn::Waits { holder, length }
    }

    // The session has stopped with this verdict.
    fn end_stopped(&mut self, board: &Board, verdict: Verdict, word: u64) -> Turn
        requires table { IsAt board.now.table_id self.old.chair.table_id }
        requires played { HasPlayed self.old (deed.Stopped verdict) word }
        ensures { Finishes self.old self.new result }
    {
        end_for_good(board, &mut self.chair, word);
        self.rest = Rest::Stopped(verdict);
        Turn::Stopped(verdict)
    }

    // Memory ran out.
    fn end_short(&mut self, board: &Board, word: u64) -> Turn
        requires table { IsAt board.now.table_id self.old.chair.table_id }
        requires played { HasPlayed self.old deed.NoMemory word }
        ensures { Finishes self.old self.new result }
    {
        end_for_good(board, &mut self.chair, word);
        self.rest = Rest::NoMemory;
        Turn::NoMemory
    }
}
