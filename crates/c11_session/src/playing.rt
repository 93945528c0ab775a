//! A seat takes its turn.
ghost use Rattle.std.specs.Prelude.{◌≡◌, true, false, is_some};
ghost use Rattle.c11_session.specs.declared.place.Rest.TheVariants as rest;
ghost use Rattle.c11_session.specs.Steps.{IsAt};
ghost use Rattle.c11_session.specs.Places.{CameToTurn, HasPlayed, IsSeated};

use crate::front::word_with;
use crate::place::Place;
use crate::steps::{Board, exchange};
use crate::waiting::{Begun, begin};
use c11_turn::laws::histories_are_short;
use c11_turn::{Turned, turn};
use std::sync::Wait;

/// What became of a turn, and the second word that is due when it ends.
#[derive(Clone, Copy, Debug)]
pub(crate) struct Played {
    pub(crate) turned: Turned,
    pub(crate) word: u64,
}

impl Place {
    /// Draws a ticket, waits for its turn, and makes a turn of its thread on the memory, which is back in the slot.
    pub(crate) fn take_turn<R: Wait>(&mut self, rt: &R, board: &Board) -> Played
        requires table { IsAt board.now.table_id self.old.chair.table_id }
        requires seated { IsSeated self.old }
        requires going { self.old.over ≡ false }
        requires asked { is_some self.old.ask ≡ true }
        requires ready { self.old.rest ≡ rest.Ready }
        ensures came { CameToTurn self.old self.new }
        ensures played { HasPlayed self.new result.turned result.word }
    {
        histories_are_short();
        let Begun { ticket, mut memory } = begin(rt, board, &mut self.chair);
        let Some(ask) = &self.ask else { unreachable!() };
        let turned = turn(&mut memory, self.thread.number(), ask);
        let word = word_with(ticket + 1, &memory);
        exchange(board, &mut self.chair, Some(memory));
        Played { turned, word }
    }
}
