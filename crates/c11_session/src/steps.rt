//! The steps on the session's table.
ghost use Rattle.std.specs.Prelude.{◌≡◌, ◌<◌, [], ◌∷◌, ℕ, List, Option};
ghost use Rattle.c11_session.specs.declared.rule.Stage.TheVariants.{Idle, Waiting};
ghost use Rattle.c11_session.specs.Steps.{IsAt, MayDraw, DrawsTicket, LooksAtFront, PollsForTurn, MayEnd, EndsTurn, went, waits, for_good, all_but_one, one_of, gathering};
ghost use Rattle.c11_session.specs.Turns.{Held};

use crate::rule::{
    Draws, EndsForGood, EndsWaiting, EndsWithEntry, Gathers, Looks, OneNumber, Polls, Turns, View,
};
use atomic_table::{Seat, Shared};
use c11_memory::Memory;
use c11_turn::Terms;

/// What all seats of a session share.
pub(crate) type Board = Shared<Option<Memory>, View, Terms, Turns>;

/// One of them, as the table knows it.
pub(crate) type Chair = Seat<Option<Memory>, View>;

/// Draws a ticket.
pub(crate) fn draw(board: &Board, chair: &mut Chair) -> u64
    requires table { IsAt board.now.table_id chair.old.table_id }
    requires may { MayDraw chair.old.me.0 }
    ensures table { chair.new.table_id ≡ chair.old.table_id }
    ensures drawn { DrawsTicket chair.old.me result chair.new.me }
{
    board.fetch_add::<Draws>(chair, 0, 1)
}

/// Loads the second word for an idle seat.
pub(crate) fn look(board: &Board, chair: &mut Chair) -> u64
    requires table { IsAt board.now.table_id chair.old.table_id }
    requires idle { chair.old.me.0.stage ≡ Idle }
    ensures table { chair.new.table_id ≡ chair.old.table_id }
    ensures seen { LooksAtFront chair.old.me result chair.new.me }
{
    board.load::<Looks>(chair, 1)
}

/// Loads the second word for a seat that waits for its turn.
pub(crate) fn poll(board: &Board, chair: &mut Chair) -> u64
    requires table { IsAt board.now.table_id chair.old.table_id }
    requires waits { (ticket : ℕ) × (chair.old.me.0.stage ≡ Waiting ticket) }
    requires empty { chair.old.me.1 ≡ [] }
    ensures table { chair.new.table_id ≡ chair.old.table_id }
    ensures seen { PollsForTurn chair.old.me result chair.new.me }
{
    board.load::<Polls>(chair, 1)
}

/// Takes what is in hand, and leaves this in its place.
pub(crate) fn exchange(board: &Board, chair: &mut Chair, new: Option<Memory>) -> Option<Memory>
    requires table { IsAt board.now.table_id chair.old.table_id }
    requires in_hand { (held : Held) × (chair.old.me.1 ≡ (0, held) ∷ []) }
    ensures table { chair.new.table_id ≡ chair.old.table_id }
    ensures before { chair.old.me.1 ≡ (0, result) ∷ [] }
    ensures after { chair.new.me ≡ (chair.old.me.0, (0, new) ∷ []) }
{
    board.exchange(chair, 0, new)
}

/// Ends a turn in which the seat made an entry. The second word is to be this.
pub(crate) fn end_with_entry(board: &Board, chair: &mut Chair, word: u64)
    requires table { IsAt board.now.table_id chair.old.table_id }
    requires may { MayEnd went chair.old.me word }
    ensures table { chair.new.table_id ≡ chair.old.table_id }
    ensures ended { EndsTurn went chair.old.me chair.new.me }
{
    board.swap::<EndsWithEntry>(chair, 1, word);
}

/// Ends a turn in which the seat found that it waits for another thread.
pub(crate) fn end_waiting(board: &Board, chair: &mut Chair, word: u64)
    requires table { IsAt board.now.table_id chair.old.table_id }
    requires may { MayEnd waits chair.old.me word }
    ensures table { chair.new.table_id ≡ chair.old.table_id }
    ensures ended { EndsTurn waits chair.old.me chair.new.me }
{
    board.swap::<EndsWaiting>(chair, 1, word);
}

/// Ends the last turn of a seat.
pub(crate) fn end_for_good(board: &Board, chair: &mut Chair, word: u64)
    requires table { IsAt board.now.table_id chair.old.table_id }
    requires may { MayEnd for_good chair.old.me word }
    ensures table { chair.new.table_id ≡ chair.old.table_id }
    ensures ended { EndsTurn for_good chair.old.me chair.new.me }
{
    board.swap::<EndsForGood>(chair, 1, word);
}

/// Hands one of the numbers of an idle seat that made nothing to a new one. It has two or more.
pub(crate) fn hand_out(board: &Board, chair: &mut Chair) -> Chair
    requires table { IsAt board.now.table_id chair.old.table_id }
    requires idle { chair.old.me.0.stage ≡ Idle }
    requires fresh { chair.old.me.0.mine.made ≡ [] }
    requires two { (n m : ℕ) × (more : List ℕ) × (chair.old.me.0.mine.numbers ≡ n ∷ m ∷ more) }
    ensures table { chair.new.table_id ≡ chair.old.table_id }
    ensures left { chair.new.me ≡ (all_but_one chair.old.me.0, chair.old.me.1) }
    ensures new_table { result.table_id ≡ chair.old.table_id }
    ensures right { result.me ≡ (one_of chair.old.me.0, []) }
{
    board.split_seat::<OneNumber>(chair)
}

/// Joins another idle seat into one, which has gathered nothing itself.
pub(crate) fn gather(board: &Board, chair: &mut Chair, other: Chair)
    requires table { IsAt board.now.table_id chair.old.table_id }
    requires other_table { other.table_id ≡ board.now.table_id }
    requires idle { chair.old.me.0.stage ≡ Idle }
    requires other_idle { other.me.0.stage ≡ Idle }
    requires alone { other.me.0.gathered ≡ [] }
    requires empty { other.me.1 ≡ [] }
    ensures table { chair.new.table_id ≡ chair.old.table_id }
    ensures both { chair.new.me ≡ (gathering chair.old.me.0 other.me.0, chair.old.me.1) }
{
    board.join_seat::<Gathers>(chair, other)
}
