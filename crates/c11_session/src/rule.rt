//! What the seats of a session know, the rule that holds of them, and the kinds of step.

use atomic_table::{Join, Play, Split, TableRule};
use c11_events::Entry;
use c11_memory::Memory;
use c11_turn::Terms;
use std::collections::LinkedList;

/// What is known of a seat.
pub struct Account {
    /// The numbers of the threads whose steps it makes.
    pub numbers: LinkedList<u32>,
    /// The history that it has seen.
    pub seen: LinkedList<Entry>,
    /// The entries that it made.
    pub made: LinkedList<Entry>,
    /// Whether it has seen the session stopped.
    pub stopped: bool,
    /// How often it loaded the second word.
    pub loads: u64,
    /// How many tickets it drew.
    pub drawn: u64,
    /// The program, the seed and the bound; none in a spent view.
    pub terms: Option<Terms>,
    /// One more than the number of steps in the history at which it last waited for another; 0 before.
    pub waited: u64,
    /// Whether it takes no further turn.
    pub given_up: bool,
}

/// Where a seat stands, with its ticket where it has one.
pub enum Stage {
    Idle,
    Waiting(u64),
    InTurn(u64),
    Spent,
}

/// A seat's view. No value of it is made.
pub struct View {
    pub stage: Stage,
    pub mine: Account,
    /// The accounts of the seats that were joined into this one.
    pub gathered: LinkedList<Account>,
}

/// The rule of the session's table: two words, of which the first counts the tickets drawn, and one slot, for the memory.
pub struct Turns;

impl TableRule<Option<Memory>, View, Terms> for Turns {
    ghost use Rattle.c11_session.specs.Turns.{TakeTurns, first_view};

    ghost holds = { TakeTurns };

    ghost first = { first_view };
}

/// A ticket is drawn.
pub struct Draws;

impl Play<Option<Memory>, View> for Draws {
    ghost use Rattle.c11_session.specs.Steps.{DrawsTicket};

    ghost then = { λ _ before found after. DrawsTicket before found after };
}

/// An idle seat loads the second word.
pub struct Looks;

impl Play<Option<Memory>, View> for Looks {
    ghost use Rattle.c11_session.specs.Steps.{LooksAtFront};

    ghost then = { λ _ before found after. LooksAtFront before found after };
}

/// A waiting seat loads the second word, and its turn may have come.
pub struct Polls;

impl Play<Option<Memory>, View> for Polls {
    ghost use Rattle.c11_session.specs.Steps.{PollsForTurn};

    ghost then = { λ _ before found after. PollsForTurn before found after };
}

/// A turn in which an entry was made ends.
pub struct EndsWithEntry;

impl Play<Option<Memory>, View> for EndsWithEntry {
    ghost use Rattle.c11_session.specs.Steps.{EndsTurn, went};

    ghost then = { λ _ before found after. EndsTurn went before after };
}

/// A turn of a seat that waits for another thread ends.
pub struct EndsWaiting;

impl Play<Option<Memory>, View> for EndsWaiting {
    ghost use Rattle.c11_session.specs.Steps.{EndsTurn, waits};

    ghost then = { λ _ before found after. EndsTurn waits before after };
}

/// The last turn of a seat ends.
pub struct EndsForGood;

impl Play<Option<Memory>, View> for EndsForGood {
    ghost use Rattle.c11_session.specs.Steps.{EndsTurn, for_good};

    ghost then = { λ _ before found after. EndsTurn for_good before after };
}

/// A seat hands one of its numbers to a new one.
pub struct OneNumber;

impl Split<View> for OneNumber {
    ghost use Rattle.c11_session.specs.Steps.{all_but_one, one_of};

    ghost left = { all_but_one };

    ghost right = { one_of };
}

/// A seat gathers the account of another, which is spent.
pub struct Gathers;

impl Join<View> for Gathers {
    ghost use Rattle.c11_session.specs.Steps.{gathering, spent_view};

    ghost both = { gathering };

    ghost spent = { spent_view };
}
