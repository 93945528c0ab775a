//! A seat waits for its turn.
ghost use Rattle.std.specs.Prelude.{◌≡◌, [], IsTrue, IsFalse};
ghost use Rattle.c11_session.specs.declared.rule.Stage.TheVariants.{Waiting};
ghost use Rattle.c11_session.specs.Steps.{IsAt, MayDraw};
ghost use Rattle.c11_session.specs.Places.{Arrives, Begins, StillWaits};

use crate::front::served_in;
use crate::steps::{Board, Chair, draw, exchange, poll};
use c11_memory::Memory;
use std::sync::Wait;

/// The ticket of the seat in turn, and the memory, which it has taken out of the slot.
#[derive(Drop)]
pub(crate) struct Begun {
    pub(crate) ticket: u64,
    pub(crate) memory: Memory,
}

/// Draws a ticket, waits until it is served, and takes the memory.
pub(crate) fn begin<R: Wait>(rt: &R, board: &Board, chair: &mut Chair) -> Begun
    requires table { IsAt board.now.table_id chair.old.table_id }
    requires may { MayDraw chair.old.me.0 }
    requires empty { chair.old.me.1 ≡ [] }
    ensures table { chair.new.table_id ≡ chair.old.table_id }
    ensures begins { Begins chair.old.me chair.new.me result.ticket result.memory }
{
    let ticket = draw(board, chair);
    await_turn(rt, board, chair, ticket);
    let Some(memory) = exchange(board, chair, None) else {
        unreachable!()
    };
    Begun { ticket, memory }
}

// Waits until the ticket is served.
fn await_turn<R: Wait>(rt: &R, board: &Board, chair: &mut Chair, ticket: u64)
    requires table { IsAt board.now.table_id chair.old.table_id }
    requires waits { chair.old.me.0.stage ≡ Waiting ticket }
    requires empty { chair.old.me.1 ≡ [] }
    ensures table { chair.new.table_id ≡ chair.old.table_id }
    ensures arrives { Arrives ticket chair.old.me chair.new.me }
{
    for _ in rt.forever() {
        if is_served(board, chair, ticket) {
            return;
        }
    }
    unreachable!()
}

// One load, and whether the ticket is served.
fn is_served(board: &Board, chair: &mut Chair, ticket: u64) -> bool
    requires table { IsAt board.now.table_id chair.old.table_id }
    requires waits { chair.old.me.0.stage ≡ Waiting ticket }
    requires empty { chair.old.me.1 ≡ [] }
    ensures table { chair.new.table_id ≡ chair.old.table_id }
    ensures arrives { IsTrue result → Arrives ticket chair.old.me chair.new.me }
    ensures waits { IsFalse result → StillWaits chair.old.me chair.new.me }
{
    served_in(poll(board, chair)) == ticket
}
