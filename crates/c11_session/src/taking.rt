//! A session ends.
ghost use Rattle.std.specs.Prelude.{◌≡◌, ◌<◌, [], true, length, IfOk, IsOk};
ghost use Rattle.std.specs.List.{All, Any};
ghost use Rattle.c11_events.specs.Replies.{thread_limit};
ghost use Rattle.c11_session.specs.Sessions.{Gathers, IsTaken, StandsFor};

use crate::seat::Seat;
use crate::session::Session;
use crate::steps::{Board, Chair, gather};
use c11_memory::Memory;
use c11_num::NoMemory;

impl Session {
    /// Ends the session, and gives the memory. All seats come back, and one of them has seen the session stopped.
    pub fn take(self, seats: Vec<Seat>) -> Result<Memory, NoMemory>
        requires all { length seats.items ≡ thread_limit }
        requires table { All (λ s. s.table ≡ self.table) seats.items }
        requires stopped { Any (λ s. s.account.stopped ≡ true) seats.items }
        ensures ok { IsOk result }
        ensures taken { IfOk result (λ memory. IsTaken self.terms seats.items memory) }
    {
        let Session { table } = self;
        let chair = gather_all(&table.shared, seats);
        let mut closed = table.close_with(chair);
        let Some(memory) = closed.take(0) else {
            unreachable!()
        };
        closed.free();
        Ok(memory)
    }
}

// Joins the seats into one.
fn gather_all(board: &Board, mut seats: Vec<Seat>) -> Chair
    requires shape { (board.now.table_id.words ≡ 2) × (board.now.table_id.slots ≡ 1) }
    requires table { All (λ s. s.table ≡ board.now.table_id) seats.items }
    requires some { 0 < length seats.items }
    ensures { Gathers board.now.table_id seats.items result }
{
    let Some(last) = seats.pop() else {
        unreachable!()
    };
    let mut chair = chair_of(last);
    while let Some(seat) = seats.pop() {
        gather(board, &mut chair, chair_of(seat));
    }
    chair
}

// The seat at the table.
fn chair_of(seat: Seat) -> Chair
    ensures { StandsFor seat result }
{
    seat.place.chair
}
