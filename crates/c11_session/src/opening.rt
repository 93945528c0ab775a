//! A session opens.
ghost use Rattle.std.specs.Prelude.{◌≡◌, ◌<◌, ◌≤◌, [], IfOk};
ghost use Rattle.c11_events.specs.Replies.{thread_limit};
ghost use Rattle.c11_events.specs.Steps.{init_entries};
ghost use Rattle.c11_turn.specs.Hand.{FollowsTerms, program_in};
ghost use Rattle.c11_session.specs.Sessions.{AreFresh, IsFresh, IsOpened, fresh_view};
ghost use Rattle.c11_session.specs.Steps.{IsAt};
ghost use Rattle.c11_session.specs.Turns.{first_view};

use crate::front::word_with;
use crate::place::{Place, Rest};
use crate::seat::Seat;
use crate::session::{Opened, Session};
use crate::steps::{Board, Chair, hand_out};
use atomic_table::Table;
use c11_check::Checked;
use c11_machine::Thread;
use c11_memory::Memory;
use c11_num::NoMemory;
use c11_turn::Terms;
use c11_turn::laws::{histories_are_short, opened_is_memory};
use std::alloc::Global;

/// How many threads there may be, with `main`.
const THREADS: u32 = 16;

impl Session {
    /// A session of this program before its first step, with a seat for each thread.
    ///
    /// `steps` is the bound on steps, from 1 to 10,000.
    pub fn open(alloc: Global, checked: &Checked, seed: u64, steps: u32) -> Result<Opened, NoMemory>
        requires some_step { 0 < steps }
        requires few_steps { steps ≤ 10000 }
        ensures { IfOk result (λ o. IsOpened checked.now seed steps o.session o.seats.items) }
    {
        opened_is_memory();
        histories_are_short();
        let terms = Terms::of(checked, seed, steps);
        let memory = Memory::open(alloc, checked, seed, steps)?;
        let word = word_with(0, &memory);
        let mut slots = Vec::new(alloc);
        slots.push(Some(memory))?;
        let Ok((table, chair)) = Table::new(alloc, &[0, word], slots, &terms) else {
            return Err(NoMemory);
        };
        let seats = deal(alloc, &table.shared, chair, checked, &terms)?;
        Ok(Opened {
            session: Session { table },
            seats,
        })
    }
}

// Hands its number to a seat for each thread.
fn deal(
    alloc: Global,
    board: &Board,
    mut chair: Chair,
    checked: &Checked,
    terms: &Terms,
) -> Result<Vec<Seat>, NoMemory>
    requires table { IsAt board.now.table_id chair.table_id }
    requires first { chair.me ≡ (first_view terms.now, []) }
    requires program { terms.now.program.value ≡ checked.now }
    requires follows { FollowsTerms terms.now (init_entries (program_in terms.now).setting.atomic) }
    ensures { IfOk result (λ seats. AreFresh (record { table = board.now.table_id; terms = terms.now }) seats.items) }
{
    let mut seats = Vec::new(alloc);
    let mut number = THREADS - 1;
    while number > 0 {
        let other = hand_out(board, &mut chair);
        seats.insert(0, fresh(alloc, other, same(terms, checked), number))?;
        number -= 1;
    }
    seats.insert(0, fresh(alloc, chair, same(terms, checked), 0))?;
    Ok(seats)
}

// The seat of this thread before it has done anything.
fn fresh(alloc: Global, chair: Chair, terms: Terms, number: u32) -> Seat
    requires number { number < thread_limit }
    requires view { chair.me ≡ (fresh_view terms number, []) }
    requires follows { FollowsTerms terms (init_entries (program_in terms).setting.atomic) }
    ensures { IsFresh (record { table = chair.table_id; terms = terms }) number result }
{
    Seat {
        place: Place {
            chair,
            terms,
            thread: Thread::start(alloc, number),
            ask: None,
            over: false,
            rest: Rest::Ready,
        },
    }
}

// The same terms again. Their program is this.
fn same(terms: &Terms, checked: &Checked) -> Terms
    requires { terms.now.program.value ≡ checked.now }
    ensures { result ≡ terms.now }
{
    Terms::of(checked, terms.seed, terms.bound)
}
