//! Lists that grow within their room, and searches among notes of events.
ghost use Rattle.std.specs.Prelude.{◌≡◌, ◌<◌, ◌≤◌, ◌++◌, ◌∷◌, ◌+◌, [], ℕ, MatchOption, length, vec_capacity};
ghost use Rattle.c11_latest.specs.Notes.{IsNoted, HasNoneUpTo, IsLastUpTo};
ghost use Rattle.c11_scorder.specs.Tables.{noted_at};
ghost use Rattle.c11_mograph.specs.Made.{list_of};

use c11_latest::Latest;

/// Adds the item. There is room for it.
pub(crate) fn put<T: Drop>(list: &mut Vec<T>, item: T)
    requires { length list.old.items < vec_capacity list.old }
    ensures items { list.new.items ≡ list.old.items ++ item ∷ [] }
    ensures capacity { vec_capacity list.old ≤ vec_capacity list.new }
{
    match list.push(item) {
        Ok(()) => {}
        Err(_) => unreachable!(),
    }
}

/// Adds the number, where there is one. There is room for it.
pub(crate) fn put_some(list: &mut Vec<u32>, number: Option<u32>)
    requires { length list.old.items < vec_capacity list.old }
    ensures items { list.new.items ≡ list.old.items ++ list_of number }
    ensures capacity { vec_capacity list.old ≤ vec_capacity list.new }
{
    match number {
        Some(number) => put(list, number),
        None => {}
    }
}

/// Notes the number of the cell and the thread, where there is a cell.
pub(crate) fn note_at(latest: &mut Latest, cell: Option<u32>, thread: u32, number: u32)
    requires room { length latest.old.notes < latest.old.room }
    requires rises { (c t y : ℕ) → IsNoted latest.old.notes c t y → y < number }
    ensures { latest.new ≡ record latest.old { notes = noted_at cell thread number latest.old.notes } }
{
    match cell {
        Some(cell) => latest.note(cell, thread, number),
        None => {}
    }
}

/// The largest number up to the bound that is noted of the cell and the thread. No event has the number 0, so up to that nothing is
/// searched for.
pub(crate) fn last_up_to(latest: &Latest, cell: u32, thread: u32, bound: u32) -> Option<u32>
    requires { (c t y : ℕ) → IsNoted latest.now.notes c t y → 0 < y }
    ensures { MatchOption result (HasNoneUpTo latest.now.notes cell thread bound) (IsLastUpTo latest.now.notes cell thread bound) }
{
    if bound == 0 {
        None
    } else {
        latest.last_up_to(cell, thread, bound)
    }
}
