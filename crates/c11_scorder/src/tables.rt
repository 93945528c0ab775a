//! Changes of the tables.
ghost use Rattle.std.specs.Prelude.{◌≡◌, ◌<◌, ℕ, Some, None, length, MatchOption};
ghost use Rattle.c11_latest.specs.Notes.{Notes, IsNoted};
ghost use Rattle.c11_scorder.specs.Tables.{noted_at, set_at, later};

use c11_latest::Latest;

/// Notes the number of the cell and the thread, where there is a cell.
pub(crate) fn note_at(latest: &mut Latest, cell: Option<u32>, thread: u32, number: u32)
    requires room { length latest.old.notes < latest.old.room }
    requires rises { (c t y : ℕ) → IsNoted latest.old.notes c t y → y < number }
    ensures { latest.new ≡ record latest.old { notes = noted_at cell thread number latest.old.notes } }
{
    match cell {
        Some(cell) => latest.note(cell, thread, number),
        None => {}
    }
}

/// Keeps the number as the last of this place, where there is one.
pub(crate) fn set_at(lasts: &mut [Option<u32>], place: Option<u32>, number: u32)
    requires { (p : ℕ) → place ≡ Some p → p < length lasts.old }
    ensures { lasts.new ≡ set_at place number lasts.old }
{
    match place {
        Some(place) => lasts[place as usize] = Some(number),
        None => {}
    }
}

/// The larger of two numbers, where there are any.
pub(crate) fn later(first: Option<u32>, second: Option<u32>) -> Option<u32>
    ensures { result ≡ later first second }
{
    match first {
        Some(one) => match second {
            Some(other) => Some(if one < other { other } else { one }),
            None => first,
        },
        None => second,
    }
}
