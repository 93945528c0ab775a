//! Accesses of a plain cell, and the earlier access that races.
ghost use Rattle.std.specs.Prelude.{◌≡◌, length, IfOk};

use super::mismatch::Mismatch;
use super::row::Row;
use c11_clock::Clock;
use c11_shadow::{Shadow, epoch_number, epoch_thread, pack};
use c11_tables::Part;
use std::alloc::Global;

pub const THREADS: u32 = 4;

pub fn clock_of(alloc: Global, numbers: [u32; 4]) -> Result<Clock, Mismatch>
    ensures { IfOk result (λ clock. length clock ≡ 4) }
{
    let mut clock = Clock::new(alloc, THREADS)?;
    clock.raise(0, numbers[0]);
    clock.raise(1, numbers[1]);
    clock.raise(2, numbers[2]);
    clock.raise(3, numbers[3]);
    Ok(clock)
}

/// An access of the only cell.
#[derive(Clone, Copy)]
struct Access {
    thread: u32,
    number: u32,
    write: bool,
    // What the thread knows of each thread.
    known: [u32; 4],
    // The access that it races with.
    racing: Option<u32>,
}

/// `THREAD reads EVENT knows EVENTS races EVENT`, and so with `writes`: the access is this event, the thread knows of each thread up
/// to that event, and the access races with that one, or with `none`.
fn access_of(row: &Row) -> Result<Access, Mismatch> {
    match row.words() {
        [thread, what, number, "knows", known, "races", racing] => {
            let write = match *what {
                "reads" => false,
                "writes" => true,
                _ => return Err(row.unread()),
            };
            let list = row.numbers(known)?;
            let [main, first, second, third] = list.as_slice() else {
                return Err(row.unread());
            };
            Ok(Access {
                thread: row.below(thread, THREADS)?,
                number: row.number(number)?,
                write,
                known: [*main, *first, *second, *third],
                racing: row.some_number(racing)?,
            })
        }
        _ => Err(row.unread()),
    }
}

/// Accesses of one cell, each with the earlier access that it races with.
pub fn play(alloc: Global, part: &mut Part, lines: &str) -> Result<(), Mismatch> {
    let mut shadow = Shadow::open(alloc, 1, THREADS)?;
    shadow.room(0)?;
    for line in lines.lines() {
        let row = Row::new(alloc, part.next(), line)?;
        let access = access_of(&row)?;
        let clock = clock_of(alloc, access.known)?;
        let thread = access.thread % THREADS;
        let found = shadow.access(0, thread, access.number, &clock, access.write);
        row.expect(&found, &access.racing)?;
    }
    Ok(())
}

/// The epoch of a word, as `0x100000002`.
fn epoch_of(row: &Row, word: &str) -> Result<u64, Mismatch> {
    let Some(digits) = word.strip_prefix("0x") else {
        return Err(row.unread());
    };
    match u64::from_str_radix(digits, 16) {
        Ok(epoch) => Ok(epoch),
        Err(_) => Err(row.unread()),
    }
}

/// `THREAD NUMBER EPOCH`: the epoch, in base 16, is packed of both, and holds both.
fn pack_one(row: &Row) -> Result<(), Mismatch> {
    match row.words() {
        [thread, number, epoch] => {
            let thread = row.number(thread)?;
            let number = row.number(number)?;
            let epoch = epoch_of(row, epoch)?;
            row.expect(&pack(thread, number), &epoch)?;
            row.expect(&epoch_thread(epoch), &thread)?;
            row.expect(&epoch_number(epoch), &number)
        }
        _ => Err(row.unread()),
    }
}

/// Epochs, each by itself.
pub fn pack_all(alloc: Global, part: &mut Part, lines: &str) -> Result<(), Mismatch> {
    for line in lines.lines() {
        let row = Row::new(alloc, part.next(), line)?;
        pack_one(&row)?;
    }
    Ok(())
}
