//! Random plain accesses, answered as by a scan of all that came before.
ghost use Rattle.std.specs.Prelude.{◌≡◌, ◌<◌, length};

use super::mismatch::{Mismatch, expect};
use super::shadow::{THREADS, clock_of};
use c11_clock::Clock;
use c11_shadow::Shadow;
use rand_core::utils::NextWord;
use rand_pcg::Pcg32;
use std::alloc::Global;

/// An access that was made: its thread, its number, its cell, and whether it wrote.
type Made = (u32, u32, u32, bool);

/// The latest of these accesses that a further one races with, by a scan of all.
fn scan(made: &[Made], thread: u32, cell: u32, write: bool, clock: &Clock) -> Option<u32>
    requires { length clock.now ≡ 4 }
{
    let mut racing = None;
    for (other, number, its_cell, wrote) in made {
        let conflicts = *its_cell == cell && *other != thread && (write || *wrote);
        if conflicts && *other < 4 && !clock.covers(*other, *number) {
            racing = Some(*number);
        }
    }
    racing
}

/// A thread learns all that another knows.
fn learn(known: &mut [[u32; 4]; 4], thread: usize, teacher: usize)
    requires thread { thread < 4 }
    requires teacher { teacher < 4 }
{
    let lesson = known[teacher];
    for other in 0..4 {
        known[thread][other] = known[thread][other].max(lesson[other]);
    }
}

/// Random accesses of two cells by four threads that learn from each other, up to the first race. Whether there was one.
fn play_random(alloc: Global, words: &mut Pcg32) -> Result<bool, Mismatch> {
    let mut shadow = Shadow::open(alloc, 2, THREADS)?;
    let mut known = [[0; 4]; 4];
    let mut made = Vec::new(alloc);
    for number in 1..20 {
        let thread = words.next_word() % 4;
        let cell = words.next_word() % 2;
        let write = words.next_word() % 4 == 0;
        for teacher in 0..4 {
            if words.next_word() % 8 != 0 {
                learn(&mut known, thread as usize, teacher);
            }
        }
        let clock = clock_of(alloc, known[thread as usize])?;
        shadow.room(cell)?;
        let answer = shadow.access(cell, thread, number, &clock, write);
        let wanted = scan(made.as_slice(), thread, cell, write, &clock);
        expect(alloc, "the access that races", &answer, &wanted)?;
        if answer.is_some() {
            return Ok(true);
        }
        made.push((thread, number, cell, write))?;
        known[thread as usize][thread as usize] = number;
    }
    Ok(false)
}

/// How many random lists were compared. Many have a race, and many have none.
pub fn compared(alloc: Global) -> Result<u32, Mismatch> {
    let mut words = Pcg32::new(7, 11);
    let mut lists = 0u32;
    let mut races = 0u32;
    for _ in 0..300u32 {
        if play_random(alloc, &mut words)? {
            races = races.saturating_add(1);
        }
        lists = lists.saturating_add(1);
    }
    if 50 < races && races < 250 {
        Ok(lists)
    } else {
        Err(Mismatch::Found(format!(in alloc; "{races} races in {lists} lists")?))
    }
}
