ghost use Rattle.std.specs.Prelude.{◌≡◌, ◌≢◌, ◌<◌, ◌≤◌, ◌↔◌, IsTrue, IfOk, OnOk, length, replicate, slice_set};
ghost use Rattle.c11_clock.specs.Clocks.{joined, HasBelow};
ghost use Rattle.c11_mograph.specs.Heads.{AreLinked};
ghost use Rattle.c11_mograph.specs.Spread.{row, with_number, AreWide, IsSpread, IsSpreadTo, MayGain};

use crate::kept::Kept;
use c11_clock::Clock;
use c11_num::NoMemory;
use std::alloc::Global;

/// So many clocks for so many threads, 0 everywhere.
pub(crate) fn blank_clocks(alloc: Global, count: u32, threads: u32) -> Result<Vec<Clock>, NoMemory>
    ensures { IfOk result (λ clocks. clocks.items ≡ replicate count (replicate threads 0)) }
{
    let mut clocks = Vec::with_capacity(alloc, count as usize)?;
    for _ in 0..count {
        match Clock::new(alloc, threads) {
            Ok(clock) => clocks.push(clock)?,
            Err(_) => return Err(NoMemory),
        }
    }
    Ok(clocks)
}

/// A clock more, 0 everywhere, if there is none behind the first `used`.
pub(crate) fn add_spare(clocks: &mut Vec<Clock>, used: usize, threads: u32) -> Result<(), NoMemory>
    requires { used ≤ length clocks.old.items }
    ensures gained { MayGain threads clocks.old.items clocks.new.items }
    ensures spare { OnOk result (used < length clocks.new.items) }
{
    if used < clocks.len() {
        return Ok(());
    }
    match Clock::new(*clocks.allocator(), threads) {
        Ok(clock) => {
            clocks.push(clock)?;
            Ok(())
        }
        Err(_) => Err(NoMemory),
    }
}

/// Raises the thread's number in the clock at the place.
pub(crate) fn raise(clocks: &mut [Clock], place: usize, thread: u32, number: u32)
    requires place { place < length clocks.old }
    requires thread { thread < length (row clocks.old place) }
    ensures { clocks.new ≡ with_number clocks.old place thread number }
{
    clocks[place].raise(thread, number);
}

/// The clock at `to` takes over that at `from`, another place. Tells whether it grew.
pub(crate) fn grow(clocks: &mut [Clock], to: usize, from: usize) -> bool
    requires to { to < length clocks.old }
    requires from { from < length clocks.old }
    requires differ { to ≢ from }
    requires wide { length (row clocks.old from) ≡ length (row clocks.old to) }
    ensures grown { clocks.new ≡ slice_set clocks.old to (joined (row clocks.old to) (row clocks.old from)) }
    ensures raised { IsTrue result ↔ HasBelow (row clocks.old to) (row clocks.old from) }
{
    if from < to {
        let (earlier, rest) = clocks.split_at_mut(to);
        rest[0].grow_to(&earlier[from])
    } else {
        let (earlier, rest) = clocks.split_at_mut(from);
        earlier[to].grow_to(&rest[0])
    }
}

// One place takes over the clock at `from`, if its own covers the number.
fn spread_to(clocks: &mut [Clock], to: usize, from: usize, thread: u32, number: u32)
    requires to { to < length clocks.old }
    requires from { from < length clocks.old }
    requires thread { thread < length (row clocks.old from) }
    requires wide { AreWide (length (row clocks.old from)) clocks.old }
    ensures spread { IsSpreadTo clocks.old clocks.new to from thread number }
    ensures wide { AreWide (length (row clocks.old from)) clocks.new }
{
    if to != from && clocks[to].covers(thread, number) {
        grow(clocks, to, from);
    }
}

/// Each other head of the cell whose clock covers the number takes over the clock at `from`.
pub(crate) fn spread(
    clocks: &mut [Clock],
    kept: &[Kept],
    newest: &[u32],
    from: usize,
    cell: u32,
    thread: u32,
    number: u32,
)
    requires few { length kept.now ≤ length clocks.old }
    requires linked { AreLinked kept.now newest.now }
    requires cell { cell < length newest.now }
    requires from { from < length clocks.old }
    requires thread { thread < length (row clocks.old from) }
    requires wide { AreWide (length (row clocks.old from)) clocks.old }
    ensures spread { IsSpread kept.now clocks.old clocks.new 0 from cell thread number }
    ensures wide { AreWide (length (row clocks.old from)) clocks.new }
{
    let mut next = newest[cell as usize];
    while next > 0 {
        let to = next as usize - 1;
        spread_to(clocks, to, from, thread, number);
        next = kept[to].older;
    }
}
