//! Command lines and programs, and what is answered to them, to the byte. The input has parts with texts of programs, each followed by
//! rows over it; each part is printed with the number of its rows, and each row that does not hold.
#![tactic(auto)]

mod answer;
mod case;
mod line;
mod runs;
mod streams;
mod sums;

use c11_tables::Part;
use case::Case;
use std::io;

fn main(rt: HostRuntime) -> io::Result<()> {
    let mut part = None;
    let mut case = Case::new(rt.alloc());
    for line in rt.lines(rt.alloc()) {
        let line = line?;
        let found = case.take(&rt, rt.alloc(), &mut part, line.as_str())?;
        print!(rt; "{found}")?;
        if let Some(begun) = Part::begun(rt.alloc(), line.as_str())? {
            if let Some(ended) = part {
                println!(rt; "{ended}")?;
            }
            part = Some(begun);
        }
    }
    let mut found = String::new(rt.alloc());
    case.settle(rt.alloc(), &mut found)?;
    print!(rt; "{found}")?;
    if let Some(ended) = part {
        println!(rt; "{ended}")?;
    }
    Ok(())
}
