//! Which texts are programs, the trees that they have, and the refusals of all others, with their places. Each line of the input is
//! a row, which says what is to be found; each part of the rows is printed with their number, and each row that does not hold.
#![tactic(auto)]

mod accepting;
mod marked;
mod rows;
mod shapes;
mod syntax;

use c11_tables::Part;
use std::io;

fn main(rt: HostRuntime) -> io::Result<()> {
    let mut part = None;
    for line in rt.lines(rt.alloc()) {
        let line = line?;
        match Part::begun(rt.alloc(), line.as_str())? {
            Some(begun) => {
                if let Some(ended) = part {
                    println!(rt; "{ended}")?;
                }
                part = Some(begun);
            }
            None => {
                if let Some(found) = rows::found(rt.alloc(), &mut part, line.as_str())? {
                    println!(rt; "{found}")?;
                }
            }
        }
    }
    if let Some(ended) = part {
        println!(rt; "{ended}")?;
    }
    Ok(())
}
