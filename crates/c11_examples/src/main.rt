//! The worked examples of the memory model, asked of the plain programs of `c11_plain`; then, on random lists of events, chains
//! compared with orders, and what `c11_mayread` keeps step by step compared with the plain programs. Each line of the input is a row,
//! a step or a question about the steps so far; each part of the rows is printed with their number, and each row that does not hold.
#![tactic(auto)]

mod acts;
mod claims;
mod draws;
mod kept;
mod rows;
mod steps;
mod stop;
mod ways;

use c11_tables::Part;
use std::io;

fn main(rt: HostRuntime) -> io::Result<()> {
    let alloc = rt.alloc();
    let mut part = None;
    let mut events = None;
    for line in rt.lines(alloc) {
        let line = line?;
        match Part::begun(alloc, line.as_str())? {
            Some(begun) => {
                if let Some(ended) = part {
                    println!(rt; "{ended}")?;
                }
                part = Some(begun);
                events = None;
            }
            None => {
                if let Some(found) = rows::found(alloc, &mut part, &mut events, line.as_str())? {
                    println!(rt; "{found}")?;
                }
            }
        }
    }
    if let Some(ended) = part {
        println!(rt; "{ended}")?;
    }
    println!(rt;
        "{}",
        stop::told(alloc, ways::chains_decide_what_orders_decide(alloc))?
    )?;
    println!(rt;
        "{}",
        stop::told(alloc, kept::each_step_offers_the_same(alloc))?
    )?;
    Ok(())
}
