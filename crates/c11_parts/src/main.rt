//! The parts that a memory is made of, each by itself: the seq_cst tables, the graph of chains, what a read may take, plain accesses,
//! and what threads and mutexes answer. Each line of the input is a row, which says what is done or what is to be found, and a blank
//! line ends a play of them; a line that begins with `// ` is a comment. Each part of the rows is printed with their number, and of
//! each play the first row that does not hold. Random plays that are compared with plain computations follow.
#![tactic(auto)]

mod closure;
mod graph;
mod mismatch;
mod plays;
mod races;
mod reads;
mod replies;
mod row;
mod scans;
mod seq_cst;
mod shadow;

use c11_tables::Part;
use mismatch::Mismatch;
use std::alloc::Global;
use std::io;

/// Plays the lines that were read, and forgets them.
fn end_play(
    rt: &impl Print,
    alloc: Global,
    part: &mut Option<Part>,
    play: &mut String,
) -> io::Result<()> {
    if let Err(mismatch) = plays::play(alloc, part, play.as_str()) {
        println!(rt; "{mismatch}")?;
    }
    play.clear();
    Ok(())
}

fn print_compared(rt: &impl Print, what: &str, compared: Result<u32, Mismatch>) -> io::Result<()> {
    match compared {
        Ok(count) => println!(rt; "{count} random {what}"),
        Err(mismatch) => println!(rt; "random {what}: {mismatch}"),
    }
}

fn main(rt: HostRuntime) -> io::Result<()> {
    let alloc = rt.alloc();
    let mut part = None;
    let mut play = String::new(alloc);
    for line in rt.lines(alloc) {
        let line = line?;
        let begun = Part::begun(alloc, line.as_str())?;
        if line.starts_with("// ") {
            continue;
        }
        if begun.is_none() && !line.is_empty() {
            play.push_str(line.as_str())?;
            play.push('\n')?;
            continue;
        }
        end_play(&rt, alloc, &mut part, &mut play)?;
        if begun.is_some() {
            if let Some(ended) = part {
                println!(rt; "{ended}")?;
            }
            part = begun;
        }
    }
    end_play(&rt, alloc, &mut part, &mut play)?;
    if let Some(ended) = part {
        println!(rt; "{ended}")?;
    }
    let lists = scans::compared(alloc);
    print_compared(&rt, "lists of seq_cst events, answered as by scans", lists)?;
    let graphs = closure::compared(alloc);
    print_compared(&rt, "graphs, reached as in a plain closure", graphs)?;
    let accesses = races::compared(alloc);
    print_compared(
        &rt,
        "lists of plain accesses, answered as by scans",
        accesses,
    )
}
