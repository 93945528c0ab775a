//! What threads of whole programs ask for: texts go through the lexer, the parser, the checks, the flat code and the machine, the
//! replies are given by rows, and each operation is compared with one. Rows also say which instructions a text has. Each part of the
//! rows is printed with their number, and each row that does not hold.
#![tactic(auto)]

mod block;
mod listings;
mod operations;
mod replies;
mod rows;
mod stop;
mod tell;
mod words;

use block::Block;
use c11_tables::Part;
use std::io;

fn main(rt: HostRuntime) -> io::Result<()> {
    let mut part = None;
    let mut block = Block::new(rt.alloc());
    for line in rt.lines(rt.alloc()) {
        let line = line?;
        if let Some(begun) = Part::begun(rt.alloc(), line.as_str())? {
            end(&rt, &part, &mut block)?;
            part = Some(begun);
        } else if let Some(found) = rows::found(rt.alloc(), &mut part, &mut block, line.as_str())? {
            println!(rt; "{found}")?;
        }
    }
    end(&rt, &part, &mut block)
}

/// The part and its last block end.
fn end(rt: &(impl Print + AllocGlobal), part: &Option<Part>, block: &mut Block) -> io::Result<()> {
    if let Some(part) = part {
        if let Some(found) = rows::ended(rt.alloc(), part, block)? {
            println!(rt; "{found}")?;
        }
        println!(rt; "{part}")?;
    }
    Ok(())
}
