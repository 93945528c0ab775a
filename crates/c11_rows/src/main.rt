//! The worked examples of the memory model, step by step, and the offers and the output of whole runs. The input has programs, and
//! rows that say what becomes of them; each part of the rows is printed with their number, and each line that does not hold.
#![tactic(auto)]

mod operations;
mod player;
mod rows;
mod runs;
mod scene;
mod words;

use c11_tables::Part;
use scene::Scene;
use std::io;

fn main(rt: HostRuntime) -> io::Result<()> {
    let mut part = None;
    let mut scene = Scene::new(rt.alloc());
    read(&rt, &mut part, &mut scene)
}

/// Reads all lines. The part and the scene belong to the caller, so that no `?` here drops them.
fn read(
    rt: &(impl Input + Print + AllocGlobal),
    part: &mut Option<Part>,
    scene: &mut Scene,
) -> io::Result<()> {
    for line in rt.lines(rt.alloc()) {
        let line = line?;
        match Part::begun(rt.alloc(), line.as_str())? {
            Some(begun) => {
                if let Some(ended) = part {
                    println!(rt; "{ended}")?;
                }
                *part = Some(begun);
                *scene = Scene::new(rt.alloc());
            }
            None => {
                if let Some(found) = rows::found(rt.alloc(), part, scene, line.as_str())? {
                    println!(rt; "{found}")?;
                }
            }
        }
    }
    if let Some(ended) = part {
        println!(rt; "{ended}")?;
    }
    Ok(())
}
