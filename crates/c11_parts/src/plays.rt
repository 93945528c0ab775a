use super::mismatch::Mismatch;
use super::{graph, reads, replies, seq_cst, shadow};
use c11_tables::Part;
use std::alloc::Global;

/// Plays the lines, by the kind of their part.
pub fn play(alloc: Global, part: &mut Option<Part>, lines: &str) -> Result<(), Mismatch> {
    if lines.is_empty() {
        return Ok(());
    }
    let Some(part) = part else {
        return Err(Mismatch::Found(format!(in alloc; "rows without a part: {lines}")?));
    };
    match part.kind() {
        "reads" => reads::play(alloc, part, lines),
        "seq_cst events" => seq_cst::play(alloc, part, lines),
        "chains" => graph::play(alloc, part, lines),
        "plain accesses" => shadow::play(alloc, part, lines),
        "epochs" => shadow::pack_all(alloc, part, lines),
        "threads and mutexes" => replies::play(alloc, part, lines),
        kind => Err(Mismatch::Found(format!(in alloc; "no such kind of rows: {kind}")?)),
    }
}
