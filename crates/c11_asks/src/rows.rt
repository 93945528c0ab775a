use super::block::Block;
use super::stop::found_by;
use super::{listings, tell};
use c11_tables::Part;
use std::alloc::{AllocError, Global};

/// What is found instead of what the line says, in words; nothing where it holds, or where its block has not ended.
///
/// A line behind two spaces is of a text, behind which stand the rows of it. An empty line or a heading ends such a block. Rows of a
/// block without a text are of the text before it.
pub fn found(
    alloc: Global,
    part: &mut Option<Part>,
    block: &mut Block,
    line: &str,
) -> Result<Option<String>, AllocError> {
    let Some(part) = part else {
        return Ok(Some(format!(in alloc; "a line without a part: {line}")?));
    };
    if line.is_empty() {
        return ended(alloc, part, block);
    }
    if let Some(text) = line.strip_prefix("  ") {
        if !block.rows.is_empty() {
            return Ok(Some(format!(in alloc; "a text behind rows: {line}")?));
        }
        block.push_line(text)?;
        return Ok(None);
    }
    let number = part.next();
    let compared = match part.kind() {
        "ends" => tell::ends(alloc, number, line),
        "measures" => listings::measures(alloc, number, line),
        _ => {
            block.push_row(alloc, number, line)?;
            Ok(())
        }
    };
    found_by(compared)
}

/// What is found instead of what the rows of the block say, which ends.
pub fn ended(alloc: Global, part: &Part, block: &mut Block) -> Result<Option<String>, AllocError> {
    let found = compared(alloc, part.kind(), block)?;
    block.end();
    Ok(found)
}

fn compared(alloc: Global, kind: &str, block: &Block) -> Result<Option<String>, AllocError> {
    let (text, rows) = (block.text.as_str(), block.rows.as_slice());
    if rows.is_empty() {
        return Ok(if block.is_begun {
            let (line, _) = text.split_once('\n').unwrap_or((text, ""));
            Some(format!(in alloc; "a text without rows: {line}")?)
        } else {
            None
        });
    }
    let compared = match kind {
        "tells" => tell::tells(alloc, text, rows),
        "emits" => listings::emits(alloc, text, rows),
        "has the code" => listings::has_code(alloc, text, rows),
        _ => return Ok(Some(format!(in alloc; "no such kind: {kind}")?)),
    };
    found_by(compared)
}
