use super::{accepting, shapes, syntax};
use c11_tables::Part;
use std::alloc::{AllocError, Global};

/// What is found instead of what the row says, in words; nothing where it holds.
pub fn found(
    alloc: Global,
    part: &mut Option<Part>,
    row: &str,
) -> Result<Option<String>, AllocError> {
    let Some(part) = part else {
        return Ok(Some(format!(in alloc; "a row without a part: {row}")?));
    };
    let number = part.next();
    let found = match part.kind() {
        "accepts" => accepting::accepts(alloc, row, accepting::MAIN)?,
        "accepts wholes" => accepting::accepts(alloc, row, "")?,
        "accepts lengths" => accepting::accepts_length(alloc, row)?,
        "has cells" => accepting::has_cells(alloc, row)?,
        "is an item" => syntax::is_item(alloc, row)?,
        "is in a block" => syntax::is_in_block(alloc, row)?,
        "needs in an item" => syntax::item_needs(alloc, row)?,
        "needs in a block" => syntax::block_needs(alloc, row)?,
        "reserves" => syntax::reserves(alloc, row)?,
        "nests" => syntax::nests(alloc, row)?,
        "repeats" => syntax::repeats(alloc, row)?,
        "binds" => syntax::binds(alloc, row)?,
        "has the shape" => shapes::has_shape(alloc, row)?,
        "has the places" => shapes::has_places(alloc, row)?,
        "has the type" => shapes::has_type(alloc, row)?,
        "casts to" => shapes::casts_to(alloc, row)?,
        _ => Some(String::from_str(alloc, "no such kind")?),
    };
    match found {
        Some(found) => Ok(Some(format!(in alloc; "row {number}, {found}: {row}")?)),
        None => Ok(None),
    }
}
