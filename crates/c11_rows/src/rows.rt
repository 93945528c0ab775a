use super::runs;
use super::scene::Scene;
use c11_tables::Part;
use std::alloc::{AllocError, Global};

/// What is found instead of what the line says, in words; nothing where it holds.
///
/// A line `program` begins a program, and each line of its text stands behind two spaces. What follows is of that program, until the
/// next program or the next part of the rows. Empty lines and lines that begin with `//` are for the reader alone.
pub fn found(
    alloc: Global,
    part: &mut Option<Part>,
    scene: &mut Scene,
    line: &str,
) -> Result<Option<String>, AllocError> {
    if line.is_empty() || line.starts_with("//") {
        return Ok(None);
    }
    let found = match line.strip_prefix("  ") {
        Some(text) => scene.add(alloc, text)?,
        None if line == "program" => scene.clear(alloc),
        None => row_found(alloc, part, scene, line)?,
    };
    match found {
        Some(found) => Ok(Some(format!(in alloc; "row {}, {found}: {line}", scene.row())?)),
        None => Ok(None),
    }
}

/// The same of a line that is no part of a program. In a part of steps a row has several lines.
fn row_found(
    alloc: Global,
    part: &mut Option<Part>,
    scene: &mut Scene,
    line: &str,
) -> Result<Option<String>, AllocError> {
    let Some(part) = part else {
        return Ok(Some(String::from_str(alloc, "a row without a part")?));
    };
    if part.kind() == "has the steps" && !line.starts_with("row ") {
        return scene.play(alloc, line);
    }
    scene.count(part.next());
    match part.kind() {
        "has the steps" => scene.begin(alloc, line),
        "offers what the plain program offers" => runs::offers(alloc, scene.text(), line),
        "prints" => runs::prints(alloc, scene.text(), line),
        "prints for threads" => runs::threads(alloc, scene.text(), line),
        "draws" => runs::draws(alloc, scene.text(), line),
        _ => Ok(Some(String::from_str(alloc, "no such kind")?)),
    }
}
