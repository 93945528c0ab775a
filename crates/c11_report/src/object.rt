ghost use Rattle.std.specs.Prelude.{◌≡◌, ◌++◌, OnOk};
ghost use Rattle.c11_report.specs.Execution.{index_bytes, cell_bytes, function_bytes, names_in, names_of};

use crate::text::Text;
use c11_check::Checked;
use c11_events::{CellInfo, FunctionInfo};
use c11_num::NoMemory;

// What a text takes from the program: its cells, mutexes and functions by their numbers.
#[derive(Clone, Copy)]
pub(crate) struct Objects<'a> {
    pub(crate) atomic: &'a [CellInfo],
    pub(crate) plain: &'a [CellInfo],
    pub(crate) mutexes: &'a [CellInfo],
    pub(crate) functions: &'a [FunctionInfo],
}

// The objects of a checked program.
pub(crate) fn objects_of<'a>(checked: &'a Checked) -> Objects<'a>
    ensures { names_in result ≡ names_of checked.now }
{
    Objects {
        atomic: checked.atomics(),
        plain: checked.plains(),
        mutexes: checked.mutexes(),
        functions: checked.functions(),
    }
}

// Adds the object's name.
pub(crate) fn push_cell(text: &mut Text, cells: &[CellInfo], cell: u32) -> Result<(), NoMemory>
    ensures { OnOk result (text.new ≡ text.old ++ cell_bytes cells.now cell) }
{
    match cells.get(cell as usize) {
        Some(info) => {
            text.bytes(info.name.as_slice())?;
            push_index(text, info.index)
        }
        None => Ok(()),
    }
}

fn push_index(text: &mut Text, index: Option<u32>) -> Result<(), NoMemory>
    ensures { OnOk result (text.new ≡ text.old ++ index_bytes index) }
{
    match index {
        Some(index) => {
            text.word("[")?;
            text.number(u64::from(index))?;
            text.word("]")
        }
        None => Ok(()),
    }
}

// Adds the function's name.
pub(crate) fn push_function(
    text: &mut Text,
    functions: &[FunctionInfo],
    function: u32,
) -> Result<(), NoMemory>
    ensures { OnOk result (text.new ≡ text.old ++ function_bytes functions.now function) }
{
    match functions.get(function as usize) {
        Some(info) => text.bytes(info.name.as_slice()),
        None => Ok(()),
    }
}
