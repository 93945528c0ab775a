ghost use Rattle.std.specs.Prelude.{◌≡◌, IfOk};

use c11_num::{CValue, Name, NoMemory};

/// A cell or a mutex of the tested program.
#[derive(Debug, Drop)]
pub struct CellInfo {
    /// The name of the object.
    pub name: Name,
    /// The element's place in its array, from 0, where the object is an array.
    pub index: Option<u32>,
    /// The initial value, which is 0 for a mutex.
    pub initial: CValue,
}

impl CellInfo {
    /// The same cell again.
    pub fn copy(&self) -> Result<CellInfo, NoMemory>
        ensures { IfOk result (λ copy. copy ≡ self.now) }
    {
        Ok(CellInfo {
            name: self.name.copy()?,
            index: self.index,
            initial: self.initial,
        })
    }
}

/// A function of the tested program.
#[derive(Debug, Drop)]
pub struct FunctionInfo {
    pub name: Name,
    /// The line of the function's name, from 1.
    pub line: u32,
}
