ghost use Rattle.std.specs.Prelude.{◌≡◌, ◌<◌, ◌≤◌, ◌^◌, Some, length, slice_get};
ghost use Rattle.c11_check.specs.Programs.{HasNoFault};
ghost use Rattle.c11_check.specs.Tables.{IsWithin, tables_of, main_of};

use crate::tables::Tables;
use c11_ast::Program;
use c11_events::{CellInfo, FunctionInfo};

/// A program without a fault, and the tables of what it declares. Cells, mutexes and functions are numbered from 0 in the
/// order of their declarations, an array taking one number for each element.
#[derive(Debug, Drop)]
pub struct Checked {
    program: Program,
    tables: Tables,
    main: u32,
    ghost few: { length program.items < 2 ^ 32 },
    ghost faultless: { HasNoFault program },
    ghost own: { tables ≡ tables_of program },
    ghost number: { main_of program ≡ Some main },
    ghost within: { IsWithin tables main },
}

impl Checked {
    // The program with its tables and the number of its `main`.
    pub(crate) fn new(program: Program, tables: Tables, main: u32) -> Checked
        requires few { length program.items < 2 ^ 32 }
        requires faultless { HasNoFault program }
        requires own { tables ≡ tables_of program }
        requires number { main_of program ≡ Some main }
        requires within { IsWithin tables main }
        ensures program { result.program ≡ program }
        ensures tables { result.tables ≡ tables }
        ensures main { result.main ≡ main }
    {
        Checked {
            program,
            tables,
            main,
        }
    }

    /// How many atomic cells there are: 4,096 at most.
    pub fn atomic_count(&self) -> u32
        ensures count { result ≡ length self.now.tables.atomics }
        ensures within { length self.now.tables.atomics ≤ 4096 }
    {
        self.tables.atomics.len() as u32
    }

    /// How many plain cells there are: 65,536 at most.
    pub fn plain_count(&self) -> u32
        ensures count { result ≡ length self.now.tables.plains }
        ensures within { length self.now.tables.plains ≤ 65536 }
    {
        self.tables.plains.len() as u32
    }

    /// How many mutexes there are: 64 at most.
    pub fn mutex_count(&self) -> u32
        ensures count { result ≡ length self.now.tables.mutexes }
        ensures within { length self.now.tables.mutexes ≤ 64 }
    {
        self.tables.mutexes.len() as u32
    }

    /// How many functions there are.
    pub fn function_count(&self) -> u32
        ensures { result ≡ length self.now.tables.functions }
    {
        self.tables.functions.len() as u32
    }

    /// The number of `main`, which is below the count of functions.
    pub fn main(&self) -> u32
        ensures number { result ≡ self.now.main }
        ensures within { self.now.main < length self.now.tables.functions }
    {
        self.main
    }

    /// The atomic cells, by their numbers.
    pub fn atomics(&self) -> &[CellInfo]
        ensures { result.now ≡ self.now.tables.atomics }
    {
        self.tables.atomics.as_slice()
    }

    /// The plain cells, by their numbers.
    pub fn plains(&self) -> &[CellInfo]
        ensures { result.now ≡ self.now.tables.plains }
    {
        self.tables.plains.as_slice()
    }

    /// The mutexes, by their numbers.
    pub fn mutexes(&self) -> &[CellInfo]
        ensures { result.now ≡ self.now.tables.mutexes }
    {
        self.tables.mutexes.as_slice()
    }

    /// The functions, by their numbers.
    pub fn functions(&self) -> &[FunctionInfo]
        ensures { result.now ≡ self.now.tables.functions }
    {
        self.tables.functions.as_slice()
    }

    /// The atomic cell with this number.
    pub fn atomic(&self, cell: u32) -> &CellInfo
        requires { cell < length self.now.tables.atomics }
        ensures { slice_get self.now.tables.atomics cell ≡ Some result.now }
    {
        &self.tables.atomics[cell as usize]
    }

    /// The plain cell with this number.
    pub fn plain(&self, cell: u32) -> &CellInfo
        requires { cell < length self.now.tables.plains }
        ensures { slice_get self.now.tables.plains cell ≡ Some result.now }
    {
        &self.tables.plains[cell as usize]
    }

    /// The mutex with this number.
    pub fn mutex(&self, mutex: u32) -> &CellInfo
        requires { mutex < length self.now.tables.mutexes }
        ensures { slice_get self.now.tables.mutexes mutex ≡ Some result.now }
    {
        &self.tables.mutexes[mutex as usize]
    }

    /// The function with this number.
    pub fn function(&self, function: u32) -> &FunctionInfo
        requires { function < length self.now.tables.functions }
        ensures { slice_get self.now.tables.functions function ≡ Some result.now }
    {
        &self.tables.functions[function as usize]
    }

    /// The program, which has no fault and fewer than 2^32 items. The tables are its own.
    pub fn program(&self) -> &Program
        ensures program { result.now ≡ self.now.program }
        ensures few { length self.now.program.items < 2 ^ 32 }
        ensures faultless { HasNoFault self.now.program }
        ensures tables { self.now.tables ≡ tables_of self.now.program }
        ensures main { main_of self.now.program ≡ Some self.now.main }
    {
        &self.program
    }
}
