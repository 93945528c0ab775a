//! The tables of what a program declares at file scope.

ghost use Rattle.std.specs.Prelude.{◌≡◌, ◌++◌, ◌<◌, ◌^◌, OnOk, IfOk, length, slice_get, None, [], ◌∷◌};
ghost use Rattle.std.specs.Option.{option_copied};
ghost use Rattle.c11_check.specs.Scopes as scope;
ghost use Rattle.c11_check.specs.Programs as programs;
ghost use Rattle.c11_check.specs.Tables as spec;

use crate::declarations::{FUNCTION_LIMIT, fitting_size, passes, size_in, value_of_constant, zero};
use crate::programs::{
    count_of, declare_define, declare_function, declare_global, is_main_function, limit_of,
};
use crate::scopes::Scopes;
use c11_ast::{Constant, Function, GlobalKind, Item, Program, Start, Var};
use c11_events::{CellInfo, FunctionInfo};
use c11_num::{CType, CValue, Name, NoMemory, convert};
use std::alloc::Global;
use std::marker::Model;

/// Cells, mutexes and functions in the order of their declarations.
#[derive(Debug, Drop)]
pub(crate) struct Tables {
    pub(crate) atomics: Vec<CellInfo>,
    pub(crate) plains: Vec<CellInfo>,
    pub(crate) mutexes: Vec<CellInfo>,
    pub(crate) functions: Vec<FunctionInfo>,
}

impl Model for Tables {
    ghost use Rattle.c11_check.specs.Tables.{Tables};

    ghost Value = { Tables };

    ghost view = { λ t. record { atomics = t.atomics.items; plains = t.plains.items; mutexes = t.mutexes.items; functions = t.functions.items } };
}

// The start of the element in this place.
fn start_at(start: &Start, place: usize) -> Option<&Constant>
    ensures { option_copied result ≡ slice_get (programs.starts_of start.now) place }
{
    match start {
        Start::Absent => None,
        Start::One(constant) => { if place == 0 { Some(constant) } else { None } }
        Start::Brace(constants) => constants.as_slice().get(place),
    }
}

// The initial value of the element in this place.
fn initial(scopes: &Scopes, ctype: CType, start: &Start, place: usize) -> CValue
    ensures { result ≡ spec.initial scopes.now ctype start.now place }
{
    match start_at(start, place) {
        Some(constant) => match value_of_constant(scopes, constant) {
            Some(value) => convert(value, ctype),
            None => zero(ctype),
        },
        None => zero(ctype),
    }
}

// Adds the cells of so many elements.
fn add_elements(
    cells: &mut Vec<CellInfo>,
    scopes: &Scopes,
    name: &Name,
    ctype: CType,
    start: &Start,
    count: u32,
) -> Result<(), NoMemory>
    ensures { OnOk result (cells.new.items ≡ cells.old.items ++ spec.element_cells scopes.now name.now ctype start.now 0 count) }
{
    for place in 0..count {
        cells.push(CellInfo {
            name: name.copy()?,
            index: Some(place),
            initial: initial(scopes, ctype, start, place as usize),
        })?;
    }
    Ok(())
}

// Adds the cell of a variable.
fn add_variable(
    cells: &mut Vec<CellInfo>,
    scopes: &Scopes,
    name: &Name,
    ctype: CType,
    start: &Start,
) -> Result<(), NoMemory>
    ensures { OnOk result (cells.new.items ≡ cells.old.items ++ spec.object_cells scopes.now name.now ctype start.now None) }
{
    cells.push(CellInfo {
        name: name.copy()?,
        index: None,
        initial: initial(scopes, ctype, start, 0),
    })?;
    Ok(())
}

// Adds the cells of an object, which is an array where it has a size.
fn add_object(
    cells: &mut Vec<CellInfo>,
    scopes: &Scopes,
    name: &Name,
    ctype: CType,
    start: &Start,
    size: Option<u32>,
) -> Result<(), NoMemory>
    ensures { OnOk result (cells.new.items ≡ cells.old.items ++ spec.object_cells scopes.now name.now ctype start.now size) }
{
    match size {
        Some(count) => add_elements(cells, scopes, name, ctype, start, count),
        None => add_variable(cells, scopes, name, ctype, start),
    }
}

impl Tables {
    // No cell, no mutex and no function.
    fn new(alloc: Global) -> Tables
        ensures { result ≡ spec.nothing_declared.tables }
    {
        Tables {
            atomics: Vec::new(alloc),
            plains: Vec::new(alloc),
            mutexes: Vec::new(alloc),
            functions: Vec::new(alloc),
        }
    }

    // Adds the cells of an object of this kind.
    fn add_cells(
        &mut self,
        scopes: &Scopes,
        kind: GlobalKind,
        name: &Name,
        start: &Start,
        size: Option<u32>,
    ) -> Result<(), NoMemory>
        ensures { OnOk result (self.new ≡ spec.with_cells kind (spec.object_cells scopes.now name.now (spec.cell_type kind) (spec.cell_start kind start.now) size) self.old) }
    {
        match kind {
            GlobalKind::Plain(ctype) => {
                add_object(&mut self.plains, scopes, name, ctype, start, size)
            }
            GlobalKind::Atomic(ctype) => {
                add_object(&mut self.atomics, scopes, name, ctype, start, size)
            }
            GlobalKind::Mutex => {
                let none = Start::Absent;
                add_object(&mut self.mutexes, scopes, name, CType::Int, &none, size)
            }
        }
    }

    // Adds a function.
    fn add_function(&mut self, function: &Function) -> Result<(), NoMemory>
        ensures { OnOk result (self.new ≡ record self.old { functions = self.old.functions ++ spec.function_info function.now ∷ [] }) }
    {
        self.functions.push(FunctionInfo {
            name: function.word.name.copy()?,
            line: function.word.spot.line,
        })?;
        Ok(())
    }
}

// Declares an object of file scope, with its cells.
fn declare_var<'a>(
    scopes: &mut Scopes<'a>,
    tables: &mut Tables,
    kind: GlobalKind,
    var: &'a Var,
) -> Result<(), NoMemory>
    ensures { OnOk result (spec.together scopes.new tables.new ≡ spec.declare_var kind var.now (spec.together scopes.old tables.old)) }
{
    let name = &var.place.word.name;
    let size = size_in(scopes, &var.place.size);
    let count = count_of(kind, scopes.counts());
    let fitting = fitting_size(limit_of(kind), count, size);
    declare_global(scopes, name.as_slice(), kind, size)?;
    match fitting {
        Some(size) => tables.add_cells(scopes, kind, name, &var.start, size),
        None => Ok(()),
    }
}

// Declares objects, one after the other.
fn declare_vars<'a>(
    scopes: &mut Scopes<'a>,
    tables: &mut Tables,
    kind: GlobalKind,
    vars: &'a [Var],
) -> Result<(), NoMemory>
    ensures { OnOk result (spec.together scopes.new tables.new ≡ spec.declare_vars kind vars.now (spec.together scopes.old tables.old)) }
{
    for var in vars {
        declare_var(scopes, tables, kind, var)?;
    }
    Ok(())
}

// Declares a function, with its place in the table.
fn declare_with_info<'a>(
    scopes: &mut Scopes<'a>,
    tables: &mut Tables,
    function: &'a Function,
) -> Result<(), NoMemory>
    ensures { OnOk result (spec.together scopes.new tables.new ≡ spec.declare_function function.now (spec.together scopes.old tables.old)) }
{
    let past = passes(FUNCTION_LIMIT, scopes.counts().functions, None);
    declare_function(scopes, function)?;
    if past {
        return Ok(());
    }
    tables.add_function(function)
}

// Declares what an item declares at file scope.
fn declare_item<'a>(
    scopes: &mut Scopes<'a>,
    tables: &mut Tables,
    item: &'a Item,
) -> Result<(), NoMemory>
    ensures { OnOk result (spec.together scopes.new tables.new ≡ spec.declare_item item.now (spec.together scopes.old tables.old)) }
{
    match item {
        Item::Include(_) => Ok(()),
        Item::Define { word, value, .. } => declare_define(scopes, word.name.as_slice(), *value),
        Item::Global { kind, vars, .. } => declare_vars(scopes, tables, *kind, vars.as_slice()),
        Item::Function(function) => declare_with_info(scopes, tables, function),
    }
}

/// The tables of a program.
pub(crate) fn tables_of(alloc: Global, program: &Program) -> Result<Tables, NoMemory>
    ensures { IfOk result (λ tables. tables ≡ spec.tables_of program.now) }
{
    let mut scopes = Scopes::new(alloc);
    let mut tables = Tables::new(alloc);
    for item in program.items() {
        declare_item(&mut scopes, &mut tables, item)?;
    }
    Ok(tables)
}

/// The number of the first `main` that answers `int` and has no parameters.
pub(crate) fn main_of(items: &[Item]) -> Option<u32>
    requires { length items.now < 2 ^ 32 }
    ensures { result ≡ spec.main_from 0 items.now }
{
    let mut number = 0;
    for item in items {
        if let Item::Function(function) = item {
            if is_main_function(function) {
                return Some(number);
            }
            number += 1;
        }
    }
    None
}
