ghost use Rattle.std.specs.Prelude.{◌≡◌, ◌<◌, ◌^◌, IfOk, IfErr, Some, length};
ghost use Rattle.c11_check.specs.Programs.{HasNoFault, Refuses, reported};
ghost use Rattle.c11_check.specs.Checked.{IsChecked};

use crate::checked::Checked;
use crate::fault::{CheckFault, Fault, Rule};
use crate::programs::first_fault;
use crate::tables::{main_of, tables_of};
use c11_ast::Program;
use std::alloc::Global;

// The refusal that reports the fault.
fn refusal(fault: Fault) -> CheckFault
    ensures { reported result ≡ Some fault }
{
    let line = fault.spot.line;
    let column = fault.spot.column;
    match fault.rule {
        Rule::Unknown => CheckFault::Unknown(line, column),
        Rule::Twice => CheckFault::Twice(line, column),
        Rule::Kind => CheckFault::Kind(line, column),
        Rule::Arguments => CheckFault::Arguments(line, column),
        Rule::Order => CheckFault::Order(line, column),
        Rule::NoMain => CheckFault::NoMain(line, column),
        Rule::Size => CheckFault::Size(line, column),
        Rule::TooMany => CheckFault::TooMany(line, column),
        Rule::Typing => CheckFault::Typing(line, column),
    }
}

// The program, which has no fault, with its tables.
fn with_tables(alloc: Global, program: Program) -> Result<Checked, CheckFault>
    requires few { length program.items < 2 ^ 32 }
    requires faultless { HasNoFault program }
    ensures tables { IfOk result (λ checked. IsChecked program checked) }
    ensures memory { IfErr result (λ fault. fault ≡ CheckFault.NoMemory) }
{
    let Ok(tables) = tables_of(alloc, &program) else {
        return Err(CheckFault::NoMemory);
    };
    match main_of(program.items()) {
        Some(main) => Ok(Checked::new(program, tables, main)),
        None => unreachable!(),
    }
}

/// The tables of the program where it has no fault, else the first of its faults, by place and then by number.
pub fn check(alloc: Global, program: Program) -> Result<Checked, CheckFault>
    requires { length program.items < 2 ^ 32 }
    ensures tables { IfOk result (λ checked. IsChecked program checked) }
    ensures faultless { IfOk result (λ _. HasNoFault program) }
    ensures fault { IfErr result (λ fault. Refuses program fault) }
{
    match first_fault(alloc, &program) {
        Ok(Some(fault)) => Err(refusal(fault)),
        Ok(None) => with_tables(alloc, program),
        Err(_) => Err(CheckFault::NoMemory),
    }
}
