//! A tester of threaded C11 programs.
#![tactic(auto)]

use c11_commands::{Status, c11t};
use c11_io::{OpenGate, StdSink, StdSource};
use c11_num::NoMemory;
use std::env;
use std::io::ErrorKind;
use std::process::ExitCode;

fn main(rt: HostRuntime) -> ExitCode {
    let Ok(words) = words_of(&rt) else {
        return ExitCode::from(Status::NoMemory.number());
    };
    let mut source = StdSource::new(rt.stdin());
    let mut sink = StdSink::new(rt.stdout());
    let status = c11t(
        &rt,
        rt.alloc(),
        words.as_slice(),
        &mut source,
        &mut sink,
        &OpenGate,
    );
    ExitCode::from(status.number())
}

// The words that the program was started with, without its own name. None of them where one is no UTF-8: such words ask for nothing.
fn words_of(rt: &HostRuntime) -> Result<Vec<String>, NoMemory> {
    match env::args(rt) {
        Ok(words) => words.skip(1).collect(rt.alloc()).map_err(|_| NoMemory),
        Err(failure) if failure.kind() == ErrorKind::OutOfMemory => Err(NoMemory),
        Err(_) => Ok(Vec::new(rt.alloc())),
    }
}
