//! Whether workers work side by side. At each call that starts workers stands a gate that holds the first of them until another comes.
#![tactic(auto)]

mod meeting;

use c11_accepts::accept;
use c11_campaign::campaign;
use c11_commands::{Status, campaign_command};
use c11_io::{MemSink, MemSource};
use meeting::Meeting;
use std::alloc::Global;
use std::io;
use std::thread::Threads;

// Each of its runs ends in a deadlock, after five steps.
const DEADLOCK: &str = "#include <threads.h>
mtx_t m;
int f(void *a) {
  mtx_lock(&m);
  return 0;
}
int main(void) {
  thrd_t t;
  mtx_init(&m, mtx_plain);
  mtx_lock(&m);
  thrd_create(&t, f, NULL);
  thrd_join(t, NULL);
  return 0;
}
";

fn main(rt: HostRuntime) -> io::Result<()> {
    println!(rt; "campaign: {}", at_campaign(&rt, rt.alloc()))?;
    println!(rt; "campaign_command: {}", at_command(&rt, rt.alloc()))?;
    Ok(())
}

// What was seen at the gate of a campaign of 64 seeds with two workers.
fn at_campaign<R: Threads + Sync>(rt: &R, alloc: Global) -> &'static str {
    let Ok(checked) = accept(alloc, DEADLOCK.as_bytes()) else {
        return "the program was refused";
    };
    let gate = Meeting::new();
    match campaign(rt, alloc, &checked, 0, 64, 2_000, 2, &gate) {
        Ok(_) => gate.seen(64),
        Err(_) => "there was no memory",
    }
}

// The same of the command.
fn at_command<R: Threads + Sync>(rt: &R, alloc: Global) -> &'static str {
    let Ok(text) = DEADLOCK.as_bytes().to_vec(alloc) else {
        return "there was no memory";
    };
    let mut source = MemSource::new(text, 0, Vec::new(alloc));
    let Ok(mut sink) = MemSink::new(alloc, 1_000, 0, Vec::new(alloc)) else {
        return "there was no memory";
    };
    let gate = Meeting::new();
    match campaign_command(rt, alloc, 0, 64, 2_000, 2, &mut source, &mut sink, &gate) {
        Status::Found => gate.seen(64),
        _ => "no deadlock was found",
    }
}
