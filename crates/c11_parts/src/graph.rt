//! The graph of chains.
ghost use Rattle.std.specs.Prelude.{◌≡◌, ◌<◌, IfOk, OnOk, length};
ghost use Rattle.c11_mograph.specs.Words.{AddsOne};

use super::mismatch::Mismatch;
use super::row::Row;
use c11_clock::Steps;
use c11_mograph::Graph;
use c11_tables::Part;
use std::alloc::Global;
use std::marker::Brand;
use std::sync::ledger::{Blank, Ledger};

/// A graph of one cell and four threads.
pub fn open(alloc: Global) -> Result<Graph, Mismatch>
    ensures cells { IfOk result (λ graph. length graph.lists ≡ 1) }
    ensures threads { IfOk result (λ graph. graph.threads ≡ 4) }
    ensures size { IfOk result (λ graph. graph.size ≡ 20) }
    ensures none { IfOk result (λ graph. length graph.numbers ≡ 0) }
{
    Ok(Graph::open(alloc, 1, 4, 20)?)
}

pub fn add(graph: &mut Graph, number: u32, thread: u32, after: Option<u32>) -> Result<(), Mismatch>
    requires cells { length graph.old.lists ≡ 1 }
    requires threads { graph.old.threads ≡ 4 }
    requires room { length graph.old.numbers < graph.old.size }
    ensures { OnOk result (AddsOne graph.old graph.new) }
{
    graph.room(1)?;
    graph.add(0, number, thread % 4, after);
    Ok(())
}

// Whether the second store is reached from the first, by steps of the blank's ledger.
fn reached_by_steps<L: Ledger>(graph: &Graph, from: u32, to: u32, blank: Blank) -> bool
    requires name { blank.name ≡ L.name }
    requires parts { blank.parts ≡ L.parts }
    requires some { 0 < L.parts }
{
    let mut steps = Steps::<L>::new(blank);
    graph.reaches(from, to, &mut steps)
}

/// Whether the second store is reached from the first.
pub fn is_reached(graph: &Graph, from: u32, to: u32) -> bool {
    reached_by_steps::<Brand>(graph, from, to, Blank::new(1))
}

/// `stores STORES`: all that there are. `ends STORE yes`, or `no`: whether it ends its chain. `reaches STORE STORE yes`: whether the
/// second is reached from the first. `precede STORES STORE yes`: whether they may all precede it.
fn ask(graph: &Graph, row: &Row) -> Result<(), Mismatch>
    requires { length graph.now.lists ≡ 1 }
{
    match row.words() {
        ["stores", stores] => {
            let wanted = row.numbers(stores)?;
            row.expect(&graph.stores(0), &wanted.as_slice())
        }
        ["ends", store, answer] => {
            let found = graph.ends_chain(row.number(store)?);
            row.expect(&found, &row.is_yes(answer)?)
        }
        ["reaches", from, to, answer] => {
            let found = is_reached(graph, row.number(from)?, row.number(to)?);
            row.expect(&found, &row.is_yes(answer)?)
        }
        ["precede", stores, store, answer] => {
            let stores = row.numbers(stores)?;
            let found = graph.may_precede(stores.as_slice(), row.number(store)?);
            row.expect(&found, &row.is_yes(answer)?)
        }
        _ => Err(row.unread()),
    }
}

/// `THREAD store STORE`: the thread adds a store, which begins a chain. `THREAD store STORE after STORE`: it goes on from that one.
/// `order STORES STORE`: they are linked to it, and so precede it. How many stores there are then.
fn step(graph: &mut Graph, count: u32, row: &Row) -> Result<u32, Mismatch>
    requires cells { length graph.old.lists ≡ 1 }
    requires threads { graph.old.threads ≡ 4 }
    requires size { graph.old.size ≡ 20 }
    requires stores { length graph.old.numbers ≡ count }
    ensures cells { OnOk result (length graph.new.lists ≡ 1) }
    ensures threads { OnOk result (graph.new.threads ≡ 4) }
    ensures size { OnOk result (graph.new.size ≡ 20) }
    ensures stores { IfOk result (λ after. length graph.new.numbers ≡ after) }
{
    match row.words() {
        [thread, "store", store] if count < 20 => {
            add(graph, row.number(store)?, row.below(thread, 4)?, None)?;
            Ok(count + 1)
        }
        [thread, "store", store, "after", other] if count < 20 => {
            let other = row.number(other)?;
            add(
                graph,
                row.number(store)?,
                row.below(thread, 4)?,
                Some(other),
            )?;
            Ok(count + 1)
        }
        ["order", stores, store] => {
            let stores = row.numbers(stores)?;
            graph.order(stores.as_slice(), row.number(store)?);
            Ok(count)
        }
        _ => {
            ask(graph, row)?;
            Ok(count)
        }
    }
}

/// Stores that are added and linked, and questions about them with their answers.
pub fn play(alloc: Global, part: &mut Part, lines: &str) -> Result<(), Mismatch> {
    let mut graph = open(alloc)?;
    let mut count = 0;
    for line in lines.lines() {
        let row = Row::new(alloc, part.next(), line)?;
        count = step(&mut graph, count, &row)?;
    }
    Ok(())
}
