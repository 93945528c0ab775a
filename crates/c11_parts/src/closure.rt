//! Random graphs, reached as in a plain closure.
ghost use Rattle.std.specs.Prelude.{◌≡◌, ◌<◌, ◌≤◌, OnOk, length};
ghost use Rattle.c11_mograph.specs.Words.{AddsOne, KeepsAllButClocks};

use super::graph::{add, is_reached, open};
use super::mismatch::{Mismatch, expect};
use c11_mograph::Graph;
use rand_core::utils::NextWord;
use rand_pcg::Pcg32;
use std::alloc::Global;

/// What is reached among twelve stores, by pairs of their places, closed step by step.
#[derive(Clone, Copy)]
struct Plain {
    // The place of each store's head, and its rank.
    heads: [usize; 12],
    ranks: [u32; 12],
    // Which chain is reached from which, by heads.
    links: [[bool; 12]; 12],
}

impl Plain {
    fn reaches(&self, a: usize, b: usize) -> bool {
        let h = self.heads[a % 12] % 12;
        let k = self.heads[b % 12] % 12;
        if h == k {
            self.ranks[a % 12] < self.ranks[b % 12]
        } else {
            self.links[h][k]
        }
    }

    fn link(&mut self, a: usize, b: usize) {
        let h = self.heads[a % 12] % 12;
        let k = self.heads[b % 12] % 12;
        if h != k {
            self.links[h][k] = true;
        }
        for middle in 0..12 {
            for from in 0..12 {
                for to in 0..12 {
                    if self.links[from][middle] && self.links[middle][to] {
                        self.links[from][to] = true;
                    }
                }
            }
        }
    }
}

/// A random store, in both. Every fourth is of the same thread.
fn grow(
    words: &mut Pcg32,
    graph: &mut Graph,
    plain: &mut Plain,
    place: usize,
) -> Result<(), Mismatch>
    requires cells { length graph.old.lists ≡ 1 }
    requires threads { graph.old.threads ≡ 4 }
    requires room { length graph.old.numbers < graph.old.size }
    requires place { place < 12 }
    ensures { OnOk result (AddsOne graph.old graph.new) }
{
    let before = words.next_word() as usize % 12;
    let number = place as u32 + 1;
    let own = place >= 4;
    let fits = !own || graph.may_precede(&[number - 4], before as u32 + 1);
    let after = if before < place && graph.ends_chain(before as u32 + 1) && fits {
        plain.heads[place] = plain.heads[before];
        plain.ranks[place] = plain.ranks[before].saturating_add(1);
        Some(before as u32 + 1)
    } else {
        plain.heads[place] = place;
        plain.ranks[place] = 0;
        None
    };
    if own {
        plain.link(place - 4, place);
    }
    add(graph, number, number, after)
}

/// A random pair is linked where that leaves no ring; both agree on where.
fn link_two(
    alloc: Global,
    words: &mut Pcg32,
    graph: &mut Graph,
    plain: &mut Plain,
    place: usize,
) -> Result<(), Mismatch>
    requires { place < 12 }
    ensures { OnOk result (KeepsAllButClocks graph.old graph.new) }
{
    let a = words.next_word() as usize % (place + 1);
    let b = words.next_word() as usize % (place + 1);
    let may = a == b || !plain.reaches(b, a);
    let found = graph.may_precede(&[a as u32 + 1], b as u32 + 1);
    expect(alloc, "whether a store may precede another", &found, &may)?;
    if may && a != b {
        graph.order(&[a as u32 + 1], b as u32 + 1);
        plain.link(a, b);
    }
    Ok(())
}

/// Both agree on what is reached.
fn compare(alloc: Global, graph: &Graph, plain: &Plain, count: u32) -> Result<(), Mismatch>
    requires { count ≤ 12 }
{
    for from in 0..count {
        for to in 0..count {
            let found = is_reached(graph, from + 1, to + 1);
            let wanted = plain.reaches(from as usize, to as usize);
            expect(alloc, "whether a store is reached", &found, &wanted)?;
        }
    }
    Ok(())
}

/// A graph of twelve stores, compared as it grows.
fn grow_all(alloc: Global, words: &mut Pcg32) -> Result<(), Mismatch> {
    let mut graph = open(alloc)?;
    let mut plain = Plain {
        heads: [0; 12],
        ranks: [0; 12],
        links: [[false; 12]; 12],
    };
    for place in 0..12 {
        grow(words, &mut graph, &mut plain, place)?;
        link_two(alloc, words, &mut graph, &mut plain, place)?;
        compare(alloc, &graph, &plain, place as u32 + 1)?;
    }
    Ok(())
}

/// How many random graphs were compared.
pub fn compared(alloc: Global) -> Result<u32, Mismatch> {
    let mut words = Pcg32::new(5, 7);
    let mut graphs = 0u32;
    for _ in 0..60u32 {
        grow_all(alloc, &mut words)?;
        graphs = graphs.saturating_add(1);
    }
    Ok(graphs)
}
