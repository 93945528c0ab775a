ghost use Rattle.std.specs.Prelude.{◌≡◌, ◌≢◌, ◌+◌, ◌<◌, ◌≤◌, ◌*◌, ◌↔◌, ◌⊎◌, ◌++◌, ℕ, List, [], ◌∷◌, IsTrue, IfOk, OnOk, OnErr, IfSome, IfNone, MatchOption, All, Some, None, true, false, length, slice_get, slice_set, vec_len, vec_capacity};
ghost use Rattle.c11_clock.specs.Clocks.{joined, HasBelow};
ghost use Rattle.c11_mograph.specs.Spread.{row, AreWide};
ghost use Rattle.c11_mograph.specs.Clocks.{LeadsOn};
ghost use Rattle.std.specs.Global.{Vec};
ghost use Rattle.c11_mograph.specs.Lists.{HaveGrown, HasPushed};
ghost use Rattle.c11_mograph.specs.Made.{AreRising, OfOneCell, Made, Store, nothing_made, IsAdded, GoesOn, Chain, Reach, Ordered, CanAdd, with_pairs, with_store, stores_of, previous};

use crate::clocks::{add_spare, blank_clocks, grow, raise, spread};
use crate::heads::push_kept;
use crate::kept::Kept;
use crate::lists::{empty_lists, make_room, push_into, put};
use c11_clock::{Clock, Steps};
use c11_num::NoMemory;
use std::alloc::Global;
use std::marker::{Brand, Model};
use std::sync::ledger::{Blank, Ledger};

/// The stores of one execution, their chains, and which chain is reached from which. Contracts see of it what it keeps, and what
/// was made, for which that stands.
#[derive(Debug, Drop)]
pub struct Graph {
    threads: u32,
    size: u32,
    numbers: Vec<u32>,
    kept: Vec<Kept>,
    // For each cell one more than the place of the last head of its chains, or 0.
    newest: Vec<u32>,
    lists: Vec<Vec<u32>>,
    // The one cell whose list may be full; without it, each may.
    full: Option<u32>,
    // For each cell the last store of each thread, or 0.
    lasts: Vec<Clock>,
    // A clock for each place, and where room was made a further one.
    clocks: Vec<Clock>,
    // For each place whether a link leads on from the chain that begins there.
    leads: Vec<bool>,
    ready: bool,
}

impl Model for Graph {
    ghost use Rattle.c11_mograph.specs.Words.{Words};

    ghost Value = { Words };

    ghost use Rattle.c11_mograph.specs.Graph.{words_of, IsSound};

    ghost view = { words_of };

    ghost invariant = { IsSound };
}

impl Graph {
    ghost use Rattle.c11_mograph.specs.Words.{StandsFor, Tracks, HasSameCounts, KeepsAllButClocks, AddsOne};
    ghost use Rattle.c11_mograph.specs.Parts.{ReachesPlace, SpreadsFrom, JoinsChains, TakesIn, Gathers, IsHeadOf, NotesStore, IsChained, Marks, MarksAfter, Pushes};

    /// No store yet, for so many cells and threads, each numbered from 0, and so many stores. Memory for the stores and the clocks
    /// of their chains is reserved here, and nothing is written for a store that is not added.
    pub fn open(alloc: Global, cells: u32, threads: u32, stores: u32) -> Result<Graph, NoMemory>
        ensures cells { IfOk result (λ graph. length graph.lists ≡ cells) }
        ensures threads { IfOk result (λ graph. graph.threads ≡ threads) }
        ensures size { IfOk result (λ graph. graph.size ≡ stores) }
        ensures none { IfOk result (λ graph. StandsFor graph nothing_made) }
    {
        let numbers = Vec::with_capacity(alloc, stores as usize)?;
        let kept = Vec::with_capacity(alloc, stores as usize)?;
        let newest = Vec::from_elem(alloc, 0, cells as usize)?;
        let lists = empty_lists(alloc, cells)?;
        let lasts = blank_clocks(alloc, cells, threads)?;
        let clocks = Vec::with_capacity(alloc, stores as usize)?;
        let leads = Vec::with_capacity(alloc, stores as usize)?;
        Ok(Graph {
            threads,
            size: stores,
            numbers,
            kept,
            newest,
            lists,
            full: None,
            lasts,
            clocks,
            leads,
            ready: false,
        })
    }

    /// The stores of a cell, in rising order.
    pub fn stores(&self, cell: u32) -> &[u32]
        requires { cell < length self.now.lists }
        ensures { (made : Made) → StandsFor self.now made → result.now ≡ stores_of cell made.stores }
    {
        self.lists[cell as usize].as_slice()
    }

    /// Makes room for one store and so many links; then `add` and `order` take no memory. `Err` only where memory runs out, and then
    /// too nothing that was made changes, and room that was there stays.
    pub fn room(&mut self, _links: u32) -> Result<(), NoMemory>
        ensures ready { OnOk result (self.new.ready ≡ true) }
        ensures stays { self.old.ready ≡ true → self.new.ready ≡ true }
        ensures stands { (made : Made) → StandsFor self.old made → StandsFor self.new made }
        ensures same { HasSameCounts self.old self.new }
    {
        if !self.ready {
            make_room(&mut self.lists, self.full)?;
            add_spare(&mut self.clocks, self.numbers.len(), self.threads)?;
            self.ready = true;
        }
        Ok(())
    }

    // The place of a store.
    fn place(&self, x: u32) -> Option<usize>
        ensures some { IfSome result (λ place. slice_get self.now.numbers place ≡ Some x) }
        ensures none { IfNone result (AreRising self.now.numbers → (i : ℕ) → (slice_get self.now.numbers i ≡ Some x → ⊥)) }
    {
        place_of(self.numbers.as_slice(), x)
    }

    // What is kept of the store at a place.
    fn kept_at(&self, place: usize) -> Kept
        requires { place < length self.now.numbers }
        ensures kept { slice_get self.now.kept place ≡ Some result }
        ensures head { result.head < length self.now.numbers }
        ensures thread { result.thread < self.now.threads }
    {
        self.kept.as_slice()[place]
    }

    /// Whether no read-modify-write goes on from x.
    pub fn ends_chain(&self, x: u32) -> bool
        ensures { (made : Made) → StandsFor self.now made → IsTrue result ↔ ((b : ℕ) → GoesOn made.stores b x → ⊥) }
    {
        match self.place(x) {
            Some(place) => self.kept_at(place).ends,
            None => true,
        }
    }

    /// Whether the store b is reached from a: links lead from a's chain to b's, or they are of one chain and a comes first in it. Takes
    /// one step at most, which is a comparison with a clock.
    pub fn reaches<L: Ledger>(&self, a: u32, b: u32, steps: &mut Steps<L>) -> bool
        ensures reached { (made : Made) → StandsFor self.now made → IsTrue result ↔ Reach made a b }
        ensures cost { steps.new ≤ steps.old + 1 }
    {
        let Some(i) = self.place(a) else {
            return false;
        };
        let Some(j) = self.place(b) else {
            return false;
        };
        self.reaches_place(i, j, steps)
    }

    // Whether the store at the place j is reached from the one at i.
    fn reaches_place<L: Ledger>(&self, i: usize, j: usize, steps: &mut Steps<L>) -> bool
        requires i { i < length self.now.numbers }
        requires j { j < length self.now.numbers }
        ensures reached { ReachesPlace self.now i j result }
        ensures cost { steps.new ≤ steps.old + 1 }
    {
        let a = self.kept_at(i);
        let b = self.kept_at(j);
        if a.head == b.head {
            return a.rank < b.rank;
        }
        if a.cell != b.cell {
            return false;
        }
        steps.tick();
        self.clocks[b.head as usize].covers(a.thread, self.number_at(i))
    }

    // Whether p is x, or a link from p to x leaves no chain reaching itself and no rank reversed.
    fn may_come_before<L: Ledger>(&self, p: u32, x: u32, steps: &mut Steps<L>) -> bool
        ensures { (made : Made) → StandsFor self.now made → IsTrue result ↔ ((p ≡ x → ⊥) → (Reach made x p → ⊥)) }
    {
        p == x || !self.reaches(x, p, steps)
    }

    // The same of each of these stores, by steps of the blank's ledger.
    fn all_may_precede<L: Ledger>(&self, prior: &[u32], x: u32, blank: Blank) -> bool
        requires name { blank.name ≡ L.name }
        requires parts { blank.parts ≡ L.parts }
        requires some { 0 < L.parts }
        ensures { (made : Made) → StandsFor self.now made → IsTrue result ↔ Ordered (with_pairs made prior.now x) }
    {
        let mut steps = Steps::<L>::new(blank);
        for p in prior {
            if !self.may_come_before(*p, x, &mut steps) {
                return false;
            }
        }
        true
    }

    /// Whether links from each of these stores other than x to x leave no chain reaching itself and no rank reversed.
    pub fn may_precede(&self, prior: &[u32], x: u32) -> bool
        ensures { (made : Made) → StandsFor self.now made → IsTrue result ↔ Ordered (with_pairs made prior.now x) }
    {
        self.all_may_precede::<Brand>(prior, x, Blank::new(1))
    }

    /// Adds a store of the cell, with a number larger than all before, by the thread; with `after` it is a read-modify-write that goes
    /// on from that store. The last earlier store of the cell by the thread is linked to it.
    ///
    /// Room was made since the last call. With `after`, that is a store of the cell that ends its chain, and the last earlier store of
    /// the cell by the thread may precede it. Takes no memory.
    pub fn add(&mut self, cell: u32, number: u32, thread: u32, after: Option<u32>)
        requires cell { cell < length self.old.lists }
        requires thread { thread < self.old.threads }
        requires size { length self.old.numbers < self.old.size }
        requires room { self.old.ready ≡ true }
        ensures stands { (made : Made) → StandsFor self.old made → CanAdd made (record { cell = cell; number = number; thread = thread; after = after })
            → StandsFor self.new (with_store made (record { cell = cell; number = number; thread = thread; after = after })) }
        ensures counts { AddsOne self.old self.new }
    {
        let previous = self.last_of(cell, thread);
        self.place_store(cell, number, thread, after);
        if let Some(p) = previous {
            self.link_all(&[p], number);
        }
    }

    // Keeps a further store, without a link to it.
    fn place_store(&mut self, cell: u32, number: u32, thread: u32, after: Option<u32>)
        requires cell { cell < length self.old.lists }
        requires thread { thread < self.old.threads }
        requires size { length self.old.numbers < self.old.size }
        requires room { self.old.ready ≡ true }
        ensures stands { (made : Made) → StandsFor self.old made → CanAdd made (record { cell = cell; number = number; thread = thread; after = after })
            → Tracks self.new (record made { stores = made.stores ++ record { cell = cell; number = number; thread = thread; after = after } ∷ [] }) }
        ensures counts { AddsOne self.old self.new }
    {
        let (head, rank) = self.chained(after);
        self.mark_after(after);
        self.push(
            number,
            Kept {
                cell,
                thread,
                head,
                rank,
                older: 0,
                ends: true,
            },
        );
        self.note_store(after, head as usize, thread, number);
    }

    // The clock at the head's place gets the store's number; where the store goes on from another, so do those of the chains that
    // are reached.
    fn note_store(&mut self, after: Option<u32>, head: usize, thread: u32, number: u32)
        requires head { head < length self.old.numbers }
        requires thread { thread < self.old.threads }
        ensures { NotesStore self.old self.new after head thread number }
    {
        raise(&mut self.clocks, head, thread, number);
        if after.is_some() {
            self.spread_from(head);
        }
    }

    // The clocks of the chains that cover the head at the place take over that of its chain. Where no link leads on from it there
    // are none.
    fn spread_from(&mut self, head: usize)
        requires { head < length self.old.numbers }
        ensures { SpreadsFrom self.old self.new head }
    {
        if !self.leads[head] {
            return;
        }
        let number = self.number_at(head);
        let kept = self.kept_at(head);
        spread(
            &mut self.clocks,
            self.kept.as_slice(),
            self.newest.as_slice(),
            head,
            kept.cell,
            kept.thread,
            number,
        );
    }

    // Keeps that a store goes on from `after`, if one does.
    fn mark_after(&mut self, after: Option<u32>)
        ensures { MarksAfter self.old self.new after }
    {
        if let Some(y) = after {
            self.mark(y);
        }
    }

    // The clock at `to` takes over that at `from`, another place, from which a link leads on now. Tells whether it grew.
    fn take_over(&mut self, to: usize, from: usize) -> bool
        requires to { to < length self.old.numbers }
        requires from { from < length self.old.numbers }
        requires differ { to ≢ from }
        ensures { JoinsChains self.old self.new from to result }
    {
        self.leads[from] = true;
        grow(&mut self.clocks, to, from)
    }

    // The clock at `to` takes over that of the chain at `from`, unless that is the same. Tells whether it grew.
    fn join_chain(&mut self, to: usize, from: usize) -> bool
        requires to { to < length self.old.numbers }
        requires from { from < length self.old.numbers }
        ensures { JoinsChains self.old self.new from to result }
    {
        if from == to {
            false
        } else {
            self.take_over(to, from)
        }
    }

    // The clock of the head at `to` takes over that of p's chain. Tells whether it grew.
    fn take_in(&mut self, p: u32, to: usize) -> bool
        requires { to < length self.old.numbers }
        ensures { TakesIn self.old self.new p to result }
    {
        match self.place(p) {
            Some(place) => {
                let from = self.kept_at(place).head;
                self.join_chain(to, from as usize)
            }
            None => false,
        }
    }

    // The clock of the head at `to`, of the chain of x, takes over those of the chains of all prior stores. Tells whether it grew.
    fn gather(&mut self, prior: &[u32], to: usize) -> bool
        requires { to < length self.old.numbers }
        ensures gathers { (made : Made) (x h : ℕ) → Tracks self.old made → IsHeadOf self.old x to h → OfOneCell made.stores prior.now x → Ordered (with_pairs made prior.now x)
            → Gathers self.old self.new made (with_pairs made prior.now x) to h result }
        ensures same { KeepsAllButClocks self.old self.new }
    {
        let mut raised = false;
        for p in prior {
            if self.take_in(*p, to) {
                raised = true;
            }
        }
        raised
    }

    // Links each of these stores other than x to x, where all are stores, the links leave no chain reaching itself and no rank reversed,
    // and from the head of x's chain the later stores of its thread and cell are reached.
    fn link_all(&mut self, prior: &[u32], x: u32)
        ensures tracks { (made : Made) → Tracks self.old made → ((h i : ℕ) → Chain made.stores h i x → LeadsOn made h) → OfOneCell made.stores prior.now x → Ordered (with_pairs made prior.now x)
            → Tracks self.new (with_pairs made prior.now x) }
        ensures same { KeepsAllButClocks self.old self.new }
    {
        let Some(place) = self.place(x) else {
            return;
        };
        let head = self.kept_at(place).head as usize;
        if self.gather(prior, head) {
            self.spread_from(head);
        }
    }

    /// Links each of these stores other than x to x. They and x are stores of one cell, and the links leave no chain reaching itself
    /// and no rank reversed (`may_precede`). Takes no memory.
    pub fn order(&mut self, prior: &[u32], x: u32)
        ensures stands { (made : Made) → StandsFor self.old made → OfOneCell made.stores prior.now x → Ordered (with_pairs made prior.now x)
            → StandsFor self.new (with_pairs made prior.now x) }
        ensures same { KeepsAllButClocks self.old self.new }
    {
        self.link_all(prior, x);
    }

    // The number of the store at a place.
    fn number_at(&self, place: usize) -> u32
        requires { place < length self.now.numbers }
        ensures { slice_get self.now.numbers place ≡ Some result }
    {
        self.numbers.as_slice()[place]
    }

    // The last store of the cell by the thread.
    fn last_of(&self, cell: u32, thread: u32) -> Option<u32>
        requires cell { cell < length self.now.lists }
        requires thread { thread < self.now.threads }
        ensures { (made : Made) → StandsFor self.now made → result ≡ previous made.stores cell thread }
    {
        let number = self.lasts[cell as usize].get(thread);
        if number > 0 { Some(number) } else { None }
    }

    // The place of the head, and the rank, of a store that goes on from `after`, or begins a chain.
    fn chained(&self, after: Option<u32>) -> (u32, u32)
        requires size { length self.now.numbers < self.now.size }
        requires room { self.now.ready ≡ true }
        ensures { IsChained self.now after result.0 result.1 }
    {
        let own = self.numbers.len() as u32;
        let Some(y) = after else {
            return (own, 0);
        };
        let Some(place) = self.place(y) else {
            return (own, 0);
        };
        let kept = self.kept_at(place);
        (kept.head, kept.rank + 1)
    }

    // Keeps that a store goes on from y.
    fn mark(&mut self, y: u32)
        ensures { Marks self.old self.new y }
    {
        if let Some(place) = self.place(y) {
            self.kept[place].ends = false;
        }
    }

    // Keeps a further store, which leads to the last head of its cell, and from which no link leads on.
    fn push(&mut self, number: u32, kept: Kept)
        requires cell { kept.cell < length self.old.lists }
        requires room { length self.old.numbers < self.old.size }
        requires ready { self.old.ready ≡ true }
        requires head { kept.head ≤ length self.old.numbers }
        requires rank { kept.rank ≤ length self.old.numbers }
        requires thread { kept.thread < self.old.threads }
        ensures { Pushes self.old self.new number kept }
    {
        push_into(&mut self.lists, kept.cell as usize, number);
        put(&mut self.numbers, number);
        push_kept(&mut self.kept, &mut self.newest, kept);
        put(&mut self.leads, false);
        raise(&mut self.lasts, kept.cell as usize, kept.thread, number);
        self.full = Some(kept.cell);
        self.ready = false;
    }
}

// The place of a number among rising ones.
fn place_of(numbers: &[u32], x: u32) -> Option<usize>
    ensures some { IfSome result (λ place. slice_get numbers.now place ≡ Some x) }
    ensures none { IfNone result (AreRising numbers.now → (i : ℕ) → (slice_get numbers.now i ≡ Some x → ⊥)) }
{
    match numbers.binary_search(&x) {
        Ok(place) => Some(place),
        Err(_) => None,
    }
}
