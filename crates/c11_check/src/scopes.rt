ghost use Rattle.std.specs.Prelude.{◌≡◌, ◌<◌, ◌-◌, length, take, OnOk, OnErr};
ghost use Rattle.c11_check.specs.Scopes as spec;

use crate::entity::{Counts, Entity};
use crate::last::Last;
use crate::library::library_entity;
use c11_num::NoMemory;
use std::alloc::Global;
use std::marker::Model;

/// A declared name.
#[derive(Drop)]
struct Binding<'a> {
    name: &'a [u8],
    entity: Entity,
    /// Where the name was declared last before this, if that was still in force.
    hides: Option<usize>,
}

/// What was there at a place of a program: how many names, where the innermost scope began, and how much was declared.
#[derive(Clone, Copy, Debug)]
pub struct Mark {
    names: usize,
    start: usize,
    counts: Counts,
}

/// The names in force at a place of a program. Contracts see what is declared, and where the innermost scope begins.
#[derive(Drop)]
pub struct Scopes<'a> {
    bindings: Vec<Binding<'a>>,
    last: Last<'a>,
    start: usize,
    counts: Counts,
}

impl<'a> Model for Scopes<'a> {
    ghost use Rattle.std.specs.Prelude.{List, ℕ, ◌≡◌, map};
    ghost use Rattle.c11_check.specs.Scopes.{Scope, Named};
    ghost use Rattle.c11_check.specs.Table.{place_at, last_place};
    ghost use Rattle.c11_check.specs.Bound.{names_of, AreLinked};

    ghost Value = { Scope };

    ghost view = { λ s. record { names = names_of s.bindings.items; start = s.start; counts = s.counts } };

    ghost invariant = { λ s. ((name : List ℕ) → place_at name s.last ≡ last_place 0 (names_of s.bindings.items) name) × AreLinked s.bindings.items };
}

impl<'a> Scopes<'a> {
    /// The scope at the beginning of a program.
    pub fn new(alloc: Global) -> Scopes<'a>
        ensures { result ≡ spec.file_scope }
    {
        Scopes {
            bindings: Vec::new(alloc),
            last: Last::new(alloc),
            start: 0,
            counts: Counts {
                atomics: 0,
                plains: 0,
                mutexes: 0,
                functions: 0,
                places: 0,
            },
        }
    }

    /// What the name denotes.
    pub fn denoted(&self, name: &[u8]) -> Option<Entity>
        ensures { result ≡ spec.denoted self.now name.now }
    {
        match self.last.place(name) {
            Some(place) => Some(self.bindings[place].entity),
            None => library_entity(name),
        }
    }

    /// Whether the innermost scope declares the name.
    pub fn is_declared_here(&self, name: &[u8]) -> bool
        ensures { result ≡ spec.is_declared_here self.now name.now }
    {
        match self.last.place(name) {
            Some(place) => self.start <= place,
            None => false,
        }
    }

    /// How much has been declared.
    pub fn counts(&self) -> Counts
        ensures { result ≡ self.now.counts }
    {
        self.counts
    }

    /// Declares the name in the innermost scope. After an error the scopes are as before.
    pub fn declare(
        &mut self,
        name: &'a [u8],
        entity: Entity,
        counts: Counts,
    ) -> Result<(), NoMemory>
        ensures declared { OnOk result (self.new ≡ spec.declared self.old name.now entity counts) }
        ensures unchanged { OnErr result (self.new ≡ self.old) }
    {
        let place = self.bindings.len();
        let hides = self.last.place(name);
        let binding = Binding {
            name,
            entity,
            hides,
        };
        if self.bindings.push(binding).is_err() {
            return Err(NoMemory);
        }
        if self.last.set(name, Some(place)).is_err() {
            self.bindings.truncate(place);
            return Err(NoMemory);
        }
        self.counts = counts;
        Ok(())
    }

    /// Begins a scope. The answer is what is needed at its end.
    pub fn enter(&mut self) -> Mark
        ensures entered { self.new ≡ spec.entered self.old }
        ensures names { result.names ≡ length self.old.names }
        ensures start { result.start ≡ self.old.start }
        ensures counts { result.counts ≡ self.old.counts }
    {
        let mark = Mark {
            names: self.bindings.len(),
            start: self.start,
            counts: self.counts,
        };
        self.start = self.bindings.len();
        mark
    }

    /// Begins the scope of a function, in which no place is taken yet. The answer is what is needed at its end.
    pub fn enter_function(&mut self) -> Mark
        ensures entered { self.new ≡ spec.entered_function self.old }
        ensures names { result.names ≡ length self.old.names }
        ensures start { result.start ≡ self.old.start }
        ensures counts { result.counts ≡ self.old.counts }
    {
        let mark = Mark {
            names: self.bindings.len(),
            start: self.start,
            counts: self.counts,
        };
        self.start = self.bindings.len();
        self.counts.places = 0;
        mark
    }

    /// Ends a scope: the names that were there before it are left.
    pub fn leave(&mut self, mark: Mark)
        ensures { self.new ≡ record { names = take mark.names self.old.names; start = mark.start; counts = self.old.counts } }
    {
        while mark.names < self.bindings.len() {
            self.forget_last();
        }
        self.start = mark.start;
    }

    /// Goes back to where the mark was made: what was declared since then is forgotten, and does not count.
    pub fn go_back(&mut self, mark: Mark)
        ensures { self.new ≡ record { names = take mark.names self.old.names; start = mark.start; counts = mark.counts } }
    {
        self.leave(mark);
        self.counts = mark.counts;
    }

    // Forgets the name that was declared last.
    fn forget_last(&mut self)
        requires { 0 < length self.old.names }
        ensures { self.new ≡ record { names = take (length self.old.names - 1) self.old.names; start = self.old.start; counts = self.old.counts } }
    {
        if let Some(binding) = self.bindings.pop() {
            // The name has an entry, so this takes no memory.
            let _ = self.last.set(binding.name, binding.hides);
        }
    }
}
