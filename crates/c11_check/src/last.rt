ghost use Rattle.std.specs.Prelude.{◌≡◌, ℕ, List, [], None, Some, OnOk, OnErr, if◌then◌else◌};
ghost use Rattle.std.specs.Str.{bytes_eq};
ghost use Rattle.c11_check.specs.Table.{entry_at, place_at};

use c11_num::NoMemory;
use indexmap::IndexMap;
use std::alloc::Global;
use std::marker::Model;

/// Where each name was declared last, if it is in force.
#[derive(Drop)]
pub(crate) struct Last<'a> {
    places: IndexMap<&'a [u8], Option<usize>>,
}

impl<'a> Model for Last<'a> {
    ghost use Rattle.std.specs.Prelude.{map};
    ghost use Rattle.c11_check.specs.Table.{Table};

    ghost Value = { Table };

    ghost view = { λ l. map (λ e. (e.0.now, e.1)) l.places.entries };
}

impl<'a> Last<'a> {
    /// No name.
    pub(crate) fn new(alloc: Global) -> Last<'a>
        ensures { result ≡ [] }
    {
        Last {
            places: IndexMap::new(alloc),
        }
    }

    /// The place of the name; none where it is not in force.
    pub(crate) fn place(&self, name: &[u8]) -> Option<usize>
        ensures { result ≡ place_at name.now self.now }
    {
        match self.places.get(name) {
            Some(place) => *place,
            None => None,
        }
    }

    /// The name has this place now. Memory is wanted for a name without an entry alone.
    pub(crate) fn set(&mut self, name: &'a [u8], place: Option<usize>) -> Result<(), NoMemory>
        ensures changed { OnOk result ((other : List ℕ) → entry_at other self.new ≡ (if bytes_eq other name.now then Some place else entry_at other self.old)) }
        ensures absent { OnErr result (entry_at name.now self.old ≡ None) }
        ensures unchanged { OnErr result (self.new ≡ self.old) }
    {
        self.places.insert(name, place)?;
        Ok(())
    }
}
