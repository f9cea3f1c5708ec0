//! First places by name.
ghost use Rattle.std.specs.Prelude.{◌≡◌, List, ℕ, None, OnOk};
ghost use Rattle.c_meaning.specs.Answer.{or_else};
ghost use Rattle.name_tables.specs.Places.{place_in, place_if};

use c_tree::Name;
use std::alloc::{AllocError, Global};
use std::collections::HashMap;
use tree_lists::Items;

/// The first place of each name in a list.
#[derive(Drop)]
pub struct Places {
    entries: HashMap<Name, usize>,
}

impl Places {
    pub fn new(alloc: Global) -> Places
        ensures { (x : List ℕ) → place_in result x ≡ None }
    {
        Places {
            entries: HashMap::new(alloc),
        }
    }

    pub fn get(&self, name: &Name) -> Option<usize>
        ensures { result ≡ place_in self.now name.now }
    {
        self.entries.get(name).copied()
    }

    /// Adds a name that is not there.
    fn insert(&mut self, alloc: Global, name: &Name, place: usize) -> Result<(), AllocError>
        requires { place_in self.old name.now ≡ None }
        ensures { OnOk result ((x : List ℕ) → place_in self.new x ≡ or_else (place_in self.old x) (place_if x name.now place)) }
    {
        let name = Items::from_slice(alloc, name.as_slice())?;
        self.entries.insert(name, place)?;
        Ok(())
    }

    /// Adds a name with its place, unless it has one.
    #[tactic(auto, using(crate::proofs::Adding::kept))]
    pub fn add(&mut self, alloc: Global, name: &Name, place: usize) -> Result<(), AllocError>
        ensures { OnOk result ((x : List ℕ) → place_in self.new x ≡ or_else (place_in self.old x) (place_if x name.now place)) }
    {
        match self.get(name) {
            Some(_) => Ok(()),
            None => self.insert(alloc, name, place),
        }
    }
}
