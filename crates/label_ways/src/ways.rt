//! Ways by labels.
ghost use Rattle.std.specs.Prelude.{◌≡◌, List, ℕ, None, OnOk};
ghost use Rattle.std.specs.Option.{option_map};
ghost use Rattle.label_ways.specs.Labels.{or_way};
ghost use Rattle.label_ways.specs.Ways.{way_in, way_of, way_if};

use crate::level::Level;
use c_tree::Name;
use std::alloc::{AllocError, Global};
use std::collections::HashMap;
use tree_lists::Items;

/// The way to a label: the statements around it, and its place in the innermost list.
#[derive(Drop)]
pub struct Way {
    pub outer: Vec<Level>,
    pub at: usize,
}

/// The way to the first label of each name.
#[derive(Drop)]
pub struct Ways {
    entries: HashMap<Name, Way>,
}

impl Ways {
    pub fn new(alloc: Global) -> Ways
        ensures { (x : List ℕ) → way_in result x ≡ None }
    {
        Ways {
            entries: HashMap::new(alloc),
        }
    }

    pub fn get(&self, label: &Name) -> Option<&Way>
        ensures { option_map (λ w. way_of w.now) result ≡ way_in self.now label.now }
    {
        self.entries.get(label)
    }

    /// Adds the way to a label that is not there.
    fn insert(
        &mut self,
        alloc: Global,
        label: &Name,
        outer: &[Level],
        at: usize,
    ) -> Result<(), AllocError>
        requires { way_in self.old label.now ≡ None }
        ensures { OnOk result ((x : List ℕ) → way_in self.new x ≡ or_way (way_in self.old x) (way_if x label.now (outer.now, at))) }
    {
        let name = Items::from_slice(alloc, label.as_slice())?;
        let outer = Vec::from_slice(alloc, outer)?;
        self.entries.insert(name, Way { outer, at })?;
        Ok(())
    }

    /// Adds the way to a label, unless it has one.
    #[tactic(auto, using(crate::proofs::Adding::kept))]
    pub fn add(
        &mut self,
        alloc: Global,
        label: &Name,
        outer: &[Level],
        at: usize,
    ) -> Result<(), AllocError>
        ensures { OnOk result ((x : List ℕ) → way_in self.new x ≡ or_way (way_in self.old x) (way_if x label.now (outer.now, at))) }
    {
        match self.get(label) {
            Some(_) => Ok(()),
            None => self.insert(alloc, label, outer, at),
        }
    }
}
