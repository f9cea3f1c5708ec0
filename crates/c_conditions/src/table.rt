//! Numbers by name.
ghost use Rattle.std.specs.Prelude.{◌≡◌, OnOk, Some};
ghost use Rattle.std.specs.Map.{update};
ghost use Rattle.std.specs.Str.{bytes_eq};
ghost use Rattle.c_conditions.specs.Names.{look, empty, none, zero, has_of, count_of, with_name, raised, lowered};

use std::alloc::{AllocError, Global};
use std::collections::BTreeMap;

/// Numbers by name, each name at most once. A table that only tells names apart has zeros.
#[derive(Drop)]
pub struct Table<'a> {
    entries: BTreeMap<&'a [u8], u64>,
}

impl<'a> Table<'a> {
    #[tactic(auto, unfolding(crate::specs::Names::has_of, crate::specs::Names::count_of))]
    pub fn new(alloc: Global) -> Table<'a>
        ensures look { look result ≡ empty }
        ensures has { has_of result ≡ none }
        ensures count { count_of result ≡ zero }
    {
        Table {
            entries: BTreeMap::new(alloc),
        }
    }

    pub fn get(&self, name: &'a [u8]) -> Option<u64>
        ensures { result ≡ look self.now name.now }
    {
        self.entries.get(&name).copied()
    }

    #[tactic(auto, unfolding(crate::specs::Names::has_of))]
    pub fn has(&self, name: &'a [u8]) -> bool
        ensures { result ≡ has_of self.now name.now }
    {
        self.get(name).is_some()
    }

    /// The number of the name, or 0.
    #[tactic(auto, unfolding(crate::specs::Names::count_of))]
    pub fn count(&self, name: &'a [u8]) -> u64
        ensures { result ≡ count_of self.now name.now }
    {
        self.get(name).unwrap_or(0)
    }

    pub fn put(&mut self, name: &'a [u8], value: u64) -> Result<(), AllocError>
        ensures { OnOk result (look self.new ≡ update bytes_eq (look self.old) name.entry.now (Some value)) }
    {
        self.entries.insert(name, value)?;
        Ok(())
    }

    pub fn add(&mut self, name: &'a [u8]) -> Result<(), AllocError>
        ensures { OnOk result (has_of self.new ≡ with_name name.entry.now (has_of self.old)) }
    {
        self.put(name, 0)
    }

    /// Adds one to the number of the name.
    pub fn raise(&mut self, name: &'a [u8]) -> Result<(), AllocError>
        ensures { OnOk result (count_of self.new ≡ raised name.entry.now (count_of self.old)) }
    {
        let raised = self.count(name).checked_add(1).ok_or(AllocError)?;
        self.put(name, raised)
    }

    /// Takes one from the number of the name, if it is not 0.
    pub fn lower(&mut self, name: &'a [u8]) -> Result<(), AllocError>
        ensures { OnOk result (count_of self.new ≡ lowered name.entry.now (count_of self.old)) }
    {
        let lowered = self.count(name).saturating_sub(1);
        self.put(name, lowered)
    }
}
