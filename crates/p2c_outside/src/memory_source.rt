ghost use Rattle.std.specs.Prelude.{◌≡◌, ◌+◌, ◌-◌, ◌<◌, ◌≤◌, ◌↔◌, ◌++◌, Some, IfOk, OnOk, OnErr, IsErr, Contains, length, take, drop, vec_len};
ghost use Rattle.p2c_outside.specs.Counts.{next_count};
ghost use Rattle.p2c_outside.specs.Pieces.{moved, with_front};

use crate::outside::{Failed, Source};
use crate::pieces::{fill_front, is_listed};

/// A source that gives bytes from memory and fails at chosen calls.
#[derive(Drop)]
pub struct MemorySource {
    /// All bytes, those that were given among them.
    pub bytes: Vec<u8>,
    /// How many bytes were given.
    pub at: usize,
    /// The most bytes that one call gives.
    pub most: usize,
    /// The number of the last call. The first is 1, and the count stops at its last value.
    pub calls: u64,
    /// The numbers of the calls that fail.
    pub fail: Vec<u64>,
    /// How many calls failed. The count stops at its last value.
    pub faults: u64,
    pub ghost within: { at ≤ vec_len bytes },
    pub ghost gives_some: { 1 ≤ most },
}

impl Source for MemorySource {
    ghost left = { λ source. Some (drop source.at source.bytes.items) };

    ghost faults = { λ source. source.faults };

    fn take(&mut self, into: &mut [u8]) -> Result<usize, Failed>
        requires { 0 < length into.old }

        ensures fails { IsErr result ↔ Contains self.old.fail.items (next_count self.old.calls) }
        ensures never_falls { self.old.faults ≤ self.new.faults }
        ensures fault { OnErr result (self.new.faults ≡ next_count self.old.faults) }
        ensures no_fault { OnOk result (self.new.faults ≡ self.old.faults) }
        ensures counted { self.new.calls ≡ next_count self.old.calls }

        ensures count { IfOk result (λ n. n ≡ moved (length into.old) self.old.most
            (length (drop self.old.at self.old.bytes.items))) }
        ensures copied { IfOk result (λ n.
            into.new ≡ with_front n (drop self.old.at self.old.bytes.items) into.old) }
        ensures taken { IfOk result (λ n. drop self.old.at self.old.bytes.items
            ≡ take n into.new ++ drop self.new.at self.new.bytes.items) }
        ensures untouched { OnErr result (into.new ≡ into.old) }
        ensures moves { IfOk result (λ n. self.new.at ≡ self.old.at + n) }
        ensures stays { OnErr result (self.new.at ≡ self.old.at) }

        ensures same_bytes { self.new.bytes.items ≡ self.old.bytes.items }
        ensures same_most { self.new.most ≡ self.old.most }
        ensures same_fail { self.new.fail.items ≡ self.old.fail.items }
    {
        self.calls = self.calls.saturating_add(1);
        if is_listed(&self.fail, self.calls) {
            self.faults = self.faults.saturating_add(1);
            return Err(Failed);
        }
        let count = fill_front(&self.bytes, self.at, self.most, into);
        self.at += count;
        Ok(count)
    }
}
