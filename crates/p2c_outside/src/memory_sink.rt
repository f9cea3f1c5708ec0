ghost use Rattle.std.specs.Prelude.{◌≡◌, ◌-◌, ◌<◌, ◌≤◌, ◌↔◌, ◌++◌, ◌⊎◌, Some, [], IfOk, OnOk, OnErr, IsErr, Contains, length, take, vec_len, vec_capacity};
ghost use Rattle.p2c_outside.specs.Counts.{next_count};
ghost use Rattle.p2c_outside.specs.Pieces.{moved};

use crate::outside::{Failed, Sink};
use crate::pieces::is_listed;
use std::alloc::{AllocError, Global};

/// A sink that holds its bytes in memory, has room for so many, and fails at chosen calls.
#[derive(Drop)]
pub struct MemorySink {
    /// The bytes that were put.
    pub bytes: Vec<u8>,
    /// The most bytes that the sink holds.
    pub room: usize,
    /// The most bytes that one call puts.
    pub most: usize,
    /// The number of the last call. The first is 1, and the count stops at its last value.
    pub calls: u64,
    /// The numbers of the calls that fail.
    pub fail: Vec<u64>,
    /// How many calls failed. The count stops at its last value.
    pub faults: u64,
    pub ghost within: { vec_len bytes ≤ room },
    pub ghost reserved: { room ≤ vec_capacity bytes },
    pub ghost puts_some: { 1 ≤ most },
}

impl MemorySink {
    /// An empty sink. It takes here all the memory that it will need.
    pub fn new(
        alloc: Global,
        room: usize,
        most: usize,
        fail: Vec<u64>,
    ) -> Result<MemorySink, AllocError>
        requires { 1 ≤ most }
        ensures empty { IfOk result (λ sink. sink.bytes.items ≡ []) }
        ensures room { IfOk result (λ sink. sink.room ≡ room) }
        ensures most { IfOk result (λ sink. sink.most ≡ most) }
        ensures no_call { IfOk result (λ sink. sink.calls ≡ 0) }
        ensures fail { IfOk result (λ sink. sink.fail.items ≡ fail.items) }
        ensures no_fault { IfOk result (λ sink. sink.faults ≡ 0) }
    {
        let bytes = Vec::with_capacity(alloc, room)?;
        Ok(MemorySink {
            bytes,
            room,
            most,
            calls: 0,
            fail,
            faults: 0,
        })
    }
}

impl Sink for MemorySink {
    ghost written = { λ sink. Some sink.bytes.items };

    ghost faults = { λ sink. sink.faults };

    fn put(&mut self, piece: &[u8]) -> Result<usize, Failed>
        requires { 0 < length piece.now }

        ensures fails { IsErr result ↔ (Contains self.old.fail.items (next_count self.old.calls)
            ⊎ (vec_len self.old.bytes ≡ self.old.room)) }
        ensures never_falls { self.old.faults ≤ self.new.faults }
        ensures fault { OnErr result (self.new.faults ≡ next_count self.old.faults) }
        ensures no_fault { OnOk result (self.new.faults ≡ self.old.faults) }
        ensures counted { self.new.calls ≡ next_count self.old.calls }

        ensures count { IfOk result (λ n. n ≡
            moved (length piece.now) self.old.most (self.old.room - vec_len self.old.bytes)) }
        ensures put { IfOk result (λ n.
            self.new.bytes.items ≡ self.old.bytes.items ++ take n piece.now) }
        ensures stays { OnErr result (self.new.bytes.items ≡ self.old.bytes.items) }

        ensures same_room { self.new.room ≡ self.old.room }
        ensures same_most { self.new.most ≡ self.old.most }
        ensures same_fail { self.new.fail.items ≡ self.old.fail.items }
    {
        self.calls = self.calls.saturating_add(1);
        let space = self.room - self.bytes.len();
        if space == 0 || is_listed(&self.fail, self.calls) {
            self.faults = self.faults.saturating_add(1);
            return Err(Failed);
        }
        let count = piece.len().min(self.most).min(space);
        self.bytes.extend_from_slice(&piece[..count]).unwrap();
        Ok(count)
    }
}
