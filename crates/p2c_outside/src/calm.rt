ghost use Rattle.std.specs.Prelude.{◌≡◌, ◌+◌, ◌-◌, ◌^◌, ◌<◌, ◌≤◌, ◌++◌, Some, None, IfOk, IsOk, length, take, drop, min, vec_len};
ghost use Rattle.p2c_outside.specs.Counts.{last_count};
ghost use Rattle.p2c_outside.specs.Pieces.{with_front};

use crate::outside::{Failed, Sink, Source};
use crate::pieces::fill_front;

/// A source that gives bytes from memory, as many as fit, and never fails.
#[derive(Drop)]
pub struct CalmSource {
    /// All bytes, those that were given among them.
    pub bytes: Vec<u8>,
    /// How many bytes were given.
    pub at: usize,
    pub ghost within: { at ≤ vec_len bytes },
}

impl Source for CalmSource {
    ghost left = { λ source. Some (drop source.at source.bytes.items) };

    ghost faults = { λ _. 0 };

    fn take(&mut self, into: &mut [u8]) -> Result<usize, Failed>
        requires { 0 < length into.old }

        ensures never_fails { IsOk result }
        ensures count { IfOk result (λ n. n ≡
            min (length into.old) (length (drop self.old.at self.old.bytes.items))) }
        ensures copied { IfOk result (λ n.
            into.new ≡ with_front n (drop self.old.at self.old.bytes.items) into.old) }
        ensures taken { IfOk result (λ n. drop self.old.at self.old.bytes.items
            ≡ take n into.new ++ drop self.new.at self.new.bytes.items) }
        ensures moves { IfOk result (λ n. self.new.at ≡ self.old.at + n) }
        ensures same_bytes { self.new.bytes.items ≡ self.old.bytes.items }
    {
        let count = fill_front(&self.bytes, self.at, into.len(), into);
        self.at += count;
        Ok(count)
    }
}

/// A sink that counts bytes and drops them, and never fails.
#[derive(Clone, Copy)]
pub struct CalmSink {
    /// How many bytes were put. The count stops at its last value.
    pub count: u64,
}

impl Sink for CalmSink {
    ghost written = { λ _. None };

    ghost faults = { λ _. 0 };

    fn put(&mut self, piece: &[u8]) -> Result<usize, Failed>
        requires { 0 < length piece.now }

        ensures all { result ≡ Ok (length piece.now) }
        ensures counted { self.new.count ≡ min (self.old.count + length piece.now) last_count }
    {
        self.count = self.count.saturating_add(piece.len() as u64);
        Ok(piece.len())
    }
}
