//! Input that is taken in pieces.
ghost use Rattle.std.specs.Prelude.{◌≡◌, ◌≤◌, ◌↔◌, IsTrue, IfOk, OnOk, OnErr, true, false, [], length};
ghost use Rattle.p2c_outside.specs.Counts.{Rose};
ghost use Rattle.p2c_outside.specs.Told.{Loses, IsEmpty};
ghost use Rattle.held_bytes.specs.Held.{bytes_in, IsDry, first_of, rest_of};

use crate::input::HeldInput;
use crate::writing::PIECE;
use p2c_outside::{Failed, Source};
use std::alloc::{AllocError, Global};

impl HeldInput {
    /// Nothing is held.
    pub fn new(alloc: Global) -> Result<HeldInput, AllocError>
        ensures empty { IfOk result (λ held. bytes_in held ≡ []) }
        ensures begun { IfOk result (λ held. held.over ≡ false) }
    {
        let buffer = Vec::from_slice(alloc, &[0; PIECE])?;
        Ok(HeldInput {
            buffer,
            at: 0,
            end: 0,
            over: false,
        })
    }

    /// Whether input has to be taken before a byte is read.
    #[tactic(auto, using(crate::proofs::HeldRest::held_some))]
    pub fn is_dry(&self) -> bool
        ensures { IsTrue result ↔ IsDry self.now }
    {
        if self.at < self.end {
            return false;
        }
        !self.over
    }

    /// Takes a piece, or meets the end.
    pub fn fill<I: Source>(&mut self, input: &mut I) -> Result<(), Failed>
        requires { IsDry self.old }
        ensures taken { Loses (I.left input.old) (I.left input.new) (bytes_in self.new) }
        ensures few { length (bytes_in self.new) ≤ 4096 }
        ensures filled { OnOk result (bytes_in self.new ≡ [] → self.new.over ≡ true) }
        ensures over { self.new.over ≡ true → IsEmpty (I.left input.new) }
        ensures no_fault { OnOk result (I.faults input.new ≡ I.faults input.old) }
        ensures refused { OnErr result (Rose (I.faults input.old) (I.faults input.new)) }
        ensures dry { OnErr result (IsDry self.new) }
    {
        self.at = 0;
        self.end = 0;
        let count = input.take(&mut self.buffer)?;
        if count == 0 {
            self.over = true;
        }
        self.end = count;
        Ok(())
    }

    /// The byte that is read next, or none at the end.
    pub fn first(&self) -> Option<u8>
        ensures { result ≡ first_of (bytes_in self.now) }
    {
        if self.at < self.end {
            Some(self.buffer[self.at])
        } else {
            None
        }
    }

    /// One more byte is read, where one is held.
    #[tactic(auto, using(crate::proofs::HeldRest::rest_drop))]
    pub fn advance(&mut self)
        ensures rest { bytes_in self.new ≡ rest_of (bytes_in self.old) }
        ensures over { self.new.over ≡ self.old.over }
    {
        if self.at < self.end {
            self.at += 1;
        }
    }
}
