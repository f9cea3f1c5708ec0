//! Output that is put in pieces.
ghost use Rattle.std.specs.Prelude.{◌≡◌, ◌<◌, ◌++◌, ◌∷◌, OnOk, OnErr, IfOk, [], length};
ghost use Rattle.p2c_outside.specs.Counts.{Rose};
ghost use Rattle.p2c_outside.specs.Told.{Gains};
ghost use Rattle.held_bytes.specs.Written.{GainsPart};
ghost use Rattle.held_bytes.specs.Held.{Moves};

use crate::writing::{PIECE, offer};
use p2c_outside::{Failed, Sink};
use std::alloc::{AllocError, Global};

/// Bytes that were written and are not put yet.
#[derive(Drop)]
pub struct HeldOutput {
    pub bytes: Vec<u8>,
}

impl HeldOutput {
    /// Nothing is held.
    pub fn new(alloc: Global) -> Result<HeldOutput, AllocError>
        ensures { IfOk result (λ held. held.bytes.items ≡ []) }
    {
        let bytes = Vec::with_capacity(alloc, PIECE)?;
        Ok(HeldOutput { bytes })
    }

    /// Holds one more byte.
    pub fn push(&mut self, byte: u8) -> Result<(), AllocError>
        ensures ok { OnOk result (self.new.bytes.items ≡ self.old.bytes.items ++ byte ∷ []) }
        ensures err { OnErr result (self.new.bytes.items ≡ self.old.bytes.items) }
    {
        self.bytes.push(byte)?;
        Ok(())
    }

    /// Puts what is held. After a fault it is not held any more.
    pub fn flush<O: Sink>(&mut self, out: &mut O) -> Result<(), Failed>
        ensures whole { OnOk result (Gains (O.written out.old) (O.written out.new) self.old.bytes.items) }
        ensures part { OnErr result (GainsPart (O.written out.old) (O.written out.new) self.old.bytes.items) }
        ensures empty { self.new.bytes.items ≡ [] }
        ensures no_fault { OnOk result (O.faults out.new ≡ O.faults out.old) }
        ensures fault { OnErr result (Rose (O.faults out.old) (O.faults out.new)) }
    {
        let offered = offer(out, &self.bytes);
        self.bytes.clear();
        offered
    }

    /// Puts what is held where that is a whole piece.
    pub fn flush_piece<O: Sink>(&mut self, out: &mut O) -> Result<(), Failed>
        ensures whole { OnOk result (Moves self.old.bytes.items self.new.bytes.items (O.written out.old) (O.written out.new) []) }
        ensures part { OnErr result (GainsPart (O.written out.old) (O.written out.new) self.old.bytes.items) }
        ensures few { length self.new.bytes.items < 4096 }
        ensures no_fault { OnOk result (O.faults out.new ≡ O.faults out.old) }
        ensures fault { OnErr result (Rose (O.faults out.old) (O.faults out.new)) }
    {
        if self.bytes.len() < PIECE {
            return Ok(());
        }
        self.flush(out)
    }
}
