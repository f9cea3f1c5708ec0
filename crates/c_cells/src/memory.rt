//! Blocks by their numbers.
ghost use Rattle.std.specs.Prelude.{◌≡◌, ◌+◌, ◌<◌, ◌^◌, ◌∷◌, ◌++◌, [], Some, None, true, false, OnOk, OnErr, IfErr, IfSome, length, slice_get, slice_set};
ghost use Rattle.std.specs.Option.{option_map};
ghost use Rattle.c_meaning.specs.Cells.{Leaf, Int, Blocks, block_at};
ghost use Rattle.c_meaning.specs.Answer.{Got};
ghost use Rattle.c_meaning.specs.States.{store};
ghost use Rattle.c_cells.specs.Halts.{Refuses};
ghost use Rattle.c_cells.specs.Kept.{Rises};
ghost use Rattle.c_cells.specs.Slots.{found_block, int_block, int_cell, removed, HoldsInt};

use crate::halt::Halt;
use crate::kept::{
    Kept, count_there, is_kept, place_for, place_of, replace, retain_there, set_number, slot_at,
    slot_if,
};
use crate::slot::{Found, Slot};
use crate::tree::CellTree;
use c_meaning::StuckKind;
use c_tree::types::CType;
use std::alloc::{AllocError, Global};
use std::marker::Model;

/// A variable, or what a `malloc` made.
#[derive(Drop)]
pub struct Block {
    pub of: CType,
    pub tree: CellTree,
    /// Whether `malloc` made it.
    pub heap: bool,
}

impl Model for Block {
    ghost use Rattle.c_meaning.specs.Cells.{Block as BlockOfMeaning};
    ghost use Rattle.c_cells.specs.Codes.{coded_block};

    ghost Value = { BlockOfMeaning };

    ghost coded = { coded_block };

    ghost view = { λ a. record { of = a.of; tree = a.tree; heap = a.heap } };
}

/// Where the own blocks of a function lie, one after the other.
#[derive(Drop, Clone, Copy)]
struct Frame {
    first: usize,
    /// How far their numbers are ahead of their places.
    ahead: usize,
}

impl Frame {
    /// Finds the place of the first one.
    fn find(&mut self, kept: &[Kept], made: usize)
        requires { Rises 0 kept.now made }
    {
        self.ahead = self.first.wrapping_sub(place_for(kept, made, self.first));
    }
}

fn find_each(frames: &mut [Frame], kept: &[Kept], made: usize)
    requires { Rises 0 kept.now made }
{
    for frame in frames.iter_mut() {
        frame.find(kept, made);
    }
}

/// The blocks that were made, each under the next number. No number is given twice. A block that is
/// gone is kept as such only while one that was made later is there, and until the list is compacted.
#[derive(Drop)]
pub struct Memory {
    kept: Vec<Kept>,
    made: usize,
    /// How long the list may get before those that are gone are taken out.
    compact_at: usize,
    /// Where a block of the running function is looked for first.
    frame: Frame,
    /// The frames of the functions that wait.
    outer: Vec<Frame>,
}

impl Model for Memory {
    ghost use Rattle.c_meaning.specs.Cells.{Blocks};
    ghost use Rattle.c_cells.specs.Codes.{coded_blocks};

    ghost Value = { Blocks };

    ghost coded = { coded_blocks };

    ghost use Rattle.c_cells.specs.Kept.{spread, Rises};

    ghost view = { λ a. spread 0 a.kept.items a.made };

    ghost use Rattle.std.specs.Prelude.{◌<◌, ◌^◌};

    ghost invariant = { λ a. Rises 0 a.kept.items a.made × (a.made < 2 ^ 63) };
}

impl Memory {
    #[tactic(auto, unfolding(crate::specs::Kept::spread))]
    pub fn new(alloc: Global) -> Memory
        ensures { result ≡ [] }
    {
        Memory {
            kept: Vec::new(alloc),
            made: 0,
            compact_at: 0,
            frame: Frame { first: 0, ahead: 0 },
            outer: Vec::new(alloc),
        }
    }

    /// How many blocks were made: the number of the next one.
    #[tactic(auto, using(crate::proofs::Spread::length_made))]
    pub fn made(&self) -> usize
        ensures value { result ≡ length self.now }
        ensures small { result < 2 ^ 63 }
    {
        self.made
    }

    /// Whether there are numbers for so many blocks more.
    fn has_numbers(&self, count: usize) -> bool
        ensures { result ≡ true → length self.now + count < 2 ^ 63 }
    {
        count < (1 << 63) - self.made()
    }

    /// The slot with a number, where it is kept.
    #[tactic(auto, using(crate::proofs::Spread::slot_here))]
    fn slot(&self, number: usize) -> Option<&Slot>
        ensures kept { IfSome result (λ slot. slice_get self.now number ≡ Some slot.now) }
        ensures none { result ≡ None → block_at self.now number ≡ None }
    {
        let near = number.wrapping_sub(self.frame.ahead);
        match slot_if(&self.kept, number, near) {
            Some(slot) => Some(slot),
            None => self.slot_elsewhere(number),
        }
    }

    /// The same, looked for everywhere.
    #[inline(never)]
    #[tactic(auto, using(crate::proofs::Spread::absent))]
    fn slot_elsewhere(&self, number: usize) -> Option<&Slot>
        ensures kept { IfSome result (λ slot. slice_get self.now number ≡ Some slot.now) }
        ensures none { result ≡ None → block_at self.now number ≡ None }
    {
        match place_of(&self.kept, self.made, number) {
            Some(place) => Some(slot_at(&self.kept, place)),
            None => None,
        }
    }

    /// The block with a number, where it is there.
    #[tactic(auto, using(crate::proofs::Blocks::block_some))]
    pub fn get(&self, number: usize) -> Option<Found>
        ensures { option_map found_block result ≡ block_at self.now number }
    {
        match self.slot(number) {
            Some(slot) => slot.found(),
            None => None,
        }
    }

    /// The number in the block of an `int64_t` variable, where it has one.
    #[tactic(auto, using(crate::proofs::Blocks::block_some))]
    pub fn get_number(&self, number: usize) -> Option<i64>
        ensures { IfSome result (λ z. block_at self.now number ≡ Some (int_block (Int z))) }
    {
        let near = number.wrapping_sub(self.frame.ahead);
        if is_kept(&self.kept, number, near) {
            return slot_at(&self.kept, near).get_number();
        }
        match self.slot_elsewhere(number) {
            Some(slot) => slot.get_number(),
            None => None,
        }
    }

    /// Whether a block is there that is that of an `int64_t` variable.
    pub fn holds_int(&self, number: usize) -> bool
        ensures { result ≡ true → HoldsInt self.now number }
    {
        match self.slot(number) {
            Some(slot) => slot.is_number(),
            None => false,
        }
    }

    /// Changes the number in the block of an `int64_t` variable. Where the block is no such one,
    /// nothing is done, and the answer is false.
    #[tactic(auto, using(crate::proofs::Spread::stored_int, crate::proofs::Spread::rises_set))]
    pub fn set_number(&mut self, number: usize, z: i64) -> bool
        ensures stored { result ≡ true → store self.old number [] (Leaf (Int z)) ≡ Got self.new }
        ensures int { result ≡ true → HoldsInt self.old number }
        ensures same { result ≡ false → self.new ≡ self.old }
    {
        let near = number.wrapping_sub(self.frame.ahead);
        if is_kept(&self.kept, number, near) {
            return set_number(&mut self.kept, number, near, z);
        }
        match place_of(&self.kept, self.made, number) {
            Some(place) => set_number(&mut self.kept, number, place, z),
            None => false,
        }
    }

    /// Makes the block that lies in a slot.
    #[tactic(auto, using(crate::proofs::Spread::length_made, crate::proofs::Spread::pushed, crate::proofs::Spread::rises_pushed))]
    fn push_slot(&mut self, slot: Slot) -> Result<(), AllocError>
        ensures ok { OnOk result (self.new ≡ self.old ++ slot ∷ []) }
        ensures err { OnErr result (self.new ≡ self.old) }
    {
        if !self.has_numbers(1) {
            return Err(AllocError);
        }
        if self.kept.len() >= self.compact_at {
            self.compact();
        }
        let number = self.made;
        self.kept.push(Kept { number, slot })?;
        self.made += 1;
        Ok(())
    }

    /// Makes a block.
    pub fn push(&mut self, alloc: Global, block: Block) -> Result<(), AllocError>
        ensures ok { OnOk result (self.new ≡ self.old ++ Some block ∷ []) }
        ensures err { OnErr result (self.new ≡ self.old) }
    {
        let slot = Slot::new(alloc, block)?;
        self.push_slot(slot)
    }

    /// Makes the block of an `int64_t` variable.
    pub fn push_int(&mut self, number: Option<i64>) -> Result<(), AllocError>
        ensures ok { OnOk result (self.new ≡ self.old ++ Some (int_block (int_cell number)) ∷ []) }
        ensures err { OnErr result (self.new ≡ self.old) }
    {
        self.push_slot(Slot::int(number))
    }

    /// Makes blocks that lie in slots, in order, and leaves none there. Where memory is short, only
    /// the first of them are made, and the blocks before these stay.
    pub fn append(&mut self, more: &mut Vec<Slot>) -> Result<(), AllocError>
        ensures ok { OnOk result ((self.new ≡ self.old ++ more.old.items) × (more.new.items ≡ [])) }
        ensures err { OnErr result ((made : Blocks) × (self.new ≡ self.old ++ made)) }
    {
        for slot in more.drain(..) {
            self.push_slot(slot)?;
        }
        Ok(())
    }

    /// Changes a part of a block. Where that fails, the block is gone.
    #[tactic(auto, using(crate::proofs::Spread::stored, crate::proofs::Spread::refused, crate::proofs::Spread::gone_use, crate::proofs::Spread::set, crate::proofs::Spread::gone_stays, crate::proofs::Spread::rises_set, crate::proofs::Spread::rises_set_twice))]
    pub fn store(
        &mut self,
        alloc: Global,
        number: usize,
        path: &[usize],
        tree: CellTree,
    ) -> Result<(), Halt>
        ensures stored { OnOk result (store self.old number path.now tree ≡ Got self.new) }
        ensures refused { IfErr result (λ halt. Refuses halt (store self.old number path.now tree)) }
        ensures gone { OnErr result (self.new ≡ slice_set self.old number None) }
    {
        let Some(place) = place_of(&self.kept, self.made, number) else {
            return Err(Halt::Stuck(StuckKind::GoneUse));
        };
        let slot = Slot::gone();
        let old = replace(&mut self.kept, place, Kept { number, slot });
        let slot = old.slot.with_part(alloc, path, tree)?;
        let gone = replace(&mut self.kept, place, Kept { number, slot });
        drop(gone);
        Ok(())
    }

    // ---- functions that begin and end, and blocks that are gone

    /// A function begins, and its blocks are made next.
    #[tactic(auto, using(crate::proofs::Spread::as_many_numbers))]
    pub fn begin(&mut self) -> Result<(), AllocError>
        ensures { self.new ≡ self.old }
    {
        self.outer.push(self.frame)?;
        let first = self.made;
        let ahead = first - self.kept.len();
        self.frame = Frame { first, ahead };
        Ok(())
    }

    /// The function that began last ends: so many blocks are gone, from the one with this number on.
    pub fn end(&mut self, first: usize, count: usize)
        requires { first + count < 2 ^ 63 }
        ensures { self.new ≡ removed first count self.old }
    {
        self.mark_each(first, count);
        self.give_up();
        if let Some(frame) = self.outer.pop() {
            self.frame = frame;
        }
    }

    /// Makes the block with a number be gone.
    pub fn remove(&mut self, number: usize)
        ensures { self.new ≡ slice_set self.old number None }
    {
        self.mark_gone(number);
        self.give_up();
    }

    #[tactic(auto, using(crate::proofs::Blocks::removed_next), unfolding(crate::specs::Slots::removed))]
    fn mark_each(&mut self, first: usize, count: usize)
        requires { first + count < 2 ^ 63 }
        ensures { self.new ≡ removed first count self.old }
    {
        let mut number = first;
        let mut left = count;
        while left > 0 {
            self.mark_gone(number);
            number += 1;
            left -= 1;
        }
    }

    #[tactic(auto, using(crate::proofs::Spread::set, crate::proofs::Spread::rises_set, crate::proofs::Spread::gone_stays))]
    fn mark_gone(&mut self, number: usize)
        ensures { self.new ≡ slice_set self.old number None }
    {
        if let Some(place) = place_of(&self.kept, self.made, number) {
            let slot = Slot::gone();
            let old = replace(&mut self.kept, place, Kept { number, slot });
            drop(old);
        }
    }

    /// Keeps none after the last one that is there.
    #[tactic(auto, using(crate::proofs::Spread::without_gone, crate::proofs::Spread::rises_cut))]
    fn give_up(&mut self)
        ensures { self.new ≡ self.old }
    {
        let count = count_there(&self.kept);
        self.kept.truncate(count);
    }

    /// Keeps only those that are there, and finds the frames again. The next time is when the list is
    /// more than twice as long, so that this costs no more than what was made since.
    #[inline(never)]
    #[tactic(auto, using(crate::proofs::Spread::compacted, crate::proofs::Spread::rises_compacted))]
    fn compact(&mut self)
        ensures { self.new ≡ self.old }
    {
        retain_there(&mut self.kept);
        self.frame.find(&self.kept, self.made);
        find_each(&mut self.outer, &self.kept, self.made);
        let twice = self.kept.len().saturating_mul(2);
        self.compact_at = twice.saturating_add(self.outer.len()).saturating_add(1024);
    }
}
