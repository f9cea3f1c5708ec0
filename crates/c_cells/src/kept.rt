//! Blocks that are kept under their numbers, in the order of these.
ghost use Rattle.std.specs.Prelude.{◌≡◌, ◌⊎◌, ℕ, ◌<◌, ◌-◌, Some, None, true, false, drop, length, IfOk, IfErr, IfSome, is_none, vec_len, slice_get, slice_set};
ghost use Rattle.c_meaning.specs.Cells.{Int};
ghost use Rattle.c_cells.specs.Slots.{int_block};
ghost use Rattle.c_cells.specs.Kept.{Rises, IsKept, IsIntKept, IsAbsent, AllGone, those_there};

use crate::slot::Slot;
use std::mem;

#[derive(Drop)]
pub struct Kept {
    pub number: usize,
    pub slot: Slot,
}

/// Whether the block with a number is kept at a place.
#[inline(always)]
pub fn is_kept(kept: &[Kept], number: usize, place: usize) -> bool
    ensures { result ≡ true → IsKept kept.now number place }
{
    match kept.get(place) {
        Some(found) => found.number == number,
        None => false,
    }
}

/// Where the block with a number is kept, or the place before which it would be.
fn search(kept: &[Kept], made: usize, number: usize) -> Result<usize, usize>
    requires { Rises 0 kept.now made }
    ensures found { IfOk result (IsKept kept.now number) }
    ensures absent { IfErr result (IsAbsent kept.now number) }
{
    kept.binary_search_by_key(&number, |one| one.number)
}

/// Where the block with a number is kept, or the place before which it would be.
pub fn place_for(kept: &[Kept], made: usize, number: usize) -> usize
    requires { Rises 0 kept.now made }
    ensures { IsKept kept.now number result ⊎ IsAbsent kept.now number result }
{
    match search(kept, made, number) {
        Ok(place) => place,
        Err(place) => place,
    }
}

/// The slot of the block with a number, where it is kept at a place.
#[inline(always)]
pub fn slot_if(kept: &[Kept], number: usize, place: usize) -> Option<&Slot>
    ensures { IfSome result (λ slot. slice_get kept.now place ≡ Some (record { number = number; slot = slot.now })) }
{
    match kept.get(place) {
        Some(found) => {
            if found.number == number {
                Some(&found.slot)
            } else {
                None
            }
        }
        None => None,
    }
}

/// The place of the block with a number, where it is kept, of so many that were made. It is looked
/// for first where it lies if all before it are kept, then where it lies if all after it are, and
/// then everywhere.
pub fn place_of(kept: &[Kept], made: usize, number: usize) -> Option<usize>
    requires { Rises 0 kept.now made }
    ensures found { IfSome result (IsKept kept.now number) }
    ensures absent { result ≡ None → (at : ℕ) × IsAbsent kept.now number at }
{
    if is_kept(kept, number, number) {
        return Some(number);
    }
    let late = number.wrapping_sub(made.wrapping_sub(kept.len()));
    if is_kept(kept, number, late) {
        return Some(late);
    }
    match search(kept, made, number) {
        Ok(place) => Some(place),
        Err(_) => None,
    }
}

/// The slot that is kept at a place.
pub fn slot_at(kept: &[Kept], place: usize) -> &Slot
    requires { place < length kept.now }
    ensures { (number : ℕ) × (slice_get kept.now place ≡ Some (record { number = number; slot = result.now })) }
{
    &kept[place].slot
}

/// Whether the block that is kept at a place is that of an `int64_t` variable.
fn is_int(kept: &[Kept], place: usize) -> bool
    ensures int { result ≡ true → IsIntKept kept.now place }
    ensures within { result ≡ true → place < length kept.now }
{
    match kept.get(place) {
        Some(found) => found.slot.is_number(),
        None => false,
    }
}

/// Puts one in the place of another, which it gives.
pub fn replace(kept: &mut Vec<Kept>, place: usize, new: Kept) -> Kept
    requires { place < vec_len kept.old }
    ensures old { slice_get kept.old.items place ≡ Some result }
    ensures items { kept.new.items ≡ slice_set kept.old.items place new }
{
    mem::replace(&mut kept[place], new)
}

/// Changes the number of the `int64_t` variable whose block has a number and is kept at a place.
/// Where it is no such one, nothing is done, and the answer is false.
#[inline(always)]
pub fn set_number(kept: &mut Vec<Kept>, number: usize, place: usize, z: i64) -> bool
    ensures int { result ≡ true → IsIntKept kept.old.items place }
    ensures set { result ≡ true → kept.new.items ≡ slice_set kept.old.items place (record { number = number; slot = Some (int_block (Int z)) }) }
    ensures same { result ≡ false → kept.new.items ≡ kept.old.items }
{
    if !is_int(kept, place) {
        return false;
    }
    let slot = Slot::int(Some(z));
    let old = replace(kept, place, Kept { number, slot });
    drop(old);
    true
}

/// How many there are up to the last one that is not gone.
#[tactic(auto, using(crate::proofs::Spread::gone_before, crate::proofs::Spread::none_after))]
pub fn count_there(kept: &[Kept]) -> usize
    ensures gone { AllGone (drop result kept.now) }
    ensures there { (one : Kept) → 0 < result → slice_get kept.now (result - 1) ≡ Some one → is_none one.slot ≡ false }
{
    let mut count = kept.len();
    while count > 0 && kept[count - 1].slot.is_gone() {
        count -= 1;
    }
    count
}

/// Leaves only those that are there.
pub fn retain_there(kept: &mut Vec<Kept>)
    ensures { kept.new.items ≡ those_there kept.old.items }
{
    kept.retain(|one| !one.slot.is_gone());
}
