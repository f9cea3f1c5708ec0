//! Files are taken out of their places.

ghost use Rattle.std.specs.Prelude.{◌≡◌, ℕ, map, Some, None, slice_set, OnOk, IfOk};
ghost use Rattle.std.specs.List.{filter_map};
ghost use Rattle.unit_linker.specs.Graph.{Among};
ghost use Rattle.unit_linker.specs.Slots as spec;

use pascal_tree::SourceFile;
use std::alloc::{AllocError, Global};

/// Each file in a place of its own.
pub fn slots(alloc: Global, files: Vec<SourceFile>) -> Result<Vec<Option<SourceFile>>, AllocError>
    ensures { IfOk result (λ slots. slots.items ≡ map Some files.items) }
{
    files.into_iter().map(|file| Some(file)).collect(alloc)
}

/// Takes the file out of a place.
pub fn take_at(slots: &mut Vec<Option<SourceFile>>, place: usize) -> Option<SourceFile>
    ensures file { result ≡ spec.slot_at slots.old.items place }
    ensures slots { slots.new.items ≡ slice_set slots.old.items place None }
{
    match slots.get_mut(place) {
        Some(slot) => slot.take(),
        None => None,
    }
}

/// Takes the files at these places.
pub fn take_all(
    alloc: Global,
    slots: &mut Vec<Option<SourceFile>>,
    places: &[usize],
) -> Result<Vec<SourceFile>, AllocError>
    requires { spec.IsOnce places.now }
    ensures files { IfOk result (λ files. files.items ≡ filter_map (spec.slot_at slots.old.items) places.now) }
    ensures others { OnOk result ((place : ℕ) → (Among places.now place → ⊥) → spec.slot_at slots.new.items place ≡ spec.slot_at slots.old.items place) }
{
    let mut files = Vec::new(alloc);
    let mut rest = places;
    while let Some((first, after)) = rest.split_first() {
        if let Some(file) = take_at(slots, *first) {
            files.push(file)?;
        }
        rest = after;
    }
    Ok(files)
}
