//! Marks of files that a walk entered.

ghost use Rattle.std.specs.Prelude.{◌≡◌, true, false, replicate, slice_get, slice_set, if◌then◌else◌, IfOk};
ghost use Rattle.unit_linker.specs.Walk.{is_unmarked};

use std::alloc::{AllocError, Global};

/// No mark on any of so many files.
pub fn no_marks(alloc: Global, count: usize) -> Result<Vec<bool>, AllocError>
    ensures { IfOk result (λ marks. marks.items ≡ replicate count false) }
{
    vec![in alloc; false; count]
}

/// Marks a file, and says whether it had no mark.
#[tactic(auto, unfolding(crate::specs::Walk::is_unmarked))]
pub fn enter(marks: &mut Vec<bool>, file: usize) -> bool
    ensures new { result ≡ is_unmarked (slice_get marks.old.items file) }
    ensures marks { marks.new.items ≡ (if result then slice_set marks.old.items file true else marks.old.items) }
{
    match marks.get_mut(file) {
        Some(mark) if !*mark => {
            *mark = true;
            true
        }
        _ => false,
    }
}
