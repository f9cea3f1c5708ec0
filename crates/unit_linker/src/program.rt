//! The one program among the files.

ghost use Rattle.std.specs.Prelude.{◌≡◌, true, None, OnOk, IfOk, IfErr};
ghost use Rattle.unit_linker.specs.Files as spec;
ghost use Rattle.unit_linker.specs.Faults as faults;

use crate::fault::LinkFault;
use crate::names::{is_program, span_of};
use pascal_tree::SourceFile;

/// The place of the program, where one more file is looked at.
#[tactic(auto, unfolding(crate::specs::Files::next_found))]
fn with_file(
    found: Option<usize>,
    file: &SourceFile,
    place: usize,
) -> Result<Option<usize>, LinkFault>
    ensures next { IfOk result (λ next. next ≡ spec.next_found (spec.is_program file.now) found place) }
    ensures one { OnOk result (spec.is_program file.now ≡ true → found ≡ None) }
    ensures second { IfErr result (faults.IsSecond found file.now) }
{
    if !is_program(file) {
        return Ok(found);
    }
    match found {
        Some(_) => Err(LinkFault::TwoPrograms(span_of(file))),
        None => Ok(Some(place)),
    }
}

/// The place of the one program.
pub fn the_program(files: &[SourceFile]) -> Result<usize, LinkFault>
    ensures program { IfOk result (spec.IsOneProgram files.now) }
    ensures refused { IfErr result (faults.IsNotOne files.now) }
{
    let mut found = None;
    let mut rest = files;
    while let Some((file, after)) = rest.split_first() {
        match with_file(found, file, files.len() - rest.len()) {
            Ok(next) => {
                found = next;
                rest = after;
            }
            Err(fault) => return Err(fault),
        }
    }
    match found {
        Some(place) => Ok(place),
        None => Err(LinkFault::NoProgram),
    }
}
