//! Calls that reckon with numbers alone.
ghost use Rattle.std.specs.Prelude.{◌≡◌, true, IfOk, IfSome};
ghost use Rattle.c_stepper.specs.Runners.{target_of as meant};
ghost use Rattle.c_stepper.specs.Calls.{entry_with};
ghost use Rattle.c_stepper.specs.QuickCalls.{IsTargetOf, HoldAll, Entering};

use crate::resolved::ResolvedCall;
use crate::runner::{Frame, Target};
use c_cells::memory::Memory;
use c_cells::slot::Slot;
use c_evaluation::numbers::{Number, Variable, evaluated, place_number};
use std::alloc::AllocError;

/// Where an answer goes: to a variable of `int64_t` that is there, or nowhere.
#[tactic(auto, using(crate::proofs::QuickCalling::variable_target))]
fn target_of(memory: &Memory, base: usize, target: Option<Variable>) -> Option<Target>
    ensures { IfSome result (λ found. IsTargetOf memory.now base target (meant found)) }
{
    match target {
        None => Some(Target::Nowhere),
        Some(variable) => match place_number(base, variable) {
            None => None,
            Some(number) => {
                if memory.holds_int(number) {
                    Some(Target::Int(number))
                } else {
                    None
                }
            }
        },
    }
}

/// Makes the blocks of the parameters that get these numbers. The answer is whether each number is
/// found.
fn fill_parameters(
    parameters: &mut Vec<Slot>,
    memory: &Memory,
    base: usize,
    numbers: &[Number],
) -> Result<bool, AllocError>
    ensures { IfOk result (λ found. found ≡ true → HoldAll memory.now base numbers.now parameters.new.items) }
{
    parameters.clear();
    let mut rest = numbers;
    while let Some((first, after)) = rest.split_first() {
        let Some(z) = evaluated(memory, base, first) else {
            return Ok(false);
        };
        parameters.push(Slot::int(Some(z)))?;
        rest = after;
    }
    Ok(true)
}

/// The place for the answer of a call whose function is entered, with the blocks of the parameters.
pub fn entering(
    parameters: &mut Vec<Slot>,
    memory: &Memory,
    frame: &Frame,
    call: &ResolvedCall,
) -> Result<Option<Target>, AllocError>
    ensures { IfOk result (λ o. IfSome o (λ target. Entering frame.now memory.now call.now (entry_with call.now.function target parameters.new.items))) }
{
    if call.function >= frame.reach {
        return Ok(None);
    }
    let Some(target) = target_of(memory, frame.base, call.target) else {
        return Ok(None);
    };
    let numbers = call.arguments.as_slice();
    if fill_parameters(parameters, memory, frame.base, numbers)? {
        Ok(Some(target))
    } else {
        Ok(None)
    }
}
