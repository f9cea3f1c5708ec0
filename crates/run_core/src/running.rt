//! Running a text.
ghost use Rattle.std.specs.Prelude.{◌≡◌, ◌≤◌, IfErr, IfOk, length};
ghost use Rattle.c_reader.specs.Read.{IsFault};
ghost use Rattle.c_machine.specs.Machines.{RunFaults, HasStatus};
ghost use Rattle.run_core.specs.Answers.{IsRun};

use c_machine::{Ended, run};
use c_reader::{CTextFault, LONGEST_INPUT, read};
use p2c_outside::{Sink, Source};
use std::alloc::Global;

/// Reads a text of the C subset and runs its program for at most so many steps. A refusal comes
/// before the first of them.
pub fn run_text<I: Source, O: Sink>(
    alloc: Global,
    bytes: &[u8],
    steps: u64,
    input: &mut I,
    out: &mut O,
) -> Result<Ended, CTextFault>
    requires short { length bytes.now ≤ LONGEST_INPUT }
    ensures ran { IfOk result (IsRun bytes.now steps (I.left input.old) (I.left input.new) (O.written out.old) (O.written out.new)) }
    ensures faults { IfOk result (RunFaults (I.faults input.old) (I.faults input.new) (O.faults out.old) (O.faults out.new)) }
    ensures status { IfOk result HasStatus }
    ensures refused { IfErr result (IsFault bytes.now) }
    ensures untouched { IfErr result (λ fault. (input.new ≡ input.old) × (out.new ≡ out.old)) }
{
    let program = read(alloc, bytes)?;
    Ok(run(alloc, &program, steps, input, out))
}
