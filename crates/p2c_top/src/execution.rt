//! A file run.

ghost use Rattle.std.specs.Prelude.{◌≡◌, ◌≢◌, ◌≤◌, ◌⊎◌, ℕ, Option, List, length};
ghost use Rattle.p2c_outside.specs.Counts.{Rose};
ghost use Rattle.p2c_outside.specs.Told.{Named, WhereTold};
ghost use Rattle.p2c_top.specs.Answers.{IsEarly, IsMissing, RunAnswer};
ghost use Rattle.p2c_top.specs.Messages.{status_of};
ghost use Rattle.p2c_top.specs.Executed.{InputFails, MayPutBefore, MayTake, PutsBefore, ReadFails, TakesOnly, outcome_of_run};

use crate::outcome::Outcome;
use crate::reading::{read_whole, refused};
use c_machine::Ended;
use c_reader::CTextFault;
use p2c_outside::{Files, Sink, Source};
use run_core::{LONGEST_INPUT, run_text};
use std::alloc::Global;

/// Runs the text in the file of this name, for at most so many steps.
pub fn execute<F: Files, I: Source, O: Sink>(
    alloc: Global,
    files: &mut F,
    name: &str,
    steps: u64,
    input: &mut I,
    out: &mut O,
) -> Outcome
    ensures answer { RunAnswer (F.told files.old) name.now steps (I.left input.old) (O.written out.old) (O.written out.new) result }
    ensures missing { IsMissing result → Rose (F.missing files.old) (F.missing files.new) }
    ensures read_fault { result ≡ Outcome.ReadFault →
        ReadFails (Rose (F.faults files.old) (F.faults files.new)) (Rose (I.faults input.old) (I.faults input.new))
        ((input.new ≡ input.old) × (out.new ≡ out.old))
        (F.told files.old) name.now steps (I.left input.old) (I.left input.new) (O.written out.old) (O.written out.new) }
    ensures ahead { MayTake (input.new ≡ input.old) (F.told files.old) name.now steps (I.left input.old) (I.left input.new) (status_of result) }
    ensures put_before { MayPutBefore (input.new ≡ input.old) (F.told files.old) name.now steps (I.left input.old) (I.left input.new) (O.written out.old) (O.written out.new) }
    ensures write_fault { result ≡ Outcome.WriteFault → Rose (O.faults out.old) (O.faults out.new) }

    ensures none_missing { (IsMissing result → ⊥) → result ≢ Outcome.ReadFault →
        F.missing files.new ≡ F.missing files.old }
    ensures no_read_fault { (IsMissing result → ⊥) → result ≢ Outcome.ReadFault →
        F.faults files.new ≡ F.faults files.old }
    ensures no_input_fault { result ≢ Outcome.ReadFault → I.faults input.new ≡ I.faults input.old }
    ensures no_write_fault { result ≢ Outcome.WriteFault → O.faults out.new ≡ O.faults out.old }
    ensures early { IsEarly result → (input.new ≡ input.old) × (out.new ≡ out.old) }
    ensures same { F.told files.new ≡ F.told files.old }
{
    let bytes = match read_whole(alloc, files, name, LONGEST_INPUT) {
        Ok(bytes) => bytes,
        Err(refusal) => return refused(0, refusal),
    };
    executed(alloc, &bytes, steps, input, out)
}

fn executed<I: Source, O: Sink>(
    alloc: Global,
    bytes: &[u8],
    steps: u64,
    input: &mut I,
    out: &mut O,
) -> Outcome
    requires short { length bytes.now ≤ LONGEST_INPUT }
    ensures answer { (told : Option Named) (name : List ℕ) → WhereTold told name (λ b. bytes.now ≡ b) →
        RunAnswer told name steps (I.left input.old) (O.written out.old) (O.written out.new) result }
    ensures there { IsMissing result → ⊥ }
    ensures input_failed { result ≡ Outcome.ReadFault →
        InputFails bytes.now steps (I.left input.old) (I.left input.new) (O.written out.old) (O.written out.new) }
    ensures ahead { (input.new ≡ input.old) ⊎ TakesOnly bytes.now steps (I.left input.old) (I.left input.new) (status_of result) }
    ensures put_before { (input.new ≡ input.old) ⊎ PutsBefore bytes.now steps (I.left input.old) (I.left input.new) (O.written out.old) (O.written out.new) }
    ensures read_fault { result ≡ Outcome.ReadFault → Rose (I.faults input.old) (I.faults input.new) }
    ensures write_fault { result ≡ Outcome.WriteFault → Rose (O.faults out.old) (O.faults out.new) }
    ensures no_input_fault { result ≢ Outcome.ReadFault → I.faults input.new ≡ I.faults input.old }
    ensures no_write_fault { result ≢ Outcome.WriteFault → O.faults out.new ≡ O.faults out.old }
    ensures early { IsEarly result → (input.new ≡ input.old) × (out.new ≡ out.old) }
{
    let answer = run_text(alloc, bytes, steps, input, out);
    finished(&answer)
}

fn finished(answer: &Result<Ended, CTextFault>) -> Outcome
    ensures { result ≡ outcome_of_run answer.now }
{
    match answer {
        Ok(Ended::Status { status, .. }) => Outcome::Ended(*status),
        Ok(Ended::Spent) => Outcome::Spent,
        Ok(Ended::Stuck(kind)) => Outcome::Stuck(*kind),
        Ok(Ended::InputFault) => Outcome::ReadFault,
        Ok(Ended::OutputFault) => Outcome::WriteFault,
        Ok(Ended::Memory(_)) | Err(CTextFault::Memory(_)) => Outcome::OutOfMemory,
        Err(CTextFault::At { kind, line }) => Outcome::BadText {
            kind: *kind,
            line: *line,
        },
    }
}
