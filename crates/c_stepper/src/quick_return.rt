//! Answers that are numbers, to variables of `int64_t`.
ghost use Rattle.std.specs.Prelude.{◌≡◌, ◌<◌, ℕ, List, [], Some, Ok, true, false, IfSome};
ghost use Rattle.c_tree.specs.Tree as t;
ghost use Rattle.c_meaning.specs.Types.{Plain};
ghost use Rattle.c_meaning.specs.States.{Into};
ghost use Rattle.c_meaning.specs.Steps.{names_from, CStep};
ghost use Rattle.c_evaluation.specs.Types.{object_of};
ghost use Rattle.c_stepper.specs.Runners.{target_of as meant, parts_at, variables_at, state_of, FitsFrame, FitsFrames, Acts};
ghost use Rattle.c_stepper.specs.Quick.{ReadsNot};
ghost use Rattle.c_stepper.specs.QuickReturns.{GivesNumber, LeavesNumber};

use crate::frames::{last_frame, result_of};
use crate::runner::{Done, Frame, Runner, Target};
use c_evaluation::types::{Layer, Object};
use c_tree::program::CProgram;

fn is_int(of: Object) -> bool
    ensures { result ≡ true → object_of of.entry ≡ t.Int }
{
    match of.layer() {
        Layer::Int => true,
        _ => false,
    }
}

/// Whether a function gives an `int64_t`.
fn gives_int(program: &CProgram, function: Option<usize>) -> bool
    ensures { result ≡ true → (parts_at program.now function).result ≡ Some t.Int }
{
    match result_of(program, function) {
        Some(of) => is_int(of),
        None => false,
    }
}

/// The block of the variable of `int64_t` that gets the answer, where it was made before those of
/// the function.
fn target_below(frame: &Frame) -> Option<usize>
    ensures target { IfSome result (λ n. meant frame.now.target ≡ Into n [] (Plain t.Int)) }
    ensures below { IfSome result (λ n. n < frame.now.base) }
{
    match frame.target {
        Target::Int(number) => {
            if number < frame.base {
                Some(number)
            } else {
                None
            }
        }
        _ => None,
    }
}

impl Runner {
    /// The function gives a number, and the one below goes on. Where it is not done so, nothing
    /// changes, and the answer is false.
    fn leave_number(&mut self, program: &CProgram, number: usize, z: i64) -> bool
        requires { FitsFrame program.now self.old.frame }
        ensures leaves { result ≡ true → LeavesNumber (names_from self.old.frame.base (variables_at program.now self.old.frame)) self.old self.new number z }
        ensures same { result ≡ false → self.new ≡ self.old }
    {
        if self.below.is_empty() {
            return false;
        }
        if !self.memory.set_number(number, z) {
            return false;
        }
        self.forget_frame(program);
        match last_frame(&mut self.below) {
            None => unreachable!(),
            Some(frame) => {
                self.frame = frame;
                true
            }
        }
    }

    /// The function gives the number of the `return` that comes next. Where it is not done so,
    /// nothing changes, and the answer is false.
    pub fn give_number(&mut self, program: &CProgram, z: i64) -> bool
        requires fits { FitsFrames program.now self.old }
        requires gives { GivesNumber self.old.guide self.old.frame self.old.memory z }
        ensures act { result ≡ true → (input output calls : List ℕ) → Acts program.now self.new input output calls (Ok Done.Going) (CStep program.now (state_of program.now self.old input output calls)) }
        ensures reads_not { result ≡ true → ReadsNot self.old.guide self.old.frame }
        ensures fits { result ≡ true → FitsFrames program.now self.new }
        ensures same { result ≡ false → self.new ≡ self.old }
    {
        if !gives_int(program, self.frame.function) {
            return false;
        }
        match target_below(&self.frame) {
            Some(number) => self.leave_number(program, number, z),
            None => false,
        }
    }
}
