//! A machine that runs a program.
ghost use Rattle.std.specs.Prelude.{◌≡◌, ◌≢◌, ◌<◌, ◌≤◌, ◌⊎◌, ◌+◌, ◌^◌, ◌++◌, ◌∷◌, ℕ, Option, List, [], Err, Ok, IfOk, IfSome, Some, None, true, false, length};
ghost use Rattle.std.specs.Option.{option_copied};
ghost use Rattle.c_meaning.specs.Steps.{Next, CStep};
ghost use Rattle.p2c_outside.specs.Counts.{Rose};
ghost use Rattle.p2c_outside.specs.Told.{Gains, IsEmpty};
ghost use Rattle.held_bytes.specs.Written.{GainsPart};
ghost use Rattle.held_bytes.specs.Held.{bytes_in, IsDry};
ghost use Rattle.c_stepper.specs.Quick.{NextAt, ReadsNot};
ghost use Rattle.c_stepper.specs.Runners.{FitsFrames, IsSettled, statement_at, reads_in, reads_here, Acts};
ghost use Rattle.c_machine.specs.Machines.{stood, counted, IsFor, Begins, StandsAs, Dashes, Steps, Takes, Closes, Writes, IsOver, SameBut, PutFaults, TakeFaults, RunFaults, Ran, TakesFew, PutBeforeTaken, HasStatus, ended_by};

use c_cells::halt::Halt;
use c_meaning::StuckKind;
use c_stepper::act::reads;
use c_stepper::quick::{Dashed, quick_steps};
use c_stepper::runner::{Done, Runner};
use c_tree::program::CProgram;
use c_tree::statement::CStatement;
use held_bytes::{HeldInput, HeldOutput};
use p2c_outside::{Sink, Source};
use std::alloc::{AllocError, Global};

/// What a step gives.
#[derive(Clone, Copy)]
pub enum Stepped {
    Going,
    /// `main` ended with a status.
    Ended(u8),
    Stuck(StuckKind),
    /// Input was wanted, and taking it failed.
    InputFault,
    /// Putting what was written failed.
    OutputFault,
    Memory(AllocError),
}

/// How a run ends.
#[derive(Clone, Copy, Debug)]
pub enum Ended {
    /// `main` ended. `calls` counts the calls of functions that have a number at their names' ends.
    Status { status: u8, calls: u64 },
    /// The program goes on after so many steps.
    Spent,
    Stuck(StuckKind),
    InputFault,
    OutputFault,
    Memory(AllocError),
}

/// A program that runs.
#[derive(Drop)]
pub struct Machine {
    runner: Runner,
    input: HeldInput,
    output: HeldOutput,
    calls: u64,
    taken: u64,
    /// The answer that comes again and again.
    over: Option<Stepped>,
}

impl Machine {
    /// The machine at the start of `main`.
    pub fn new(alloc: Global, program: &CProgram) -> Result<Machine, AllocError>
        ensures is_for { IfOk result (IsFor program.now) }
        ensures none { IfOk result (Begins program.now) }
    {
        let runner = Runner::new(alloc, program)?;
        let input = HeldInput::new(alloc)?;
        let output = HeldOutput::new(alloc)?;
        Ok(Machine {
            runner,
            input,
            output,
            calls: 0,
            taken: 0,
            over: None,
        })
    }

    /// How many steps the machine has done. One that was stuck, or that a fault or want of memory cut
    /// off, is not among them.
    pub fn taken(&self) -> u64
        ensures { result ≡ self.now.taken }
    {
        self.taken
    }

    // ---- the end

    /// The machine puts what it holds, and does no more.
    fn close<O: Sink>(&mut self, answer: Stepped, out: &mut O) -> Stepped
        requires { answer ≢ Stepped.OutputFault }
        ensures closed { Closes self.old.output.bytes.items (O.written out.old) (O.written out.new) answer result }
        ensures over { self.new.over ≡ Some result }
        ensures empty { self.new.output.bytes.items ≡ [] }
        ensures nothing { self.old.output.bytes.items ≡ [] → result ≡ answer }
        ensures stays { SameBut self.old self.new }
        ensures faults { PutFaults (O.faults out.old) (O.faults out.new) result }
    {
        let answer = match self.output.flush(out) {
            Ok(()) => answer,
            Err(_) => Stepped::OutputFault,
        };
        self.over = Some(answer);
        answer
    }

    /// A step was not taken.
    fn halt<O: Sink>(&mut self, halt: Halt, out: &mut O) -> Stepped
        ensures step { (c : CProgram) (it : Runner) (left : Option (List ℕ)) (input output calls : List ℕ) (next : Next) → Acts c it input output calls (Err halt) next
            → Steps c self.old.output.bytes.items self.old.calls self.new left (O.written out.old) (O.written out.new) output calls result next }
        ensures over { self.new.over ≡ Some result }
        ensures empty { self.new.output.bytes.items ≡ [] }
        ensures stays { SameBut self.old self.new }
        ensures faults { PutFaults (O.faults out.old) (O.faults out.new) result }
        ensures nothing { self.old.output.bytes.items ≡ [] → result ≢ Stepped.OutputFault }
        ensures not_going { result ≢ Stepped.Going }
        ensures taken { self.new.taken ≡ counted result self.old.taken }
        ensures no_input { result ≢ Stepped.InputFault }
    {
        match halt {
            Halt::Stuck(kind) => self.close(Stepped::Stuck(kind), out),
            Halt::Memory => self.close(Stepped::Memory(AllocError), out),
        }
    }

    /// The steps are done.
    fn spend<O: Sink>(&mut self, out: &mut O) -> Ended
        ensures whole { result ≢ Ended.OutputFault → (result ≡ Ended.Spent) × Gains (O.written out.old) (O.written out.new) self.old.output.bytes.items × (O.faults out.new ≡ O.faults out.old) }
        ensures part { result ≡ Ended.OutputFault → GainsPart (O.written out.old) (O.written out.new) self.old.output.bytes.items × Rose (O.faults out.old) (O.faults out.new) }
    {
        match self.output.flush(out) {
            Ok(()) => Ended::Spent,
            Err(_) => Ended::OutputFault,
        }
    }

    // ---- steps

    /// A byte is written.
    fn write<O: Sink>(&mut self, byte: u8, out: &mut O) -> Stepped
        requires { self.old.taken + 1 < 2 ^ 64 }
        ensures wrote { Writes self.old.output.bytes.items self.new.output.bytes.items (O.written out.old) (O.written out.new) (byte ∷ []) result }
        ensures over { IsOver self.old self.new result }
        ensures few { length self.new.output.bytes.items < 4096 }
        ensures same { (self.new.runner ≡ self.old.runner) × (self.new.input ≡ self.old.input) × (self.new.calls ≡ self.old.calls) }
        ensures taken { self.new.taken ≡ counted result self.old.taken }
        ensures faults { PutFaults (O.faults out.old) (O.faults out.new) result }
    {
        if let Err(error) = self.output.push(byte) {
            return self.close(Stepped::Memory(error), out);
        }
        match self.output.flush_piece(out) {
            Ok(()) => {
                self.taken += 1;
                Stepped::Going
            }
            Err(_) => {
                self.over = Some(Stepped::OutputFault);
                Stepped::OutputFault
            }
        }
    }

    /// `main` ends.
    fn finish<O: Sink>(&mut self, status: u8, out: &mut O) -> Stepped
        requires { self.old.taken + 1 < 2 ^ 64 }
        ensures closed { Closes self.old.output.bytes.items (O.written out.old) (O.written out.new) (Stepped.Ended status) result }
        ensures over { self.new.over ≡ Some result }
        ensures empty { self.new.output.bytes.items ≡ [] }
        ensures same { (self.new.runner ≡ self.old.runner) × (self.new.input ≡ self.old.input) × (self.new.calls ≡ self.old.calls) }
        ensures taken { self.new.taken ≡ counted result self.old.taken }
        ensures faults { PutFaults (O.faults out.old) (O.faults out.new) result }
    {
        match self.output.flush(out) {
            Ok(()) => {
                self.taken += 1;
                self.over = Some(Stepped::Ended(status));
                Stepped::Ended(status)
            }
            Err(_) => {
                self.over = Some(Stepped::OutputFault);
                Stepped::OutputFault
            }
        }
    }

    /// A step is taken, unless putting what was written fails, or memory is short for it.
    #[inline(always)]
    fn after<O: Sink>(&mut self, done: Done, out: &mut O) -> Stepped
        requires counted { self.old.calls ≤ self.old.taken }
        requires few { self.old.taken + 1 < 2 ^ 64 }
        requires held { length self.old.output.bytes.items < 4096 }
        ensures step { (c : CProgram) (left output calls : List ℕ) (next : Next) → Acts c self.old.runner (bytes_in self.old.input ++ left) output calls (Ok done) next → length calls ≡ self.old.calls
            → Steps c self.old.output.bytes.items self.old.calls self.new (Some left) (O.written out.old) (O.written out.new) output calls result next }
        ensures over { IsOver self.old self.new result }
        ensures few { length self.new.output.bytes.items < 4096 }
        ensures counted { self.new.calls ≤ self.new.taken }
        ensures taken { self.new.taken ≡ counted result self.old.taken }
        ensures same { (self.new.runner ≡ self.old.runner) × (self.new.input ≡ self.old.input) }
        ensures faults { PutFaults (O.faults out.old) (O.faults out.new) result }
        ensures no_input { result ≢ Stepped.InputFault }
    {
        match done {
            Done::Going => {
                self.taken += 1;
                Stepped::Going
            }
            Done::Entered => {
                self.taken += 1;
                self.calls += 1;
                Stepped::Going
            }
            Done::Wrote(byte) => self.write(byte, out),
            Done::Ended(status) => self.finish(status, out),
        }
    }

    /// A step that is no `getchar`: this is the statement that comes next, if there is one.
    fn act<O: Sink>(
        &mut self,
        program: &CProgram,
        next: Option<&CStatement>,
        out: &mut O,
    ) -> Stepped
        requires is_for { IsFor program.now self.old }
        requires going { self.old.over ≡ None }
        requires settled { IsSettled program.now self.old.runner.frame }
        requires next { option_copied next ≡ statement_at program.now self.old.runner.frame }
        requires small { IfSome next (λ s. self.old.runner.frame.spot.at + 1 < 2 ^ 64) }
        requires other { reads_in (option_copied next) ≡ false }
        requires few { self.old.taken + 1 < 2 ^ 64 }
        ensures step { (left output calls : List ℕ) → length calls ≡ self.old.calls
            → Steps program.now self.old.output.bytes.items self.old.calls self.new (Some left) (O.written out.old) (O.written out.new) output calls result (CStep program.now (stood program.now self.old left output calls)) }
        ensures is_for { IsFor program.now self.new }
        ensures over { IsOver self.old self.new result }
        ensures taken { self.new.taken ≡ counted result self.old.taken }
        ensures input { self.new.input ≡ self.old.input }
        ensures faults { PutFaults (O.faults out.old) (O.faults out.new) result }
        ensures no_input { result ≢ Stepped.InputFault }
    {
        match self.runner.step(program, next) {
            Ok(done) => self.after(done, out),
            Err(halt) => self.halt(halt, out),
        }
    }

    /// A `getchar` where a byte is held, or the end was met.
    fn read_held<O: Sink>(&mut self, program: &CProgram, out: &mut O) -> Stepped
        requires fits { FitsFrames program.now self.old.runner }
        requires counted { self.old.calls ≤ self.old.taken }
        requires held { length self.old.output.bytes.items < 4096 }
        requires piece { length (bytes_in self.old.input) ≤ 4096 }
        requires going { self.old.over ≡ None }
        requires settled { IsSettled program.now self.old.runner.frame }
        requires reads { reads_here program.now self.old.runner.frame ≡ true }
        requires few { self.old.taken + 1 < 2 ^ 64 }
        ensures step { (left output calls : List ℕ) → (bytes_in self.old.input ≡ [] → left ≡ []) → length calls ≡ self.old.calls
            → Steps program.now self.old.output.bytes.items self.old.calls self.new (Some left) (O.written out.old) (O.written out.new) output calls result (CStep program.now (stood program.now self.old left output calls)) }
        ensures is_for { IsFor program.now self.new }
        ensures over { IsOver self.old self.new result }
        ensures taken { self.new.taken ≡ counted result self.old.taken }
        ensures end { self.new.input.over ≡ self.old.input.over }
        ensures empty { self.old.output.bytes.items ≡ [] → self.new.output.bytes.items ≡ [] }
        ensures nothing { self.old.output.bytes.items ≡ [] → result ≢ Stepped.OutputFault }
        ensures no_input { result ≢ Stepped.InputFault }
        ensures faults { PutFaults (O.faults out.old) (O.faults out.new) result }
    {
        match self.runner.read(program, self.input.first()) {
            Ok(_) => {
                self.input.advance();
                self.taken += 1;
                Stepped::Going
            }
            Err(halt) => self.halt(halt, out),
        }
    }

    /// A `getchar` for which input is taken. What is held is put before.
    fn read_more<I: Source, O: Sink>(
        &mut self,
        program: &CProgram,
        input: &mut I,
        out: &mut O,
    ) -> Stepped
        requires is_for { IsFor program.now self.old }
        requires going { self.old.over ≡ None }
        requires settled { IsSettled program.now self.old.runner.frame }
        requires reads { reads_here program.now self.old.runner.frame ≡ true }
        requires few { self.old.taken + 1 < 2 ^ 64 }
        requires dry { IsDry self.old.input }
        ensures takes { Takes program.now self.old self.new (I.left input.old) (I.left input.new) (O.written out.old) (O.written out.new) result }
        ensures is_for { IsFor program.now self.new }
        ensures over { IsOver self.old self.new result }
        ensures taken { self.new.taken ≡ counted result self.old.taken }
        ensures end { self.new.input.over ≡ true → IsEmpty (I.left input.new) }
        ensures put_first { (input.new ≡ input.old) ⊎ ((self.new.output.bytes.items ≡ []) × (result ≢ Stepped.OutputFault)) }
        ensures put_faults { PutFaults (O.faults out.old) (O.faults out.new) result }
        ensures take_faults { TakeFaults (I.faults input.old) (I.faults input.new) result }
    {
        if let Err(halt) = self.runner.seek(program) {
            return self.halt(halt, out);
        }
        let Ok(()) = self.output.flush(out) else {
            self.over = Some(Stepped::OutputFault);
            return Stepped::OutputFault;
        };
        let Ok(()) = self.input.fill(input) else {
            self.over = Some(Stepped::InputFault);
            return Stepped::InputFault;
        };
        self.read_held(program, out)
    }

    /// A `getchar`.
    fn read<I: Source, O: Sink>(
        &mut self,
        program: &CProgram,
        input: &mut I,
        out: &mut O,
    ) -> Stepped
        requires is_for { IsFor program.now self.old }
        requires going { self.old.over ≡ None }
        requires settled { IsSettled program.now self.old.runner.frame }
        requires reads { reads_here program.now self.old.runner.frame ≡ true }
        requires few { self.old.taken + 1 < 2 ^ 64 }
        requires end { self.old.input.over ≡ true → IsEmpty (I.left input.old) }
        ensures takes { Takes program.now self.old self.new (I.left input.old) (I.left input.new) (O.written out.old) (O.written out.new) result }
        ensures is_for { IsFor program.now self.new }
        ensures over { IsOver self.old self.new result }
        ensures taken { self.new.taken ≡ counted result self.old.taken }
        ensures end { self.new.input.over ≡ true → IsEmpty (I.left input.new) }
        ensures untaken { self.old.input.over ≡ true → input.new ≡ input.old }
        ensures put_first { (input.new ≡ input.old) ⊎ ((self.new.output.bytes.items ≡ []) × (result ≢ Stepped.OutputFault)) }
        ensures put_faults { PutFaults (O.faults out.old) (O.faults out.new) result }
        ensures take_faults { TakeFaults (I.faults input.old) (I.faults input.new) result }
    {
        if self.input.is_dry() {
            self.read_more(program, input, out)
        } else {
            self.read_held(program, out)
        }
    }

    /// Steps of which numbers alone say what they do, at most so many.
    fn dash(&mut self, program: &CProgram, most: u64) -> Dashed
        requires is_for { IsFor program.now self.old }
        requires going { self.old.over ≡ None }
        requires few { self.old.taken + most < 2 ^ 64 }
        ensures dashes { Dashes program.now self.old self.new result.taken }
        ensures here { IfSome result.here (NextAt self.new.runner.guide self.new.runner.frame) }
        ensures is_for { IsFor program.now self.new }
        ensures most { result.taken ≤ most }
    {
        let dashed = quick_steps(
            &mut self.runner.frame,
            &mut self.runner.memory,
            &self.runner.guide,
            most,
        );
        self.taken += dashed.taken;
        dashed
    }

    /// The call or the `return` that comes next, whose node stands here, where numbers alone say what
    /// it does.
    fn leap<O: Sink>(&mut self, program: &CProgram, here: usize, out: &mut O) -> Option<Stepped>
        requires is_for { IsFor program.now self.old }
        requires here { NextAt self.old.runner.guide self.old.runner.frame here }
        requires going { self.old.over ≡ None }
        requires few { self.old.taken + 1 < 2 ^ 64 }
        ensures step { IfSome result (λ stepped. (left output calls : List ℕ) → length calls ≡ self.old.calls
            → Steps program.now self.old.output.bytes.items self.old.calls self.new (Some left) (O.written out.old) (O.written out.new) output calls stepped (CStep program.now (stood program.now self.old left output calls))) }
        ensures reads_not { result ≡ Some Stepped.Going → ReadsNot self.old.runner.guide self.old.runner.frame }
        ensures is_for { IsFor program.now self.new }
        ensures over { IfSome result (IsOver self.old self.new) }
        ensures taken { IfSome result (λ stepped. self.new.taken ≡ counted stepped self.old.taken) }
        ensures input { self.new.input ≡ self.old.input }
        ensures faults { IfSome result (PutFaults (O.faults out.old) (O.faults out.new)) }
        ensures no_input { result ≢ Some Stepped.InputFault }
        ensures none { result ≡ None → StandsAs program.now self.old self.new × (out.new ≡ out.old) }
    {
        match self.runner.quick_change(program, here) {
            Ok(Some(done)) => Some(self.after(done, out)),
            Ok(None) => None,
            Err(halt) => Some(self.halt(halt, out)),
        }
    }

    /// The next step, by the statement that comes next in the program's text.
    fn stepwise<I: Source, O: Sink>(
        &mut self,
        program: &CProgram,
        input: &mut I,
        out: &mut O,
    ) -> Stepped
        requires is_for { IsFor program.now self.old }
        requires going { self.old.over ≡ None }
        requires few { self.old.taken + 1 < 2 ^ 64 }
        requires end { self.old.input.over ≡ true → IsEmpty (I.left input.old) }
        ensures step { (left output calls : List ℕ) → I.left input.old ≡ Some left → length calls ≡ self.old.calls
            → Steps program.now self.old.output.bytes.items self.old.calls self.new (I.left input.new) (O.written out.old) (O.written out.new) output calls result (CStep program.now (stood program.now self.old left output calls)) }
        ensures takes { Takes program.now self.old self.new (I.left input.old) (I.left input.new) (O.written out.old) (O.written out.new) result }
        ensures over { IsOver self.old self.new result }
        ensures is_for { IsFor program.now self.new }
        ensures taken { self.new.taken ≡ counted result self.old.taken }
        ensures end { self.new.input.over ≡ true → IsEmpty (I.left input.new) }
        ensures untaken { self.old.input.over ≡ true → input.new ≡ input.old }
        ensures put_first { (input.new ≡ input.old) ⊎ ((self.new.output.bytes.items ≡ []) × (result ≢ Stepped.OutputFault)) }
        ensures put_faults { PutFaults (O.faults out.old) (O.faults out.new) result }
        ensures take_faults { TakeFaults (I.faults input.old) (I.faults input.new) result }
    {
        let next = self.runner.settle(program);
        if reads(next) {
            self.read(program, input, out)
        } else {
            self.act(program, next, out)
        }
    }

    /// The next step: a call or a `return` by numbers alone, where they say it and it is known where
    /// the node of the statement stands, else any statement.
    fn next_step<I: Source, O: Sink>(
        &mut self,
        program: &CProgram,
        here: Option<usize>,
        input: &mut I,
        out: &mut O,
    ) -> Stepped
        requires is_for { IsFor program.now self.old }
        requires here { IfSome here (NextAt self.old.runner.guide self.old.runner.frame) }
        requires going { self.old.over ≡ None }
        requires few { self.old.taken + 1 < 2 ^ 64 }
        requires end { self.old.input.over ≡ true → IsEmpty (I.left input.old) }
        ensures step { (left output calls : List ℕ) → I.left input.old ≡ Some left → length calls ≡ self.old.calls
            → Steps program.now self.old.output.bytes.items self.old.calls self.new (I.left input.new) (O.written out.old) (O.written out.new) output calls result (CStep program.now (stood program.now self.old left output calls)) }
        ensures takes { Takes program.now self.old self.new (I.left input.old) (I.left input.new) (O.written out.old) (O.written out.new) result }
        ensures over { IsOver self.old self.new result }
        ensures is_for { IsFor program.now self.new }
        ensures taken { self.new.taken ≡ counted result self.old.taken }
        ensures end { self.new.input.over ≡ true → IsEmpty (I.left input.new) }
        ensures untaken { self.old.input.over ≡ true → input.new ≡ input.old }
        ensures put_first { (input.new ≡ input.old) ⊎ ((self.new.output.bytes.items ≡ []) × (result ≢ Stepped.OutputFault)) }
        ensures put_faults { PutFaults (O.faults out.old) (O.faults out.new) result }
        ensures take_faults { TakeFaults (I.faults input.old) (I.faults input.new) result }
    {
        let Some(here) = here else {
            return self.stepwise(program, input, out);
        };
        match self.leap(program, here, out) {
            Some(stepped) => stepped,
            None => self.stepwise(program, input, out),
        }
    }

    /// One step. A machine that answered anything but `Going` answers it again, and does nothing.
    pub fn step<I: Source, O: Sink>(
        &mut self,
        program: &CProgram,
        input: &mut I,
        out: &mut O,
    ) -> Stepped
        requires is_for { IsFor program.now self.old }
        requires few { self.old.taken + 1 < 2 ^ 64 }
        requires end { self.old.input.over ≡ true → IsEmpty (I.left input.old) }
        ensures step { self.old.over ≡ None → (left output calls : List ℕ) → I.left input.old ≡ Some left → length calls ≡ self.old.calls
            → Steps program.now self.old.output.bytes.items self.old.calls self.new (I.left input.new) (O.written out.old) (O.written out.new) output calls result (CStep program.now (stood program.now self.old left output calls)) }
        ensures takes { self.old.over ≡ None
            → Takes program.now self.old self.new (I.left input.old) (I.left input.new) (O.written out.old) (O.written out.new) result }
        ensures again { (answer : Stepped) → self.old.over ≡ Some answer → (result ≡ answer) × (self.new ≡ self.old) × (input.new ≡ input.old) × (out.new ≡ out.old) }
        ensures over { self.old.over ≡ None → IsOver self.old self.new result }
        ensures is_for { IsFor program.now self.new }
        // a step is counted where it goes on or ends `main`
        ensures taken { self.old.over ≡ None → self.new.taken ≡ counted result self.old.taken }
        ensures end { self.new.input.over ≡ true → IsEmpty (I.left input.new) }
        ensures untaken { self.old.input.over ≡ true → input.new ≡ input.old }
        // where input is taken, all that was written is put before
        ensures put_first { (input.new ≡ input.old) ⊎ ((self.new.output.bytes.items ≡ []) × (result ≢ Stepped.OutputFault)) }
        ensures put_faults { self.old.over ≡ None → PutFaults (O.faults out.old) (O.faults out.new) result }
        ensures take_faults { self.old.over ≡ None → TakeFaults (I.faults input.old) (I.faults input.new) result }
    {
        if let Some(answer) = self.over {
            return answer;
        }
        let dashed = self.dash(program, 1);
        if dashed.taken > 0 {
            Stepped::Going
        } else {
            self.next_step(program, dashed.here, input, out)
        }
    }
}

/// The answer of a run that is over.
fn last_answer(answer: Stepped, calls: u64) -> Ended
    requires { answer ≢ Stepped.Going }
    ensures { result ≡ ended_by calls answer }
{
    match answer {
        Stepped::Going => unreachable!(),
        Stepped::Ended(status) => Ended::Status { status, calls },
        Stepped::Stuck(kind) => Ended::Stuck(kind),
        Stepped::InputFault => Ended::InputFault,
        Stepped::OutputFault => Ended::OutputFault,
        Stepped::Memory(error) => Ended::Memory(error),
    }
}

/// At most so many steps of a machine.
fn run_from<I: Source, O: Sink>(
    machine: Machine,
    program: &CProgram,
    steps: u64,
    input: &mut I,
    out: &mut O,
) -> Ended
    requires is_for { IsFor program.now machine }
    requires begins { Begins program.now machine }
    ensures ran { (bytes : List ℕ) → I.left input.old ≡ Some bytes → Ran program.now bytes (I.left input.new) steps (O.written out.old) (O.written out.new) result }
    ensures ahead { (bytes : List ℕ) → I.left input.old ≡ Some bytes → TakesFew program.now bytes (I.left input.new) steps result }
    // all that the program writes is put before more input is taken
    ensures put { (bytes : List ℕ) → I.left input.old ≡ Some bytes → PutBeforeTaken program.now bytes (I.left input.new) steps (O.written out.old) (O.written out.new) }
    ensures faults { RunFaults (I.faults input.old) (I.faults input.new) (O.faults out.old) (O.faults out.new) result }
    ensures status { HasStatus result }
{
    let mut machine = machine;
    let mut left = steps;
    while left > 0 {
        let dashed = machine.dash(program, left - 1);
        left -= dashed.taken;
        match machine.next_step(program, dashed.here, input, out) {
            Stepped::Going => {
                left -= 1;
            }
            answer => return last_answer(answer, machine.calls),
        }
    }
    machine.spend(out)
}

/// Runs a program for at most so many steps.
pub fn run<I: Source, O: Sink>(
    alloc: Global,
    program: &CProgram,
    steps: u64,
    input: &mut I,
    out: &mut O,
) -> Ended
    ensures ran { (bytes : List ℕ) → I.left input.old ≡ Some bytes → Ran program.now bytes (I.left input.new) steps (O.written out.old) (O.written out.new) result }
    ensures ahead { (bytes : List ℕ) → I.left input.old ≡ Some bytes → TakesFew program.now bytes (I.left input.new) steps result }
    // all that the program writes is put before more input is taken
    ensures put { (bytes : List ℕ) → I.left input.old ≡ Some bytes → PutBeforeTaken program.now bytes (I.left input.new) steps (O.written out.old) (O.written out.new) }
    ensures faults { RunFaults (I.faults input.old) (I.faults input.new) (O.faults out.old) (O.faults out.new) result }
    ensures status { HasStatus result }
{
    match Machine::new(alloc, program) {
        Ok(machine) => run_from(machine, program, steps, input, out),
        Err(error) => Ended::Memory(error),
    }
}
