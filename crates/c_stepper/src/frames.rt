//! Functions that are entered and that end.
ghost use Rattle.std.specs.Prelude.{◌≡◌, ◌+◌, ◌<◌, ◌^◌, ◌≤◌, ◌++◌, ◌∷◌, [], ℕ, List, IfOk, OnOk, MatchOption, Some, false, length, slice_get};
ghost use Rattle.std.specs.Option.{option_copied, option_map, is_some};
ghost use Rattle.c_tree.specs.Tree as t;
ghost use Rattle.c_tree.specs.declared.program.CProgram.{CProgram};
ghost use Rattle.c_meaning.specs.Cells.{Blocks};
ghost use Rattle.c_meaning.specs.Fresh.{fresh_blocks};
ghost use Rattle.c_meaning.specs.States.{State, without};
ghost use Rattle.c_meaning.specs.Entries.{number_at_end};
ghost use Rattle.c_meaning.specs.Runs.{start};
ghost use Rattle.c_meaning.specs.Steps as m;
ghost use Rattle.c_meaning.specs.Steps.{Onward, do_statement, names_from};
ghost use Rattle.c_cells.specs.Halts.{Tells};
ghost use Rattle.c_evaluation.specs.Types.{object_of};
ghost use Rattle.c_stepper.specs.Guides.{IsGuide};
ghost use Rattle.c_stepper.specs.Spots.{todo_at};
ghost use Rattle.c_stepper.specs.Runners.{state_of, runner_view, body_at, frame_of, frames_of, target_of as meant, parts_at, variables_at, FitsFrame, FitsFrames, Acts, name_at, statement_at};
ghost use Rattle.c_stepper.specs.Calls.{IsEntry, entry_with, entered_of, entered, entered_state, entry_done};
ghost use Rattle.c_stepper.specs.Leaving.{given_of, Answers};

use crate::call::{Entry, entered};
use crate::guide::Guide;
use crate::leave::{Given, answer_stored, put_answer, returned, status_of};
use crate::runner::{Done, Frame, Runner, Target, written_text};
use crate::spot::Spot;
use c_cells::fresh::push_fresh;
use c_cells::halt::Halt;
use c_cells::memory::Memory;
use c_evaluation::store::Store;
use c_evaluation::types::Object;
use c_tree::expr::{CExpr, CPlace};
use c_tree::program::CProgram;
use c_tree::statement::CCallee;
use std::alloc::{AllocError, Global};
use std::mem;

/// The mark at the number of a function.
fn mark_at(marks: &[bool], function: usize) -> Option<&bool>
    ensures { option_copied result ≡ slice_get marks.now function }
{
    marks.get(function)
}

/// Whether a call of the function with a number is counted.
fn is_counted(guide: &Guide, function: usize) -> bool
    ensures { (c : CProgram) → IsGuide c guide.now → result ≡ is_some (number_at_end (name_at c function)) }
{
    match mark_at(&guide.counted, function) {
        Some(counted) => *counted,
        None => false,
    }
}

/// What is done by a call.
fn done_by_call(counted: bool) -> Done
    ensures { result ≡ entry_done counted }
{
    if counted { Done::Entered } else { Done::Going }
}

/// The result of a function, or of `main`.
pub fn result_of(program: &CProgram, function: Option<usize>) -> Option<Object>
    ensures { option_map object_of result ≡ (parts_at program.now function).result }
{
    match function {
        None => Some(Object::int()),
        Some(number) => match program.functions.get(number) {
            Some(found) => match &found.result {
                Some(of) => Some(Object::written(of)),
                None => None,
            },
            None => None,
        },
    }
}

/// Adds a frame that waits.
fn push_frame(below: &mut Vec<Frame>, frame: Frame) -> Result<(), AllocError>
    ensures { OnOk result (below.new.items ≡ below.old.items ++ frame ∷ []) }
{
    below.push(frame)?;
    Ok(())
}

/// Takes the frame that was added last.
pub fn last_frame(below: &mut Vec<Frame>) -> Option<Frame>
    ensures { MatchOption result ((below.old.items ≡ []) × (below.new.items ≡ [])) (λ last. below.old.items ≡ below.new.items ++ last ∷ []) }
{
    below.pop()
}

impl Runner {
    /// The runner at the start of `main`.
    pub fn new(alloc: Global, program: &CProgram) -> Result<Runner, AllocError>
        ensures state { IfOk result (λ it. (input : List ℕ) → state_of program.now it input [] [] ≡ start program.now input) }
        ensures fits { IfOk result (FitsFrames program.now) }
    {
        let guide = Guide::new(alloc, program)?;
        let mut memory = Memory::new(alloc);
        let declared = guide.declared(program);
        let base = push_fresh(
            alloc,
            true,
            &declared,
            program.globals.as_slice(),
            &mut memory,
        )?;
        let locals = program.main.locals.as_slice();
        push_fresh(alloc, false, &declared, locals, &mut memory)?;
        let frame = Frame {
            function: None,
            reach: program.functions.len(),
            base,
            spot: Spot::start(alloc),
            target: Target::Nowhere,
        };
        Ok(Runner {
            frame,
            below: Vec::new(alloc),
            memory,
            parameters: Vec::new(alloc),
            guide,
            alloc,
        })
    }

    /// What a call enters.
    fn entry<'a>(
        &'a self,
        program: &'a CProgram,
        into: &'a Option<CPlace>,
        who: &'a CCallee,
        arguments: &'a [CExpr],
    ) -> Result<Entry, Halt>
        requires fits { FitsFrame program.now self.now.frame }
        requires guide { IsGuide program.now self.now.guide }
        ensures entry { IfOk result (IsEntry program.now) }
        ensures value { Tells entered_of result (entered program.now (runner_view program.now self.now) into.now who.now arguments.now) }
    {
        let scope = self.scope(program);
        entered(&scope, into, who, arguments)
    }

    /// Makes the blocks of a function that is entered. The first one's number is the answer.
    fn make_blocks(&mut self, program: &CProgram, function: usize) -> Result<usize, AllocError>
        requires guide { IsGuide program.now self.old.guide }
        requires parameters { length self.old.parameters.items ≡ length (parts_at program.now (Some function)).parameters }
        ensures base { IfOk result (λ base. base ≡ length self.old.memory) }
        ensures made { OnOk result (self.new.memory ≡ self.old.memory ++ (self.old.parameters.items ++ fresh_blocks false program.now.declarations (parts_at program.now (Some function)).locals)) }
        ensures fits { OnOk result (length self.old.memory + (length (parts_at program.now (Some function)).parameters + length (parts_at program.now (Some function)).locals) < 2 ^ 63) }
        ensures rest { (self.new.frame ≡ self.old.frame) × (self.new.below.items ≡ self.old.below.items) }
        ensures guide { self.new.guide ≡ self.old.guide }
    {
        let base = self.memory.made();
        let text = written_text(program, Some(function));
        self.memory.begin()?;
        self.memory.append(&mut self.parameters)?;
        let declared = self.guide.declared(program);
        push_fresh(self.alloc, false, &declared, text.locals, &mut self.memory)?;
        Ok(base)
    }

    /// Enters a function, which has the blocks of its parameters.
    #[inline(always)]
    pub fn enter(
        &mut self,
        program: &CProgram,
        function: usize,
        target: Target,
    ) -> Result<Done, Halt>
        requires fits { FitsFrames program.now self.old }
        requires small { self.old.frame.spot.at + 1 < 2 ^ 64 }
        requires entry { IsEntry program.now (entry_with function target self.old.parameters.items) }
        ensures act { (input output calls : List ℕ) → Acts program.now self.new input output calls result
            (Onward (entered_state program.now (state_of program.now self.old input output calls)
            (todo_at (body_at program.now self.old.frame) self.old.frame.spot.outer.items (self.old.frame.spot.at + 1)) (entered_of (entry_with function target self.old.parameters.items)))) }
        ensures fits { OnOk result (FitsFrames program.now self.new) }
    {
        let Some(reach) = function.checked_add(1) else {
            return Err(Halt::Memory);
        };
        let base = self.make_blocks(program, function)?;
        let frame = Frame {
            function: Some(function),
            reach,
            base,
            spot: Spot::start(self.alloc),
            target,
        };
        self.frame.spot.at += 1;
        let caller = mem::replace(&mut self.frame, frame);
        push_frame(&mut self.below, caller)?;
        Ok(done_by_call(is_counted(&self.guide, function)))
    }

    pub fn call(
        &mut self,
        program: &CProgram,
        into: &Option<CPlace>,
        who: &CCallee,
        arguments: &[CExpr],
    ) -> Result<Done, Halt>
        requires fits { FitsFrames program.now self.old }
        requires small { self.old.frame.spot.at + 1 < 2 ^ 64 }
        ensures act { (input output calls : List ℕ) → Acts program.now self.new input output calls result
            (do_statement program.now (runner_view program.now self.old) (state_of program.now self.old input output calls)
            (todo_at (body_at program.now self.old.frame) self.old.frame.spot.outer.items (self.old.frame.spot.at + 1)) (t.Call into.now who.now arguments.now)) }
        ensures fits { OnOk result (FitsFrames program.now self.new) }
    {
        let entry = self.entry(program, into, who, arguments)?;
        let Entry {
            function,
            target,
            parameters,
        } = entry;
        self.parameters = parameters.into_vec();
        self.enter(program, function, target)
    }

    // ---- the end of a function

    /// What a `return` gives.
    fn given<'p>(
        &self,
        program: &'p CProgram,
        e: &'p Option<CExpr>,
    ) -> Result<Option<Given<'p>>, Halt>
        requires fits { FitsFrame program.now self.now.frame }
        requires guide { IsGuide program.now self.now.guide }
        ensures { Tells (option_map given_of) result (m.returned (runner_view program.now self.now) (parts_at program.now self.now.frame.function).result e.now) }
    {
        let of = result_of(program, self.frame.function);
        let scope = self.scope(program);
        returned(&scope, of, e)
    }

    /// The store of an answer.
    fn answer(&self, program: &CProgram, answer: &Option<Given>) -> Result<Option<Store>, Halt>
        requires fits { FitsFrame program.now self.now.frame }
        requires guide { IsGuide program.now self.now.guide }
        ensures { (blocks : Blocks) → Answers blocks result (m.answered program.now.declarations blocks (meant self.now.frame.target) (option_map given_of answer.now)) }
    {
        let scope = self.scope(program);
        answer_stored(&scope, &self.frame.target, answer)
    }

    /// Makes the blocks of the function that runs be gone.
    #[inline(always)]
    pub fn forget_frame(&mut self, program: &CProgram)
        requires { FitsFrame program.now self.old.frame }
        ensures { self.new ≡ record self.old { memory = without (names_from self.old.frame.base (variables_at program.now self.old.frame)) self.old.memory } }
    {
        let text = written_text(program, self.frame.function);
        let count = text.parameters.len() + text.locals.len();
        self.memory.end(self.frame.base, count);
    }

    /// The function ends, and the one below goes on.
    fn leave_to(
        &mut self,
        program: &CProgram,
        frame: Frame,
        answer: &Option<Given>,
    ) -> Result<Done, Halt>
        requires fits { FitsFrame program.now self.old.frame }
        requires guide { IsGuide program.now self.old.guide }
        ensures act { (input output calls : List ℕ) → Acts program.now self.new input output calls result
            (m.leave_to program.now (state_of program.now self.old input output calls) (frame_of program.now frame ∷ frames_of program.now self.old.below.items []) (option_map given_of answer.now)) }
        ensures frame { OnOk result (self.new.frame ≡ frame) }
        ensures below { self.new.below.items ≡ self.old.below.items }
        ensures guide { self.new.guide ≡ self.old.guide }
    {
        let store = self.answer(program, answer)?;
        self.forget_frame(program);
        put_answer(self.alloc, &mut self.memory, store)?;
        self.frame = frame;
        Ok(Done::Going)
    }

    /// `main` ends.
    fn end(&self, answer: &Option<Given>) -> Result<Done, Halt>
        ensures { (c : CProgram) (st : State) → Acts c self.now st.input st.output st.calls result (m.leave_to c st [] (option_map given_of answer.now)) }
    {
        let status = status_of(self.alloc, answer)?;
        Ok(Done::Ended(status))
    }

    /// The end of the function that runs.
    #[tactic(auto, using(crate::proofs::Stepping::guide_stays))]
    pub fn leave(&mut self, program: &CProgram, answer: &Option<Given>) -> Result<Done, Halt>
        requires fits { FitsFrames program.now self.old }
        ensures act { (input output calls : List ℕ) → Acts program.now self.new input output calls result
            (m.leave program.now (state_of program.now self.old input output calls) (option_map given_of answer.now)) }
        ensures fits { OnOk result (FitsFrames program.now self.new) }
    {
        match last_frame(&mut self.below) {
            None => self.end(answer),
            Some(frame) => self.leave_to(program, frame, answer),
        }
    }

    pub fn give(&mut self, program: &CProgram, e: &Option<CExpr>) -> Result<Done, Halt>
        requires fits { FitsFrames program.now self.old }
        ensures act { (input output calls : List ℕ) → Acts program.now self.new input output calls result
            (do_statement program.now (runner_view program.now self.old) (state_of program.now self.old input output calls)
            (todo_at (body_at program.now self.old.frame) self.old.frame.spot.outer.items (self.old.frame.spot.at + 1)) (t.Return e.now)) }
        ensures fits { OnOk result (FitsFrames program.now self.new) }
    {
        let answer = self.given(program, e)?;
        self.leave(program, &answer)
    }
}
