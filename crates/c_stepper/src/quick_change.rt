//! Calls and answers by numbers alone.
ghost use Rattle.std.specs.Prelude.{◌+◌, ◌<◌, ◌^◌, IfOk, OnOk};
ghost use Rattle.c_stepper.specs.Runners.{FitsFrames};
ghost use Rattle.c_stepper.specs.Calls.{entry_with};
ghost use Rattle.c_stepper.specs.Quick.{NextAt};
ghost use Rattle.c_stepper.specs.QuickCalls.{QuickEntry};
ghost use Rattle.c_stepper.specs.QuickReturns.{GivesNumber};
ghost use Rattle.c_stepper.specs.QuickChanges.{Changes, Leaps};

use crate::guide::Guide;
use crate::quick::node_here;
use crate::quick_call::entering;
use crate::resolved::Resolved;
use crate::runner::{Done, Frame, Runner, Target};
use c_cells::halt::Halt;
use c_cells::memory::Memory;
use c_cells::slot::Slot;
use c_evaluation::numbers::evaluated;
use c_tree::program::CProgram;
use std::alloc::AllocError;

/// What the statement that comes next does to the functions that run, where numbers alone say it.
enum Change {
    /// The function with this number is entered, and this is the place for its answer.
    Enter(usize, Target),
    /// The function that runs gives this number.
    Give(i64),
    /// Anything else.
    Other,
}

/// The change by the statement that comes next. A function that is entered has the blocks of its
/// parameters.
fn change_here(
    parameters: &mut Vec<Slot>,
    frame: &Frame,
    memory: &Memory,
    guide: &Guide,
    here: usize,
) -> Result<Change, AllocError>
    requires { NextAt guide.now frame.now here }
    ensures { IfOk result (Changes guide.now frame.now memory.now parameters.new.items) }
{
    let Some(node) = node_here(guide, frame, here) else {
        return Ok(Change::Other);
    };
    match &node.resolved {
        Resolved::Call(call) => match entering(parameters, memory, frame, call)? {
            Some(target) => Ok(Change::Enter(call.function, target)),
            None => Ok(Change::Other),
        },
        Resolved::Give(number) => Ok(match evaluated(memory, frame.base, number) {
            Some(z) => Change::Give(z),
            None => Change::Other,
        }),
        _ => Ok(Change::Other),
    }
}

impl Runner {
    /// Enters the function that the call that comes next enters.
    fn enter_quickly(
        &mut self,
        program: &CProgram,
        function: usize,
        target: Target,
    ) -> Result<Option<Done>, Halt>
        requires fits { FitsFrames program.now self.old }
        requires small { self.old.frame.spot.at + 1 < 2 ^ 64 }
        requires entry { QuickEntry self.old.guide self.old.frame self.old.memory (entry_with function target self.old.parameters.items) }
        ensures leaps { Leaps program.now self.old self.new result }
        ensures fits { OnOk result (FitsFrames program.now self.new) }
    {
        match self.enter(program, function, target) {
            Ok(done) => Ok(Some(done)),
            Err(halt) => Err(halt),
        }
    }

    /// The number that the `return` that comes next gives goes to its place, where that is a
    /// variable of `int64_t`.
    fn give_quickly(&mut self, program: &CProgram, z: i64) -> Result<Option<Done>, Halt>
        requires fits { FitsFrames program.now self.old }
        requires gives { GivesNumber self.old.guide self.old.frame self.old.memory z }
        ensures leaps { Leaps program.now self.old self.new result }
        ensures fits { OnOk result (FitsFrames program.now self.new) }
    {
        if self.give_number(program, z) {
            Ok(Some(Done::Going))
        } else {
            Ok(None)
        }
    }

    /// The call or the `return` that comes next, whose node stands here, where numbers alone say what
    /// it does.
    pub fn quick_change(&mut self, program: &CProgram, here: usize) -> Result<Option<Done>, Halt>
        requires fits { FitsFrames program.now self.old }
        requires here { NextAt self.old.guide self.old.frame here }
        ensures leaps { Leaps program.now self.old self.new result }
        ensures fits { OnOk result (FitsFrames program.now self.new) }
    {
        let frame = &self.frame;
        match change_here(&mut self.parameters, frame, &self.memory, &self.guide, here)? {
            Change::Enter(function, target) => self.enter_quickly(program, function, target),
            Change::Give(z) => self.give_quickly(program, z),
            Change::Other => Ok(None),
        }
    }
}
