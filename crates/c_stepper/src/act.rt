//! One statement after another.
ghost use Rattle.std.specs.Prelude.{◌≡◌, ◌+◌, ◌<◌, ◌^◌, ℕ, List, Some, true, false, IfSome, IfOk, OnOk, slice_get};
ghost use Rattle.std.specs.Option.{option_copied};
ghost use Rattle.c_meaning.specs.Steps.{do_statement, CStep, after_byte};
ghost use Rattle.c_stepper.specs.Spots.{list_in, todo_at};
ghost use Rattle.c_stepper.specs.Runners.{state_of, runner_view, body_at, first_of, FitsFrames, IsSettled, statement_at, is_reading, reads_in, reads_here, Seeks, Acts};

use crate::runner::{Done, Runner, written_text};
use crate::spot::{at, list_at};
use c_cells::halt::Halt;
use c_tree::program::CProgram;
use c_tree::statement::{CStatement, CStatementNode};

/// Whether it is a `getchar`.
fn is_reading(statement: &CStatement) -> bool
    ensures { result ≡ is_reading statement.now }
{
    match &statement.node {
        CStatementNode::GetChar(_) => true,
        _ => false,
    }
}

/// Whether a `getchar` comes next.
pub fn reads(next: Option<&CStatement>) -> bool
    ensures { result ≡ reads_in (option_copied next.entry) }
{
    match next {
        Some(statement) => is_reading(statement),
        None => false,
    }
}

impl Runner {
    /// Leaves each list of statements that is done, and gives the statement that comes next.
    pub fn settle<'p>(&mut self, program: &'p CProgram) -> Option<&'p CStatement>
        requires fits { FitsFrames program.now self.old }
        ensures next { option_copied result ≡ statement_at program.now self.new.frame }
        ensures small { IfSome result (λ s. self.new.frame.spot.at + 1 < 2 ^ 64) }
        ensures same { (input output calls : List ℕ) → state_of program.now self.new input output calls ≡ state_of program.now self.old input output calls }
        ensures settled { IsSettled program.now self.new.frame }
        ensures fits { FitsFrames program.now self.new }
    {
        let text = written_text(program, self.frame.function);
        let list = self.frame.spot.settle(text.body);
        at(list, self.frame.spot.at)
    }

    /// The statement that comes next, where the list is not done.
    fn current<'p>(&self, program: &'p CProgram) -> Option<&'p CStatement>
        ensures value { option_copied result ≡ statement_at program.now self.now.frame }
        ensures small { IfSome result (λ s. self.now.frame.spot.at + 1 < 2 ^ 64) }
    {
        let text = written_text(program, self.frame.function);
        at(
            list_at(text.body, self.frame.spot.outer.as_slice()),
            self.frame.spot.at,
        )
    }

    /// Whether the `getchar` that comes next has a place for its byte.
    pub fn seek(&self, program: &CProgram) -> Result<(), Halt>
        requires fits { FitsFrames program.now self.now }
        requires reads { reads_here program.now self.now.frame ≡ true }
        ensures { (input output calls : List ℕ)
            → Seeks program.now (state_of program.now self.now input output calls) result }
    {
        match self.current(program) {
            None => unreachable!(),
            Some(statement) => self.seek_place(program, statement),
        }
    }

    #[tactic(auto, using(crate::proofs::Seeking::sought))]
    fn seek_place(&self, program: &CProgram, statement: &CStatement) -> Result<(), Halt>
        requires fits { FitsFrames program.now self.now }
        requires here { statement_at program.now self.now.frame ≡ Some statement.now }
        requires reads { is_reading statement.now ≡ true }
        ensures { (input output calls : List ℕ)
            → Seeks program.now (state_of program.now self.now input output calls) result }
    {
        match &statement.node {
            CStatementNode::GetChar(place) => self.finds(program, place),
            _ => unreachable!(),
        }
    }

    /// A `getchar`, where this is the byte that comes next.
    pub fn read(&mut self, program: &CProgram, byte: Option<u8>) -> Result<Done, Halt>
        requires fits { FitsFrames program.now self.old }
        requires settled { IsSettled program.now self.old.frame }
        requires reads { reads_here program.now self.old.frame ≡ true }
        ensures act { (input output calls : List ℕ) → byte ≡ first_of input
            → Acts program.now self.new (after_byte input) output calls result (CStep program.now (state_of program.now self.old input output calls)) }
        ensures fits { OnOk result (FitsFrames program.now self.new) }
        ensures going { IfOk result (λ done. done ≡ Done.Going) }
    {
        match self.current(program) {
            None => unreachable!(),
            Some(statement) => self.read_into(program, statement, byte),
        }
    }

    #[tactic(auto, using(crate::proofs::Stepping::stays_fits))]
    fn read_into(
        &mut self,
        program: &CProgram,
        statement: &CStatement,
        byte: Option<u8>,
    ) -> Result<Done, Halt>
        requires fits { FitsFrames program.now self.old }
        requires small { self.old.frame.spot.at + 1 < 2 ^ 64 }
        requires reads { is_reading statement.now ≡ true }
        ensures act { (input output calls : List ℕ) → byte ≡ first_of input
            → Acts program.now self.new (after_byte input) output calls result
            (do_statement program.now (runner_view program.now self.old) (state_of program.now self.old input output calls)
            (todo_at (body_at program.now self.old.frame) self.old.frame.spot.outer.items (self.old.frame.spot.at + 1)) statement.now) }
        ensures fits { OnOk result (FitsFrames program.now self.new) }
        ensures going { IfOk result (λ done. done ≡ Done.Going) }
    {
        match &statement.node {
            CStatementNode::GetChar(place) => self.get_char(program, place, byte),
            _ => unreachable!(),
        }
    }

    /// A step that is no `getchar`: this is the statement that comes next, if there is one.
    pub fn step(&mut self, program: &CProgram, next: Option<&CStatement>) -> Result<Done, Halt>
        requires fits { FitsFrames program.now self.old }
        requires settled { IsSettled program.now self.old.frame }
        requires next { option_copied next ≡ statement_at program.now self.old.frame }
        requires small { IfSome next (λ s. self.old.frame.spot.at + 1 < 2 ^ 64) }
        requires other { reads_in (option_copied next) ≡ false }
        ensures act { (input output calls : List ℕ)
            → Acts program.now self.new input output calls result (CStep program.now (state_of program.now self.old input output calls)) }
        ensures fits { OnOk result (FitsFrames program.now self.new) }
    {
        match next {
            None => self.leave(program, &None),
            Some(statement) => self.act(program, statement),
        }
    }

    /// The statement that comes next.
    #[tactic(auto, using(crate::proofs::Stepping::stays_fits))]
    fn act(&mut self, program: &CProgram, statement: &CStatement) -> Result<Done, Halt>
        requires fits { FitsFrames program.now self.old }
        requires small { self.old.frame.spot.at + 1 < 2 ^ 64 }
        requires here { statement_at program.now self.old.frame ≡ Some statement.now }
        requires other { is_reading statement.now ≡ false }
        ensures act { (input output calls : List ℕ) → Acts program.now self.new input output calls result
            (do_statement program.now (runner_view program.now self.old) (state_of program.now self.old input output calls)
            (todo_at (body_at program.now self.old.frame) self.old.frame.spot.outer.items (self.old.frame.spot.at + 1)) statement.now) }
        ensures fits { OnOk result (FitsFrames program.now self.new) }
    {
        match &statement.node {
            CStatementNode::Assign(place, e) => self.assign(program, place, e),
            CStatementNode::Call(into, who, arguments) => {
                self.call(program, into, who, arguments.as_slice())
            }
            CStatementNode::Malloc(place, of) => self.malloc(program, place, of),
            CStatementNode::Free(e) => self.free(program, e),
            CStatementNode::GetChar(_) => unreachable!(),
            CStatementNode::PutChar(e) => self.put_char(program, e),
            CStatementNode::If(e, body) => self.choose(program, e, body.as_slice()),
            CStatementNode::IfElse(e, body, other) => {
                self.choose_between(program, e, body.as_slice(), other.as_slice())
            }
            CStatementNode::While(e, body) => self.turn(program, e, body.as_slice()),
            CStatementNode::Goto(label) => self.jump(program, label),
            CStatementNode::Label(label) => self.pass(program, label.as_slice()),
            CStatementNode::Return(e) => self.give(program, e),
        }
    }
}
