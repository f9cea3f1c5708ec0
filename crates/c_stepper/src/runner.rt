//! The functions that run, with the memory.
ghost use Rattle.std.specs.Prelude.{◌≡◌, ◌+◌, ◌<◌, ◌^◌, ℕ, List, Some, IfOk, slice_get};
ghost use Rattle.c_tree.specs.Tree as t;
ghost use Rattle.c_tree.specs.Tree.{body_of};
ghost use Rattle.c_meaning.specs.Evaluate as v;
ghost use Rattle.c_meaning.specs.Steps as m;
ghost use Rattle.c_meaning.specs.Steps.{do_statement, after_byte};
ghost use Rattle.c_evaluation.specs.Stores.{Stores, Finds, byte_stored, address_stored, without_one, Frees, freed_of};
ghost use Rattle.c_stepper.specs.Spots.{list_in, todo_at};
ghost use Rattle.c_evaluation.specs.Scopes.{view_at, HasRoom};
ghost use Rattle.c_stepper.specs.Guides.{IsGuide};
ghost use Rattle.c_stepper.specs.Runners.{state_of, runner_view, body_at, text_at, text_of, first_of, FitsFrame, Stays, Acts};

use crate::guide::Guide;
use crate::spot::Spot;
use c_cells::Path;
use c_cells::fresh::fresh_block;
use c_cells::halt::Halt;
use c_cells::memory::Memory;
use c_cells::slot::Slot;
use c_evaluation::scope::Scope;
use c_evaluation::store::{Store, assigned, found, freed, got, malloced, put, test};
use c_meaning::StuckKind;
use c_tree::Name;
use c_tree::expr::{CExpr, CPlace};
use c_tree::program::{CProgram, CVariable};
use c_tree::statement::CStatement;
use c_tree::types::CType;
use std::alloc::Global;

/// What a statement did beside the change of the frames and the memory.
#[derive(Clone, Copy)]
pub enum Done {
    Going,
    /// It wrote a byte.
    Wrote(u8),
    /// It entered a function that has a number at its name's end.
    Entered,
    /// `main` ended with a status.
    Ended(u8),
}

/// A part of a block, with its type, which may be an array.
#[derive(Drop)]
pub struct Part {
    pub number: usize,
    pub path: Path,
    pub array: Option<u64>,
    pub of: CType,
}

/// Where the answer of a call goes: nowhere, to the whole block of an `int64_t`, or to a part of a
/// block.
#[derive(Drop)]
pub enum Target {
    Nowhere,
    Int(usize),
    Into(Box<Part>),
}

/// A function that runs: its number, or none for `main`.
#[derive(Drop)]
pub struct Frame {
    pub function: Option<usize>,
    pub reach: usize,
    pub base: usize,
    pub spot: Spot,
    pub target: Target,
}

#[derive(Drop)]
pub struct Runner {
    pub frame: Frame,
    pub below: Vec<Frame>,
    pub memory: Memory,
    /// The blocks of the parameters of the function that is entered next.
    pub parameters: Vec<Slot>,
    pub guide: Guide,
    pub alloc: Global,
}

/// The text of a function.
#[derive(Clone, Copy)]
pub struct Text<'a> {
    pub parameters: &'a [CVariable],
    pub locals: &'a [CVariable],
    pub body: &'a [CStatement],
}

/// The text of the function with a number.
pub fn written_text<'a>(program: &'a CProgram, function: Option<usize>) -> Text<'a>
    ensures { text_of result ≡ text_at program.now function }
{
    match function {
        None => Text {
            parameters: &[],
            locals: program.main.locals.as_slice(),
            body: program.main.body.as_slice(),
        },
        Some(number) => match program.functions.get(number) {
            Some(found) => Text {
                parameters: found.parameters.as_slice(),
                locals: found.locals.as_slice(),
                body: found.body.as_slice(),
            },
            None => Text {
                parameters: &[],
                locals: &[],
                body: &[],
            },
        },
    }
}

impl Runner {
    pub fn scope<'a>(&'a self, program: &'a CProgram) -> Scope<'a>
        requires fits { FitsFrame program.now self.now.frame }
        requires guide { IsGuide program.now self.now.guide }
        ensures view { view_at result ≡ runner_view program.now self.now }
        ensures room { HasRoom result }
        ensures memory { result.memory.now ≡ self.now.memory }
        ensures program { result.program.now ≡ program.now }
    {
        let text = written_text(program, self.frame.function);
        Scope {
            program,
            tables: &self.guide.names,
            reach: self.frame.reach,
            parameters: text.parameters,
            locals: text.locals,
            base: self.frame.base,
            memory: &self.memory,
            alloc: self.alloc,
        }
    }

    /// The store of `place = e;`.
    fn assignment<'a>(
        &'a self,
        program: &'a CProgram,
        place: &'a CPlace,
        e: &'a CExpr,
    ) -> Result<Store, Halt>
        requires fits { FitsFrame program.now self.now.frame }
        requires guide { IsGuide program.now self.now.guide }
        ensures { Stores self.now.memory result (m.assign (runner_view program.now self.now) place.now e.now) }
    {
        let scope = self.scope(program);
        assigned(&scope, place, e)
    }

    /// Whether the place of `place = getchar();` is there.
    pub fn finds(&self, program: &CProgram, place: &CPlace) -> Result<(), Halt>
        requires fits { FitsFrame program.now self.now.frame }
        requires guide { IsGuide program.now self.now.guide }
        ensures { Finds result (v.place (runner_view program.now self.now) place.now) }
    {
        let scope = self.scope(program);
        found(&scope, place)
    }

    /// The store of `place = getchar();` where this is the byte that comes next.
    fn reading<'a>(
        &'a self,
        program: &'a CProgram,
        place: &'a CPlace,
        byte: Option<u8>,
    ) -> Result<Store, Halt>
        requires fits { FitsFrame program.now self.now.frame }
        requires guide { IsGuide program.now self.now.guide }
        ensures { Stores self.now.memory result (byte_stored (runner_view program.now self.now) place.now byte) }
    {
        let scope = self.scope(program);
        got(&scope, place, byte)
    }

    pub fn assign(&mut self, program: &CProgram, place: &CPlace, e: &CExpr) -> Result<Done, Halt>
        requires fits { FitsFrame program.now self.old.frame }
        requires guide { IsGuide program.now self.old.guide }
        requires small { self.old.frame.spot.at + 1 < 2 ^ 64 }
        ensures act { (input output calls : List ℕ) → Acts program.now self.new input output calls result
            (do_statement program.now (runner_view program.now self.old) (state_of program.now self.old input output calls)
            (todo_at (body_at program.now self.old.frame) self.old.frame.spot.outer.items (self.old.frame.spot.at + 1)) (t.Assign place.now e.now)) }
        ensures stays { Stays self.old self.new }
    {
        let Store { number, path, tree } = self.assignment(program, place, e)?;
        self.memory
            .store(self.alloc, number, path.as_slice(), tree)?;
        self.frame.spot.at += 1;
        Ok(Done::Going)
    }

    pub fn get_char(
        &mut self,
        program: &CProgram,
        place: &CPlace,
        byte: Option<u8>,
    ) -> Result<Done, Halt>
        requires fits { FitsFrame program.now self.old.frame }
        requires guide { IsGuide program.now self.old.guide }
        requires small { self.old.frame.spot.at + 1 < 2 ^ 64 }
        ensures act { (input output calls : List ℕ) → byte ≡ first_of input → Acts program.now self.new (after_byte input) output calls result
            (do_statement program.now (runner_view program.now self.old) (state_of program.now self.old input output calls)
            (todo_at (body_at program.now self.old.frame) self.old.frame.spot.outer.items (self.old.frame.spot.at + 1)) (t.GetChar place.now)) }
        ensures stays { Stays self.old self.new }
        ensures going { IfOk result (λ done. done ≡ Done.Going) }
    {
        let Store { number, path, tree } = self.reading(program, place, byte)?;
        self.memory
            .store(self.alloc, number, path.as_slice(), tree)?;
        self.frame.spot.at += 1;
        Ok(Done::Going)
    }

    pub fn put_char(&mut self, program: &CProgram, e: &CExpr) -> Result<Done, Halt>
        requires fits { FitsFrame program.now self.old.frame }
        requires guide { IsGuide program.now self.old.guide }
        requires small { self.old.frame.spot.at + 1 < 2 ^ 64 }
        ensures act { (input output calls : List ℕ) → Acts program.now self.new input output calls result
            (do_statement program.now (runner_view program.now self.old) (state_of program.now self.old input output calls)
            (todo_at (body_at program.now self.old.frame) self.old.frame.spot.outer.items (self.old.frame.spot.at + 1)) (t.PutChar e.now)) }
        ensures stays { Stays self.old self.new }
    {
        let byte = put(&self.scope(program), e)?;
        self.frame.spot.at += 1;
        Ok(Done::Wrote(byte))
    }

    pub fn choose(
        &mut self,
        program: &CProgram,
        e: &CExpr,
        body: &[CStatement],
    ) -> Result<Done, Halt>
        requires fits { FitsFrame program.now self.old.frame }
        requires guide { IsGuide program.now self.old.guide }
        requires small { self.old.frame.spot.at + 1 < 2 ^ 64 }
        requires here { slice_get (list_in (body_at program.now self.old.frame) self.old.frame.spot.outer.items) self.old.frame.spot.at ≡ Some (t.If e.now (body_of body.now)) }
        ensures act { (input output calls : List ℕ) → Acts program.now self.new input output calls result
            (do_statement program.now (runner_view program.now self.old) (state_of program.now self.old input output calls)
            (todo_at (body_at program.now self.old.frame) self.old.frame.spot.outer.items (self.old.frame.spot.at + 1)) (t.If e.now (body_of body.now))) }
        ensures stays { Stays self.old self.new }
    {
        let chosen = test(&self.scope(program), e)?;
        if chosen {
            self.frame.spot.enter(false)?;
        } else {
            self.frame.spot.at += 1;
        }
        Ok(Done::Going)
    }

    pub fn choose_between(
        &mut self,
        program: &CProgram,
        e: &CExpr,
        body: &[CStatement],
        other: &[CStatement],
    ) -> Result<Done, Halt>
        requires fits { FitsFrame program.now self.old.frame }
        requires guide { IsGuide program.now self.old.guide }
        requires here { slice_get (list_in (body_at program.now self.old.frame) self.old.frame.spot.outer.items) self.old.frame.spot.at ≡ Some (t.IfElse e.now (body_of body.now) (body_of other.now)) }
        ensures act { (input output calls : List ℕ) → Acts program.now self.new input output calls result
            (do_statement program.now (runner_view program.now self.old) (state_of program.now self.old input output calls)
            (todo_at (body_at program.now self.old.frame) self.old.frame.spot.outer.items (self.old.frame.spot.at + 1)) (t.IfElse e.now (body_of body.now) (body_of other.now))) }
        ensures stays { Stays self.old self.new }
    {
        let chosen = test(&self.scope(program), e)?;
        self.frame.spot.enter(!chosen)?;
        Ok(Done::Going)
    }

    pub fn turn(&mut self, program: &CProgram, e: &CExpr, body: &[CStatement]) -> Result<Done, Halt>
        requires fits { FitsFrame program.now self.old.frame }
        requires guide { IsGuide program.now self.old.guide }
        requires small { self.old.frame.spot.at + 1 < 2 ^ 64 }
        requires here { slice_get (list_in (body_at program.now self.old.frame) self.old.frame.spot.outer.items) self.old.frame.spot.at ≡ Some (t.While e.now (body_of body.now)) }
        ensures act { (input output calls : List ℕ) → Acts program.now self.new input output calls result
            (do_statement program.now (runner_view program.now self.old) (state_of program.now self.old input output calls)
            (todo_at (body_at program.now self.old.frame) self.old.frame.spot.outer.items (self.old.frame.spot.at + 1)) (t.While e.now (body_of body.now))) }
        ensures stays { Stays self.old self.new }
    {
        let chosen = test(&self.scope(program), e)?;
        if chosen {
            self.frame.spot.enter(false)?;
        } else {
            self.frame.spot.at += 1;
        }
        Ok(Done::Going)
    }

    /// A label is passed.
    #[tactic(auto, unfolding(c_meaning::specs::Steps::do_statement, c_meaning::specs::Steps::to_do))]
    pub fn pass(&mut self, program: &CProgram, label: &[u8]) -> Result<Done, Halt>
        requires small { self.old.frame.spot.at + 1 < 2 ^ 64 }
        ensures act { (input output calls : List ℕ) → Acts program.now self.new input output calls result
            (do_statement program.now (runner_view program.now self.old) (state_of program.now self.old input output calls)
            (todo_at (body_at program.now self.old.frame) self.old.frame.spot.outer.items (self.old.frame.spot.at + 1)) (t.Label label.now)) }
        ensures stays { Stays self.old self.new }
    {
        self.frame.spot.at += 1;
        Ok(Done::Going)
    }

    /// The function goes on at a label of its text.
    pub fn jump(&mut self, program: &CProgram, label: &Name) -> Result<Done, Halt>
        requires guide { IsGuide program.now self.old.guide }
        ensures act { (input output calls : List ℕ) → Acts program.now self.new input output calls result
            (do_statement program.now (runner_view program.now self.old) (state_of program.now self.old input output calls)
            (todo_at (body_at program.now self.old.frame) self.old.frame.spot.outer.items (self.old.frame.spot.at + 1)) (t.Goto label.now)) }
        ensures stays { Stays self.old self.new }
    {
        match self.guide.labels.get(self.frame.function, label) {
            Some(way) => {
                self.frame.spot.follow(way)?;
                Ok(Done::Going)
            }
            None => Err(Halt::Stuck(StuckKind::UnknownName)),
        }
    }

    /// The store of `place = malloc(sizeof(of));`: the address of the block that is made next.
    fn address<'a>(
        &'a self,
        program: &'a CProgram,
        place: &'a CPlace,
        of: &'a CType,
    ) -> Result<Store, Halt>
        requires fits { FitsFrame program.now self.now.frame }
        requires guide { IsGuide program.now self.now.guide }
        ensures { Stores self.now.memory result (address_stored (runner_view program.now self.now) self.now.memory place.now of.now) }
    {
        let scope = self.scope(program);
        malloced(&scope, place, of)
    }

    pub fn malloc(&mut self, program: &CProgram, place: &CPlace, of: &CType) -> Result<Done, Halt>
        requires fits { FitsFrame program.now self.old.frame }
        requires guide { IsGuide program.now self.old.guide }
        requires small { self.old.frame.spot.at + 1 < 2 ^ 64 }
        ensures act { (input output calls : List ℕ) → Acts program.now self.new input output calls result
            (do_statement program.now (runner_view program.now self.old) (state_of program.now self.old input output calls)
            (todo_at (body_at program.now self.old.frame) self.old.frame.spot.outer.items (self.old.frame.spot.at + 1)) (t.Malloc place.now of.now)) }
        ensures stays { Stays self.old self.new }
    {
        let declared = self.guide.declared(program);
        let block = fresh_block(self.alloc, false, true, &declared, of)?;
        let Store { number, path, tree } = self.address(program, place, of)?;
        let at = path.as_slice();
        self.memory.store(self.alloc, number, at, tree)?;
        self.memory.push(self.alloc, block)?;
        self.frame.spot.at += 1;
        Ok(Done::Going)
    }

    /// The number of the block that `free(e);` makes be gone, or none where nothing is freed.
    fn freeing<'a>(&'a self, program: &'a CProgram, e: &'a CExpr) -> Result<Option<usize>, Halt>
        requires fits { FitsFrame program.now self.now.frame }
        requires guide { IsGuide program.now self.now.guide }
        ensures { Frees self.now.memory result (freed_of (runner_view program.now self.now) self.now.memory e.now) }
    {
        let scope = self.scope(program);
        freed(&scope, e)
    }

    pub fn free(&mut self, program: &CProgram, e: &CExpr) -> Result<Done, Halt>
        requires fits { FitsFrame program.now self.old.frame }
        requires guide { IsGuide program.now self.old.guide }
        requires small { self.old.frame.spot.at + 1 < 2 ^ 64 }
        ensures act { (input output calls : List ℕ) → Acts program.now self.new input output calls result
            (do_statement program.now (runner_view program.now self.old) (state_of program.now self.old input output calls)
            (todo_at (body_at program.now self.old.frame) self.old.frame.spot.outer.items (self.old.frame.spot.at + 1)) (t.Free e.now)) }
        ensures stays { Stays self.old self.new }
    {
        let which = self.freeing(program, e)?;
        forget(&mut self.memory, which);
        self.frame.spot.at += 1;
        Ok(Done::Going)
    }
}

/// Makes a block be gone, where one is named.
fn forget(memory: &mut Memory, which: Option<usize>)
    ensures { memory.new ≡ without_one memory.old which }
{
    match which {
        Some(number) => {
            memory.remove(number);
        }
        None => {}
    }
}
