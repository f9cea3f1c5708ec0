//! The labels of a program, noted in one walk over its text.
ghost use Rattle.std.specs.Prelude.{◌≡◌, List, ℕ, IfOk, OnOk, slice_get};
ghost use Rattle.std.specs.Option.{option_map, option_copied};
ghost use Rattle.c_tree.specs.declared.program.CProgram.{CProgram};
ghost use Rattle.label_ways.specs.Labels.{path_of, path_statement, inside, or_way};
ghost use Rattle.label_ways.specs.Ways.{way_in, way_of, below, Leads, LeadEach, Guides, body_in};

use crate::level::Level;
use crate::ways::{Way, Ways};
use c_tree::Name;
use c_tree::program::{CFunction, CProgram};
use c_tree::statement::{CStatement, CStatementNode};
use std::alloc::{AllocError, Global};

/// Notes the labels of a list that stands inside of `outer`.
#[cycle(note)]
fn note_in(
    alloc: Global,
    list: &[CStatement],
    outer: &mut Vec<Level>,
    ways: &mut Ways,
) -> Result<(), AllocError>
    ensures outer { OnOk result (outer.new.items ≡ outer.old.items) }
    ensures ways { OnOk result ((x : List ℕ) → way_in ways.new x ≡ or_way (way_in ways.old x) (below outer.old.items (path_of x 0 list.now))) }
{
    for (i, statement) in list.iter().enumerate() {
        note_at(alloc, statement, i, outer, ways)?;
    }
    Ok(())
}

#[cycle(note)]
fn note_at(
    alloc: Global,
    statement: &CStatement,
    i: usize,
    outer: &mut Vec<Level>,
    ways: &mut Ways,
) -> Result<(), AllocError>
    ensures outer { OnOk result (outer.new.items ≡ outer.old.items) }
    ensures ways { OnOk result ((x : List ℕ) → way_in ways.new x ≡ or_way (way_in ways.old x) (below outer.old.items (path_statement x i statement.now))) }
{
    match &statement.node {
        CStatementNode::Label(name) => ways.add(alloc, name, outer.as_slice(), i),
        CStatementNode::If(_, body) => note_below(alloc, body.as_slice(), i, false, outer, ways),
        CStatementNode::While(_, body) => note_below(alloc, body.as_slice(), i, false, outer, ways),
        CStatementNode::IfElse(_, body, other) => {
            note_below(alloc, body.as_slice(), i, false, outer, ways)?;
            note_below(alloc, other.as_slice(), i, true, outer, ways)
        }
        _ => Ok(()),
    }
}

#[cycle(note)]
fn note_below(
    alloc: Global,
    list: &[CStatement],
    i: usize,
    second: bool,
    outer: &mut Vec<Level>,
    ways: &mut Ways,
) -> Result<(), AllocError>
    ensures outer { OnOk result (outer.new.items ≡ outer.old.items) }
    ensures ways { OnOk result ((x : List ℕ) → way_in ways.new x ≡ or_way (way_in ways.old x) (below outer.old.items (inside i second (path_of x 0 list.now)))) }
{
    outer.push(Level { at: i, second })?;
    note_in(alloc, list, outer, ways)?;
    outer.pop();
    Ok(())
}

/// The ways to the labels of a function's text.
pub fn ways_of(alloc: Global, body: &[CStatement]) -> Result<Ways, AllocError>
    ensures { IfOk result (λ ways. Leads ways body.now) }
{
    let mut ways = Ways::new(alloc);
    let mut outer = Vec::new(alloc);
    note_in(alloc, body, &mut outer, &mut ways)?;
    Ok(ways)
}

/// The ways to the labels of each function's text.
fn ways_of_functions(alloc: Global, functions: &[CFunction]) -> Result<Vec<Ways>, AllocError>
    ensures { IfOk result (λ list. LeadEach list.items functions.now) }
{
    let mut list = Vec::new(alloc);
    for function in functions {
        list.push(ways_of(alloc, function.body.as_slice())?)?;
    }
    Ok(list)
}

/// What stands at a place.
fn ways_at(list: &[Ways], place: usize) -> Option<&Ways>
    ensures { option_copied result ≡ slice_get list.now place }
{
    list.get(place)
}

/// The ways to the labels of a program.
#[derive(Drop)]
pub struct ProgramWays {
    pub main: Ways,
    pub functions: Vec<Ways>,
}

impl ProgramWays {
    /// The ways, in one pass over the program's text.
    pub fn new(alloc: Global, program: &CProgram) -> Result<ProgramWays, AllocError>
        ensures { IfOk result (Guides program.now) }
    {
        let main = ways_of(alloc, program.main.body.as_slice())?;
        let functions = ways_of_functions(alloc, program.functions.as_slice())?;
        Ok(ProgramWays { main, functions })
    }

    /// The way to a label of `main`, or of the function with a number.
    pub fn get(&self, function: Option<usize>, label: &Name) -> Option<&Way>
        ensures { (c : CProgram) → Guides c self.now → option_map (λ w. way_of w.now) result ≡ path_of label.now 0 (body_in c function) }
    {
        match function {
            None => self.main.get(label),
            Some(number) => match ways_at(&self.functions, number) {
                Some(ways) => ways.get(label),
                None => None,
            },
        }
    }
}
