//! Where a function stands in its text.

ghost use Rattle.std.specs.Option.{option_copied};
ghost use Rattle.std.specs.Prelude.{◌+◌, IfSome, ◌≡◌, ◌<◌, ◌⊎◌, ◌++◌, ◌∷◌, [], slice_get, length, OnOk, OnErr};
ghost use Rattle.c_stepper.specs.Spots.{list_in, branch_of, after_of, todo_of};

use c_tree::statement::{CStatement, CStatementNode};
use label_ways::{Level, Way};
use std::alloc::{AllocError, Global};

/// The list of a branch, and nothing of a statement without one.
#[tactic(auto, using(crate::proofs::Todo::branch_list))]
pub fn branch(statement: &CStatement, second: bool) -> &[CStatement]
    ensures { result.now ≡ branch_of second statement.now }
{
    match &statement.node {
        CStatementNode::If(_, body) => { if second { &[] } else { body.as_slice() } }
        CStatementNode::While(_, body) => { if second { &[] } else { body.as_slice() } }
        CStatementNode::IfElse(_, body, other) => {
            if second {
                other.as_slice()
            } else {
                body.as_slice()
            }
        }
        _ => &[],
    }
}

/// The innermost list.
pub fn list_at<'a>(body: &'a [CStatement], outer: &[Level]) -> &'a [CStatement]
    ensures { result.now ≡ list_in body.now outer.now }
{
    let mut list = body;
    for level in outer {
        list = match at(list, level.at) {
            Some(statement) => branch(statement, level.second),
            None => &[],
        };
    }
    list
}

/// Where the list goes on after a statement: a loop's test comes again.
fn after(list: &[CStatement], i: usize) -> usize
    ensures { result ≡ after_of i (slice_get list.now i) }
{
    match at(list, i) {
        Some(s) => match &s.node {
            CStatementNode::While(_, _) => i,
            _ => i + 1,
        },
        None => i,
    }
}

/// A place in a function's body.
#[derive(Drop)]
pub struct Spot {
    pub outer: Vec<Level>,
    pub at: usize,
}

impl Spot {
    /// The first statement.
    pub fn start(alloc: Global) -> Spot
        ensures { (result.outer.items ≡ []) × (result.at ≡ 0) }
    {
        Spot {
            outer: Vec::new(alloc),
            at: 0,
        }
    }

    /// Leaves each list that is done, and gives the list in which it stands.
    #[tactic(auto, using(crate::proofs::Todo::todo_done))]
    pub fn settle<'b>(&mut self, body: &'b [CStatement]) -> &'b [CStatement]
        ensures list { result.now ≡ list_in body.now self.new.outer.items }
        ensures same { todo_of body.now self.new ≡ todo_of body.now self.old }
        ensures settled { self.new.at < length (list_in body.now self.new.outer.items) ⊎ (self.new.outer.items ≡ []) }
    {
        let mut list = list_at(body, self.outer.as_slice());
        while self.at >= list.len() {
            match self.outer.pop() {
                None => return list,
                Some(level) => {
                    list = list_at(body, self.outer.as_slice());
                    self.at = after(list, level.at);
                }
            }
        }
        list
    }

    /// Goes to the end of a way.
    pub fn follow(&mut self, way: &Way) -> Result<(), AllocError>
        ensures { OnOk result ((self.new.outer.items ≡ way.now.outer.items) × (self.new.at ≡ way.now.at)) }
    {
        self.outer.clear();
        self.outer.extend_from_slice(way.outer.as_slice())?;
        self.at = way.at;
        Ok(())
    }

    /// Goes into a branch of the statement that comes next.
    pub fn enter(&mut self, second: bool) -> Result<(), AllocError>
        ensures entered { OnOk result ((self.new.outer.items ≡ self.old.outer.items ++ record { at = self.old.at; second = second } ∷ []) × (self.new.at ≡ 0)) }
        ensures stays { OnErr result ((self.new.outer.items ≡ self.old.outer.items) × (self.new.at ≡ self.old.at)) }
    {
        self.outer.push(Level {
            at: self.at,
            second,
        })?;
        self.at = 0;
        Ok(())
    }
}

/// The statement at a place of a list.
pub fn at(list: &[CStatement], place: usize) -> Option<&CStatement>
    ensures value { option_copied result ≡ slice_get list.now place }
    ensures within { IfSome result (λ _. place < length list.now) }
{
    list.get(place)
}
