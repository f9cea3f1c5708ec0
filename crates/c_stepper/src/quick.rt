//! Steps that reckon with numbers alone, one after another.
ghost use Rattle.std.specs.Prelude.{◌≡◌, ◌+◌, ◌<◌, ◌≤◌, ◌^◌, ◌++◌, ◌∷◌, [], true, false, Some, None, IfSome, MatchOption, slice_get, if◌then◌else◌};
ghost use Rattle.std.specs.Option.{option_copied};
ghost use Rattle.c_stepper.specs.Quick.{code_at, IsCodeOf, IsRowAt, IsNodeAt, IsHere, NextAt, Leaves, SameTodo, GoesOn, Entering, StoreTakes, TestTakes, ChoiceTakes, Moves, Does, Turns, QuickSteps};
ghost use Rattle.c_stepper.specs.declared.guide.Guide.{Guide};

use crate::guide::Guide;
use crate::resolved::{Code, Node, ProgramCode, Resolved, Row};
use crate::runner::Frame;
use crate::spot::Spot;
use c_cells::memory::Memory;
use c_evaluation::numbers::{Number, Variable, put_number, tested};
use label_ways::Level;

// ---- the code of a statement

/// The code of the function with a number.
fn code_in(codes: &[Code], number: usize) -> Option<&Code>
    ensures { option_copied result ≡ slice_get codes.now number }
{
    codes.get(number)
}

/// The code of the function with a number, or of `main`.
fn code_of(code: &ProgramCode, function: Option<usize>) -> Option<&Code>
    ensures code { IfSome result (λ found. IsCodeOf code.now function found.now) }
    ensures same { option_copied result ≡ code_at code.now function }
{
    match function {
        None => Some(&code.main),
        Some(number) => code_in(&code.functions, number),
    }
}

/// The row of a branch.
fn branch_row(node: &Node, second: bool) -> Row
    ensures { result ≡ (if second then node.now.second else node.now.first) }
{
    if second { node.second } else { node.first }
}

/// Where the node at a place of a row stands.
fn place_in(row: Row, place: usize) -> Option<usize>
    ensures at { IfSome result (λ at. at ≡ row.start + place) }
    ensures within { IfSome result (λ _. place < row.count) }
    ensures small { IfSome result (λ _. place + 1 < 2 ^ 64) }
{
    if place < row.count {
        row.start.checked_add(place)
    } else {
        None
    }
}

/// The node that stands at a place.
fn node_of(nodes: &[Node], at: usize) -> Option<&Node>
    ensures { option_copied result ≡ slice_get nodes.now at }
{
    nodes.get(at)
}

/// The node at a place of a row.
fn node_in(nodes: &[Node], row: Row, place: usize) -> Option<&Node>
    ensures node { IfSome result (λ node. slice_get nodes.now (row.start + place) ≡ Some node.now) }
    ensures within { IfSome result (λ _. place < row.count) }
{
    match place_in(row, place) {
        Some(at) => nodes.get(at),
        None => None,
    }
}

/// The row of the innermost list.
fn row_at(code: &Code, outer: &[Level]) -> Option<Row>
    ensures { IfSome result (λ row. IsRowAt code.now outer.now row) }
{
    let nodes = code.nodes.as_slice();
    let mut row = code.row;
    let mut rest = outer;
    while let Some((level, after)) = rest.split_first() {
        let Some(node) = node_in(nodes, row, level.at) else {
            return None;
        };
        row = branch_row(node, level.second);
        rest = after;
    }
    Some(row)
}

/// The node of the statement at a place of the innermost list, where there is one.
fn node_at<'a>(code: &'a Code, outer: &[Level], at: usize) -> Option<&'a Node>
    ensures node { IfSome result (λ node. IsNodeAt code.now outer.now at node.now) }
    ensures small { IfSome result (λ _. at + 1 < 2 ^ 64) }
{
    match row_at(code, outer) {
        Some(row) => node_in(code.nodes.as_slice(), row, at),
        None => None,
    }
}

/// The node of the statement that comes next, by where it stands.
pub fn node_here<'a>(guide: &'a Guide, frame: &Frame, here: usize) -> Option<&'a Node>
    requires { NextAt guide.now frame.now here }
    ensures { IfSome result (λ node. IsHere guide.now frame.now node.now) }
{
    match code_of(&guide.code, frame.function) {
        Some(code) => node_of(&code.nodes, here),
        None => None,
    }
}

// ---- lists that are done

/// Where the list goes on after a statement.
fn after(node: &Node, at: usize) -> usize
    requires { at + 1 < 2 ^ 64 }
    ensures { result ≡ (if node.now.again then at else at + 1) }
{
    if node.again { at } else { at + 1 }
}

/// Takes the level that was added last.
fn last_level(outer: &mut Vec<Level>) -> Option<Level>
    ensures { MatchOption result ((outer.old.items ≡ []) × (outer.new.items ≡ [])) (λ last. outer.old.items ≡ outer.new.items ++ last ∷ []) }
{
    outer.pop()
}

/// Where the list around the innermost one goes on after it.
fn place_after(code: &Code, outer: &[Level]) -> Option<usize>
    ensures { IfSome result (λ at. Leaves code.now outer.now at) }
{
    match outer.split_last() {
        Some((level, above)) => match node_at(code, above, level.at) {
            Some(node) => Some(after(node, level.at)),
            None => None,
        },
        None => None,
    }
}

/// Leaves each list that is done, and gives the row of the list in which a statement comes next.
fn settled(code: &Code, spot: &mut Spot) -> Option<Row>
    ensures row { IfSome result (λ row. IsRowAt code.now spot.new.outer.items row) }
    ensures within { IfSome result (λ row. spot.new.at < row.count) }
    ensures todo { SameTodo code.now spot.old spot.new }
{
    while let Some(row) = row_at(code, spot.outer.as_slice()) {
        if spot.at < row.count {
            return Some(row);
        }
        let Some(at) = place_after(code, spot.outer.as_slice()) else {
            return None;
        };
        let Some(_) = last_level(&mut spot.outer) else {
            return None;
        };
        spot.at = at;
    }
    None
}

/// The row of the list in which a statement comes next, where this is that of the innermost list
/// or none.
fn row_here(code: &Code, spot: &mut Spot, row: Row) -> Option<Row>
    requires { 0 < row.count → IsRowAt code.now spot.old.outer.items row }
    ensures row { IfSome result (λ found. IsRowAt code.now spot.new.outer.items found) }
    ensures within { IfSome result (λ found. spot.new.at < found.count) }
    ensures todo { SameTodo code.now spot.old spot.new }
{
    if spot.at < row.count {
        Some(row)
    } else {
        settled(code, spot)
    }
}

// ---- steps

/// What became of a statement.
#[derive(Clone, Copy)]
pub enum Course {
    /// It is not done so, and the function stands where it stood.
    Stopped,
    /// The function goes on behind it.
    On,
    /// The function goes on in a branch of it.
    Into(bool),
}

/// `variable = number;`
fn store(frame: &mut Frame, memory: &mut Memory, variable: Variable, number: &Number) -> Course
    requires small { frame.old.spot.at + 1 < 2 ^ 64 }
    ensures { StoreTakes memory.old memory.new variable number.now frame.old frame.new result }
{
    if put_number(memory, frame.base, variable, number) {
        frame.spot.at += 1;
        Course::On
    } else {
        Course::Stopped
    }
}

/// Goes into a branch of the statement that comes next.
fn enter(frame: &mut Frame, second: bool) -> Course
    ensures { Entering second frame.old frame.new result }
{
    match frame.spot.enter(second) {
        Ok(()) => Course::Into(second),
        Err(_) => Course::Stopped,
    }
}

/// Goes on behind the statement that comes next.
fn go_on(frame: &mut Frame) -> Course
    requires small { frame.old.spot.at + 1 < 2 ^ 64 }
    ensures { (result ≡ Course.On) × GoesOn frame.old frame.new }
{
    frame.spot.at += 1;
    Course::On
}

/// The test of a `while`, or of an `if` without `else`.
#[tactic(auto, using(crate::proofs::Quickly::test_enters))]
fn test(frame: &mut Frame, memory: &Memory, number: &Number) -> Course
    requires small { frame.old.spot.at + 1 < 2 ^ 64 }
    ensures { TestTakes memory.now number.now frame.old frame.new result }
{
    match tested(memory, frame.base, number) {
        None => Course::Stopped,
        Some(true) => enter(frame, false),
        Some(false) => go_on(frame),
    }
}

/// The test of an `if` with `else`.
#[tactic(auto, using(crate::proofs::Quickly::choice_enters))]
fn choose(frame: &mut Frame, memory: &Memory, number: &Number) -> Course
    ensures { ChoiceTakes memory.now number.now frame.old frame.new result }
{
    match tested(memory, frame.base, number) {
        None => Course::Stopped,
        Some(first) => enter(frame, !first),
    }
}

/// The statement of a node, which comes next.
fn act(frame: &mut Frame, memory: &mut Memory, node: &Node) -> Course
    requires small { frame.old.spot.at + 1 < 2 ^ 64 }
    ensures does { (guide : Guide) → IsHere guide frame.old node.now → Does guide frame.old frame.new memory.old memory.new result }
    ensures moves { Moves frame.old frame.new result }
{
    match &node.resolved {
        Resolved::Store(variable, number) => store(frame, memory, *variable, number),
        Resolved::Test(number) => test(frame, memory, number),
        Resolved::Choose(number) => choose(frame, memory, number),
        _ => Course::Stopped,
    }
}

/// The statement that comes next, where its list has this row. The answer is the row of the list in
/// which the function goes on. Where it is not done so, nothing changes.
fn turn(code: &Code, row: Row, frame: &mut Frame, memory: &mut Memory) -> Option<Row>
    requires { IsRowAt code.now frame.old.spot.outer.items row }
    ensures turns { (guide : Guide) → IsCodeOf guide.code frame.old.function code.now → Turns guide frame.old frame.new memory.old memory.new result }
    ensures row { IfSome result (λ next. IsRowAt code.now frame.new.spot.outer.items next) }
{
    let Some(node) = node_in(code.nodes.as_slice(), row, frame.spot.at) else {
        return None;
    };
    match act(frame, memory, node) {
        Course::Stopped => None,
        Course::On => Some(row),
        Course::Into(second) => Some(branch_row(node, second)),
    }
}

/// How many steps were taken, and where the node of the statement that comes next stands, where
/// that was found.
#[derive(Clone, Copy)]
pub struct Dashed {
    pub taken: u64,
    pub here: Option<usize>,
}

/// As many steps as `quick_steps`, by the code of the function that runs.
fn dash(code: &Code, frame: &mut Frame, memory: &mut Memory, most: u64) -> Dashed
    ensures steps { (guide : Guide) → IsCodeOf guide.code frame.old.function code.now → QuickSteps result.taken guide frame.old frame.new memory.old memory.new }
    ensures here { (guide : Guide) → code_at guide.code frame.old.function ≡ Some code.now → IfSome result.here (NextAt guide frame.new) }
    ensures most { result.taken ≤ most }
{
    let mut row = Row::empty();
    let mut taken = 0;
    while taken < most {
        let Some(here) = row_here(code, &mut frame.spot, row) else {
            return Dashed { taken, here: None };
        };
        let Some(next) = turn(code, here, frame, memory) else {
            let here = place_in(here, frame.spot.at);
            return Dashed { taken, here };
        };
        row = next;
        taken += 1;
    }
    Dashed { taken, here: None }
}

/// Steps of which numbers alone say what they do, at most so many. Where they are fewer, the next
/// statement wants more than that, or there is none.
pub fn quick_steps(frame: &mut Frame, memory: &mut Memory, guide: &Guide, most: u64) -> Dashed
    ensures steps { QuickSteps result.taken guide.now frame.old frame.new memory.old memory.new }
    ensures here { IfSome result.here (NextAt guide.now frame.new) }
    ensures most { result.taken ≤ most }
{
    match code_of(&guide.code, frame.function) {
        Some(code) => dash(code, frame, memory, most),
        None => Dashed {
            taken: 0,
            here: None,
        },
    }
}
