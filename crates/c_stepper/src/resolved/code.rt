//! Resolved statements.
ghost use Rattle.std.specs.Prelude.{◌≡◌};

use c_evaluation::numbers::{Number, Variable};

/// A call of a function whose parameters are of `int64_t`.
#[derive(Drop)]
pub struct ResolvedCall {
    /// The number of the function.
    pub function: usize,
    /// The variable for its answer.
    pub target: Option<Variable>,
    pub arguments: Vec<Number>,
}

/// What a statement does, where numbers and variables of `int64_t` say it.
#[derive(Drop)]
pub enum Resolved {
    /// `variable = number;`
    Store(Variable, Number),
    /// The test of a `while`, or of an `if` without `else`.
    Test(Number),
    /// The test of an `if` with `else`.
    Choose(Number),
    Call(ResolvedCall),
    /// `return number;`
    Give(Number),
    /// Any other statement.
    Other,
}

/// Nodes that stand side by side: those of a list of statements.
#[derive(Clone, Copy)]
pub struct Row {
    pub start: usize,
    pub count: usize,
}

impl Row {
    /// That of no statements.
    pub fn empty() -> Row
        ensures { result.count ≡ 0 }
    {
        Row { start: 0, count: 0 }
    }
}

/// A statement, with the rows of its branches.
#[derive(Drop)]
pub struct Node {
    pub resolved: Resolved,
    /// Whether it comes again when its branch is done, as a loop does.
    pub again: bool,
    pub first: Row,
    pub second: Row,
}

/// The statements of a function's text, with the row of its body.
#[derive(Drop)]
pub struct Code {
    pub nodes: Vec<Node>,
    pub row: Row,
}
