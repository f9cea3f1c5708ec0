//! Statements.

use crate::{Args, CaseLabels, Expr, Identifier, Label, Place, Places};
use p2c_text::Span;
use tree_lists::{Boxed, Items};

#[cycle(statements)]
#[derive(Drop)]
pub struct Stmt {
    pub label: Option<Label>,
    pub plain: Plain,
    pub span: Span,
}

/// Statements with semicolons between them.
pub type Stmts = Items<Stmt>;

#[derive(Clone, Copy)]
pub enum Direction {
    Up,
    Down,
}

/// A statement without its label.
#[cycle(statements)]
#[derive(Drop)]
pub enum Plain {
    Nothing(Span),
    Assign {
        target: Place,
        value: Boxed<Expr>,
        span: Span,
    },
    Call {
        name: Identifier,
        args: Option<Args>,
        span: Span,
    },
    Goto {
        label: Label,
        span: Span,
    },
    Compound {
        body: Stmts,
        span: Span,
    },
    If {
        condition: Boxed<Expr>,
        yes: Boxed<Stmt>,
        no: Option<Boxed<Stmt>>,
        span: Span,
    },
    Case {
        selector: Boxed<Expr>,
        arms: Arms,
        /// Whether a semicolon stands after the last arm.
        closed: bool,
        rest: Option<Rest>,
        span: Span,
    },
    While {
        condition: Boxed<Expr>,
        body: Boxed<Stmt>,
        span: Span,
    },
    Repeat {
        body: Stmts,
        until: Boxed<Expr>,
        span: Span,
    },
    For {
        variable: Identifier,
        first: Boxed<Expr>,
        direction: Direction,
        last: Boxed<Expr>,
        body: Boxed<Stmt>,
        span: Span,
    },
    With {
        places: Places,
        body: Boxed<Stmt>,
        span: Span,
    },
    /// In HP.
    Try {
        body: Stmts,
        recover: Boxed<Stmt>,
        span: Span,
    },
}

/// An arm of a `case`.
#[cycle(statements)]
#[derive(Drop)]
pub struct Arm {
    pub labels: CaseLabels,
    pub body: Stmt,
    pub span: Span,
}

pub type Arms = Items<Arm>;

/// What a `case` does without a matching label: `else` in Turbo, `otherwise` in HP.
#[cycle(statements)]
#[derive(Drop)]
pub struct Rest {
    pub body: Stmts,
    pub span: Span,
}
