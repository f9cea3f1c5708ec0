//! Places and expressions.

use crate::{Identifier, Sign, TextBytes};
use p2c_text::Span;
use tree_lists::{Boxed, Items};

#[derive(Clone, Copy)]
pub enum Relation {
    Equal,
    NotEqual,
    Less,
    Greater,
    AtMost,
    AtLeast,
    In,
}

#[derive(Clone, Copy)]
pub enum Adding {
    Add,
    Subtract,
    Or,
    /// In Turbo.
    Xor,
}

#[derive(Clone, Copy)]
pub enum Multiplying {
    Multiply,
    /// `/`
    Divide,
    Div,
    Mod,
    And,
    /// In Turbo.
    Shl,
    /// In Turbo.
    Shr,
}

#[cycle(expressions)]
#[derive(Drop)]
pub struct Expr {
    pub left: Simple,
    pub right: Option<Boxed<(Relation, Simple)>>,
    pub span: Span,
}

pub type Exprs = Items<Expr>;

/// A sum. The sign stands before its first term alone.
#[cycle(expressions)]
#[derive(Drop)]
pub struct Simple {
    pub sign: Option<Sign>,
    pub first: Term,
    pub rest: AddedTerms,
    pub span: Span,
}

#[cycle(expressions)]
#[derive(Drop)]
pub struct AddedTerm {
    pub operator: Adding,
    pub term: Term,
}

pub type AddedTerms = Items<AddedTerm>;

#[cycle(expressions)]
#[derive(Drop)]
pub struct Term {
    pub first: Factor,
    pub rest: MultipliedFactors,
    pub span: Span,
}

#[cycle(expressions)]
#[derive(Drop)]
pub struct MultipliedFactor {
    pub operator: Multiplying,
    pub factor: Factor,
}

pub type MultipliedFactors = Items<MultipliedFactor>;

#[cycle(expressions)]
#[derive(Drop)]
pub enum Factor {
    Number {
        value: i64,
        span: Span,
    },
    Text {
        bytes: TextBytes,
        span: Span,
    },
    Nil(Span),
    Place(Place),
    Call {
        name: Identifier,
        args: Args,
        span: Span,
    },
    Group {
        inner: Boxed<Expr>,
        span: Span,
    },
    Not {
        operand: Boxed<Factor>,
        span: Span,
    },
    Set {
        elements: Elems,
        span: Span,
    },
}

/// An element of a set constructor: a member, or the members from the first to the last.
#[cycle(expressions)]
#[derive(Drop)]
pub struct Elem {
    pub first: Expr,
    pub last: Option<Boxed<Expr>>,
    pub span: Span,
}

pub type Elems = Items<Elem>;

#[cycle(expressions)]
#[derive(Drop)]
pub struct Place {
    pub name: Identifier,
    pub selectors: Selectors,
    pub span: Span,
}

pub type Places = Items<Place>;

#[cycle(expressions)]
#[derive(Drop)]
pub enum Selector {
    Index { indexes: Exprs, span: Span },
    Field { name: Identifier, span: Span },
    Follow(Span),
}

pub type Selectors = Items<Selector>;

/// Arguments in parentheses.
#[cycle(expressions)]
#[derive(Drop)]
pub struct Args {
    pub list: ArgList,
    pub span: Span,
}

/// An argument, which may have a width and a number of decimals. In UCSD it may be `program`.
#[cycle(expressions)]
#[derive(Drop)]
pub enum Arg {
    Value {
        value: Expr,
        width: Option<Boxed<Expr>>,
        decimals: Option<Boxed<Expr>>,
        span: Span,
    },
    Program(Span),
}

pub type ArgList = Items<Arg>;
