//! Statements.

use crate::{
    Callee, DeclId, LabelRanges, Place, PredefCall, TypeId, TypedArgs, TypedExpr, VarDecl,
};
use tree_lists::{Boxed, Items};

/// An arm of a `case`.
#[cycle(statements)]
#[derive(Drop)]
pub struct TypedArm {
    pub labels: LabelRanges,
    pub body: TypedStmt,
}

pub type TypedArms = Items<TypedArm>;

/// A record that a `with` opens, by the reference that it makes.
#[derive(Drop)]
pub struct WithPart {
    pub decl: DeclId,
    pub place: Place,
}

pub type WithParts = Items<WithPart>;

/// `of` in an `Assign` is the target's type.
#[cycle(statements)]
#[derive(Drop)]
pub enum TypedStmt {
    Empty,
    Assign {
        target: Place,
        value: TypedExpr,
        of: TypeId,
    },
    Call {
        callee: Callee,
        args: TypedArgs,
    },
    Predefined {
        call: PredefCall,
        args: TypedArgs,
    },
    Goto(DeclId),
    Seq(TypedStmts),
    If {
        condition: TypedExpr,
        yes: Boxed<TypedStmt>,
        no: Option<Boxed<TypedStmt>>,
    },
    Case {
        selector: TypedExpr,
        arms: TypedArms,
        rest: Option<Boxed<TypedStmt>>,
    },
    While {
        condition: TypedExpr,
        body: Boxed<TypedStmt>,
    },
    Repeat {
        body: TypedStmts,
        until: TypedExpr,
    },
    For {
        variable: VarDecl,
        first: TypedExpr,
        down: bool,
        last: TypedExpr,
        body: Boxed<TypedStmt>,
    },
    With {
        parts: WithParts,
        body: Boxed<TypedStmt>,
    },
    Try {
        body: TypedStmts,
        recover: Boxed<TypedStmt>,
    },
    Labelled {
        label: DeclId,
        body: Boxed<TypedStmt>,
    },
}

pub type TypedStmts = Items<TypedStmt>;
