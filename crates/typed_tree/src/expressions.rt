//! Places and expressions.

use crate::{BinaryOp, Callee, DeclId, PredefCall, TypeId, UnaryOp};
use tree_lists::{Boxed, Items};

/// The bytes of a text.
pub type TextBytes = Items<u8>;

/// What a place begins with: a variable, a `with` reference, a function's result, or `input`.
#[derive(Clone, Copy)]
pub enum Root {
    Variable { decl: DeclId, of: TypeId },
    WithRef { decl: DeclId, of: TypeId },
    Outcome { decl: DeclId, of: TypeId },
    Input,
}

/// An index, a field or `^`. `of` is the type after it.
#[cycle(expressions)]
#[derive(Drop)]
pub enum Selector {
    Index {
        index: TypedExpr,
        array: TypeId,
        of: TypeId,
    },
    Field {
        field: DeclId,
        of: TypeId,
    },
    Follow {
        of: TypeId,
    },
}

pub type Selectors = Items<Selector>;

#[cycle(expressions)]
#[derive(Drop)]
pub struct Place {
    pub root: Root,
    pub selectors: Selectors,
}

/// An operator and its right operand. `of` is the type after it.
#[cycle(expressions)]
#[derive(Drop)]
pub struct BinaryPart {
    pub op: BinaryOp,
    pub operand: TypedExpr,
    pub of: TypeId,
}

pub type BinaryParts = Items<BinaryPart>;

/// A member of a set constructor, or the members from the first to the last.
#[cycle(expressions)]
#[derive(Drop)]
pub struct SetElem {
    pub first: TypedExpr,
    pub last: Option<TypedExpr>,
}

pub type SetElems = Items<SetElem>;

/// `target` is the type of the parameter; of a predefined call it is the value's own type.
#[cycle(expressions)]
#[derive(Drop)]
pub enum TypedArg {
    Value {
        value: TypedExpr,
        target: TypeId,
    },
    Reference(Place),
    RoutineValue(Callee),
    Written {
        value: TypedExpr,
        width: Option<TypedExpr>,
    },
}

pub type TypedArgs = Items<TypedArg>;

/// A literal of one character is a `Number` of type `char`.
#[cycle(expressions)]
#[derive(Drop)]
pub enum TypedExpr {
    Number {
        value: i64,
        of: TypeId,
    },
    TextConst {
        bytes: TextBytes,
        of: TypeId,
    },
    Nil,
    Read(Place),
    Call {
        callee: Callee,
        args: TypedArgs,
        of: TypeId,
    },
    Unary {
        op: UnaryOp,
        operand: Boxed<TypedExpr>,
        of: TypeId,
    },
    /// The operators are taken from left to right.
    Binary {
        first: Boxed<TypedExpr>,
        rest: BinaryParts,
    },
    SetOf {
        elements: SetElems,
        of: TypeId,
    },
    Predefined {
        call: PredefCall,
        args: TypedArgs,
        of: TypeId,
    },
}
