//! The typed program: every name resolved to a number, every expression with its type.
//!
//! All fields are public. A collection is seen as the list of its items, a box as what it holds, and
//! names and texts as lists of bytes. A type is a place in the list of `Types`.
#![tactic(auto)]

mod declarations;
mod expressions;
mod operations;
mod statements;
mod types;

pub use declarations::{
    Bodies, Body, Callee, DeclIds, FormalKind, FormalSection, FormalSections, Owner, Routine,
    Routines, Typed, VarDecl, VarDecls,
};
pub use expressions::{
    BinaryPart, BinaryParts, Place, Root, Selector, Selectors, SetElem, SetElems, TextBytes,
    TypedArg, TypedArgs, TypedExpr,
};
pub use operations::{BinaryOp, PredefCall, UnaryOp};
pub use statements::{TypedArm, TypedArms, TypedStmt, TypedStmts, WithPart, WithParts};
pub use types::{
    FieldDecl, FieldDecls, Host, LabelRange, LabelRanges, Packing, PasType, PasTypes, Types,
    VariantArm, VariantArms, VariantPart,
};

/// A place in the list of `Types`.
pub type TypeId = usize;

/// The number of a routine, from 1 on in the order of first headings.
pub type RoutineId = u64;

/// The number of a definition, a function's result, a label or a `with` reference.
pub type DeclId = u64;
