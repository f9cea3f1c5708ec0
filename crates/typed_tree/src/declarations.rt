//! Routines and whole programs.

use crate::{DeclId, RoutineId, TypeId, TypedStmt, Types};
use p2c_text::Name;
use tree_lists::Items;

pub type DeclIds = Items<DeclId>;

/// Whose activation is meant: the program's, that of a unit by its place, or a routine's.
#[derive(Clone, Copy)]
pub enum Owner {
    Program,
    UnitPart(usize),
    Routine(RoutineId),
}

/// What is called: a routine, or a procedural parameter.
#[derive(Clone, Copy)]
pub enum Callee {
    Routine(RoutineId),
    Formal(DeclId),
}

#[cycle(formals)]
#[derive(Drop)]
pub enum FormalKind {
    Value(TypeId),
    Variable(TypeId),
    Procedural {
        sections: FormalSections,
        result: Option<TypeId>,
    },
}

/// The parameters of one section, which have one kind.
#[cycle(formals)]
#[derive(Drop)]
pub struct FormalSection {
    pub decls: DeclIds,
    pub kind: FormalKind,
}

pub type FormalSections = Items<FormalSection>;

#[derive(Clone, Copy)]
pub struct VarDecl {
    pub decl: DeclId,
    pub of: TypeId,
}

pub type VarDecls = Items<VarDecl>;

#[derive(Drop)]
pub struct Routine {
    pub name: Name,
    pub number: RoutineId,
    /// The block around it.
    pub parent: Owner,
    pub formals: FormalSections,
    pub result: Option<VarDecl>,
    pub locals: VarDecls,
    pub labels: DeclIds,
    pub body: TypedStmt,
}

pub type Routines = Items<Routine>;

/// The program's block, or the initial part of a unit.
#[derive(Drop)]
pub struct Body {
    pub locals: VarDecls,
    pub labels: DeclIds,
    pub body: TypedStmt,
}

pub type Bodies = Items<Body>;

/// A typed program, with the units in the order in which they begin.
#[derive(Drop)]
pub struct Typed {
    pub types: Types,
    pub routines: Routines,
    pub units: Bodies,
    pub main: Body,
}
