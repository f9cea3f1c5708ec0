//! Declarations and programs. Where a result is `None`, the function gives nothing: `void`.

use crate::Name;
use crate::statement::CStatement;
use crate::types::CType;
use tree_lists::Items;

/// A global, a parameter or a local variable.
#[derive(Drop)]
pub struct CVariable {
    pub name: Name,
    pub of: CType,
}

/// A member of a struct. One with a length is an array of that many values of its type.
#[derive(Drop)]
pub struct CMember {
    pub name: Name,
    pub of: CType,
    pub length: Option<u64>,
}

#[derive(Drop)]
pub struct CStruct {
    pub name: Name,
    pub members: Items<CMember>,
}

/// A name for the type of pointers to functions: `typedef result (*name)(parameters);`.
#[derive(Drop)]
pub struct CTypedef {
    pub name: Name,
    pub result: Option<CType>,
    pub parameters: Items<CType>,
}

/// A declaration of a type.
#[derive(Drop)]
pub enum CDeclaration {
    Typedef(CTypedef),
    Struct(CStruct),
}

/// The line that announces a function.
#[derive(Drop)]
pub struct CPrototype {
    pub name: Name,
    pub result: Option<CType>,
    pub parameters: Items<CVariable>,
}

#[derive(Drop)]
pub struct CFunction {
    pub name: Name,
    pub result: Option<CType>,
    pub parameters: Items<CVariable>,
    pub locals: Items<CVariable>,
    pub body: Items<CStatement>,
}

/// The function `main`.
#[derive(Drop)]
pub struct CMain {
    pub locals: Items<CVariable>,
    pub body: Items<CStatement>,
}

/// A whole text, in the order of its parts. `forwards` has the names of the lines `struct name;`.
#[derive(Drop)]
pub struct CProgram {
    pub forwards: Items<Name>,
    pub declarations: Items<CDeclaration>,
    pub globals: CGlobals,
    pub prototypes: Items<CPrototype>,
    pub functions: Items<CFunction>,
    pub main: CMain,
}

pub type CStructs = Items<CStruct>;

pub type CGlobals = Items<CVariable>;
