//! Types of Pascal.

use crate::{DeclId, TypeId};
use p2c_text::{Dialect, Name};
use tree_lists::{Boxed, Items};

/// The types of a program, and the dialect that decides their meaning.
#[derive(Drop)]
pub struct Types {
    pub dialect: Dialect,
    pub list: PasTypes,
}

/// The type of which an ordinal type is a range. An enumeration is the place of its own type.
#[derive(Clone, Copy)]
pub enum Host {
    Whole,
    Char,
    Bool,
    Enumeration(TypeId),
}

/// Whether a set type is packed; a set constructor is either.
#[derive(Clone, Copy)]
pub enum Packing {
    Packed,
    Unpacked,
    Either,
}

#[derive(Drop)]
pub enum PasType {
    Ordinal {
        host: Host,
        first: i64,
        last: i64,
    },
    Pointer {
        domain: TypeId,
    },
    /// The type of `nil`.
    NilType,
    Array {
        packed: bool,
        index: TypeId,
        component: TypeId,
    },
    /// The type of a literal text that is no `char`.
    Literal {
        length: u32,
    },
    DynString {
        limit: u8,
    },
    /// The type of a text that an operator or a call makes.
    TextValue,
    RecordOf {
        packed: bool,
        fields: FieldDecls,
        variants: Option<Boxed<VariantPart>>,
    },
    /// The empty set has no base.
    SetOf {
        packing: Packing,
        base: Option<TypeId>,
    },
}

pub type PasTypes = Items<PasType>;

#[derive(Drop)]
pub struct FieldDecl {
    pub name: Name,
    pub decl: DeclId,
    pub of: TypeId,
}

pub type FieldDecls = Items<FieldDecl>;

/// The variants of a record. Without a name the tag is hidden.
#[cycle(variants)]
#[derive(Drop)]
pub struct VariantPart {
    pub tag: DeclId,
    pub name: Option<Name>,
    pub of: TypeId,
    pub arms: VariantArms,
}

#[cycle(variants)]
#[derive(Drop)]
pub struct VariantArm {
    pub labels: LabelRanges,
    pub fields: FieldDecls,
    pub variants: Option<Boxed<VariantPart>>,
}

pub type VariantArms = Items<VariantArm>;

/// The values from the first to the last.
#[derive(Clone, Copy)]
pub struct LabelRange {
    pub first: i64,
    pub last: i64,
}

pub type LabelRanges = Items<LabelRange>;
