//! Types.

use crate::{CaseLabels, Constant, Identifier, Identifiers};
use p2c_text::Span;
use tree_lists::{Boxed, Items};

/// The name of a type; `string` is a word, and none in Iso.
#[derive(Drop)]
pub enum TypeName {
    Name(Identifier),
    String(Span),
}

#[cycle(types)]
#[derive(Drop)]
pub enum TypeNode {
    Structured {
        packed: bool,
        of: Struct,
        span: Span,
    },
    Pointer {
        domain: Identifier,
        span: Span,
    },
    Enumeration {
        names: Identifiers,
        span: Span,
    },
    Subrange {
        first: Constant,
        last: Constant,
        span: Span,
    },
    Name(Identifier),
    /// `string` with or without a limit; there is none in Iso.
    String {
        limit: Option<Constant>,
        span: Span,
    },
}

pub type TypeNodes = Items<TypeNode>;

#[cycle(types)]
#[derive(Drop)]
pub enum Struct {
    Array {
        indexes: TypeNodes,
        component: Boxed<TypeNode>,
        span: Span,
    },
    Record {
        fields: Fields,
        span: Span,
    },
    Set {
        base: Boxed<TypeNode>,
        span: Span,
    },
    File {
        component: Boxed<TypeNode>,
        span: Span,
    },
}

/// The fields of a record or of a variant: the fixed part, and then the variants.
#[cycle(types)]
#[derive(Drop)]
pub struct Fields {
    pub fixed: Option<Fixed>,
    pub variants: Option<Boxed<Variants>>,
    /// Whether a semicolon stands before the end.
    pub closed: bool,
    pub span: Span,
}

#[cycle(types)]
#[derive(Drop)]
pub struct Fixed {
    pub sections: FixedSections,
    pub span: Span,
}

/// Fields of one type.
#[cycle(types)]
#[derive(Drop)]
pub struct FixedSection {
    pub names: Identifiers,
    pub of: TypeNode,
    pub span: Span,
}

pub type FixedSections = Items<FixedSection>;

/// Without a name the tag is hidden.
#[cycle(types)]
#[derive(Drop)]
pub struct Variants {
    pub tag: Option<Identifier>,
    pub of: TypeName,
    pub list: VariantList,
    pub span: Span,
}

#[cycle(types)]
#[derive(Drop)]
pub struct Variant {
    pub labels: CaseLabels,
    pub fields: Fields,
    pub span: Span,
}

pub type VariantList = Items<Variant>;
