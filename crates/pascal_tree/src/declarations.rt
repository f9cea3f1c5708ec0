//! Declarations and blocks.

use crate::{Constant, Expr, Identifier, Identifiers, Labels, Stmts, TypeName, TypeNode};
use p2c_text::Span;
use tree_lists::{Boxed, Items};

#[derive(Drop)]
pub struct LabelPart {
    pub labels: Labels,
    pub span: Span,
}

/// The value of a constant: in Iso and UCSD a constant, in Turbo and HP an expression.
#[derive(Drop)]
pub enum Value {
    Constant(Constant),
    Expression(Expr),
}

#[derive(Drop)]
pub struct ConstDefinition {
    pub name: Identifier,
    pub value: Value,
    pub span: Span,
}

pub type ConstDefinitions = Items<ConstDefinition>;

#[derive(Drop)]
pub struct ConstPart {
    pub definitions: ConstDefinitions,
    pub span: Span,
}

#[derive(Drop)]
pub struct TypeDefinition {
    pub name: Identifier,
    pub of: TypeNode,
    pub span: Span,
}

pub type TypeDefinitions = Items<TypeDefinition>;

#[derive(Drop)]
pub struct TypePart {
    pub definitions: TypeDefinitions,
    pub span: Span,
}

/// Variables of one type.
#[derive(Drop)]
pub struct VarSection {
    pub names: Identifiers,
    pub of: TypeNode,
    pub span: Span,
}

pub type VarSections = Items<VarSection>;

#[derive(Drop)]
pub struct VarPart {
    pub sections: VarSections,
    pub span: Span,
}

/// Formal parameters in parentheses.
#[cycle(formals)]
#[derive(Drop)]
pub struct Formals {
    pub list: FormalList,
    pub span: Span,
}

#[cycle(formals)]
#[derive(Drop)]
pub enum Formal {
    /// With `var` they are variable parameters.
    Variables {
        by_reference: bool,
        names: Identifiers,
        of: TypeName,
        span: Span,
    },
    Procedure {
        name: Identifier,
        formals: Option<Boxed<Formals>>,
        span: Span,
    },
    Function {
        name: Identifier,
        formals: Option<Boxed<Formals>>,
        result: TypeName,
        span: Span,
    },
}

pub type FormalList = Items<Formal>;

/// The second heading of a function that was announced has no result.
#[derive(Drop)]
pub enum Heading {
    Procedure {
        name: Identifier,
        formals: Option<Formals>,
        span: Span,
    },
    Function {
        name: Identifier,
        formals: Option<Formals>,
        result: Option<TypeName>,
        span: Span,
    },
}

/// A block, or a directive such as `forward`.
#[cycle(blocks)]
#[derive(Drop)]
pub enum RoutineBody {
    Block(Boxed<Block>),
    Directive(Identifier),
}

#[cycle(blocks)]
#[derive(Drop)]
pub struct Routine {
    pub heading: Heading,
    pub body: RoutineBody,
    pub span: Span,
}

#[cycle(blocks)]
#[derive(Drop)]
pub enum Declaration {
    Labels(LabelPart),
    Constants(ConstPart),
    Types(TypePart),
    Variables(VarPart),
    Routine(Routine),
}

pub type Declarations = Items<Declaration>;

#[cycle(blocks)]
#[derive(Drop)]
pub struct Block {
    pub declarations: Declarations,
    pub body: Stmts,
    pub span: Span,
}
