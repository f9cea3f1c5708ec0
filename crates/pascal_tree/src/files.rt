//! Whole texts.

use crate::{
    Block, ConstPart, Declarations, Heading, Identifier, Identifiers, Stmts, TypePart, VarPart,
};
use p2c_text::Span;
use tree_lists::Items;

/// A program, a unit of Turbo or UCSD, or a module of HP.
#[derive(Drop)]
pub enum SourceFile {
    Program(Program),
    UnitText(UnitNode),
    Module(Module),
}

#[derive(Drop)]
pub struct Head {
    pub name: Identifier,
    pub parameters: Option<Identifiers>,
    pub span: Span,
}

/// The names of units after `uses`, or in HP after `import`.
#[derive(Drop)]
pub struct Uses {
    pub names: Identifiers,
    pub span: Span,
}

/// In Turbo the head may be absent.
#[derive(Drop)]
pub struct Program {
    pub head: Option<Head>,
    pub uses: Option<Uses>,
    pub block: Block,
    pub span: Span,
}

/// What an interface declares; the heading with its semicolon.
#[derive(Drop)]
pub enum Public {
    Constants(ConstPart),
    Types(TypePart),
    Variables(VarPart),
    Heading { heading: Heading, span: Span },
}

pub type Publics = Items<Public>;

#[derive(Drop)]
pub struct UnitNode {
    pub name: Identifier,
    pub interface_uses: Option<Uses>,
    pub publics: Publics,
    pub implementation_uses: Option<Uses>,
    pub declarations: Declarations,
    pub initial: Option<Stmts>,
    pub span: Span,
}

/// The imports before `export` belong to the interface, those after `implement` to the
/// implementation.
#[derive(Drop)]
pub struct Module {
    pub name: Identifier,
    pub interface_uses: Option<Uses>,
    pub publics: Publics,
    pub implementation_uses: Option<Uses>,
    pub declarations: Declarations,
    pub span: Span,
}
