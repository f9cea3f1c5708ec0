//! The trees of Pascal texts: one type for each production of the grammar, one variant for each
//! alternative.
//!
//! All fields are public. A collection is seen as the list of its items, a box as what it holds. A
//! node's span goes from its first token to its last; a node without tokens has the empty span at
//! the start of the token after it, or at the end of the text. Where a node is one part alone, as a
//! declaration that is a part with labels, its span is that of the part. What a dialect lacks
//! stands in no tree of it.
#![tactic(auto)]

mod constants;
mod declarations;
mod expressions;
mod files;
mod heights;
mod names;
mod statements;
mod types;

pub use constants::{CaseLabel, CaseLabels, Constant, Sign, TextBytes};
pub use declarations::{
    Block, ConstDefinition, ConstDefinitions, ConstPart, Declaration, Declarations, Formal,
    FormalList, Formals, Heading, LabelPart, Routine, RoutineBody, TypeDefinition, TypeDefinitions,
    TypePart, Value, VarPart, VarSection, VarSections,
};
pub use expressions::{
    AddedTerm, AddedTerms, Adding, Arg, ArgList, Args, Elem, Elems, Expr, Exprs, Factor,
    MultipliedFactor, MultipliedFactors, Multiplying, Place, Places, Relation, Selector, Selectors,
    Simple, Term,
};
pub use files::{Head, Module, Program, Public, Publics, SourceFile, UnitNode, Uses};
pub use heights::height;
pub use names::{Identifier, Identifiers, Label, Labels};
pub use statements::{Arm, Arms, Direction, Plain, Rest, Stmt, Stmts};
pub use types::{
    Fields, Fixed, FixedSection, FixedSections, Struct, TypeName, TypeNode, TypeNodes, Variant,
    VariantList, Variants,
};
