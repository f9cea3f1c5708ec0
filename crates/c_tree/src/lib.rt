//! The trees of the C subset: one variant for each alternative of its grammar.
//!
//! Contracts see a tree as plain data. A `CType`, a `CPlace`, a `CExpr` and a `CStatement` are
//! values of the data types of `specs/Tree.antt`, with one constructor for each alternative, as
//! `Binary Add left right`. A definition of another crate imports these with
//! `use Rattle.c_tree.specs.Tree.{Expr, Binary, ..}` and goes by cases. What only holds trees, as a
//! `CFunction` or a `CProgram`, is a record of its fields: such a definition imports it with
//! `use Rattle.c_tree.specs.declared.program.CFunction.{CFunction}`, and reads `f.name`, a list of
//! bytes, and `f.body`, a list of statements. `CDeclaration` and `CCallee` are data types, with
//! their constructors in `declared.program.CDeclaration.TheVariants` and
//! `declared.statement.CCallee.TheVariants`. For a recursion over statements and lists of them,
//! `statement_size` and `body_size` of `specs/Tree.antt` are measures.
//!
//! The trees are plain: that names are identifiers and differ, that numbers are in range, and how
//! deep a text may be nested, is asked elsewhere.
#![tactic(auto)]

pub mod expr;
pub mod operators;
pub mod program;
pub mod statement;
pub mod types;

use tree_lists::Items;

/// The bytes of a name.
pub type Name = Items<u8>;
