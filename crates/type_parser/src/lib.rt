//! The trees of types, and of formal parameters.
//!
//! A text is read by recursive descent. `specs/Levels.antt` and the files that it uses say, as
//! parsers of a few parts, what each production gives; each function states by one clause that it
//! returns what its parser gives. How each tree is written, by tokens and by nodes with their spans,
//! stands apart from that in `specs/Writing.antt`, and which trees the grammar has in
//! `specs/Grammar.antt`.
//!
//! `proofs/Sound*` shows what is read and that a tree begins with the tokens before a refused one;
//! `proofs/Followed*` that the tokens of each tree are followed to their end; `proofs/Exact*` that each
//! tree that is written is the one that is read, and so the only one of its tokens.
#![tactic(auto)]

mod fields;
pub mod formals;
pub mod laws;
pub mod names;
pub mod parsing;
mod simple;
pub mod types;

pub use parsing::{formals_at, type_at};
pub use types::type_node;
