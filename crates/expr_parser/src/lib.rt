//! The trees of expressions and places.
//!
//! A text is read by recursive descent. `specs/Expressions.antt` and the files below it say, as
//! parsers of a few parts, what each production gives; each function states by one clause that it
//! returns what its parser gives. How each tree is written, by tokens and by nodes with their spans,
//! stands apart from that in `specs/Writing.antt`.
//!
//! `specs/Text.antt` says, for any kind of trees, which tokens are the longest run and where a node of
//! some level may begin. `proofs/Sound*` shows what is read and that a tree begins with the tokens
//! before a refused one; `proofs/Followed*` that the tokens of each tree are followed to their end;
//! `proofs/Exact*` that each tree that is written is the one that is read. `proofs/Unique` has from that,
//! for any kind of trees, that no two are written by the same tokens.
#![tactic(auto)]

pub mod constants;
pub mod descent;
mod fault;
pub mod laws;
pub mod leaves;
pub mod operators;
pub mod parsing;
pub mod rows;
pub mod source;
pub mod step;
mod texts;

pub use fault::SyntaxFault;
pub use parsing::expression;
