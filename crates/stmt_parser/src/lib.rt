//! The trees of statements.
//!
//! A text is read by recursive descent. `specs/Levels.antt` and the files that it uses say, as
//! parsers of a few parts, what each production gives; each function states by one clause that it
//! returns what its parser gives. How each tree is written, by tokens and by nodes with their spans,
//! stands apart from that in `specs/Writing.antt`, and which trees the grammar has in
//! `specs/Grammar.antt`.
//!
//! `proofs/Sound*` shows what is read and that a statement begins with the tokens before a refused
//! one; `proofs/Followed*` that the tokens of each statement are followed to their end.
#![tactic(auto)]

pub mod descent;
mod headers;
pub mod laws;
pub mod parsing;
mod rests;
mod simple;

pub use parsing::statement;
