//! The trees of whole texts: programs, units and modules.
//!
//! A text is read by recursive descent. `specs/Files.antt` and the files that it uses say, as parsers
//! of a few parts, what each production gives; each function states by one clause that it returns
//! what its parser gives. How each tree is written, by tokens and by nodes with their spans, stands
//! apart from that in `specs/Writing.antt`, and which trees the grammar has in `specs/Grammar.antt`.
#![tactic(auto)]

mod blocks;
mod files;
pub mod laws;
pub mod parsing;
mod parts;
mod words;

pub use expr_parser::SyntaxFault;
pub use parsing::parse;
