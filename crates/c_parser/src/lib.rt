//! The tree of a list of tokens of the C subset.
#![tactic(auto)]

mod declarations;
pub mod fault;
pub mod laws;
mod parsing;
pub mod program;
mod statements;

pub use parsing::parse;
