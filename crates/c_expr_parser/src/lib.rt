//! The types, expressions and places that tokens of the C subset spell, with the tokens after them.
#![tactic(auto)]

pub mod expressions;
pub mod step;
pub mod types;
