//! Pascal programs of any size, drawn from a seed.
#![tactic(auto)]

mod append;
mod draw;
mod program;
mod routine;

pub use program::sample;
