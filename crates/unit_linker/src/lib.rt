//! The program and the units of given files, and the order of the units.
#![tactic(auto)]

mod cycle;
mod fault;
mod graph;
pub mod laws;
mod linking;
mod marks;
mod names;
mod order;
mod program;
mod taking;
mod units;

pub use fault::LinkFault;
pub use linking::{Linked, link};
