//! The first places of names in a C program.
//!
//! `Tables::new` notes once, for each list of a program in which names are looked up, where a name
//! stands in it first, so that no list is searched again.
#![tactic(auto)]

mod places;
mod tables;

pub use places::Places;
pub use tables::Tables;
