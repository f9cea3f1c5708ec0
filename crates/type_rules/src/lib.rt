//! The relations on types.
//!
//! A type is a place in the list of `Types`; a place that is not in the list is no type, and the
//! relations hold of it with itself alone. None of these functions takes memory.
#![tactic(auto)]

mod cell_counts;
pub mod laws;
mod relations;

pub use cell_counts::{MOST_CELLS, cells};
pub use relations::{assignable, compatible, range, same};
