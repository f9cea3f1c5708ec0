//! The ways to the labels of C functions, so that no function is searched for a label.
#![tactic(auto)]

mod level;
mod note;
mod ways;

pub use level::Level;
pub use note::ProgramWays;
pub use ways::{Way, Ways};
