//! Bytes on their way: what was taken and is not read yet, what was written and is not put yet.
#![tactic(auto)]

mod input;
mod output;
mod taking;
pub mod writing;

pub use input::HeldInput;
pub use output::HeldOutput;
