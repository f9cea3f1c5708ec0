//! Running C texts.
#![tactic(auto)]

mod running;

pub use c_reader::LONGEST_INPUT;
pub use running::run_text;
