//! The runner of C programs: their frames and their memory.
//!
//! A `Runner` stands at a statement of a program. `Runner::step` does that statement as the meaning of
//! C does it, `Runner::read` a `getchar` with a given byte; `quick_steps` and `Runner::quick_change` do
//! statements of which numbers alone say what they do.
#![tactic(auto)]

pub mod act;
mod call;
mod frames;
mod guide;
mod leave;
mod names;
pub mod quick;
mod quick_call;
mod quick_change;
mod quick_return;
mod resolved;
pub mod runner;
mod spot;
