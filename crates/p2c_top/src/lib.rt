//! What the program p2c does with its words, over any files, input, output and error stream.
//!
//! `p2c` is the top call. `specs/Answers.antt` says what each of its answers means, `specs/Translated.antt`
//! what a translation is, `specs/Executed.antt` what a run does, `specs/Messages.antt` which line
//! standard error takes.
#![tactic(auto)]

mod execution;
mod message;
pub mod outcome;
mod reading;
mod top;
mod translation;
mod words;

pub use top::p2c;
pub use words::Words;
