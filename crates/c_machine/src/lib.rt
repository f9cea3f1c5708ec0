//! Programs of the C subset that run.
//!
//! A `Machine` joins the runner of c_stepper with a source and a sink: it does one step after another
//! of a program, each as the meaning of C does it, with pieces of input and output of 4,096 bytes;
//! `run` does at most so many steps.
#![tactic(auto)]

mod machine;

pub use machine::{Ended, Machine, Stepped, run};
