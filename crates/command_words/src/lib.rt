//! What the words after the program's name ask for.
//!
//! `asked` of `specs/Asked.antt` says it: the first word is one of three, and the rest is what one
//! simple command line of clap makes of it, with the ranges of numbers.
#![tactic(auto)]

mod lines;
mod setting;

pub use setting::{Setting, parse_words};
