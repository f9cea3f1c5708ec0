//! The statements of a program that reckon with numbers alone, with variables in place of names.
//!
//! `ProgramCode::new` notes them once, in a walk over the program's text.

mod call;
mod code;
mod note;
mod resolve;

pub use code::{Code, Node, Resolved, ResolvedCall, Row};
pub use note::ProgramCode;
