//! The names that are declared in the open scopes.
//!
//! `Scopes` is seen as the list of the open scopes, the innermost last, each the list of its pairs
//! of a name and a number in order of declaration.
#![tactic(auto)]

mod fault;
pub mod laws;
mod scopes;

pub use fault::DeclareFault;
pub use scopes::Scopes;
