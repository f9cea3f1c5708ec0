//! What the expressions and places of a C program evaluate to, over the memory of c_cells.
//!
//! `evaluate` gives the value of an expression and the place of a place expression, or the stuck
//! kind, as the meaning of C does. `store` gives what statements store, free, write and test.
#![tactic(auto)]

mod cast;
pub mod evaluate;
pub mod function_names;
pub mod lookup;
pub mod numbers;
mod operate;
pub mod place;
pub mod read;
pub mod scope;
pub mod store;
pub mod types;
pub mod value;
