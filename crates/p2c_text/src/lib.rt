//! Source texts, places in them, and names.
#![tactic(auto)]

mod dialect;
mod name;
mod place;
mod text;

pub use dialect::Dialect;
pub use name::{Name, Names, name_of};
pub use place::{LINE_END, LONGEST_TEXT, Span, line_of};
pub use text::{Text, Texts};
