//! Prints a tree of the C subset: one declaration, statement, opening line and closing brace a line, two spaces a level.
//!
//! The text is pinned twice: by its layout, `program_text` of `specs/Text.antt`, and by the grammar, which reads it back as the tree that was printed.
//! In `proofs/` each text is cut from its last token to its first: `Reads bytes tokens` says that the bytes are cut into these tokens, wherever they stand.
#![tactic(auto)]

mod expr;
mod program;
mod statement;
mod types;

pub use program::print;
