//! Cuts texts of the C subset into tokens.
//!
//! The tokens of a text are those of `IsTokens` of c_grammar, each with the number of bytes before
//! it. Where a text has none, the fault is at a place of `Faults`, of the kind `BadByte`.
//!
//! `specs/Cut.antt` is what the code does with the first bytes; `proofs/Pieces.antt` shows that this
//! is the longest token, or that none begins. `specs/Words.antt` has the words by their first letter
//! and `specs/Marks.antt` the marks by their bytes, so that each is found by few comparisons.
#![tactic(auto)]

mod bytes;
mod front;
mod marks;
mod scanning;
mod text;
mod words;

pub use scanning::{LONGEST_INPUT, ScanFault, tokens};
pub use text::PlacedTokens;
