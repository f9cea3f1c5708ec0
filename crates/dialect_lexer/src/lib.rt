//! Cuts Pascal texts of four dialects into tokens.
//!
//! A text is cut from left to right into separators and tokens, each the longest that fits. Where
//! none fits, or a fault begins, the text has no tokens. `Lexes` and `LexFails` of
//! `specs/Tokens.antt` say both, apart from the code, and `laws` that the bytes determine the answer.
//!
//! | Rule | Where it is defined |
//! |---|---|
//! | which bytes are a piece, and of which kind | `form` in `specs/Forms.antt` |
//! | white space, letters, digits, `_` in names outside Iso; what a first byte begins | `specs/Bytes.antt` |
//! | word symbols of each dialect, letters without case, every character counts | `specs/Words.antt` |
//! | where a comment, a directive or a quoted text ends, and what makes a number a real one | `specs/Ends.antt` |
//! | the value of a number, the bytes of a text | `number_of`, `text_bytes` in `specs/Values.antt` |
//! | the six faults, the lesser number first, and how long each is | `pattern`, `IsFault` in `specs/Patterns.antt` |
//! | pieces without gap or overlap; parts of a text that touch; files and lines in spans | `Cut`, `tokens_of` in `specs/Tokens.antt` |
//!
//! `specs/Cut.antt` is what the code does with the first bytes; `proofs/Pieces.antt` shows that this
//! is the longest form, or the fault.
#![tactic(auto)]

mod bytes;
mod ends;
mod fault;
pub mod laws;
mod lexing;
mod piece;
mod token;
mod words;

pub use fault::{LexFault, LexKind};
pub use lexing::{LONGEST_INPUT, text_of, tokens};
pub use token::{Symbol, Token, TokenKind, TokenList, Word};
