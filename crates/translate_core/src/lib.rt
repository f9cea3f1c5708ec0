//! Texts of Pascal carried to C.
//!
//! `Accepts d texts ws` of `specs/Accepted.antt` says which texts are translated, `IsTranslation` of
//! `specs/Translated.antt` what their translation is, and `Refuses` of `specs/Refused.antt` when each
//! refusal comes. `program` gives the C tree and `translate` its printed bytes; both refuse alike.
#![tactic(auto)]

pub mod laws;
mod lower;
mod reading;
mod refusal;
mod translation;

pub use dialect_lexer::LONGEST_INPUT;
pub use refusal::Refusal;
pub use translation::{program, translate};
