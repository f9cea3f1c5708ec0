//! Reads texts of the C subset.
//!
//! `read` cuts the bytes into tokens, parses them and checks the further conditions of the tree. It
//! answers the tree exactly where the bytes are a text, `CText` of c_grammar. Else it names a
//! condition that fails and the line on which it does; `specs/Read.antt` says so in a few words.
//!
//! The lemmas of `proofs/` join what the parts ensure. `Levels` and `Depths` are that the demands of
//! levels hold exactly where the parser's count of levels does, `Whole` that no text goes on after its
//! last token, `Fronts` where the tokens of a text stand, and `Refused` and `Texts` what each answer of
//! the parts means for the bytes.
#![tactic(auto)]

mod fault;
mod reading;

pub use c_scanner::LONGEST_INPUT;
pub use fault::CTextFault;
pub use reading::read;
