//! When the meaning of a C text follows the meaning of a Pascal program.
//!
//! `Agrees p bytes` of `specs/Agrees.antt` says it: the bytes are a text of the C subset, and its
//! program follows the typed program `p` on every input. `specs/Writers.antt` has the programs that
//! write literal texts, as typed programs and as C programs. The laws on them are `writers_follow`
//! and `writers_end`.
#![tactic(auto)]

pub mod laws;
