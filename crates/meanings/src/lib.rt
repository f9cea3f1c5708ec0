//! What the meanings of typed, flat and linked programs have in common, as definitions in `specs/`.
//!
//! A meaning is a function on worlds, `Prog X = Setting → Level → World → Outcome X`, made by the
//! combinators of `Programs` and nothing else. A level is the bound: the list of what routines do
//! at the bounds below, so its length is the bound. It falls in `below`, `run_routine` and `turns`
//! alone, and only these cut. Output and routine entries grow by `print` and `record_entry` alone.
//!
//! | Definitions | What they say |
//! |---|---|
//! | `Values` | value trees, references, routine values |
//! | `Worlds` | activations, heap, input left, output, entries, escape code; what a program sees of them |
//! | `Errors` | the numbers of runtime errors |
//! | `Outcomes` | normal, goto, leave, raise, halt, undefined read, malformed tree, cut; what a check gives |
//! | `Programs` | the combinators |
//! | `Names`, `Memory`, `Fresh` | activations and names; reading and storing in value trees; new variables |
//! | `Code` | routines and blocks in some language, activations, levels, and the answer at a bound |
//! | `Bounds` | what an answer at a bound says of the answers at greater ones |
//! | `Temporaries` | programs that do the same while the second may use temporaries |
//! | `Judgement` | what a law on programs needs to know of the combinators |
//!
//! A law on programs is a `Judgement`, one lemma for each combinator. What is made of combinators
//! then takes one line for each case of the tree, for every such law at once. `proofs/Growth` has the
//! law of bounds, `proofs/Simulation` that of temporaries, and `proofs/Equations` which programs are
//! equal.
#![tactic(auto)]

mod errors;
pub mod laws;

pub use errors::RuntimeError;
