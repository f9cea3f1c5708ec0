//! The form of a translation.
//!
//! `Shape` of `specs/Shape.antt` says, in five parts, that a C program has one function for each
//! routine, that each other function performs one primitive that the Pascal program uses, that a
//! routine's struct has its captured variables by their names and no others, that a call is checked
//! exactly where its callee may escape, and that no function has more loops than its routine. It asks
//! of the Pascal program an `Outline` alone, which each of the languages on the way has; `OfTyped`
//! gives that of a typed program, where the C names of variables are given.
//!
//! | Definitions | What they say |
//! |---|---|
//! | `Nodes` | the operations of a body, one by one |
//! | `Uses`, `Raises` | which primitives an operation uses; whether it names a runtime error in the dialect |
//! | `Outlines`, `OfTyped` | what the form depends on, and how a typed program decides it |
//! | `Functions` | the loops, jumps, calls and names of a C program |
//! | `Shape`, `Laws` | the five parts; that programs which write literal texts have them |
#![tactic(auto)]

pub mod laws;
