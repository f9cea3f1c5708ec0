//! The meaning of Pascal in four dialects, as definitions in `specs/`, and what holds of it.
//!
//! `Pas typed input n` is the answer of a typed program at the bound `n`: its end with output, status
//! and routine entries, or what was written and entered before something undefined was read, before
//! something was come to that stands in no tree that an elaboration makes, or before the bound cut it
//! off. `Whole.run` is the same under a name that unfolds every definition:
//! a worked program is `refl` under `unfolding run`. The laws are the contracts of `laws`.
//!
//! | Definitions | What they say |
//! |---|---|
//! | `Meaning` | one line for each form of expression and statement; programs |
//! | `Statements` | operators, set constructors, calls, sequences and gotos, loops, `case`, `with`, `try` |
//! | `Predefined` | the predefined calls, on operands that were evaluated |
//! | `Primitives` | what each `Primitive` does with its operands |
//! | `Places` | places while they are selected: variants and their tags, indexes, pointers; reading, references, stores |
//! | `Input`, `Output` | what each reading takes and leaves; the bytes of a written value |
//! | `Texts`, `TextCalls` | which cells of a text are read and in which order; the calls on texts |
//! | `Numbers`, `Sets` | whole numbers of 64 bits and their decimals; sets as truth values |
//!
//! A check is a function of the types alone, `Types → Checked X`, and says which error it raises. What
//! sees the world is made of the combinators of the crate `meanings`; `proofs/Steps` and
//! `proofs/Trees` carry any judgement that these keep to every primitive and every statement. The
//! definitions go by the rows of which a tree consists; `proofs/ExpressionViews` and
//! `proofs/StatementViews` say the same at the constructors as programs see them.
//!
//! # How trees are read
//!
//! - `input^` is a read of the place with the root `Input`, followed by the selector `Follow`, which
//!   carries its type.
//! - An argument of a predefined call is a `Reference` where the call changes it, `Written` where it
//!   is written, as the number of Turbo's `str`, else a `Value`. The array from which `pack` copies is
//!   a `Value`, and so is the one from which `unpack` copies. The string of `strmax` may be either. A
//!   file stands among no arguments.
//! - A tree that no elaboration makes has the answer `MalformedAfter` as soon as it comes to a name, a
//!   routine, a label, a field or a type that is not there, or to a value, an operand or an argument of
//!   another kind than is wanted there. Its types are not compared otherwise.
#![tactic(auto)]

pub mod laws;
mod operations;

pub use operations::Primitive;
