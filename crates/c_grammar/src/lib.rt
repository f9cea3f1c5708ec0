//! Which bytes are a text of the C subset, and with which tree.
//!
//! `CText bytes c` of `specs/Text.antt` says it: the bytes are the four head lines and tokens, the
//! tree `c` spells the tokens, and `c` is a tree of the subset, `IsCTree c`. Nothing here reads or
//! prints: the definitions go by the tree and by pieces of the bytes, and not by a parser's way.
//!
//! A tree spells one list of tokens, since the subset has no alternative that leaves no trace in its
//! tree. So the grammar is a family of functions, one for each nonterminal and with one line for each
//! alternative: `spell_expr e rest` is the tokens of `e`, and then `rest`. `IsProgram c` is what the
//! grammar asks beyond the form of the tree.
//!
//! The further conditions stand in `program_demands c`, as a list of what is demanded at which token:
//! a pair has the number of tokens before it and a `Demand`. `Holds` says when a demand is met, and
//! `kind_of` which fault it is where it is not. So a condition and the places that its fault may name
//! are one definition.
//!
//! docs/C_SUBSET.md names the definition for each rule.
//!
//! Proved in `laws`: bytes have at most one list of tokens and at most one tree; each demand stands at
//! the token of which it speaks; where a demand fails, a fault of its kind may be named somewhere;
//! and a text has no fault, but for `TooDeep`, which speaks of other texts that begin as it does.
//!
//! The lemmas of `proofs/` are open to other crates: `Longest` says which front of the bytes is the
//! longest token, by the next byte; `Spelled` and `SpelledProgram` that what is spelled before other
//! tokens is what is spelled alone, and then those; `Hold` how demands of parts make those of the
//! whole; `NoFaults` that tokens cut from the front are the first of all; `Levels` that levels rise by
//! one. `Reading` to `ReadsProgram` are a way back from tokens to the tree, by which the law on trees
//! is proved.
//!
//! Worked examples compute: `Examples` for tokens, `TextExamples` for each condition, met and failed,
//! `FaultExamples` for a whole text and for faults, `NestingExamples` for what begins no text and for
//! levels.
#![tactic(auto)]

pub mod fault;
pub mod laws;
pub mod token;
