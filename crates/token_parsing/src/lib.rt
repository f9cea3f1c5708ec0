//! Parsers made of a few parts, for tokens of any type.
//!
//! A `Parser T A` of `specs/Parser.antt` takes the tokens that are left and gives an `A` with the
//! tokens after it, or refuses a token: as unexpected, or since something there would be nested too
//! deep. A recursive descent of another crate states in one clause, by `Gives`, that a function
//! returns what such a parser gives.
//!
//! The lemmas of `proofs/` are about these parts alone. `Fair` is what the tokens taken are, and what
//! the tokens before a refused one are. `Tracked` is that a text of the grammar is followed: as long
//! as the tokens are those of the text, none is refused. `Short` is that a parser gives no tokens back.
#![tactic(auto)]

pub mod refusal;
