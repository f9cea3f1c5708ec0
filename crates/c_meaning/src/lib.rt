//! The meaning of the C subset, as definitions in `specs/`, and what holds of it.
//!
//! `CRun c input m` is the answer of the program `c` after `m` steps on `input`, and `CStep c state`
//! is one step. `Follows` says how the answers of a Pascal program and of its C belong together; no C
//! follows a program whose tree is malformed.
//! `Whole.run` and `Whole.step` are the same two under names that unfold every definition: a worked
//! program is `refl` under `unfolding run`. The laws are the contracts of `laws`; a proof may also
//! take them as lemmas from `proofs/` (`Later`, `Backward`, `Grows`, `Touched`, `Stays`, `Reached`).
//!
//! # How a proof sees a state
//!
//! Evaluation does not look at a state but at a `View`: a record of functions for a name's block,
//! a block by its number, a function's signature, and the blocks after a store. So a proof about one
//! function keeps the rest of the state as variables. `proofs/Frames` has the normal form: the
//! function's own variables are a literal list of blocks behind old blocks of which nothing is known
//! but what is used, and its view there is computed once (`view_here`). `Comes c a b` says that a
//! run comes from a to b; `proofs/Comes` composes it, one line for each statement (`does`).
//! `proofs/Calls` has what all calls share: from the call statement to the first statement of the
//! function (`enters`), and from its end to the caller with the answer in its place (`leaves`).
//! `proofs/CheckedSum` is a whole example.
//!
//! docs/C_SUBSET.md names the definition for each rule.
#![tactic(auto)]

pub mod laws;

ghost use Rattle.std.specs.Prelude.{◌≡◌};
ghost use Rattle.c_meaning.specs.Kinds.{kind_number};

/// Why a run of a C text cannot go on.
#[derive(Clone, Copy, Debug, PartialEq, Eq)]
pub enum StuckKind {
    /// A result outside the signed numbers of 64 bits.
    Overflow = 1,
    /// `/` or `%` by 0.
    ZeroDivide = 2,
    /// A scalar that holds nothing is read.
    Indeterminate = 3,
    /// `NULL` is followed or called.
    NullUse = 4,
    /// A pointer to a freed block or an ended frame is read or followed.
    GoneUse = 5,
    /// An index outside its array.
    BadIndex = 6,
    /// A shift count outside 0..63, or a shift of a signed number.
    BadShift = 7,
    /// A number outside 0..255 for `putchar` or for an `unsigned char`.
    BadByteValue = 8,
    /// `free` of what is no start of a `malloc` block.
    BadFree = 9,
    /// A value is used of a function that ended without one.
    NoValue = 10,
    /// A name that is not declared where it is used.
    UnknownName = 11,
    /// Operands, arguments or targets of unlike types.
    Mismatch = 12,
    /// `main` returns a number outside 0..209, or nothing.
    BadStatus = 13,
}

impl StuckKind {
    /// The number of the kind, 1 to 13.
    pub fn number(self) -> u8
        ensures { result ≡ kind_number self }
    {
        self as u8
    }
}
