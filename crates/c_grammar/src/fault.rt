//! What can be wrong with a text.

/// Which condition on a text fails. `Faults` of `specs/Text.antt` says for each where it may be
/// reported.
#[derive(Clone, Copy, Debug, PartialEq, Eq)]
pub enum CTextKind {
    /// A head line is wrong, or a byte belongs to no token.
    BadByte = 1,
    /// No text of the grammar begins with these tokens.
    Unexpected = 2,
    /// More than 2,400 statements and expressions are nested.
    TooDeep = 3,
    /// A `goto` names no label of its list of statements, or of one around it.
    BadGoto = 4,
    /// Two names that have to differ are equal.
    DoubleName = 5,
    /// The word `main` is missing.
    NoMain = 6,
    /// A type is not declared above, or has too many cells, or an array has a wrong length.
    BadType = 7,
}
