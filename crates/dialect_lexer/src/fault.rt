use p2c_text::Span;
use std::alloc::AllocError;
use thiserror::Error;

/// What can be wrong with a text.
#[derive(Clone, Copy, Debug, PartialEq, Eq)]
pub enum LexKind {
    /// A byte with which nothing begins.
    BadByte = 1,
    /// A comment or a directive without its end.
    OpenComment = 2,
    /// A quoted text without its end on the line.
    OpenString = 3,
    /// A number above 2^63 - 1, or above 255 after `#`.
    NumberTooBig = 4,
    /// A real number.
    RealLiteral = 5,
    /// A file to include.
    IncludeFile = 6,
}

/// Why a text has no tokens.
#[derive(Debug, Drop, Error)]
pub enum LexFault {
    /// The first place at which neither a token nor a separator fits. The span goes to the end of
    /// what is wrong there, or of the text.
    #[error("the text has no tokens")]
    At { kind: LexKind, span: Span },
    #[error("out of memory")]
    Memory(AllocError),
}
