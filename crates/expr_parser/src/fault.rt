//! Why tokens are no text.

use p2c_text::Span;
use std::alloc::AllocError;
use thiserror::Error;

/// Why tokens are no text of the grammar.
#[derive(Debug, Drop, Error)]
pub enum SyntaxFault {
    /// This token, or the end of the text, is not one that may stand there.
    #[error("no text goes on so")]
    Unexpected(Span),
    /// What may begin here is nested in 400 levels.
    #[error("nested too deep")]
    TooDeep(Span),
    #[error("out of memory")]
    Memory(AllocError),
}
