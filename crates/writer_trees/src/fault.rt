use p2c_text::Span;
use std::alloc::AllocError;
use thiserror::Error;

/// Why nothing is said to be written by a program.
#[derive(Debug, Drop, Error)]
pub enum WriterFault {
    /// The first node, in the order of the text, that no program has which writes literal texts and
    /// nothing else.
    #[error("a form that is not built")]
    Unbuilt(Span),
    #[error("out of memory")]
    Memory(AllocError),
}
