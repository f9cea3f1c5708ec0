//! Why bytes are no text.

use c_grammar::fault::CTextKind;
use std::alloc::AllocError;
use thiserror::Error;

/// Why bytes are no text of the C subset.
#[derive(Debug, Drop, Error)]
pub enum CTextFault {
    /// The condition of this kind fails on this line. Lines count from 1.
    #[error("the text is not of the C subset")]
    At { kind: CTextKind, line: u32 },
    #[error("out of memory")]
    Memory(AllocError),
}
