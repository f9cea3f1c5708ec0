//! Why tokens are no text.

use std::alloc::AllocError;

/// Why tokens are no text, with the number of tokens before the place.
#[derive(Debug, Drop)]
pub enum ParseFault {
    /// No text of the grammar begins with the tokens up to this one. Where all tokens are before it, they are no text.
    Unexpected { token: usize },
    /// A statement or expression of the level 2,401 may begin here.
    TooDeep { token: usize },
    Memory(AllocError),
}
