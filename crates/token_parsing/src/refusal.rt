//! Why tokens could not be read.
ghost use Rattle.std.specs.Prelude.{◌≡◌, length};
ghost use Rattle.token_parsing.specs.declared.refusal.ParseError.TheVariants.{Memory};

use std::alloc::AllocError;

/// A refused place, by the number of tokens from it to the end.
#[derive(Clone, Copy)]
pub enum Refusal {
    /// No text begins with the tokens up to this one.
    Unexpected(usize),
    /// What begins here is nested too deep.
    TooDeep(usize),
}

#[derive(Drop)]
pub enum ParseError {
    Memory(AllocError),
    At(Refusal),
}

impl From<AllocError> for ParseError {
    ghost from_gives = { λ a e. e ≡ Memory a };

    fn from(error: AllocError) -> ParseError {
        ParseError::Memory(error)
    }
}

/// The refusal of the first of these tokens.
pub fn unexpected<T>(tokens: &[T]) -> ParseError
    ensures { result ≡ ParseError.At (Refusal.Unexpected (length tokens.now)) }
{
    ParseError::At(Refusal::Unexpected(tokens.len()))
}

/// The refusal of what begins at the first of these tokens.
pub fn too_deep<T>(tokens: &[T]) -> ParseError
    ensures { result ≡ ParseError.At (Refusal.TooDeep (length tokens.now)) }
{
    ParseError::At(Refusal::TooDeep(tokens.len()))
}
