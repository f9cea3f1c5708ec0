//! Why texts are not translated.

use dialect_lexer::LexFault;
use p2c_text::Span;
use std::alloc::AllocError;
use thiserror::Error;
use unit_parser::SyntaxFault;

/// Why texts are not translated. Want of memory is `Memory` alone.
#[derive(Debug, Drop, Error)]
pub enum Refusal {
    /// The texts have more than 8,388,608 bytes together.
    #[error("too many bytes")]
    TooLong,
    #[error("no tokens")]
    Lex(LexFault),
    #[error("no text of the grammar")]
    Syntax(SyntaxFault),
    /// The first node, in the order of the files and the text, of a form that is not built. A
    /// second file is such a node.
    #[error("a form that is not built")]
    Unbuilt(Span),
    #[error("out of memory")]
    Memory(AllocError),
}

impl From<AllocError> for Refusal {
    ghost use Rattle.std.specs.Prelude.{◌≡◌};
    ghost use Rattle.translate_core.specs.declared.refusal.Refusal.TheVariants.{Memory};

    ghost from_gives = { λ error refusal. refusal ≡ Memory error };

    fn from(error: AllocError) -> Refusal {
        Refusal::Memory(error)
    }
}
