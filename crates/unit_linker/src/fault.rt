use p2c_text::{Names, Span};
use std::alloc::AllocError;
use std::fmt::{self, Debug, Formatter, Write};
use thiserror::Error;

/// Why files are no program with its units. The first that holds is answered.
#[derive(Drop, Error)]
pub enum LinkFault {
    /// No file is a program.
    #[error("no program")]
    NoProgram,
    /// The second program.
    #[error("a second program")]
    TwoPrograms(Span),
    /// The first unit with the name of one before it.
    #[error("a second unit of that name")]
    DoubleUnit(Span),
    /// The first use, by files and text, of a name that no unit has.
    #[error("no unit of that name")]
    MissingUnit(Span),
    /// Units of which each uses the next in its interface, and the last uses the first. The span is
    /// that of the first, which is the first given unit on any such cycle.
    #[error("interfaces use each other in a cycle")]
    Cycle(Names, Span),
    #[error("out of memory")]
    Memory(AllocError),
}

impl Debug for LinkFault {
    fn fmt<W: Write>(&self, f: &mut Formatter<W>) -> fmt::Result {
        write!(f, "{self}")
    }
}
