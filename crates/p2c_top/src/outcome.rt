//! The answers of a run of p2c.

ghost use Rattle.std.specs.Prelude.{◌≡◌};
ghost use Rattle.p2c_top.specs.Messages.{file_of, status_of};

use c_grammar::fault::CTextKind;
use c_meaning::StuckKind;
use dialect_lexer::LexKind;

/// Why a text is not translated.
#[derive(Clone, Copy)]
pub enum SourceFault {
    /// It has no tokens.
    Lexical(LexKind),
    /// No text of the grammar goes on so.
    Unexpected,
    /// It nests in more than 400 levels.
    TooDeep,
    /// It has a form that is not built.
    Unbuilt,
}

/// How a run of p2c ended. Files count from 0, as the words name them, and lines from 1.
#[derive(Clone, Copy)]
pub enum Outcome {
    /// The whole C text is written.
    Done,
    /// The program that was run ended with this status, of 0 to 209.
    Ended(u8),
    /// The words ask for nothing.
    Usage,
    /// The texts are over the limit.
    TooLong,
    /// A text is not translated.
    BadSource {
        fault: SourceFault,
        file: usize,
        line: u32,
    },
    /// The text is none of the C subset.
    BadText {
        kind: CTextKind,
        line: u32,
    },
    /// The file is not there.
    Missing {
        file: usize,
    },
    ReadFault,
    WriteFault,
    OutOfMemory,
    /// The program that was run goes on after its steps.
    Spent,
    /// The program that was run did what C leaves undefined.
    Stuck(StuckKind),
}

impl Outcome {
    pub fn status(self) -> u8
        ensures { result ≡ status_of self }
    {
        match self {
            Outcome::Done => 0,
            Outcome::Ended(status) => status,
            Outcome::Usage => 240,
            Outcome::TooLong | Outcome::BadSource { .. } | Outcome::BadText { .. } => 241,
            Outcome::Missing { .. } => 242,
            Outcome::ReadFault => 243,
            Outcome::WriteFault => 244,
            Outcome::OutOfMemory => 245,
            Outcome::Spent => 246,
            Outcome::Stuck(_) => 247,
        }
    }

    /// The number of the file of which the answer speaks; 0 where it speaks of none.
    pub fn file(self) -> usize
        ensures { result ≡ file_of self }
    {
        match self {
            Outcome::BadSource { file, .. } | Outcome::Missing { file } => file,
            _ => 0,
        }
    }
}
