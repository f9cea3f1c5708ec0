//! The line on standard error.

ghost use Rattle.std.specs.Prelude.{◌≡◌, ◌++◌, OnOk, OnErr, codes, decimal};
ghost use Rattle.p2c_outside.specs.Counts.{Rose};
ghost use Rattle.p2c_outside.specs.Told.{Gains};
ghost use Rattle.p2c_top.specs.Messages.{kind_text, message_of, source_text, stuck_text};
ghost use Rattle.held_bytes.specs.Written.{GainsPart};

use crate::outcome::{Outcome, SourceFault};
use c_grammar::fault::CTextKind;
use c_meaning::StuckKind;
use dialect_lexer::LexKind;
use held_bytes::writing::{offer, offer_parts};
use itoa::Buffer;
use p2c_outside::{Failed, Sink};

/// Writes the line for an answer about the file of this name. It takes no memory.
pub fn report<S: Sink>(sink: &mut S, outcome: Outcome, name: &str) -> Result<(), Failed>
    ensures whole { OnOk result (Gains (S.written sink.old) (S.written sink.new) (message_of outcome name.now)) }
    ensures part { OnErr result (GainsPart (S.written sink.old) (S.written sink.new) (message_of outcome name.now)) }
    ensures fault { OnErr result (Rose (S.faults sink.old) (S.faults sink.new)) }
{
    match outcome {
        Outcome::Done | Outcome::Ended(_) => Ok(()),
        Outcome::Usage => offer(
            sink,
            b"p2c: usage: translate [-L iso|turbo|ucsd|hp] FILE.. | run [--steps N] FILE | sample --seed N --size N\n",
        ),
        Outcome::TooLong => offer(sink, b"p2c: text too long\n"),
        Outcome::BadSource { fault, line, .. } => offer_place(sink, name, line, source_line(fault)),
        Outcome::BadText { kind, line } => offer_place(sink, name, line, kind_line(kind)),
        Outcome::Missing { .. } => offer_parts(sink, b"p2c: no file ", name.as_bytes(), b"\n"),
        Outcome::ReadFault => offer(sink, b"p2c: read fault\n"),
        Outcome::WriteFault => offer(sink, b"p2c: write fault\n"),
        Outcome::OutOfMemory => offer(sink, b"p2c: out of memory\n"),
        Outcome::Spent => offer(sink, b"p2c: steps spent\n"),
        Outcome::Stuck(kind) => offer(sink, stuck_line(kind)),
    }
}

/// A line that names a place, and then ends so.
fn offer_place<S: Sink>(sink: &mut S, name: &str, line: u32, end: &[u8]) -> Result<(), Failed>
    ensures whole { OnOk result (Gains (S.written sink.old) (S.written sink.new) (name.now ++ codes ":" ++ decimal line ++ end.now)) }
    ensures part { OnErr result (GainsPart (S.written sink.old) (S.written sink.new) (name.now ++ codes ":" ++ decimal line ++ end.now)) }
    ensures fault { OnErr result (Rose (S.faults sink.old) (S.faults sink.new)) }
{
    let mut buffer = Buffer::new();
    let digits = buffer.format(line).as_bytes();
    offer(sink, name.as_bytes())?;
    offer_parts(sink, b":", digits, end)
}

fn source_line(fault: SourceFault) -> &'static [u8]
    ensures { result.now ≡ source_text fault }
{
    match fault {
        SourceFault::Lexical(LexKind::BadByte) => b": lexical BadByte\n",
        SourceFault::Lexical(LexKind::OpenComment) => b": lexical OpenComment\n",
        SourceFault::Lexical(LexKind::OpenString) => b": lexical OpenString\n",
        SourceFault::Lexical(LexKind::NumberTooBig) => b": lexical NumberTooBig\n",
        SourceFault::Lexical(LexKind::RealLiteral) => b": lexical RealLiteral\n",
        SourceFault::Lexical(LexKind::IncludeFile) => b": lexical IncludeFile\n",
        SourceFault::Unexpected => b": syntax Unexpected\n",
        SourceFault::TooDeep => b": syntax TooDeep\n",
        SourceFault::Unbuilt => b": typing Unbuilt\n",
    }
}

fn kind_line(kind: CTextKind) -> &'static [u8]
    ensures { result.now ≡ kind_text kind }
{
    match kind {
        CTextKind::BadByte => b": C BadByte\n",
        CTextKind::Unexpected => b": C Unexpected\n",
        CTextKind::TooDeep => b": C TooDeep\n",
        CTextKind::BadGoto => b": C BadGoto\n",
        CTextKind::DoubleName => b": C DoubleName\n",
        CTextKind::NoMain => b": C NoMain\n",
        CTextKind::BadType => b": C BadType\n",
    }
}

fn stuck_line(kind: StuckKind) -> &'static [u8]
    ensures { result.now ≡ stuck_text kind }
{
    match kind {
        StuckKind::Overflow => b"p2c: undefined in C: Overflow\n",
        StuckKind::ZeroDivide => b"p2c: undefined in C: ZeroDivide\n",
        StuckKind::Indeterminate => b"p2c: undefined in C: Indeterminate\n",
        StuckKind::NullUse => b"p2c: undefined in C: NullUse\n",
        StuckKind::GoneUse => b"p2c: undefined in C: GoneUse\n",
        StuckKind::BadIndex => b"p2c: undefined in C: BadIndex\n",
        StuckKind::BadShift => b"p2c: undefined in C: BadShift\n",
        StuckKind::BadByteValue => b"p2c: undefined in C: BadByteValue\n",
        StuckKind::BadFree => b"p2c: undefined in C: BadFree\n",
        StuckKind::NoValue => b"p2c: undefined in C: NoValue\n",
        StuckKind::UnknownName => b"p2c: undefined in C: UnknownName\n",
        StuckKind::Mismatch => b"p2c: undefined in C: Mismatch\n",
        StuckKind::BadStatus => b"p2c: undefined in C: BadStatus\n",
    }
}
