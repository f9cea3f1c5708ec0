//! Files translated.

ghost use Rattle.std.specs.Prelude.{◌≡◌, ◌≢◌, ◌≤◌, ◌<◌, ◌⊎◌, length, map};
ghost use Rattle.p2c_outside.specs.Counts.{Rose};
ghost use Rattle.p2c_outside.specs.Told.{Gains};
ghost use Rattle.held_bytes.specs.Written.{GainsPart};
ghost use Rattle.p2c_top.specs.Answers.{IsMissing, TranslationAnswer};
ghost use Rattle.p2c_top.specs.Translated.{IsOfTranslation, answer_to, at};

use crate::outcome::{Outcome, SourceFault};
use crate::reading::{read_all, refused};
use dialect_lexer::LexFault;
use held_bytes::writing::offer;
use p2c_outside::{Files, Sink};
use p2c_text::{Dialect, Span, Texts};
use std::alloc::Global;
use translate_core::Refusal;
use unit_parser::SyntaxFault;

/// The C text of the files of these names, offered to `out`.
pub fn translate<F: Files, O: Sink>(
    alloc: Global,
    files: &mut F,
    dialect: Dialect,
    names: &[&str],
    out: &mut O,
) -> Outcome
    requires some { 0 < length names.now }
    requires few { length names.now ≤ 64 }
    ensures answer { TranslationAnswer (F.told files.old) dialect (map (λ name. name.now) names.now) (O.written out.old) (O.written out.new) result }
    ensures missing { IsMissing result → Rose (F.missing files.old) (F.missing files.new) }
    ensures read_fault { result ≡ Outcome.ReadFault → Rose (F.faults files.old) (F.faults files.new) }
    ensures write_fault { result ≡ Outcome.WriteFault → Rose (O.faults out.old) (O.faults out.new) }

    ensures none_missing { (IsMissing result → ⊥) → result ≢ Outcome.ReadFault →
        F.missing files.new ≡ F.missing files.old }
    ensures no_read_fault { (IsMissing result → ⊥) → result ≢ Outcome.ReadFault →
        F.faults files.new ≡ F.faults files.old }
    ensures no_write_fault { result ≢ Outcome.WriteFault → O.faults out.new ≡ O.faults out.old }
    ensures untouched { result ≢ Outcome.Done → result ≢ Outcome.WriteFault → out.new ≡ out.old }
    ensures same { F.told files.new ≡ F.told files.old }
{
    let files = match read_all(alloc, files, names) {
        Ok(texts) => texts.into_vec(),
        Err(unread) => return refused(unread.file, unread.refusal),
    };
    match translate_core::translate(alloc, dialect, &Texts { files }) {
        Ok(text) => written(out, &text),
        Err(refusal) => answer_to(&refusal),
    }
}

/// The answer to a refusal: its kind, and the file and the line of its place.
fn answer_to(refusal: &Refusal) -> Outcome
    ensures { result ≡ answer_to refusal.now }
{
    match refusal {
        Refusal::TooLong => Outcome::TooLong,
        Refusal::Lex(LexFault::At { kind, span }) => at(SourceFault::Lexical(*kind), *span),
        Refusal::Syntax(SyntaxFault::Unexpected(span)) => at(SourceFault::Unexpected, *span),
        Refusal::Syntax(SyntaxFault::TooDeep(span)) => at(SourceFault::TooDeep, *span),
        Refusal::Unbuilt(span) => at(SourceFault::Unbuilt, *span),
        Refusal::Lex(LexFault::Memory(_))
        | Refusal::Syntax(SyntaxFault::Memory(_))
        | Refusal::Memory(_) => Outcome::OutOfMemory,
    }
}

fn at(fault: SourceFault, span: Span) -> Outcome
    ensures { result ≡ at fault span }
{
    Outcome::BadSource {
        fault,
        file: span.file as usize,
        line: span.line,
    }
}

fn written<O: Sink>(out: &mut O, text: &[u8]) -> Outcome
    ensures either { (result ≡ Outcome.Done) ⊎ (result ≡ Outcome.WriteFault) }
    ensures done { result ≡ Outcome.Done → Gains (O.written out.old) (O.written out.new) text.now }
    ensures cut { result ≡ Outcome.WriteFault → GainsPart (O.written out.old) (O.written out.new) text.now }
    ensures write_fault { result ≡ Outcome.WriteFault → Rose (O.faults out.old) (O.faults out.new) }
    ensures no_write_fault { result ≢ Outcome.WriteFault → O.faults out.new ≡ O.faults out.old }
{
    match offer(out, text) {
        Ok(()) => Outcome::Done,
        Err(_) => Outcome::WriteFault,
    }
}
