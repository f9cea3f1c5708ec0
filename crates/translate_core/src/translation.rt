//! Texts translated.

ghost use Rattle.std.specs.Prelude.{◌≡◌, ◌≤◌, ◌<◌, IfErr, IfOk, length};
ghost use Rattle.translate_core.specs.Accepted.{Write};
ghost use Rattle.translate_core.specs.Refused as spec;
ghost use Rattle.translate_core.specs.Refused.{Refuses};
ghost use Rattle.translate_core.specs.Translated.{IsTranslation, IsTree};
ghost use Rattle.translate_core.specs.Written.{AreWritten, WritingRefuses};

use crate::lower::writer;
use crate::reading::{are_short, lex, trees};
use crate::refusal::Refusal;
use c_tree::program::CProgram;
use p2c_text::{Dialect, Span, Text, Texts};
use pascal_tree::SourceFile;
use std::alloc::Global;
use writer_trees::{WriterFault, written_by_file};

fn span_of(file: &SourceFile) -> Span
    ensures { result ≡ spec.span_of file.now }
{
    match file {
        SourceFile::Program(program) => program.span,
        SourceFile::UnitText(unit) => unit.span,
        SourceFile::Module(module) => module.span,
    }
}

/// What the one program among the trees writes.
fn written(alloc: Global, dialect: Dialect, trees: &[SourceFile]) -> Result<Vec<u8>, Refusal>
    requires { 0 < length trees.now }
    ensures ok { IfOk result (λ bytes. AreWritten dialect trees.now bytes.items) }
    ensures err { IfErr result (WritingRefuses dialect trees.now) }
{
    match trees {
        [] => unreachable!(),
        [file, more @ ..] => match written_by_file(alloc, dialect, file) {
            Ok(bytes) => match more {
                [] => Ok(bytes),
                [second, ..] => Err(Refusal::Unbuilt(span_of(second))),
            },
            Err(WriterFault::Unbuilt(span)) => Err(Refusal::Unbuilt(span)),
            Err(WriterFault::Memory(error)) => Err(Refusal::Memory(error)),
        },
    }
}

/// What the texts write.
fn written_by(alloc: Global, dialect: Dialect, texts: &[Text]) -> Result<Vec<u8>, Refusal>
    requires some { 0 < length texts.now }
    requires few { length texts.now ≤ 64 }
    ensures ok { IfOk result (λ bytes. Write dialect texts.now bytes.items) }
    ensures err { IfErr result (Refuses dialect texts.now) }
{
    if !are_short(texts) {
        return Err(Refusal::TooLong);
    }
    let lists = lex(alloc, dialect, texts)?;
    let trees = trees(alloc, dialect, texts, lists.as_slice())?;
    written(alloc, dialect, trees.as_slice())
}

/// The C tree of the translation.
pub fn program(alloc: Global, dialect: Dialect, texts: &Texts) -> Result<CProgram, Refusal>
    requires some { 0 < length texts.now }
    requires few { length texts.now ≤ 64 }
    ensures ok { IfOk result (λ program. IsTree dialect texts.now program) }
    ensures err { IfErr result (Refuses dialect texts.now) }
{
    let bytes = written_by(alloc, dialect, texts.files.as_slice())?;
    Ok(writer(alloc, &bytes)?)
}

/// The C text of the translation.
pub fn translate(alloc: Global, dialect: Dialect, texts: &Texts) -> Result<Vec<u8>, Refusal>
    requires some { 0 < length texts.now }
    requires few { length texts.now ≤ 64 }
    ensures ok { IfOk result (λ text. IsTranslation dialect texts.now text.items) }
    ensures err { IfErr result (Refuses dialect texts.now) }
{
    let program = program(alloc, dialect, texts)?;
    Ok(c_printer::print(alloc, &program)?)
}
