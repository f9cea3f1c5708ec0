//! Whole programs.

ghost use Rattle.std.specs.Prelude.{IfErr, IfOk, OnOk};
ghost use Rattle.writer_trees.specs.Unbuilt.{Appends, FileWrites, Refuses, RefusesStatement, RefusesStatements, StatementsWrite};

use crate::fault::WriterFault;
use crate::nodes::unbuilt_head;
use crate::statements::{found_in, put};
use p2c_text::Dialect;
use pascal_tree::{Program, SourceFile, Stmt};
use std::alloc::Global;

/// Appends what the statement writes.
fn append(dialect: Dialect, written: &mut Vec<u8>, statement: &Stmt) -> Result<(), WriterFault>
    ensures ok { OnOk result (Appends dialect statement.now written.old.items written.new.items) }
    ensures err { IfErr result (RefusesStatement dialect statement.now) }
{
    match found_in(dialect, statement) {
        Some(writing) => match put(written, &writing) {
            Ok(()) => Ok(()),
            Err(error) => Err(WriterFault::Memory(error)),
        },
        None => Err(WriterFault::Unbuilt(statement.span)),
    }
}

fn statements(alloc: Global, dialect: Dialect, all: &[Stmt]) -> Result<Vec<u8>, WriterFault>
    ensures ok { IfOk result (λ written. StatementsWrite dialect all.now written.items) }
    ensures err { IfErr result (RefusesStatements dialect all.now) }
{
    let mut written = Vec::new(alloc);
    let mut rest = all;
    while let Some((statement, after)) = rest.split_first() {
        match append(dialect, &mut written, statement) {
            Ok(()) => rest = after,
            Err(fault) => return Err(fault),
        }
    }
    Ok(written)
}

fn program(alloc: Global, dialect: Dialect, program: &Program) -> Result<Vec<u8>, WriterFault>
    ensures ok { IfOk result (λ written. FileWrites dialect (SourceFile.Program program.now) written.items) }
    ensures err { IfErr result (Refuses dialect (SourceFile.Program program.now)) }
{
    match unbuilt_head(program) {
        Some(span) => Err(WriterFault::Unbuilt(span)),
        None => statements(alloc, dialect, program.block.body.as_slice()),
    }
}

/// What the program writes, where the text is one that writes literal texts and nothing else.
pub fn written_by_file(
    alloc: Global,
    dialect: Dialect,
    file: &SourceFile,
) -> Result<Vec<u8>, WriterFault>
    ensures ok { IfOk result (λ written. FileWrites dialect file.now written.items) }
    ensures err { IfErr result (Refuses dialect file.now) }
{
    match file {
        SourceFile::Program(text) => program(alloc, dialect, text),
        SourceFile::UnitText(unit) => Err(WriterFault::Unbuilt(unit.span)),
        SourceFile::Module(module) => Err(WriterFault::Unbuilt(module.span)),
    }
}
