//! The tree of a text.
ghost use Rattle.std.specs.Prelude.{◌≤◌, IfOk, length};
ghost use Rattle.dialect_lexer.specs.Tokens.{Lexes};
ghost use Rattle.expr_parser.specs.Tokens.{seen};
ghost use Rattle.unit_parser.specs.Files as files;
ghost use Rattle.unit_parser.specs.Parsed.{Answers};
ghost use Rattle.unit_parser.specs.Text.{IsOnlyTree, Parses};

use crate::files::file;
use dialect_lexer::{LONGEST_INPUT, Token, TokenList};
use expr_parser::SyntaxFault;
use expr_parser::parsing::{LEVELS, end_of, fault_of};
use expr_parser::source::Source;
use p2c_text::Dialect;
use pascal_tree::SourceFile;
use std::alloc::Global;

/// A text that is all of these tokens.
fn read(source: &Source<'_>, all: &[Token]) -> Result<SourceFile, SyntaxFault>
    ensures { Answers source.now.end (seen source.now.bytes.now all.now) (files.file source.now.dialect source.now.end 400 (seen source.now.bytes.now all.now)) result }
{
    match file(source, all, LEVELS) {
        Ok(file) => Ok(file),
        Err(error) => Err(fault_of(source, all, error)),
    }
}

/// The tree of a program, a unit or a module, which are the tokens of these bytes. A tree has at
/// most 400 levels.
pub fn parse(
    alloc: Global,
    dialect: Dialect,
    bytes: &[u8],
    tokens: &TokenList,
) -> Result<SourceFile, SyntaxFault>
    requires short { length bytes.now ≤ LONGEST_INPUT }
    requires lexed { Lexes dialect bytes.now tokens.now }
    ensures parsed { Parses dialect bytes.now tokens.now result }
    ensures only { IfOk result (IsOnlyTree dialect bytes.now tokens.now) }
{
    let source = Source {
        alloc,
        dialect,
        bytes,
        end: end_of(tokens.file(), bytes),
    };
    read(&source, tokens.as_slice())
}
