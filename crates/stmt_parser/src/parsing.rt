//! The statement at a place among tokens.
ghost use Rattle.std.specs.Prelude.{◌≤◌, length, drop};
ghost use Rattle.dialect_lexer.specs.Tokens.{Lexes};
ghost use Rattle.expr_parser.specs.Tokens.{seen};
ghost use Rattle.expr_parser.specs.Parsed.{Answers};
ghost use Rattle.stmt_parser.specs.Levels.{stmt as stmt_of};
ghost use Rattle.stmt_parser.specs.Parsed as spec;

use crate::descent::stmt;
use dialect_lexer::{LONGEST_INPUT, Token, TokenList};
use expr_parser::SyntaxFault;
use expr_parser::parsing::{LEVELS, end_of, fault_of};
use expr_parser::source::Source;
use p2c_text::Dialect;
use pascal_tree::Stmt;
use std::alloc::Global;

/// A statement of so many levels from the token with the number `at` on, and the number of tokens up
/// to its end.
fn read_at(
    source: &Source<'_>,
    all: &[Token],
    at: usize,
    levels: u32,
) -> Result<(Stmt, usize), SyntaxFault>
    requires { at ≤ length all.now }
    ensures { Answers source.now.end (seen source.now.bytes.now all.now) (stmt_of source.now.dialect source.now.end levels (drop at (seen source.now.bytes.now all.now))) result }
{
    match stmt(source, &all[at..], levels) {
        Ok((stmt, rest)) => Ok((stmt, all.len().saturating_sub(rest.len()))),
        Err(error) => Err(fault_of(source, all, error)),
    }
}

/// The longest run of tokens from the token with the number `at` on with which a statement begins,
/// where it is one: its tree, and the number of tokens up to its end. `level` is the level of its
/// node.
pub fn statement(
    alloc: Global,
    dialect: Dialect,
    bytes: &[u8],
    tokens: &TokenList,
    at: usize,
    level: u32,
) -> Result<(Stmt, usize), SyntaxFault>
    requires short { length bytes.now ≤ LONGEST_INPUT }
    requires lexes { Lexes dialect bytes.now tokens.now }
    requires within { at ≤ length tokens.now.tokens }
    requires some_level { 1 ≤ level }
    requires level { level ≤ 401 }
    ensures { spec.IsRead dialect bytes.now tokens.now at level result }
{
    let source = Source {
        alloc,
        dialect,
        bytes,
        end: end_of(tokens.file(), bytes),
    };
    read_at(&source, tokens.as_slice(), at, LEVELS + 1 - level)
}
