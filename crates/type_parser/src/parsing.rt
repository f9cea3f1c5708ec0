//! The type, and the formal parameters, at a place among tokens.
ghost use Rattle.std.specs.Prelude.{◌≤◌, length, drop};
ghost use Rattle.dialect_lexer.specs.Tokens.{Lexes};
ghost use Rattle.expr_parser.specs.Tokens.{seen};
ghost use Rattle.expr_parser.specs.Parsed.{Answers};
ghost use Rattle.type_parser.specs.Levels as levels_of;
ghost use Rattle.type_parser.specs.Parsed as spec;

use crate::formals::formals;
use crate::types::type_node;
use dialect_lexer::{LONGEST_INPUT, Token, TokenList};
use expr_parser::SyntaxFault;
use expr_parser::parsing::{LEVELS, end_of, fault_of};
use expr_parser::source::Source;
use p2c_text::Dialect;
use pascal_tree::{Formals, TypeNode};
use std::alloc::Global;

/// A type of so many levels from the token with the number `at` on, and the number of tokens up to
/// its end.
fn read_type(
    source: &Source<'_>,
    all: &[Token],
    at: usize,
    levels: u32,
) -> Result<(TypeNode, usize), SyntaxFault>
    requires { at ≤ length all.now }
    ensures { Answers source.now.end (seen source.now.bytes.now all.now) (levels_of.type_node source.now.dialect source.now.end levels (drop at (seen source.now.bytes.now all.now))) result }
{
    match type_node(source, &all[at..], levels) {
        Ok((of, rest)) => Ok((of, all.len().saturating_sub(rest.len()))),
        Err(error) => Err(fault_of(source, all, error)),
    }
}

/// Formal parameters of so many levels from the token with the number `at` on, and the number of
/// tokens up to their end.
fn read_formals(
    source: &Source<'_>,
    all: &[Token],
    at: usize,
    levels: u32,
) -> Result<(Formals, usize), SyntaxFault>
    requires { at ≤ length all.now }
    ensures { Answers source.now.end (seen source.now.bytes.now all.now) (levels_of.formals source.now.end levels (drop at (seen source.now.bytes.now all.now))) result }
{
    match formals(source, &all[at..], levels) {
        Ok((formals, rest)) => Ok((formals, all.len().saturating_sub(rest.len()))),
        Err(error) => Err(fault_of(source, all, error)),
    }
}

/// The longest run of tokens from the token with the number `at` on with which a type begins, where
/// it is one: its tree, and the number of tokens up to its end. `level` is the level of its node.
pub fn type_at(
    alloc: Global,
    dialect: Dialect,
    bytes: &[u8],
    tokens: &TokenList,
    at: usize,
    level: u32,
) -> Result<(TypeNode, usize), SyntaxFault>
    requires short { length bytes.now ≤ LONGEST_INPUT }
    requires lexes { Lexes dialect bytes.now tokens.now }
    requires within { at ≤ length tokens.now.tokens }
    requires some_level { 1 ≤ level }
    requires level { level ≤ 401 }
    ensures { spec.IsTypeRead dialect bytes.now tokens.now at level result }
{
    let source = Source {
        alloc,
        dialect,
        bytes,
        end: end_of(tokens.file(), bytes),
    };
    read_type(&source, tokens.as_slice(), at, LEVELS + 1 - level)
}

/// The longest run of tokens from the token with the number `at` on with which formal parameters in
/// parentheses begin, where it is such: their tree, and the number of tokens up to its end. `level` is
/// the level of their node.
pub fn formals_at(
    alloc: Global,
    dialect: Dialect,
    bytes: &[u8],
    tokens: &TokenList,
    at: usize,
    level: u32,
) -> Result<(Formals, usize), SyntaxFault>
    requires short { length bytes.now ≤ LONGEST_INPUT }
    requires lexes { Lexes dialect bytes.now tokens.now }
    requires within { at ≤ length tokens.now.tokens }
    requires some_level { 1 ≤ level }
    requires level { level ≤ 401 }
    ensures { spec.AreFormalsRead dialect bytes.now tokens.now at level result }
{
    let source = Source {
        alloc,
        dialect,
        bytes,
        end: end_of(tokens.file(), bytes),
    };
    read_formals(&source, tokens.as_slice(), at, LEVELS + 1 - level)
}
