//! The expression at a place among tokens.
ghost use Rattle.std.specs.Prelude.{◌≡◌, ◌≤◌, length, drop};
ghost use Rattle.dialect_lexer.specs.Tokens.{Lexes};
ghost use Rattle.expr_parser.specs.Tokens.{seen};
ghost use Rattle.expr_parser.specs.Expressions as expressions;
ghost use Rattle.expr_parser.specs.Parsed as spec;

use crate::descent::expr;
use crate::fault::SyntaxFault;
use crate::source::{Source, next_place};
use dialect_lexer::{LONGEST_INPUT, Token, TokenList};
use p2c_text::{Dialect, Span, line_of};
use pascal_tree::Expr;
use std::alloc::Global;
use token_parsing::refusal::{ParseError, Refusal};

/// The greatest number of levels of nodes.
pub const LEVELS: u32 = 400;

/// The empty place at the end of a text.
pub fn end_of(file: u32, bytes: &[u8]) -> Span
    requires { length bytes.now ≤ LONGEST_INPUT }
    ensures { result ≡ spec.end_of file bytes.now }
{
    let end = bytes.len() as u32;
    Span {
        file,
        start: end,
        end,
        line: line_of(bytes, end),
    }
}

/// The place of the token from which so many are left.
fn place_left(source: &Source<'_>, tokens: &[Token], left: usize) -> Span
    ensures { result ≡ spec.place_left source.now.end (seen source.now.bytes.now tokens.now) left }
{
    let before = tokens.len().saturating_sub(left);
    next_place(source, &tokens[before..])
}

/// The fault of what was refused among these tokens.
pub fn fault_of(source: &Source<'_>, tokens: &[Token], error: ParseError) -> SyntaxFault
    ensures { spec.Means source.now.end (seen source.now.bytes.now tokens.now) error result }
{
    match error {
        ParseError::Memory(error) => SyntaxFault::Memory(error),
        ParseError::At(Refusal::Unexpected(left)) => {
            SyntaxFault::Unexpected(place_left(source, tokens, left))
        }
        ParseError::At(Refusal::TooDeep(left)) => {
            SyntaxFault::TooDeep(place_left(source, tokens, left))
        }
    }
}

/// An expression of so many levels from the token with the number `at` on, and the number of tokens
/// up to its end.
fn read_at(
    source: &Source<'_>,
    all: &[Token],
    at: usize,
    levels: u32,
) -> Result<(Expr, usize), SyntaxFault>
    requires { at ≤ length all.now }
    ensures { spec.Answers source.now.end (seen source.now.bytes.now all.now) (expressions.expr source.now.dialect source.now.end levels (drop at (seen source.now.bytes.now all.now))) result }
{
    match expr(source, &all[at..], levels) {
        Ok((expr, rest)) => Ok((expr, all.len().saturating_sub(rest.len()))),
        Err(error) => Err(fault_of(source, all, error)),
    }
}

/// The longest run of tokens from the token with the number `at` on with which an expression begins,
/// where it is one: its tree, and the number of tokens up to its end. `level` is the level of its
/// node.
pub fn expression(
    alloc: Global,
    dialect: Dialect,
    bytes: &[u8],
    tokens: &TokenList,
    at: usize,
    level: u32,
) -> Result<(Expr, usize), SyntaxFault>
    requires short { length bytes.now ≤ LONGEST_INPUT }
    requires lexes { Lexes dialect bytes.now tokens.now }
    requires within { at ≤ length tokens.now.tokens }
    requires some_level { 1 ≤ level }
    requires level { level ≤ 401 }
    ensures { spec.IsRead dialect bytes.now tokens.now at level result }
{
    let source = Source {
        alloc,
        dialect,
        bytes,
        end: end_of(tokens.file(), bytes),
    };
    read_at(&source, tokens.as_slice(), at, LEVELS + 1 - level)
}
