//! The tree of a list of tokens.
ghost use Rattle.std.specs.Prelude.{◌≡◌, ◌+◌, ◌≤◌, length};
ghost use Rattle.c_grammar.specs.Seen.{tokens_of};
ghost use Rattle.c_parser.specs.Parsed.{IsParsed};

use crate::fault::ParseFault;
use crate::program::program;
use c_grammar::token::CToken;
use c_tree::program::CProgram;
use std::alloc::Global;
use token_parsing::refusal::{ParseError, Refusal};

/// How many tokens are before the last so many.
fn before(tokens: &[CToken<'_>], left: usize) -> usize
    requires { left ≤ length tokens.now }
    ensures { result + left ≡ length tokens.now }
{
    tokens.len() - left
}

/// The tree that the tokens spell. The place of a fault is the number of tokens before it.
pub fn parse<'a>(alloc: Global, tokens: &'a [CToken<'a>]) -> Result<CProgram, ParseFault>
    ensures { IsParsed (tokens_of tokens.now) result }
{
    match program(alloc, tokens) {
        Ok(program) => Ok(program),
        Err(ParseError::Memory(error)) => Err(ParseFault::Memory(error)),
        Err(ParseError::At(Refusal::Unexpected(left))) => Err(ParseFault::Unexpected {
            token: before(tokens, left),
        }),
        Err(ParseError::At(Refusal::TooDeep(left))) => Err(ParseFault::TooDeep {
            token: before(tokens, left),
        }),
    }
}
