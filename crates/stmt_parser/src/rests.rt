//! What may stand after the arms of a `case`.
ghost use Rattle.std.specs.Prelude.{◌≡◌};
ghost use Rattle.expr_parser.specs.Parsing.{Parses};
ghost use Rattle.expr_parser.specs.Tokens.{seen};
ghost use Rattle.expr_parser.specs.Dialects as dialects;
ghost use Rattle.stmt_parser.specs.Writing as writing;
ghost use Rattle.stmt_parser.specs.Cases as spec;

use dialect_lexer::{Symbol, Token, Word};
use expr_parser::constants::is_constant;
use expr_parser::operators::after;
use expr_parser::source::Source;
use expr_parser::step::{expect, is, is_word};
use p2c_text::Dialect;
use token_parsing::refusal::ParseError;

fn has_rest(dialect: Dialect) -> bool
    ensures { result ≡ dialects.has_rest dialect }
{
    match dialect {
        Dialect::Turbo | Dialect::Hp => true,
        Dialect::Iso | Dialect::Ucsd => false,
    }
}

/// The word before what a `case` does without a matching label.
pub fn rest_word(dialect: Dialect) -> Word
    ensures { result ≡ writing.rest_word dialect }
{
    match dialect {
        Dialect::Hp => Word::KwOtherwise,
        Dialect::Iso | Dialect::Turbo | Dialect::Ucsd => Word::KwElse,
    }
}

/// Whether what a `case` does without a matching label is next.
pub fn is_rest(source: &Source<'_>, tokens: &[Token]) -> bool
    ensures { result ≡ spec.begins_rest source.now.dialect (seen source.now.bytes.now tokens.now) }
{
    has_rest(source.dialect) && is_word(source, tokens, rest_word(source.dialect))
}

/// Whether a semicolon and an arm are next.
pub fn is_next_arm(source: &Source<'_>, tokens: &[Token]) -> bool
    ensures { result ≡ spec.begins_next_arm (seen source.now.bytes.now tokens.now) }
{
    is(source, tokens, Symbol::Semicolon) && is_constant(source, after(source, tokens))
}

/// A semicolon, if it is next, and whether it was.
#[tactic(auto, unfolding(crate::specs::Cases::optional_semicolon))]
pub fn optional_semicolon<'t>(
    source: &Source<'_>,
    tokens: &'t [Token],
) -> Result<(bool, &'t [Token]), ParseError>
    ensures { Parses source.now tokens.now result spec.optional_semicolon }
{
    if is(source, tokens, Symbol::Semicolon) {
        let rest = expect(source, tokens, Symbol::Semicolon)?;
        return Ok((true, rest));
    }
    Ok((false, tokens))
}
