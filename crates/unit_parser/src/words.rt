//! The words with which parts begin.
ghost use Rattle.std.specs.Prelude.{◌≡◌};
ghost use Rattle.token_parsing.specs.Parser.{begins};
ghost use Rattle.expr_parser.specs.Tokens.{seen};
ghost use Rattle.unit_parser.specs.Dialects as dialects;
ghost use Rattle.unit_parser.specs.Blocks as blocks;
ghost use Rattle.unit_parser.specs.Files as files;

use dialect_lexer::{Token, TokenKind, Word};
use expr_parser::source::Source;
use p2c_text::Dialect;

pub fn has_value_expressions(dialect: Dialect) -> bool
    ensures { result ≡ dialects.has_value_expressions dialect }
{
    match dialect {
        Dialect::Turbo | Dialect::Hp => true,
        Dialect::Iso | Dialect::Ucsd => false,
    }
}

/// The word before the names of units that are used.
pub fn uses_word(dialect: Dialect) -> Word
    ensures { result ≡ dialects.uses_word dialect }
{
    match dialect {
        Dialect::Hp => Word::KwImport,
        Dialect::Iso | Dialect::Turbo | Dialect::Ucsd => Word::KwUses,
    }
}

fn is_routine_word(word: Word) -> Option<()>
    ensures { result ≡ blocks.routine_word_of word }
{
    match word {
        Word::KwProcedure | Word::KwFunction => Some(()),
        _ => None,
    }
}

fn is_declaration_word(word: Word) -> Option<()>
    ensures { result ≡ blocks.declaration_word_of word }
{
    match word {
        Word::KwLabel
        | Word::KwConst
        | Word::KwType
        | Word::KwVar
        | Word::KwProcedure
        | Word::KwFunction => Some(()),
        _ => None,
    }
}

fn is_public_word(word: Word) -> Option<()>
    ensures { result ≡ files.public_word_of word }
{
    match word {
        Word::KwConst | Word::KwType | Word::KwVar | Word::KwProcedure | Word::KwFunction => {
            Some(())
        }
        _ => None,
    }
}

/// Whether a routine is next.
#[tactic(auto, unfolding(token_parsing::specs::Parser::begins))]
pub fn is_routine(source: &Source<'_>, tokens: &[Token]) -> bool
    ensures { result ≡ begins blocks.routine_words (seen source.now.bytes.now tokens.now) }
{
    match tokens {
        [
            Token {
                kind: TokenKind::Word(found),
                ..
            },
            ..
        ] => is_routine_word(*found).is_some(),
        _ => false,
    }
}

/// Whether a declaration is next.
#[tactic(auto, unfolding(token_parsing::specs::Parser::begins))]
pub fn is_declaration(source: &Source<'_>, tokens: &[Token]) -> bool
    ensures { result ≡ begins blocks.declaration_words (seen source.now.bytes.now tokens.now) }
{
    match tokens {
        [
            Token {
                kind: TokenKind::Word(found),
                ..
            },
            ..
        ] => is_declaration_word(*found).is_some(),
        _ => false,
    }
}

/// Whether a declaration of an interface is next.
#[tactic(auto, unfolding(token_parsing::specs::Parser::begins))]
pub fn is_public(source: &Source<'_>, tokens: &[Token]) -> bool
    ensures { result ≡ begins files.public_words (seen source.now.bytes.now tokens.now) }
{
    match tokens {
        [
            Token {
                kind: TokenKind::Word(found),
                ..
            },
            ..
        ] => is_public_word(*found).is_some(),
        _ => false,
    }
}
