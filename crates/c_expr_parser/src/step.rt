//! The next token.
ghost use Rattle.std.specs.Prelude.{◌≡◌, nat_le};
ghost use Rattle.std.specs.Char as char_;
ghost use Rattle.std.specs.Str.Parse.{digits_value};
ghost use Rattle.c_grammar.specs.Seen.{tokens_of};
ghost use Rattle.c_expr_parser.specs.Classes.{same_word, same_mark, if_true};
ghost use Rattle.c_expr_parser.specs.Classes as spec;
ghost use Rattle.token_parsing.specs.Parser.{Gives, begins, one_of, rest};

use c_grammar::token::{CToken, Mark, Word};
use c_tree::Name;
use c_tree::operators::{CBinary, CUnary};
use std::alloc::Global;
use token_parsing::refusal::{ParseError, unexpected};
use tree_lists::Items;

#[tactic(auto, unfolding(crate::specs::Classes::same_mark))]
fn are_same_marks(found: Mark, wanted: Mark) -> bool
    ensures { result ≡ same_mark found wanted }
{
    found == wanted
}

#[tactic(auto, unfolding(crate::specs::Classes::same_word))]
fn are_same_words(found: Word, wanted: Word) -> bool
    ensures { result ≡ same_word found wanted }
{
    found == wanted
}

/// Whether this mark is next.
#[tactic(auto, unfolding(token_parsing::specs::Parser::begins))]
pub fn is(tokens: &[CToken<'_>], wanted: Mark) -> bool
    ensures { result ≡ begins (spec.marks wanted) (tokens_of tokens.now) }
{
    match tokens {
        [CToken::Sign(found), ..] => are_same_marks(*found, wanted),
        _ => false,
    }
}

/// Whether this word is next.
#[tactic(auto, unfolding(token_parsing::specs::Parser::begins))]
pub fn is_word(tokens: &[CToken<'_>], wanted: Word) -> bool
    ensures { result ≡ begins (spec.words wanted) (tokens_of tokens.now) }
{
    match tokens {
        [CToken::Quoted(found), ..] => are_same_words(*found, wanted),
        _ => false,
    }
}

/// Whether a name is next.
#[tactic(auto, unfolding(token_parsing::specs::Parser::begins))]
pub fn is_name(tokens: &[CToken<'_>]) -> bool
    ensures { result ≡ begins spec.names (tokens_of tokens.now) }
{
    match tokens {
        [CToken::Identifier(_), ..] => true,
        _ => false,
    }
}

/// The tokens after this mark.
#[tactic(auto, unfolding(token_parsing::specs::Parser::one_of))]
pub fn expect<'a>(tokens: &'a [CToken<'a>], wanted: Mark) -> Result<&'a [CToken<'a>], ParseError>
    ensures { Gives (λ x. (tt, tokens_of x.now)) result (spec.expect wanted (tokens_of tokens.now)) }
{
    match tokens {
        [CToken::Sign(found), behind @ ..] => {
            if are_same_marks(*found, wanted) {
                Ok(behind)
            } else {
                Err(unexpected(tokens))
            }
        }
        _ => Err(unexpected(tokens)),
    }
}

/// The tokens after this word.
#[tactic(auto, unfolding(token_parsing::specs::Parser::one_of))]
pub fn expect_word<'a>(
    tokens: &'a [CToken<'a>],
    wanted: Word,
) -> Result<&'a [CToken<'a>], ParseError>
    ensures { Gives (λ x. (tt, tokens_of x.now)) result (spec.expect_word wanted (tokens_of tokens.now)) }
{
    match tokens {
        [CToken::Quoted(found), behind @ ..] => {
            if are_same_words(*found, wanted) {
                Ok(behind)
            } else {
                Err(unexpected(tokens))
            }
        }
        _ => Err(unexpected(tokens)),
    }
}

/// A name, and the tokens after it.
#[tactic(auto, unfolding(token_parsing::specs::Parser::one_of))]
pub fn name<'a>(
    alloc: Global,
    tokens: &'a [CToken<'a>],
) -> Result<(Name, &'a [CToken<'a>]), ParseError>
    ensures { Gives (λ x. (x.0, tokens_of x.1.now)) result (one_of spec.names (tokens_of tokens.now)) }
{
    match tokens {
        [CToken::Identifier(bytes), behind @ ..] => Ok((Items::from_slice(alloc, bytes)?, behind)),
        _ => Err(unexpected(tokens)),
    }
}

/// The value of a digit; 36 for a byte that is neither a digit nor a letter.
fn digit_value(byte: u8) -> u128
    ensures { result ≡ char_.digit_value byte }
{
    match byte {
        b'0'..=b'9' => u128::from(byte - b'0'),
        b'A'..=b'Z' => u128::from(byte - b'A') + 10,
        b'a'..=b'z' => u128::from(byte - b'a') + 10,
        _ => 36,
    }
}

/// The number that the digits write, if it is at most `most`.
fn value_at_most(digits: &[u8], most: u64) -> Option<u64>
    ensures { result ≡ if_true (digits_value 10 digits.now) (nat_le (digits_value 10 digits.now) most) }
{
    let mut value: u128 = 0;
    let mut rest = digits;
    while let [digit, behind @ ..] = rest {
        value = value * 10 + digit_value(*digit);
        if value > u128::from(most) {
            return None;
        }
        rest = behind;
    }
    Some(value as u64)
}

/// A number of at most `most`, and the tokens after it.
#[tactic(auto, unfolding(token_parsing::specs::Parser::one_of))]
pub fn number<'a>(
    tokens: &'a [CToken<'a>],
    most: u64,
) -> Result<(u64, &'a [CToken<'a>]), ParseError>
    ensures { Gives (λ x. (x.0, tokens_of x.1.now)) result (one_of (spec.numbers most) (tokens_of tokens.now)) }
{
    match tokens {
        [CToken::Numeral(digits), behind @ ..] => match value_at_most(digits, most) {
            Some(value) => Ok((value, behind)),
            None => Err(unexpected(tokens)),
        },
        _ => Err(unexpected(tokens)),
    }
}

/// A sign before one operand, and the tokens after it.
#[tactic(auto, unfolding(token_parsing::specs::Parser::one_of))]
pub fn unary<'a>(tokens: &'a [CToken<'a>]) -> Result<(CUnary, &'a [CToken<'a>]), ParseError>
    ensures { Gives (λ x. (x.0, tokens_of x.1.now)) result (one_of spec.unaries (tokens_of tokens.now)) }
{
    match tokens {
        [CToken::Sign(Mark::Minus), behind @ ..] => Ok((CUnary::Minus, behind)),
        [CToken::Sign(Mark::Exclamation), behind @ ..] => Ok((CUnary::Not, behind)),
        [CToken::Sign(Mark::Tilde), behind @ ..] => Ok((CUnary::Complement, behind)),
        _ => Err(unexpected(tokens)),
    }
}

/// Whether a sign before one operand is next.
#[tactic(auto, unfolding(token_parsing::specs::Parser::begins))]
pub fn is_unary(tokens: &[CToken<'_>]) -> bool
    ensures { result ≡ begins spec.unaries (tokens_of tokens.now) }
{
    match tokens {
        [
            CToken::Sign(Mark::Minus | Mark::Exclamation | Mark::Tilde),
            ..
        ] => true,
        _ => false,
    }
}

fn binary_of(mark: Mark) -> Option<CBinary>
    ensures { result ≡ spec.binary_of mark }
{
    match mark {
        Mark::Plus => Some(CBinary::Add),
        Mark::Minus => Some(CBinary::Subtract),
        Mark::Star => Some(CBinary::Multiply),
        Mark::Slash => Some(CBinary::Divide),
        Mark::Percent => Some(CBinary::Remainder),
        Mark::Equal => Some(CBinary::Equal),
        Mark::NotEqual => Some(CBinary::NotEqual),
        Mark::Less => Some(CBinary::Less),
        Mark::AtMost => Some(CBinary::AtMost),
        Mark::Greater => Some(CBinary::Greater),
        Mark::AtLeast => Some(CBinary::AtLeast),
        Mark::AndAnd => Some(CBinary::And),
        Mark::OrOr => Some(CBinary::Or),
        Mark::Ampersand => Some(CBinary::BitAnd),
        Mark::Bar => Some(CBinary::BitOr),
        Mark::Caret => Some(CBinary::BitXor),
        Mark::ShiftLeft => Some(CBinary::ShiftLeft),
        Mark::ShiftRight => Some(CBinary::ShiftRight),
        _ => None,
    }
}

/// An operator between two operands, and the tokens after it.
#[tactic(auto, unfolding(token_parsing::specs::Parser::one_of))]
pub fn binary<'a>(tokens: &'a [CToken<'a>]) -> Result<(CBinary, &'a [CToken<'a>]), ParseError>
    ensures { Gives (λ x. (x.0, tokens_of x.1.now)) result (one_of spec.binaries (tokens_of tokens.now)) }
{
    match tokens {
        [CToken::Sign(mark), behind @ ..] => match binary_of(*mark) {
            Some(operator) => Ok((operator, behind)),
            None => Err(unexpected(tokens)),
        },
        _ => Err(unexpected(tokens)),
    }
}

/// The same tokens: a loop takes on what a `Result` gave by this call.
pub fn same<'a>(tokens: &'a [CToken<'a>]) -> &'a [CToken<'a>]
    ensures { result.now ≡ tokens.now }
{
    tokens
}

/// The tokens after the next.
pub fn after<'a>(tokens: &'a [CToken<'a>]) -> &'a [CToken<'a>]
    ensures { tokens_of result.now ≡ rest (tokens_of tokens.now) }
{
    match tokens {
        [] => tokens,
        [_, behind @ ..] => behind,
    }
}
