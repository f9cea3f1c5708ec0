//! Types and casts.
ghost use Rattle.std.specs.Prelude.{◌≡◌, Ok};
ghost use Rattle.c_tree.specs.Tree.{Named};
ghost use Rattle.c_grammar.specs.Seen.{tokens_of};
ghost use Rattle.c_expr_parser.specs.Types as spec;
ghost use Rattle.token_parsing.specs.Parser.{Gives, and_then, one_of};
ghost use Rattle.c_expr_parser.specs.Classes.{names, scalars, scalar_casts};

use crate::step::{expect, expect_word, is, is_name, is_word, name, same};
use c_grammar::token::{CToken, Mark, Word};
use c_tree::operators::CCast;
use c_tree::types::CType;
use std::alloc::Global;
use token_parsing::refusal::{ParseError, unexpected};

/// `struct name`.
#[tactic(auto, unfolding(crate::specs::Types::struct_type))]
fn struct_type<'a>(
    alloc: Global,
    tokens: &'a [CToken<'a>],
) -> Result<(CType, &'a [CToken<'a>]), ParseError>
    ensures { Gives (λ x. (x.0, tokens_of x.1.now)) result (spec.struct_type (tokens_of tokens.now)) }
{
    let rest = expect_word(tokens, Word::Struct)?;
    let (name, rest) = name(alloc, rest)?;
    Ok((CType::structure(name), rest))
}

/// `unsigned char`.
#[tactic(auto, unfolding(crate::specs::Types::byte_type))]
fn byte_type<'a>(tokens: &'a [CToken<'a>]) -> Result<(CType, &'a [CToken<'a>]), ParseError>
    ensures { Gives (λ x. (x.0, tokens_of x.1.now)) result (spec.byte_type (tokens_of tokens.now)) }
{
    let rest = expect_word(tokens, Word::Unsigned)?;
    let rest = expect_word(rest, Word::Char)?;
    Ok((CType::byte(), rest))
}

/// `void *`.
#[tactic(auto, unfolding(crate::specs::Types::void_pointer))]
fn void_pointer<'a>(tokens: &'a [CToken<'a>]) -> Result<(CType, &'a [CToken<'a>]), ParseError>
    ensures { Gives (λ x. (x.0, tokens_of x.1.now)) result (spec.void_pointer (tokens_of tokens.now)) }
{
    let rest = expect_word(tokens, Word::Void)?;
    let rest = expect(rest, Mark::Star)?;
    Ok((CType::void_pointer(), rest))
}

/// `int64_t` and `uint64_t`.
#[tactic(auto, unfolding(token_parsing::specs::Parser::one_of))]
fn scalar<'a>(tokens: &'a [CToken<'a>]) -> Result<(CType, &'a [CToken<'a>]), ParseError>
    ensures { Gives (λ x. (x.0, tokens_of x.1.now)) result (one_of scalars (tokens_of tokens.now)) }
{
    match tokens {
        [CToken::Quoted(Word::Int64Type), after @ ..] => Ok((CType::int(), after)),
        [CToken::Quoted(Word::Uint64Type), after @ ..] => Ok((CType::word(), after)),
        _ => Err(unexpected(tokens)),
    }
}

/// The name of a typedef.
fn named_type<'a>(
    alloc: Global,
    tokens: &'a [CToken<'a>],
) -> Result<(CType, &'a [CToken<'a>]), ParseError>
    ensures { Gives (λ x. (x.0, tokens_of x.1.now)) result (and_then (one_of names (tokens_of tokens.now)) (λ n s. Ok (Named n, s))) }
{
    let (name, rest) = name(alloc, tokens)?;
    Ok((CType::named(name), rest))
}

/// A type before its stars.
#[tactic(auto, unfolding(crate::specs::Types::base_type))]
fn base_type<'a>(
    alloc: Global,
    tokens: &'a [CToken<'a>],
) -> Result<(CType, &'a [CToken<'a>]), ParseError>
    ensures { Gives (λ x. (x.0, tokens_of x.1.now)) result (spec.base_type (tokens_of tokens.now)) }
{
    if is_name(tokens) {
        return named_type(alloc, tokens);
    }
    if is_word(tokens, Word::Struct) {
        return struct_type(alloc, tokens);
    }
    if is_word(tokens, Word::Unsigned) {
        return byte_type(tokens);
    }
    if is_word(tokens, Word::Void) {
        return void_pointer(tokens);
    }
    scalar(tokens)
}

/// A pointer to the type, where a star is next.
#[tactic(auto, unfolding(crate::specs::Types::pointer_to))]
fn pointer_to<'a>(
    tokens: &'a [CToken<'a>],
    of: CType,
) -> Result<(CType, &'a [CToken<'a>]), ParseError>
    ensures { Gives (λ x. (x.0, tokens_of x.1.now)) result (spec.pointer_to of (tokens_of tokens.now)) }
{
    let rest = expect(tokens, Mark::Star)?;
    Ok((CType::pointer(of)?, rest))
}

/// The stars after a type.
pub fn stars<'a>(
    tokens: &'a [CToken<'a>],
    of: CType,
) -> Result<(CType, &'a [CToken<'a>]), ParseError>
    ensures { Gives (λ x. (x.0, tokens_of x.1.now)) result (spec.stars of (tokens_of tokens.now)) }
{
    let mut of = of;
    let mut rest = tokens;
    for _turn in 0..tokens.len() {
        if !is(rest, Mark::Star) {
            return Ok((of, rest));
        }
        let (pointer, after) = pointer_to(rest, of)?;
        of = pointer;
        rest = same(after);
    }
    Ok((of, rest))
}

#[tactic(auto, unfolding(crate::specs::Types::object_type))]
pub fn object_type<'a>(
    alloc: Global,
    tokens: &'a [CToken<'a>],
) -> Result<(CType, &'a [CToken<'a>]), ParseError>
    ensures { Gives (λ x. (x.0, tokens_of x.1.now)) result (spec.object_type (tokens_of tokens.now)) }
{
    let (of, rest) = base_type(alloc, tokens)?;
    stars(rest, of)
}

/// `void`, and `void *` with further stars.
#[tactic(auto, unfolding(crate::specs::Types::after_void))]
fn after_void<'a>(tokens: &'a [CToken<'a>]) -> Result<(Option<CType>, &'a [CToken<'a>]), ParseError>
    ensures { Gives (λ x. (x.0, tokens_of x.1.now)) result (spec.after_void (tokens_of tokens.now)) }
{
    let rest = expect_word(tokens, Word::Void)?;
    if is(rest, Mark::Star) {
        let rest = expect(rest, Mark::Star)?;
        let (of, rest) = stars(rest, CType::void_pointer())?;
        return Ok((Some(of), rest));
    }
    Ok((None, rest))
}

/// The result of a function: `void`, or a type.
#[tactic(auto, unfolding(crate::specs::Types::result_type))]
pub fn result_type<'a>(
    alloc: Global,
    tokens: &'a [CToken<'a>],
) -> Result<(Option<CType>, &'a [CToken<'a>]), ParseError>
    ensures { Gives (λ x. (x.0, tokens_of x.1.now)) result (spec.result_type (tokens_of tokens.now)) }
{
    if is_word(tokens, Word::Void) {
        return after_void(tokens);
    }
    let (of, rest) = object_type(alloc, tokens)?;
    Ok((Some(of), rest))
}

/// `struct name *`.
#[tactic(auto, unfolding(crate::specs::Types::struct_pointer))]
fn struct_pointer<'a>(
    alloc: Global,
    tokens: &'a [CToken<'a>],
) -> Result<(CCast, &'a [CToken<'a>]), ParseError>
    ensures { Gives (λ x. (x.0, tokens_of x.1.now)) result (spec.struct_pointer (tokens_of tokens.now)) }
{
    let rest = expect_word(tokens, Word::Struct)?;
    let (name, rest) = name(alloc, rest)?;
    let rest = expect(rest, Mark::Star)?;
    Ok((CCast::StructPointer(name), rest))
}

/// `void *`, in a cast.
#[tactic(auto, unfolding(crate::specs::Types::void_cast))]
fn void_cast<'a>(tokens: &'a [CToken<'a>]) -> Result<(CCast, &'a [CToken<'a>]), ParseError>
    ensures { Gives (λ x. (x.0, tokens_of x.1.now)) result (spec.void_cast (tokens_of tokens.now)) }
{
    let rest = expect_word(tokens, Word::Void)?;
    let rest = expect(rest, Mark::Star)?;
    Ok((CCast::VoidPointer, rest))
}

/// `int64_t` and `uint64_t`, in a cast.
#[tactic(auto, unfolding(token_parsing::specs::Parser::one_of))]
fn scalar_cast<'a>(tokens: &'a [CToken<'a>]) -> Result<(CCast, &'a [CToken<'a>]), ParseError>
    ensures { Gives (λ x. (x.0, tokens_of x.1.now)) result (one_of scalar_casts (tokens_of tokens.now)) }
{
    match tokens {
        [CToken::Quoted(Word::Int64Type), after @ ..] => Ok((CCast::Int, after)),
        [CToken::Quoted(Word::Uint64Type), after @ ..] => Ok((CCast::Word, after)),
        _ => Err(unexpected(tokens)),
    }
}

/// What a cast names.
#[tactic(auto, unfolding(crate::specs::Types::cast_type))]
pub fn cast_type<'a>(
    alloc: Global,
    tokens: &'a [CToken<'a>],
) -> Result<(CCast, &'a [CToken<'a>]), ParseError>
    ensures { Gives (λ x. (x.0, tokens_of x.1.now)) result (spec.cast_type (tokens_of tokens.now)) }
{
    if is_word(tokens, Word::Struct) {
        return struct_pointer(alloc, tokens);
    }
    if is_word(tokens, Word::Void) {
        return void_cast(tokens);
    }
    scalar_cast(tokens)
}
