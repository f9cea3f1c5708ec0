//! What stays the same while a text is parsed, and where its parts stand.
ghost use Rattle.std.specs.Prelude.{◌≡◌};
ghost use Rattle.std.specs.Option.{option_map};
ghost use Rattle.expr_parser.specs.Tokens.{seen, spelling_of};
ghost use Rattle.expr_parser.specs.Spans as spec;

use dialect_lexer::Token;
use p2c_text::{Dialect, Span};
use std::alloc::Global;

/// A text that is parsed.
#[derive(Drop)]
pub struct Source<'s> {
    pub alloc: Global,
    pub dialect: Dialect,
    pub bytes: &'s [u8],
    /// The empty place at the end of the text.
    pub end: Span,
}

/// The bytes at a place. What lies outside of the text is left out.
pub fn spelling<'s>(bytes: &'s [u8], place: Span) -> &'s [u8]
    ensures { result.now ≡ spelling_of bytes.now place }
{
    let end = bytes.len().min(place.end as usize);
    let start = end.min(place.start as usize);
    &bytes[start..end]
}

/// The place of the next token, or of the end of the text.
#[tactic(auto, unfolding(crate::specs::Spans::next_place))]
pub fn next_place(source: &Source<'_>, tokens: &[Token]) -> Span
    ensures { result ≡ spec.next_place source.now.end (seen source.now.bytes.now tokens.now) }
{
    match tokens {
        [first, ..] => first.span,
        [] => source.end,
    }
}

/// The end of the last token before the rest.
fn last_end(source: &Source<'_>, from: &[Token], rest: &[Token]) -> Option<u32>
    ensures { result ≡ option_map (λ t. t.span.end) (spec.last_of (seen source.now.bytes.now from.now) (seen source.now.bytes.now rest.now)) }
{
    if rest.len() < from.len() {
        return Some(from[from.len() - rest.len() - 1].span.end);
    }
    None
}

fn up_to(first: Span, last: Option<u32>) -> Span
    ensures { result ≡ spec.up_to_end first last }
{
    Span {
        end: last.unwrap_or(first.start),
        ..first
    }
}

/// The place from the first of these tokens to the last before the rest.
#[tactic(auto, unfolding(crate::specs::Spans::span_between))]
pub fn span_between(source: &Source<'_>, from: &[Token], rest: &[Token]) -> Span
    ensures { result ≡ spec.span_between source.now.end (seen source.now.bytes.now from.now) (seen source.now.bytes.now rest.now) }
{
    up_to(next_place(source, from), last_end(source, from, rest))
}
