//! Cutting a text into tokens.

ghost use Rattle.std.specs.Prelude.{◌≡◌, ◌≤◌, ◌∷◌, length, OnOk, IfOk, IfErr, MatchResult, [], alloc_error, slice_range};
ghost use Rattle.dialect_lexer.specs.Patterns.{IsFront};
ghost use Rattle.dialect_lexer.specs.Tokens as spec;

use crate::fault::LexFault;
use crate::piece::{Flaw, Piece, PieceKind, cut};
use crate::token::{Token, TokenKind, TokenList};
use p2c_text::{Dialect, LINE_END, Span};
use std::alloc::{AllocError, Global};

/// The greatest number of bytes of a text that is cut.
pub const LONGEST_INPUT: usize = 8_388_608;

/// About how many bytes of a text make a token, with what is between tokens.
const BYTES_OF_A_TOKEN: usize = 4;

/// No tokens yet, and room for about those of a text of this length.
fn with_room(alloc: Global, length: usize) -> Result<Vec<Token>, LexFault>
    ensures { MatchResult result (λ tokens. tokens.items ≡ []) (λ fault. fault ≡ LexFault.Memory alloc_error) }
{
    Vec::with_capacity(alloc, length / BYTES_OF_A_TOKEN).map_err(LexFault::Memory)
}

/// The piece or the fault at the front of `first` and `after`.
fn front(dialect: Dialect, first: u8, after: &[u8]) -> Result<Piece, Flaw>
    ensures { IsFront dialect (first ∷ after.now) result }
{
    cut(dialect, first, after)
}

fn line_ends(bytes: &[u8]) -> usize
    ensures value { result ≡ spec.line_ends bytes.now }
    ensures within { result ≤ length bytes.now }
{
    bytes.iter().filter(|byte| **byte == LINE_END).count()
}

/// The line ends of a piece of this kind. Only separators have any.
fn line_ends_of(kind: PieceKind, bytes: &[u8]) -> usize
    ensures value { result ≡ spec.line_ends_of kind bytes.now }
    ensures within { result ≤ length bytes.now }
{
    match kind {
        PieceKind::Separator => line_ends(bytes),
        PieceKind::Part | PieceKind::Token(_) => 0,
    }
}

fn put_token(tokens: &mut Vec<Token>, kind: TokenKind, span: Span) -> Result<(), AllocError>
    ensures { OnOk result (tokens.new.items ≡ spec.with_token tokens.old.items kind span) }
{
    tokens.push(Token { kind, span })?;
    Ok(())
}

fn is_touched(token: Token, place: Span) -> bool
    ensures { result ≡ spec.is_touched token place }
{
    matches!(token.kind, TokenKind::Text) && token.span.end == place.start
}

/// Puts a part of a text behind the tokens, or to the text that it touches.
fn put_part(tokens: &mut Vec<Token>, span: Span) -> Result<(), AllocError>
    ensures { OnOk result (tokens.new.items ≡ spec.with_part tokens.old.items span) }
{
    let before = tokens.len();
    match tokens.last().copied() {
        Some(last) if is_touched(last, span) => {
            tokens[before - 1] = Token {
                kind: TokenKind::Text,
                span: Span {
                    end: span.end,
                    ..last.span
                },
            };
            Ok(())
        }
        _ => put_token(tokens, TokenKind::Text, span),
    }
}

fn put_piece(tokens: &mut Vec<Token>, kind: PieceKind, span: Span) -> Result<(), AllocError>
    ensures { OnOk result (tokens.new.items ≡ spec.with_piece tokens.old.items kind span) }
{
    match kind {
        PieceKind::Separator => Ok(()),
        PieceKind::Part => put_part(tokens, span),
        PieceKind::Token(kind) => put_token(tokens, kind, span),
    }
}

/// Cuts a text into its tokens. `file` is the number that each span has.
pub fn tokens(
    alloc: Global,
    dialect: Dialect,
    file: u32,
    bytes: &[u8],
) -> Result<TokenList, LexFault>
    requires { length bytes.now ≤ LONGEST_INPUT }
    ensures file { IfOk result (λ list. list.file ≡ file) }
    ensures tokens { IfOk result (spec.Lexes dialect bytes.now) }
    ensures fault { IfErr result (spec.IsRefused dialect file bytes.now) }
{
    let mut tokens = with_room(alloc, bytes.len())?;
    let mut rest = bytes;
    let mut start = 0u32;
    let mut line = 1u32;
    while let [first, after @ ..] = rest {
        let piece = match front(dialect, *first, after) {
            Ok(piece) => piece,
            Err(flaw) => {
                let end = start + flaw.len as u32;
                return Err(LexFault::At {
                    kind: flaw.kind,
                    span: Span {
                        file,
                        start,
                        end,
                        line,
                    },
                });
            }
        };
        let end = start + piece.len as u32;
        let span = Span {
            file,
            start,
            end,
            line,
        };
        put_piece(&mut tokens, piece.kind, span).map_err(LexFault::Memory)?;
        let (taken, others) = rest.split_at(piece.len);
        line += line_ends_of(piece.kind, taken) as u32;
        start = end;
        rest = others;
    }
    Ok(TokenList::new(file, tokens))
}

/// The bytes of a token.
pub fn text_of<'a>(bytes: &'a [u8], token: &Token) -> &'a [u8]
    requires within { token.now.span.end ≤ length bytes.now }
    requires ordered { token.now.span.start ≤ token.now.span.end }
    ensures { result.now ≡ slice_range bytes.now token.now.span.start token.now.span.end }
{
    &bytes[token.span.start as usize..token.span.end as usize]
}
