//! Cutting a text into tokens.

ghost use Rattle.std.specs.Prelude.{◌≡◌, ◌≤◌, ◌++◌, ◌∷◌, [], length, OnOk, IfOk, IfErr, MatchResult, Ok, Err};
ghost use Rattle.c_grammar.specs.Token.{IsTokens, placed};
ghost use Rattle.c_grammar.specs.Seen.{token_of, tokens_of, AreTokens};
ghost use Rattle.c_scanner.specs.Head as head;
ghost use Rattle.c_scanner.specs.Scan.{IsRefused};
ghost use Rattle.c_scanner.specs.Seen.{at_places, seen};

use crate::front::{Front, front_of};
use crate::text::PlacedTokens;
use c_grammar::token::CToken;
use std::alloc::{AllocError, Global};

/// The greatest number of bytes of a text that is cut.
pub const LONGEST_INPUT: usize = 67_108_864;

/// The lines with which each text begins.
const HEAD_LINES: &[u8] =
    b"/* p2c 1 */\n#include <stdint.h>\n#include <stdio.h>\n#include <stdlib.h>\n";

/// Why a text has no tokens.
#[derive(Drop)]
pub enum ScanFault {
    /// The first byte that differs from the head lines, or with which nothing begins, or the end of
    /// a text that ends within the head lines.
    At { place: u32 },
    Memory(AllocError),
}

/// What follows `lines`, or how many bytes agree with them.
#[tactic(auto, unfolding(crate::specs::Head::strip))]
fn after_lines<'a>(lines: &[u8], bytes: &'a [u8]) -> Result<&'a [u8], usize>
    ensures stripped { MatchResult result (λ body. head.strip lines.now bytes.now ≡ Ok body.now) (λ n. head.strip lines.now bytes.now ≡ Err n) }
    ensures within { IfErr result (λ n. n ≤ length bytes.now) }
{
    let mut wanted = lines;
    let mut rest = bytes;
    let mut n: usize = 0;
    while let [line, lines_after @ ..] = wanted {
        match rest {
            [byte, after @ ..] if *byte == *line => {
                wanted = lines_after;
                rest = after;
                n += 1;
            }
            _ => return Err(n),
        }
    }
    Ok(rest)
}

fn put<'a>(
    tokens: &mut Vec<CToken<'a>>,
    places: &mut Vec<u32>,
    token: CToken<'a>,
    place: u32,
) -> Result<(), AllocError>
    requires { length places.old.items ≡ length tokens.old.items }
    ensures put { OnOk result (at_places tokens.new.items places.new.items ≡ at_places tokens.old.items places.old.items ++ placed (token_of token.entry) place ∷ []) }
    ensures as_many { OnOk result (length places.new.items ≡ length tokens.new.items) }
{
    tokens.push(token)?;
    places.push(place)?;
    Ok(())
}

/// The tokens of a text.
pub fn tokens<'a>(alloc: Global, bytes: &'a [u8]) -> Result<PlacedTokens<'a>, ScanFault>
    requires { length bytes.now ≤ LONGEST_INPUT }
    ensures tokens { IfOk result (λ text. IsTokens bytes.now (seen text)) }
    ensures names { IfOk result (λ text. AreTokens (tokens_of text.tokens.items)) }
    ensures fault { IfErr result (IsRefused bytes.now) }
{
    let mut rest = match after_lines(HEAD_LINES, bytes) {
        Ok(body) => body,
        Err(n) => return Err(ScanFault::At { place: n as u32 }),
    };
    let mut tokens = Vec::new(alloc);
    let mut places = Vec::new(alloc);
    let mut place = HEAD_LINES.len() as u32;
    while !rest.is_empty() {
        let (token, len) = match front_of(rest) {
            Front::White => {
                rest = rest.split_at(1).1;
                place += 1;
                continue;
            }
            Front::Piece(token, len) => (token, len),
            Front::Nothing => return Err(ScanFault::At { place }),
        };
        put(&mut tokens, &mut places, token, place).map_err(ScanFault::Memory)?;
        rest = rest.split_at(len).1;
        place += len as u32;
    }
    Ok(PlacedTokens { tokens, places })
}
