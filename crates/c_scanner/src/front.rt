//! What stands at the front of a text.

ghost use Rattle.std.specs.Prelude.{◌≡◌, ◌∷◌};
ghost use Rattle.c_scanner.specs.Cut as spec;
ghost use Rattle.c_scanner.specs.Fronts.{IsFront};
ghost use Rattle.c_scanner.specs.Seen.{found_of};

use crate::bytes::{Start, digit_run, name_run, start_of};
use crate::marks::{mark_of, pair_of};
use crate::words::word_of;
use c_grammar::token::{CToken, Mark};

#[derive(Clone, Copy)]
pub enum Front<'a> {
    /// A byte of white space.
    White,
    /// A token, and the number of its bytes.
    Piece(CToken<'a>, usize),
    /// A byte with which nothing begins, or the end of the text.
    Nothing,
}

#[tactic(auto, unfolding(crate::specs::Cut::cut_name))]
fn cut_name(bytes: &[u8]) -> Front<'_>
    ensures { found_of result ≡ spec.cut_name bytes.now }
{
    let n = name_run(bytes);
    let name = &bytes[..n];
    let token = match word_of(name) {
        None => CToken::Identifier(name),
        Some(word) => CToken::Quoted(word),
    };
    Front::Piece(token, n)
}

#[tactic(auto, unfolding(crate::specs::Cut::cut_number))]
fn cut_number(bytes: &[u8]) -> Front<'_>
    ensures { found_of result ≡ spec.cut_number bytes.now }
{
    let n = digit_run(bytes);
    Front::Piece(CToken::Numeral(&bytes[..n]), n)
}

fn single<'a>(found: Option<Mark>) -> Front<'a>
    ensures { found_of result ≡ spec.single found }
{
    match found {
        None => Front::Nothing,
        Some(mark) => Front::Piece(CToken::Sign(mark), 1),
    }
}

#[tactic(auto, unfolding(crate::specs::Cut::cut_mark))]
fn cut_mark<'a>(first: u8, after: &[u8]) -> Front<'a>
    ensures { found_of result ≡ spec.cut_mark first after.now }
{
    match after {
        [] => single(mark_of(first)),
        [second, ..] => match pair_of(first, *second) {
            Some(both) => Front::Piece(CToken::Sign(both), 2),
            None => single(mark_of(first)),
        },
    }
}

#[tactic(auto, unfolding(crate::specs::Cut::cut_by))]
fn cut(bytes: &[u8]) -> Front<'_>
    ensures { found_of result ≡ spec.cut bytes.now }
{
    match bytes {
        [] => Front::Nothing,
        [first, after @ ..] => match start_of(*first) {
            Start::White => Front::White,
            Start::Letter => cut_name(bytes),
            Start::Zero => Front::Piece(CToken::Numeral(&bytes[..1]), 1),
            Start::Digit => cut_number(bytes),
            Start::Other => cut_mark(*first, after),
        },
    }
}

/// What stands at the front of the bytes.
pub fn front_of(bytes: &[u8]) -> Front<'_>
    ensures { IsFront bytes.now (found_of result) }
{
    cut(bytes)
}
