//! Where runs of bytes end, and what has been opened.

ghost use Rattle.std.specs.Prelude.{◌≡◌, ◌≤◌, ◌<◌, ◌+◌, ◌^◌, length, IfSome};
ghost use Rattle.dialect_lexer.specs.Bytes as alphabet;
ghost use Rattle.dialect_lexer.specs.Ends as spec;
ghost use Rattle.dialect_lexer.specs.Cut as cut;

use crate::bytes::{Base, digit_value, is_digit, is_digit_in, is_in_line, is_name_byte};
use p2c_text::Dialect;

/// What closes a comment or a directive.
#[derive(Clone, Copy)]
pub enum Closer {
    /// `}` or `*)`
    Either,
    /// `}`
    Brace,
    /// `*)`
    Star,
    /// `$`
    Dollar,
}

/// Digits: how many there are, and the value of the number that ends with them. A value of 2^63
/// stands for itself and all above.
#[derive(Clone, Copy)]
pub struct Digits {
    pub len: usize,
    pub value: u64,
}

/// The least value that no number has.
const LIMIT: u64 = 1 << 63;

/// How many bytes at the front may stand in a name.
#[tactic(auto, unfolding(crate::specs::Ends::run))]
pub fn name_run(dialect: Dialect, bytes: &[u8]) -> usize
    ensures value { result ≡ spec.run (alphabet.is_name_byte dialect) bytes.now }
    ensures within { result ≤ length bytes.now }
{
    let mut rest = bytes;
    let mut n: usize = 0;
    while let [byte, after @ ..] = rest {
        if !is_name_byte(dialect, *byte) {
            return n;
        }
        n += 1;
        rest = after;
    }
    n
}

/// How many bytes at the front are before the end of the line.
#[tactic(auto, unfolding(crate::specs::Ends::run))]
pub fn line_run(bytes: &[u8]) -> usize
    ensures value { result ≡ spec.run alphabet.is_in_line bytes.now }
    ensures within { result ≤ length bytes.now }
{
    let mut rest = bytes;
    let mut n: usize = 0;
    while let [byte, after @ ..] = rest {
        if !is_in_line(*byte) {
            return n;
        }
        n += 1;
        rest = after;
    }
    n
}

fn grown(base: Base, value: u64, byte: u8) -> u64
    ensures { result ≡ cut.grown base value byte }
{
    let number = match base {
        Base::Decimal => 10,
        Base::Hexadecimal => 16,
    };
    value
        .saturating_mul(number)
        .saturating_add(digit_value(byte))
        .min(LIMIT)
}

/// The digits at the front, behind a number of this value.
#[tactic(auto, unfolding(crate::specs::Cut::read_digits))]
pub fn read_digits(base: Base, value: u64, bytes: &[u8]) -> Digits
    requires { value ≤ 2 ^ 63 }
    ensures value { result ≡ cut.read_digits base value bytes.now }
    ensures within { result.len ≤ length bytes.now }
    ensures small { result.value ≤ 2 ^ 63 }
{
    let mut rest = bytes;
    let mut found = Digits { len: 0, value };
    while let [byte, after @ ..] = rest {
        if !is_digit_in(base, *byte) {
            return found;
        }
        found = Digits {
            len: found.len + 1,
            value: grown(base, found.value, *byte),
        };
        rest = after;
    }
    found
}

fn begins_with(wanted: u8, bytes: &[u8]) -> bool
    ensures { result ≡ spec.begins_with wanted bytes.now }
{
    match bytes {
        [] => false,
        [byte, ..] => *byte == wanted,
    }
}

fn star_length(first: u8, after: &[u8]) -> usize
    ensures { result ≡ spec.star_length first after.now }
{
    if first == 42 && begins_with(41, after) {
        2
    } else {
        0
    }
}

/// The length of the closing mark that begins with `first`, or 0.
#[tactic(auto, unfolding(crate::specs::Ends::closing_length))]
fn closing_length(closer: Closer, first: u8, after: &[u8]) -> usize
    ensures value { result ≡ spec.closing_length closer first after.now }
    ensures within { result ≤ 1 + length after.now }
{
    match closer {
        Closer::Either => {
            if first == 125 {
                1
            } else {
                star_length(first, after)
            }
        }
        Closer::Brace => usize::from(first == 125),
        Closer::Star => star_length(first, after),
        Closer::Dollar => usize::from(first == 36),
    }
}

/// How many bytes there are up to the end of the first closing mark.
#[tactic(auto, unfolding(crate::specs::Ends::closing_end))]
pub fn closing_end(closer: Closer, bytes: &[u8]) -> Option<usize>
    ensures value { result ≡ spec.closing_end closer bytes.now }
    ensures within { IfSome result (λ n. n ≤ length bytes.now) }
{
    let mut rest = bytes;
    let mut n: usize = 0;
    while let [byte, after @ ..] = rest {
        let mark = closing_length(closer, *byte, after);
        if mark != 0 {
            return Some(n + mark);
        }
        n += 1;
        rest = after;
    }
    None
}

/// How many bytes there are up to the closing quote and with it.
#[tactic(auto, unfolding(crate::specs::Ends::quote_end))]
pub fn quote_end(bytes: &[u8]) -> Option<usize>
    ensures value { result ≡ spec.quote_end bytes.now }
    ensures within { IfSome result (λ n. n ≤ length bytes.now) }
{
    let mut rest = bytes;
    let mut n: usize = 0;
    while let [byte, after @ ..] = rest {
        if *byte == 39 {
            match after {
                [39, more @ ..] => {
                    n += 2;
                    rest = more;
                }
                _ => return Some(n + 1),
            }
        } else if !is_in_line(*byte) {
            return None;
        } else {
            n += 1;
            rest = after;
        }
    }
    None
}

fn begins_digit(bytes: &[u8]) -> bool
    ensures { result ≡ spec.begins_digit bytes.now }
{
    match bytes {
        [] => false,
        [byte, ..] => is_digit(*byte),
    }
}

fn exponent_end(bytes: &[u8]) -> Option<usize>
    ensures { result ≡ spec.exponent_end bytes.now }
{
    match bytes {
        [] => None,
        [43 | 45, after @ ..] => begins_digit(after).then_some(3),
        [byte, ..] => is_digit(*byte).then_some(2),
    }
}

/// How many bytes after the digits of a number make it a real one.
pub fn real_end(bytes: &[u8]) -> Option<usize>
    ensures { result ≡ spec.real_end bytes.now }
{
    match bytes {
        [46, after @ ..] => begins_digit(after).then_some(2),
        [69 | 101, after @ ..] => exponent_end(after),
        _ => None,
    }
}
