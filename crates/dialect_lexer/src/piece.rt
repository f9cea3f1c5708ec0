//! The piece at the front of a text.

ghost use Rattle.std.specs.Prelude.{◌≡◌, ◌<◌, ◌≤◌, ◌^◌, length, IfSome};
ghost use Rattle.dialect_lexer.specs.Ends as end;
ghost use Rattle.dialect_lexer.specs.Forms as form;
ghost use Rattle.dialect_lexer.specs.Patterns as pattern;
ghost use Rattle.dialect_lexer.specs.Cut as spec;

use crate::bytes::{Base, Start, digit_value, is_digit, start_of};
use crate::ends::{
    Closer, Digits, closing_end, line_run, name_run, quote_end, read_digits, real_end,
};
use crate::fault::LexKind;
use crate::token::{Symbol, TokenKind};
use crate::words::{is_same, word_of};
use p2c_text::Dialect;

/// What a piece is.
#[derive(Clone, Copy)]
pub enum PieceKind {
    Separator,
    /// A part of a text: a quoted one, or a character by its number.
    Part,
    /// Any other token.
    Token(TokenKind),
}

/// A piece, and the number of its bytes.
#[derive(Clone, Copy)]
pub struct Piece {
    pub kind: PieceKind,
    pub len: usize,
}

/// A fault, and the number of its bytes.
#[derive(Clone, Copy)]
pub struct Flaw {
    pub kind: LexKind,
    pub len: usize,
}

type Found = Result<Piece, Flaw>;

fn taken(kind: PieceKind, len: usize) -> Found
    ensures { result ≡ spec.taken kind len }
{
    Ok(Piece { kind, len })
}

fn refused(kind: LexKind, len: usize) -> Found
    ensures { result ≡ spec.refused kind len }
{
    Err(Flaw { kind, len })
}

#[tactic(auto, unfolding(crate::specs::Cut::cut_name))]
fn cut_name(dialect: Dialect, first: u8, after: &[u8]) -> Found
    ensures { result ≡ spec.cut_name dialect first after.now }
{
    let n = name_run(dialect, after);
    let kind = match word_of(dialect, first, &after[..n]) {
        None => TokenKind::Name,
        Some(word) => TokenKind::Word(word),
    };
    taken(PieceKind::Token(kind), 1 + n)
}

fn is_too_big(value: u64) -> bool
    ensures { result ≡ pattern.is_too_big value }
{
    9_223_372_036_854_775_807 < value
}

fn number(found: Digits) -> Found
    requires small { found.value ≤ 9223372036854775807 }
    requires room { found.len < 2 ^ 63 }
    ensures { result ≡ spec.number_or_real None found }
{
    taken(
        PieceKind::Token(TokenKind::Number(found.value as i64)),
        1 + found.len,
    )
}

#[tactic(auto, unfolding(crate::specs::Cut::cut_decimal, crate::specs::Cut::decimal_from))]
fn cut_decimal(first: u8, after: &[u8]) -> Found
    ensures { result ≡ spec.cut_decimal first after.now }
{
    let found = read_digits(Base::Decimal, digit_value(first), after);
    if is_too_big(found.value) {
        return refused(LexKind::NumberTooBig, 1 + found.len);
    }
    match real_end(&after[found.len..]) {
        None => number(found),
        Some(more) => refused(LexKind::RealLiteral, 1 + found.len + more),
    }
}

#[tactic(auto, unfolding(crate::specs::Cut::cut_hexadecimal))]
fn cut_hexadecimal(after: &[u8]) -> Found
    ensures { result ≡ spec.cut_hexadecimal after.now }
{
    let found = read_digits(Base::Hexadecimal, 0, after);
    if found.len == 0 {
        refused(LexKind::BadByte, 1)
    } else if is_too_big(found.value) {
        refused(LexKind::NumberTooBig, 1 + found.len)
    } else {
        number(found)
    }
}

fn code(found: Digits) -> Found
    requires { found.len < 2 ^ 63 }
    ensures { result ≡ spec.code_from found }
{
    if 255 < found.value {
        refused(LexKind::NumberTooBig, 2 + found.len)
    } else {
        taken(PieceKind::Part, 2 + found.len)
    }
}

fn hexadecimal_code(found: Digits) -> Found
    requires { found.len < 2 ^ 63 }
    ensures { result ≡ spec.hexadecimal_code found }
{
    if found.len == 0 {
        refused(LexKind::BadByte, 1)
    } else {
        code(found)
    }
}

#[tactic(auto, unfolding(crate::specs::Cut::cut_code))]
fn cut_code(after: &[u8]) -> Found
    ensures { result ≡ spec.cut_code after.now }
{
    match after {
        [] => refused(LexKind::BadByte, 1),
        [36, more @ ..] => hexadecimal_code(read_digits(Base::Hexadecimal, 0, more)),
        [byte, more @ ..] => {
            if is_digit(*byte) {
                code(read_digits(Base::Decimal, digit_value(*byte), more))
            } else {
                refused(LexKind::BadByte, 1)
            }
        }
    }
}

#[tactic(auto, unfolding(crate::specs::Cut::cut_quoted))]
fn cut_quoted(after: &[u8]) -> Found
    ensures { result ≡ spec.cut_quoted after.now }
{
    match quote_end(after) {
        None => refused(LexKind::OpenString, 1 + line_run(after)),
        Some(n) => taken(PieceKind::Part, 1 + n),
    }
}

fn is_switch_i(text: &[u8]) -> bool
    ensures { result ≡ pattern.is_switch_i text.now }
{
    match text {
        [a, b, c, ..] => *a == 36 && (*b == 73 || *b == 105) && !(*c == 43 || *c == 45),
        _ => false,
    }
}

fn includes(dialect: Dialect, text: &[u8]) -> bool
    ensures { result ≡ pattern.includes dialect text.now }
{
    matches!(dialect, Dialect::Turbo | Dialect::Ucsd) && is_switch_i(text)
}

fn is_include(text: &[u8]) -> bool
    ensures { result ≡ pattern.is_include text.now }
{
    7 <= text.len() && is_same(b"include", &text[..7])
}

/// What `opening` bytes opened, where `names` says whether it names a file to include.
fn closed(opening: usize, names: bool, end: Option<usize>, after: &[u8]) -> Found
    requires small { opening ≤ 2 }
    requires within { IfSome end (λ n. n ≤ length after.now) }
    ensures { result ≡ spec.closed opening names end after.now }
{
    match end {
        None => refused(LexKind::OpenComment, opening + after.len()),
        Some(n) => {
            if names {
                refused(LexKind::IncludeFile, opening + n)
            } else {
                taken(PieceKind::Separator, opening + n)
            }
        }
    }
}

#[tactic(auto, unfolding(crate::specs::Cut::cut_comment))]
fn cut_comment(dialect: Dialect, opening: usize, closer: Closer, after: &[u8]) -> Found
    requires { opening ≤ 2 }
    ensures { result ≡ spec.cut_comment dialect opening closer after.now }
{
    closed(
        opening,
        includes(dialect, after),
        closing_end(closer, after),
        after,
    )
}

#[tactic(auto, unfolding(crate::specs::Cut::cut_directive))]
fn cut_directive(after: &[u8]) -> Found
    ensures { result ≡ spec.cut_directive after.now }
{
    closed(
        1,
        is_include(after),
        closing_end(Closer::Dollar, after),
        after,
    )
}

fn closer_of_brace(dialect: Dialect) -> Closer
    ensures { result ≡ end.closer_of_brace dialect }
{
    match dialect {
        Dialect::Iso => Closer::Either,
        _ => Closer::Brace,
    }
}

fn closer_of_star(dialect: Dialect) -> Closer
    ensures { result ≡ end.closer_of_star dialect }
{
    match dialect {
        Dialect::Iso => Closer::Either,
        _ => Closer::Star,
    }
}

fn caret(dialect: Dialect) -> Option<Symbol>
    ensures { result ≡ form.symbol_1 dialect 64 }
{
    match dialect {
        Dialect::Turbo => None,
        _ => Some(Symbol::Caret),
    }
}

fn symbol_1(dialect: Dialect, first: u8) -> Option<Symbol>
    ensures { result ≡ form.symbol_1 dialect first }
{
    match first {
        43 => Some(Symbol::Plus),
        45 => Some(Symbol::Minus),
        42 => Some(Symbol::Star),
        47 => Some(Symbol::Slash),
        61 => Some(Symbol::Equal),
        60 => Some(Symbol::Less),
        62 => Some(Symbol::Greater),
        41 => Some(Symbol::Close),
        91 => Some(Symbol::OpenBracket),
        93 => Some(Symbol::CloseBracket),
        44 => Some(Symbol::Comma),
        59 => Some(Symbol::Semicolon),
        58 => Some(Symbol::Colon),
        46 => Some(Symbol::Dot),
        94 => Some(Symbol::Caret),
        64 => caret(dialect),
        _ => None,
    }
}

fn symbol_2(first: u8, second: u8) -> Option<Symbol>
    ensures { result ≡ form.symbol_2 first second }
{
    match (first, second) {
        (60, 61) => Some(Symbol::AtMost),
        (62, 61) => Some(Symbol::AtLeast),
        (60, 62) => Some(Symbol::NotEqual),
        (58, 61) => Some(Symbol::Assign),
        (46, 46) => Some(Symbol::DotDot),
        (46, 41) => Some(Symbol::CloseBracket),
        _ => None,
    }
}

fn symbol_piece(symbol: Symbol, len: usize) -> Found
    ensures { result ≡ spec.symbol_piece symbol len }
{
    taken(PieceKind::Token(TokenKind::Symbol(symbol)), len)
}

fn single(found: Option<Symbol>) -> Found
    ensures { result ≡ spec.single found }
{
    match found {
        None => refused(LexKind::BadByte, 1),
        Some(one) => symbol_piece(one, 1),
    }
}

#[tactic(auto, unfolding(crate::specs::Cut::cut_symbol))]
fn cut_symbol(dialect: Dialect, first: u8, after: &[u8]) -> Found
    ensures { result ≡ spec.cut_symbol dialect first after.now }
{
    match after {
        [] => single(symbol_1(dialect, first)),
        [second, ..] => match symbol_2(first, *second) {
            Some(both) => symbol_piece(both, 2),
            None => single(symbol_1(dialect, first)),
        },
    }
}

#[tactic(auto, unfolding(crate::specs::Cut::cut_parenthesis))]
fn cut_parenthesis(dialect: Dialect, after: &[u8]) -> Found
    ensures { result ≡ spec.cut_parenthesis dialect after.now }
{
    match after {
        [42, more @ ..] => cut_comment(dialect, 2, closer_of_star(dialect), more),
        [46, ..] => symbol_piece(Symbol::OpenBracket, 2),
        _ => symbol_piece(Symbol::Open, 1),
    }
}

/// The piece or the fault at the front of `first` and `after`.
#[tactic(auto, unfolding(crate::specs::Cut::cut_by))]
pub fn cut(dialect: Dialect, first: u8, after: &[u8]) -> Found
    ensures { result ≡ spec.cut dialect first after.now }
{
    match start_of(dialect, first) {
        Start::Name => cut_name(dialect, first, after),
        Start::Decimal => cut_decimal(first, after),
        Start::Space => taken(PieceKind::Separator, 1),
        Start::Quote => cut_quoted(after),
        Start::Brace => cut_comment(dialect, 1, closer_of_brace(dialect), after),
        Start::Parenthesis => cut_parenthesis(dialect, after),
        Start::Hexadecimal => cut_hexadecimal(after),
        Start::Directive => cut_directive(after),
        Start::Code => cut_code(after),
        Start::Other => cut_symbol(dialect, first, after),
    }
}
