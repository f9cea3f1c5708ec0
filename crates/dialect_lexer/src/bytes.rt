//! Single bytes, and what begins with one.

ghost use Rattle.std.specs.Prelude.{◌≡◌};
ghost use Rattle.dialect_lexer.specs.Bytes as spec;

use p2c_text::Dialect;

/// A base of numbers.
#[derive(Clone, Copy)]
pub enum Base {
    Decimal,
    Hexadecimal,
}

/// What begins with a byte.
#[derive(Clone, Copy)]
pub enum Start {
    /// A name or a word symbol.
    Name,
    /// A decimal number.
    Decimal,
    /// A byte of white space.
    Space,
    /// A quoted text.
    Quote,
    /// A comment in braces.
    Brace,
    /// A comment, or one of two symbols.
    Parenthesis,
    /// A hexadecimal number.
    Hexadecimal,
    /// A directive between `$` and `$`.
    Directive,
    /// A character by its number.
    Code,
    /// A symbol or nothing.
    Other,
}

pub fn is_letter(byte: u8) -> bool
    ensures { result ≡ spec.is_letter byte }
{
    (65 <= byte && byte <= 90) || (97 <= byte && byte <= 122)
}

pub fn is_digit(byte: u8) -> bool
    ensures { result ≡ spec.is_digit byte }
{
    48 <= byte && byte <= 57
}

pub fn is_name_byte(dialect: Dialect, byte: u8) -> bool
    ensures { result ≡ spec.is_name_byte dialect byte }
{
    is_letter(byte) || is_digit(byte) || (byte == 95 && !matches!(dialect, Dialect::Iso))
}

pub fn is_space(byte: u8) -> bool
    ensures { result ≡ spec.is_space byte }
{
    byte == 9 || byte == 10 || byte == 12 || byte == 13 || byte == 26 || byte == 32
}

/// Whether the byte may stand in a quoted text.
pub fn is_in_line(byte: u8) -> bool
    ensures { result ≡ spec.is_in_line byte }
{
    !(byte == 10 || byte == 13)
}

pub fn is_digit_in(base: Base, byte: u8) -> bool
    ensures { result ≡ spec.is_digit_in base byte }
{
    match base {
        Base::Decimal => is_digit(byte),
        Base::Hexadecimal => {
            is_digit(byte) || (65 <= byte && byte <= 70) || (97 <= byte && byte <= 102)
        }
    }
}

pub fn digit_value(byte: u8) -> u64
    ensures { result ≡ spec.digit_value byte }
{
    u64::from(if byte <= 57 {
        byte.saturating_sub(48)
    } else if byte <= 70 {
        byte.saturating_sub(55)
    } else {
        byte.saturating_sub(87)
    })
}

#[tactic(auto, unfolding(crate::specs::Bytes::start_of))]
pub fn start_of(dialect: Dialect, byte: u8) -> Start
    ensures { result ≡ spec.start_of dialect byte }
{
    if is_letter(byte) {
        Start::Name
    } else if is_digit(byte) {
        Start::Decimal
    } else if is_space(byte) {
        Start::Space
    } else if byte == 39 {
        Start::Quote
    } else if byte == 123 {
        Start::Brace
    } else if byte == 40 {
        Start::Parenthesis
    } else if byte == 36 {
        start_dollar(dialect)
    } else if byte == 35 && matches!(dialect, Dialect::Turbo) {
        Start::Code
    } else {
        Start::Other
    }
}

fn start_dollar(dialect: Dialect) -> Start
    ensures { result ≡ spec.start_dollar dialect }
{
    match dialect {
        Dialect::Turbo => Start::Hexadecimal,
        Dialect::Hp => Start::Directive,
        Dialect::Iso | Dialect::Ucsd => Start::Other,
    }
}
