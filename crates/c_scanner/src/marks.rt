//! The marks that the grammar quotes.

ghost use Rattle.std.specs.Prelude.{◌≡◌};
ghost use Rattle.c_scanner.specs.Marks as spec;

use c_grammar::token::Mark;

/// The mark of this one byte.
pub fn mark_of(byte: u8) -> Option<Mark>
    ensures { result ≡ spec.mark_of byte }
{
    match byte {
        b'{' => Some(Mark::OpenBrace),
        b'}' => Some(Mark::CloseBrace),
        b'(' => Some(Mark::Open),
        b')' => Some(Mark::Close),
        b'[' => Some(Mark::OpenBracket),
        b']' => Some(Mark::CloseBracket),
        b';' => Some(Mark::Semicolon),
        b',' => Some(Mark::Comma),
        b'.' => Some(Mark::Dot),
        b':' => Some(Mark::Colon),
        b'=' => Some(Mark::Assign),
        b'+' => Some(Mark::Plus),
        b'-' => Some(Mark::Minus),
        b'*' => Some(Mark::Star),
        b'/' => Some(Mark::Slash),
        b'%' => Some(Mark::Percent),
        b'<' => Some(Mark::Less),
        b'>' => Some(Mark::Greater),
        b'&' => Some(Mark::Ampersand),
        b'|' => Some(Mark::Bar),
        b'^' => Some(Mark::Caret),
        b'~' => Some(Mark::Tilde),
        b'!' => Some(Mark::Exclamation),
        _ => None,
    }
}

/// The mark of these two bytes.
pub fn pair_of(first: u8, second: u8) -> Option<Mark>
    ensures { result ≡ spec.pair_of first second }
{
    match (first, second) {
        (b'=', b'=') => Some(Mark::Equal),
        (b'!', b'=') => Some(Mark::NotEqual),
        (b'<', b'=') => Some(Mark::AtMost),
        (b'>', b'=') => Some(Mark::AtLeast),
        (b'&', b'&') => Some(Mark::AndAnd),
        (b'|', b'|') => Some(Mark::OrOr),
        (b'<', b'<') => Some(Mark::ShiftLeft),
        (b'>', b'>') => Some(Mark::ShiftRight),
        _ => None,
    }
}
