//! Single bytes, and runs of them.

ghost use Rattle.std.specs.Prelude.{◌≡◌, ◌≤◌, length};
ghost use Rattle.c_grammar.specs.Token as grammar;
ghost use Rattle.c_scanner.specs.Cut as spec;

/// What begins with a byte.
#[derive(Clone, Copy)]
pub enum Start {
    White,
    /// A name or a word.
    Letter,
    /// The number 0.
    Zero,
    /// Any other number.
    Digit,
    /// A mark or nothing.
    Other,
}

fn is_letter(byte: u8) -> bool
    ensures { result ≡ grammar.is_letter byte }
{
    (65 <= byte && byte <= 90) || (97 <= byte && byte <= 122)
}

fn is_digit(byte: u8) -> bool
    ensures { result ≡ grammar.is_digit byte }
{
    48 <= byte && byte <= 57
}

fn is_name_byte(byte: u8) -> bool
    ensures { result ≡ grammar.is_name_byte byte }
{
    is_letter(byte) || is_digit(byte) || byte == 95
}

fn is_white(byte: u8) -> bool
    ensures { result ≡ grammar.is_white byte }
{
    byte == 9 || byte == 10 || byte == 32
}

#[tactic(auto, unfolding(crate::specs::Cut::start_of))]
pub fn start_of(byte: u8) -> Start
    ensures { result ≡ spec.start_of byte }
{
    if is_white(byte) {
        Start::White
    } else if is_letter(byte) {
        Start::Letter
    } else if byte == 48 {
        Start::Zero
    } else if is_digit(byte) {
        Start::Digit
    } else {
        Start::Other
    }
}

/// How many bytes at the front may stand in a name.
#[tactic(auto, unfolding(crate::specs::Cut::run))]
pub fn name_run(bytes: &[u8]) -> usize
    ensures value { result ≡ spec.run grammar.is_name_byte bytes.now }
    ensures within { result ≤ length bytes.now }
{
    let mut rest = bytes;
    let mut n: usize = 0;
    while let [byte, after @ ..] = rest {
        if !is_name_byte(*byte) {
            return n;
        }
        n += 1;
        rest = after;
    }
    n
}

/// How many bytes at the front are digits.
#[tactic(auto, unfolding(crate::specs::Cut::run))]
pub fn digit_run(bytes: &[u8]) -> usize
    ensures value { result ≡ spec.run grammar.is_digit bytes.now }
    ensures within { result ≤ length bytes.now }
{
    let mut rest = bytes;
    let mut n: usize = 0;
    while let [byte, after @ ..] = rest {
        if !is_digit(*byte) {
            return n;
        }
        n += 1;
        rest = after;
    }
    n
}
