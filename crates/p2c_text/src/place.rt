ghost use Rattle.std.specs.Prelude.{◌≡◌, ◌+◌, ◌≤◌, ◌==◌, length, take, count_by};

/// The greatest number of bytes of a text in which lines are counted.
pub const LONGEST_TEXT: usize = 67_108_864;

/// The byte that ends a line.
pub const LINE_END: u8 = b'\n';

/// A place in a file: the bytes from `start` up to `end`, which is not part of it.
#[derive(Clone, Copy, Debug, PartialEq, Eq)]
pub struct Span {
    /// The number of the file, from 0.
    pub file: u32,
    /// The number of bytes before the place.
    pub start: u32,
    /// The number of bytes up to the end of the place.
    pub end: u32,
    /// The line of `start`, from 1.
    pub line: u32,
}

/// The line on which the byte with the number `at` stands. Lines count from 1.
pub fn line_of(bytes: &[u8], at: u32) -> u32
    requires within { at ≤ length bytes.now }
    requires short { length bytes.now ≤ LONGEST_TEXT }
    ensures { result ≡ 1 + count_by (λ byte. byte == LINE_END) (take at bytes.now) }
{
    let ends = bytes[..at as usize]
        .iter()
        .filter(|byte| **byte == LINE_END)
        .count();
    1 + ends as u32
}
