//! Runtime errors of Pascal programs.
ghost use Rattle.std.specs.Prelude.{◌≡◌};
ghost use Rattle.meanings.specs.Errors.{error_number};

/// A runtime error. Its number is the status of a program that it ends.
#[derive(Clone, Copy)]
pub enum RuntimeError {
    /// A zero divisor, or one of ISO's or HP's `mod` that is not positive.
    BadDivisor = 200,
    /// A value outside its range.
    OutOfRange = 201,
    /// `nil` is followed or disposed.
    NilUse = 202,
    /// A whole number outside 64 bits.
    Overflow = 203,
    /// No label of a `case` fits.
    NoLabel = 204,
    /// A field of a variant that is not selected.
    InactiveVariant = 205,
    /// The input has no whole number, or one outside 64 bits.
    BadNumber = 206,
    /// A text longer than its target, or longer than it can be.
    LongText = 207,
    /// The input is read past its end.
    PastEnd = 208,
}

impl RuntimeError {
    /// The number of the error, 200 to 208.
    pub fn number(self) -> u8
        ensures { result ≡ error_number self }
    {
        self as u8
    }
}
