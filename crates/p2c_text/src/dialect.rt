/// A dialect of Pascal.
#[derive(Clone, Copy, Debug, PartialEq, Eq)]
pub enum Dialect {
    /// ISO 7185 at level 0.
    Iso,
    /// Turbo Pascal.
    Turbo,
    /// UCSD Pascal.
    Ucsd,
    /// HP Pascal.
    Hp,
}
