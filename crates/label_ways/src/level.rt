//! One step of a way.

/// A statement that something is inside of: its place in its list, and whether in its second branch.
#[derive(Clone, Copy)]
pub struct Level {
    pub at: usize,
    pub second: bool,
}
