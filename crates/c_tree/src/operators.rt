//! Operators and casts.

use crate::Name;

/// `-`, `!` and `~`.
#[derive(Clone, Copy)]
pub enum CUnary {
    Minus,
    Not,
    Complement,
}

/// The operators between two operands. `And` and `Or` are `&&` and `||`.
#[derive(Clone, Copy)]
pub enum CBinary {
    Add,
    Subtract,
    Multiply,
    Divide,
    Remainder,
    Equal,
    NotEqual,
    Less,
    AtMost,
    Greater,
    AtLeast,
    And,
    Or,
    BitAnd,
    BitOr,
    BitXor,
    ShiftLeft,
    ShiftRight,
}

/// What a cast names: `int64_t`, `uint64_t`, `void *` and `struct name *`.
#[derive(Drop)]
pub enum CCast {
    Int,
    Word,
    VoidPointer,
    StructPointer(Name),
}
