//! Constants.

use crate::Identifier;
use p2c_text::Span;
use tree_lists::Items;

/// The bytes for which a text stands.
pub type TextBytes = Items<u8>;

#[derive(Clone, Copy)]
pub enum Sign {
    Plus,
    Minus,
}

#[derive(Drop)]
pub enum Constant {
    Number {
        sign: Option<Sign>,
        value: i64,
        span: Span,
    },
    Name {
        sign: Option<Sign>,
        name: Identifier,
        span: Span,
    },
    Text {
        bytes: TextBytes,
        span: Span,
    },
}

/// A label of a `case` or of a variant: a value, or in Turbo and HP the values from the first to
/// the last.
#[derive(Drop)]
pub struct CaseLabel {
    pub first: Constant,
    pub last: Option<Constant>,
    pub span: Span,
}

pub type CaseLabels = Items<CaseLabel>;
