//! Names and labels.

use p2c_text::{Name, Span};
use tree_lists::Items;

#[derive(Drop)]
pub struct Identifier {
    pub name: Name,
    pub span: Span,
}

/// Names with commas between them.
pub type Identifiers = Items<Identifier>;

/// What a statement is labelled with. In Turbo it may be a name.
#[derive(Drop)]
pub enum Label {
    Number { value: i64, span: Span },
    Name(Identifier),
}

pub type Labels = Items<Label>;
