//! The tokens of a text.
ghost use Rattle.std.specs.Prelude.{◌≡◌, length};

use c_grammar::token::CToken;

/// The tokens of a text, in order.
#[derive(Drop)]
pub struct PlacedTokens<'a> {
    pub tokens: Vec<CToken<'a>>,
    /// For each token the number of bytes before it.
    pub places: Vec<u32>,
    ghost as_many: { length places.items ≡ length tokens.items },
}
