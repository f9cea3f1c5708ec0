//! The height of trees. One of 2^32 or more, which no memory holds, is given as 2^32 - 1.
ghost use Rattle.std.specs.Prelude.{◌≡◌, suc};
ghost use Rattle.pascal_tree.specs.Height.{capped};

mod blocks;
mod expressions;
mod files;
mod statements;
mod types;

pub use files::height;

/// The height of a node above parts of this height.
fn above(height: u32) -> u32
    ensures { result ≡ capped (suc height) }
{
    height.saturating_add(1)
}
