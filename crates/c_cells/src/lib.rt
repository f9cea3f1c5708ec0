//! The memory of the runner of C programs: numbered blocks of trees of cells, which contracts see
//! as the blocks, trees and cells of the meaning of C.
#![tactic(auto)]

pub mod cell;
pub mod fresh;
pub mod halt;
mod kept;
pub mod memory;
pub mod slot;
pub mod structs;
pub mod tree;

use tree_lists::Items;

/// Which child to take at each step from the whole block.
pub type Path = Items<usize>;
