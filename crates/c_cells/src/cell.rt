//! Cells.
ghost use Rattle.std.specs.Prelude.{◌≡◌, IfOk};

use crate::Path;
use c_tree::Name;
use std::alloc::{AllocError, Global};
use std::marker::Model;
use tree_lists::Items;

/// What a scalar holds.
#[derive(Drop)]
pub struct Cell {
    pub node: CellNode,
}

/// Nothing, a number of one of the three types, `NULL`, a part of a block, and a function.
#[derive(Drop)]
pub enum CellNode {
    Empty,
    Int(i64),
    Word(u64),
    Byte(u8),
    Null,
    Pointer(usize, Path),
    Function(Name),
}

impl Model for Cell {
    ghost use Rattle.c_meaning.specs.Cells.{Cell as CellOfMeaning};
    ghost use Rattle.c_cells.specs.Codes.{coded_cell};

    ghost Value = { CellOfMeaning };

    ghost coded = { coded_cell };

    ghost use Rattle.c_cells.specs.Views.{cell_of};

    ghost view = { λ a. cell_of a.node };
}

/// A list of its own with the same items.
pub fn copied<T: Copy>(alloc: Global, items: &Items<T>) -> Result<Items<T>, AllocError>
    ensures { IfOk result (λ copy. copy ≡ items.now) }
{
    Items::from_slice(alloc, items.as_slice())
}

impl Cell {
    /// Another cell that holds the same.
    pub fn copy(&self, alloc: Global) -> Result<Cell, AllocError>
        ensures { IfOk result (λ copy. copy ≡ self.now) }
    {
        let node = match &self.node {
            CellNode::Empty => CellNode::Empty,
            CellNode::Int(z) => CellNode::Int(*z),
            CellNode::Word(n) => CellNode::Word(*n),
            CellNode::Byte(n) => CellNode::Byte(*n),
            CellNode::Null => CellNode::Null,
            CellNode::Pointer(block, path) => CellNode::Pointer(*block, copied(alloc, path)?),
            CellNode::Function(name) => CellNode::Function(copied(alloc, name)?),
        };
        Ok(Cell { node })
    }
}
