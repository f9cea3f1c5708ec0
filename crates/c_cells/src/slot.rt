//! What a number stands for.
ghost use Rattle.std.specs.Prelude.{◌≡◌, None, Some, true, false, IfOk, IfSome, is_none};
ghost use Rattle.std.specs.Option.{option_map};
ghost use Rattle.c_tree.specs.Tree as t;
ghost use Rattle.c_meaning.specs.Cells.{Leaf, Int, with_part};
ghost use Rattle.c_cells.specs.Halts.{Tells};
ghost use Rattle.c_cells.specs.Views.{cell_of};
ghost use Rattle.c_cells.specs.Slots.{slot_of, found_block, int_block as number_block, int_cell, IsIntSlot, changed_block};

use crate::cell::{Cell, CellNode};
use crate::halt::Halt;
use crate::memory::Block;
use crate::tree::{CellTree, CellTreeNode};
use c_meaning::StuckKind;
use c_tree::types::{CBaseType, CType};
use std::alloc::{AllocError, Global};
use std::marker::Model;
use std::mem;

/// A block, or that it is gone. That of an `int64_t` variable lies in the slot itself, so that
/// most blocks need no memory of their own.
#[derive(Drop)]
pub struct Slot {
    pub node: SlotNode,
}

#[derive(Drop)]
pub enum SlotNode {
    Gone,
    /// An `int64_t` that holds nothing yet.
    Unset,
    Number(i64),
    Block(Box<Block>),
}

impl Model for Slot {
    ghost use Rattle.std.specs.Prelude.{Option};
    ghost use Rattle.c_meaning.specs.Cells.{Block as BlockOfMeaning};
    ghost use Rattle.c_cells.specs.Codes.{coded_slot};

    ghost Value = { Option BlockOfMeaning };

    ghost coded = { coded_slot };

    ghost use Rattle.c_cells.specs.Slots.{slot_of};

    ghost view = { λ a. slot_of a.node };
}

/// A block where it lies.
#[derive(Clone, Copy)]
pub enum Found<'a> {
    /// An `int64_t` variable, with the number that it holds or none yet.
    Int(Option<i64>),
    Block(&'a Block),
}

/// Whether it is `int64_t`.
pub fn is_int(of: &CType) -> bool
    ensures { result ≡ true → of.now ≡ t.Int }
{
    match (&of.base, of.stars) {
        (CBaseType::Int, 0) => true,
        _ => false,
    }
}

/// Whether it is an `int64_t` that no `malloc` made.
fn is_int_variable(block: &Block) -> bool
    ensures of { result ≡ true → block.now.of ≡ t.Int }
    ensures heap { result ≡ true → block.now.heap ≡ false }
{
    is_int(&block.of) && !block.heap
}

/// The scalar, where the tree is one.
fn leaf_of(tree: &CellTree) -> Option<&Cell>
    ensures { IfSome result (λ cell. tree.now ≡ Leaf cell.now) }
{
    match &tree.node {
        CellTreeNode::Leaf(cell) => Some(cell),
        CellTreeNode::Branch(_) => None,
    }
}

/// The form without memory of an `int64_t` variable with such a cell, where it has one.
fn small_cell(cell: &Cell) -> Option<SlotNode>
    ensures { IfSome result (λ node. slot_of node ≡ Some (number_block cell.now)) }
{
    match &cell.node {
        CellNode::Int(z) => Some(SlotNode::Number(*z)),
        CellNode::Empty => Some(SlotNode::Unset),
        _ => None,
    }
}

/// The form without memory of a block, where it has one.
#[tactic(auto, using(crate::proofs::Slots::int_variable))]
fn small(block: &Block) -> Option<SlotNode>
    ensures { IfSome result (λ node. slot_of node ≡ Some block.now) }
{
    if !is_int_variable(block) {
        return None;
    }
    match leaf_of(&block.tree) {
        Some(cell) => small_cell(cell),
        None => None,
    }
}

/// The cell of an `int64_t`, with the number that it holds or none yet.
pub fn int_cell(number: Option<i64>) -> Cell
    ensures { result ≡ int_cell number }
{
    let node = match number {
        None => CellNode::Empty,
        Some(z) => CellNode::Int(z),
    };
    Cell { node }
}

/// The block of an `int64_t` variable.
fn int_block(number: Option<i64>) -> Block
    ensures { result ≡ number_block (int_cell number) }
{
    Block {
        of: CType::int(),
        tree: CellTree::leaf(int_cell(number)),
        heap: false,
    }
}

/// Changes a part of a block.
fn change(block: &mut Block, path: &[usize], new: CellTree)
    ensures { block.new ≡ record block.old { tree = with_part path.now new block.old.tree } }
{
    let old = mem::replace(&mut block.tree, CellTree::hole());
    block.tree = old.with_part(path, new);
}

impl Slot {
    pub fn gone() -> Slot
        ensures { result ≡ None }
    {
        Slot {
            node: SlotNode::Gone,
        }
    }

    /// That of an `int64_t` variable.
    pub fn int(number: Option<i64>) -> Slot
        ensures { result ≡ Some (number_block (int_cell number)) }
    {
        let node = match number {
            None => SlotNode::Unset,
            Some(z) => SlotNode::Number(z),
        };
        Slot { node }
    }

    pub fn new(alloc: Global, block: Block) -> Result<Slot, AllocError>
        ensures { IfOk result (λ slot. slot ≡ Some block) }
    {
        match small(&block) {
            Some(node) => Ok(Slot { node }),
            None => Ok(Slot {
                node: SlotNode::Block(Box::new(alloc, block)?),
            }),
        }
    }

    /// The block, where it is there.
    pub fn found(&self) -> Option<Found>
        ensures { option_map found_block result ≡ self.now }
    {
        match &self.node {
            SlotNode::Gone => None,
            SlotNode::Unset => Some(Found::Int(None)),
            SlotNode::Number(z) => Some(Found::Int(Some(*z))),
            SlotNode::Block(block) => Some(Found::Block(block)),
        }
    }

    /// The number of an `int64_t` variable, where it has one.
    pub fn get_number(&self) -> Option<i64>
        ensures { IfSome result (λ z. self.now ≡ Some (number_block (Int z))) }
    {
        match &self.node {
            SlotNode::Number(z) => Some(*z),
            _ => None,
        }
    }

    /// Whether the block of an `int64_t` variable lies here.
    pub fn is_number(&self) -> bool
        ensures { result ≡ true → IsIntSlot self.now }
    {
        match &self.node {
            SlotNode::Number(_) => true,
            SlotNode::Unset => true,
            _ => false,
        }
    }

    /// Whether the block is gone.
    pub fn is_gone(&self) -> bool
        ensures { result ≡ is_none self.now }
    {
        match &self.node {
            SlotNode::Gone => true,
            _ => false,
        }
    }

    /// The slot with another part of its block.
    pub fn with_part(self, alloc: Global, path: &[usize], new: CellTree) -> Result<Slot, Halt>
        ensures { Tells (λ slot. slot) result (changed_block path.now new self) }
    {
        match self.node {
            SlotNode::Gone => Err(Halt::Stuck(StuckKind::GoneUse)),
            SlotNode::Unset => with_new_part(alloc, int_block(None), path, new),
            SlotNode::Number(z) => with_new_part(alloc, int_block(Some(z)), path, new),
            SlotNode::Block(block) => {
                let mut block = block;
                change(&mut block, path, new);
                Ok(Slot {
                    node: SlotNode::Block(block),
                })
            }
        }
    }
}

fn with_new_part(alloc: Global, block: Block, path: &[usize], new: CellTree) -> Result<Slot, Halt>
    ensures { Tells (λ slot. slot) result (changed_block path.now new (Some block)) }
{
    let mut block = block;
    change(&mut block, path, new);
    Ok(Slot::new(alloc, block)?)
}
