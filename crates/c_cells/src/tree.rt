//! Trees of cells.
ghost use Rattle.std.specs.Prelude.{◌≡◌, ◌<◌, IfOk, slice_get, slice_set, vec_len};
ghost use Rattle.std.specs.Option.{option_copied};
ghost use Rattle.c_meaning.specs.Cells.{Leaf, child, part, with_part};
ghost use Rattle.c_cells.specs.Forks.{forks};

use crate::cell::{Cell, CellNode};
use std::alloc::{AllocError, Global};
use std::marker::Model;
use std::mem;
use tree_lists::Items;

/// What a block holds.
#[cycle(tree)]
#[derive(Drop)]
pub struct CellTree {
    pub node: CellTreeNode,
}

/// A scalar, or the members of a struct or elements of an array.
#[cycle(tree)]
#[derive(Drop)]
pub enum CellTreeNode {
    Leaf(Cell),
    Branch(Items<CellTree>),
}

impl Model for CellTree {
    ghost use Rattle.c_meaning.specs.Cells.{Tree};
    ghost use Rattle.c_cells.specs.Codes.{coded_tree};

    ghost Value = { Tree };

    ghost coded = { coded_tree };

    ghost use Rattle.c_cells.specs.TreeViews.{tree_of};

    ghost view = { λ a. tree_of a.node };

    ghost use Rattle.c_cells.specs.Forks.{tree_size};

    ghost size = { tree_size };

    ghost use Rattle.c_cells.specs.Falls.{tree_falls};

    ghost size_decreases = { λ a h. tree_falls a.node };
}

impl CellTree {
    pub fn leaf(cell: Cell) -> CellTree
        ensures { result ≡ Leaf cell }
    {
        CellTree {
            node: CellTreeNode::Leaf(cell),
        }
    }

    pub fn branch(children: Items<CellTree>) -> CellTree
        ensures { result ≡ forks children }
    {
        CellTree {
            node: CellTreeNode::Branch(children),
        }
    }

    /// The child at a place.
    #[tactic(auto, using(crate::proofs::Trees::child_forks), unfolding(c_meaning::specs::Cells::child))]
    pub fn child(&self, at: usize) -> Option<&CellTree>
        ensures { option_copied result ≡ child self.now at }
    {
        match &self.node {
            CellTreeNode::Leaf(_) => None,
            CellTreeNode::Branch(children) => children.get(at),
        }
    }

    /// The part at a path.
    #[tactic(auto, using(crate::proofs::Trees::part_first, crate::proofs::Trees::part_none, crate::proofs::Trees::part_all))]
    pub fn part(&self, path: &[usize]) -> Option<&CellTree>
        ensures { option_copied result ≡ part path.now self.now }
    {
        match path {
            [] => Some(self),
            [first, rest @ ..] => self.child(*first)?.part(rest),
        }
    }

    /// The same tree with another part at a path; nothing changes where there is no such part.
    #[tactic(auto, using(crate::proofs::Trees::with_leaf, crate::proofs::Trees::with_within, crate::proofs::Trees::with_past, crate::proofs::Trees::with_all))]
    pub fn with_part(self, path: &[usize], new: CellTree) -> CellTree
        ensures { result ≡ with_part path.now new self }
    {
        match path {
            [] => new,
            [first, rest @ ..] => {
                let CellTree { node } = self;
                match node {
                    CellTreeNode::Leaf(cell) => CellTree::leaf(cell),
                    CellTreeNode::Branch(children) => {
                        let mut list = children.into_vec();
                        if *first >= list.len() {
                            return CellTree::branch(Items::from_vec(list));
                        }
                        let old = swap_in(&mut list, *first, CellTree::hole());
                        let hole = swap_in(&mut list, *first, old.with_part(rest, new));
                        drop(hole);
                        CellTree::branch(Items::from_vec(list))
                    }
                }
            }
        }
    }

    /// Stands for a child while it is taken out.
    pub fn hole() -> CellTree {
        CellTree::leaf(Cell {
            node: CellNode::Empty,
        })
    }
}

/// Puts a tree in the place of another, which it gives.
fn swap_in(list: &mut Vec<CellTree>, at: usize, new: CellTree) -> CellTree
    requires { at < vec_len list.old }
    ensures old { slice_get list.old.items at ≡ Some result }
    ensures items { list.new.items ≡ slice_set list.old.items at new }
{
    mem::replace(&mut list[at], new)
}

/// Another tree that holds the same.
#[cycle(copy)]
pub fn copy_tree(alloc: Global, tree: &CellTree) -> Result<CellTree, AllocError>
    ensures { IfOk result (λ copy. copy ≡ tree.now) }
{
    match &tree.node {
        CellTreeNode::Leaf(cell) => Ok(CellTree::leaf(cell.copy(alloc)?)),
        CellTreeNode::Branch(children) => {
            let list = copy_trees(alloc, children.as_slice())?;
            Ok(CellTree::branch(list))
        }
    }
}

#[cycle(copy)]
fn copy_trees(alloc: Global, trees: &[CellTree]) -> Result<Items<CellTree>, AllocError>
    ensures { IfOk result (λ copies. copies ≡ trees.now) }
{
    let mut list = Items::new(alloc);
    let mut rest = trees;
    while let [first, after @ ..] = rest {
        list.push(copy_tree(alloc, first)?)?;
        rest = after;
    }
    Ok(list)
}
