//! Values.
ghost use Rattle.std.specs.Prelude.{◌≡◌};
ghost use Rattle.c_meaning.specs.Values as m;
ghost use Rattle.c_cells.specs.Halts.{said};
ghost use Rattle.c_evaluation.specs.Values.{value_of, content_of, tree_in, type_in};
ghost use Rattle.c_evaluation.specs.Types.{value_type_of};

use crate::types::{Object, ValueType};
use c_cells::Path;
use c_cells::cell::{Cell, CellNode};
use c_cells::tree::{CellTree, CellTreeNode};
use c_meaning::StuckKind;
use c_tree::Name;

/// A scalar, or a whole struct where it lies in memory.
#[derive(Drop)]
pub enum Value<'a> {
    Int(i64),
    Word(u64),
    Scalar(ValueType<'a>, Cell),
    Tree(Object<'a>, &'a CellTree),
}

/// What a scalar holds, where it lies.
#[derive(Clone, Copy)]
pub enum Content<'a> {
    Empty,
    Int(i64),
    Word(u64),
    Byte(u8),
    Null,
    Pointer(usize, &'a Path),
    Function(&'a Name),
}

pub fn content_in<'a>(cell: &'a Cell) -> Content<'a>
    ensures { content_of result ≡ cell.now }
{
    match &cell.node {
        CellNode::Empty => Content::Empty,
        CellNode::Int(z) => Content::Int(*z),
        CellNode::Word(n) => Content::Word(*n),
        CellNode::Byte(n) => Content::Byte(*n),
        CellNode::Null => Content::Null,
        CellNode::Pointer(block, path) => Content::Pointer(*block, path),
        CellNode::Function(name) => Content::Function(name),
    }
}

/// What the scalar of a tree holds.
#[tactic(auto, using(crate::proofs::Leaves::no_leaf, crate::proofs::Leaves::the_leaf))]
pub fn content_of_tree<'a>(tree: &'a CellTree) -> Result<Content<'a>, StuckKind>
    ensures { said content_of result ≡ m.leaf tree.now }
{
    match &tree.node {
        CellTreeNode::Leaf(cell) => Ok(content_in(cell)),
        CellTreeNode::Branch(_) => Err(StuckKind::Mismatch),
    }
}

/// What the scalar holds that is a value.
#[tactic(auto, using(crate::proofs::Leaves::the_leaf))]
pub fn held<'a>(value: &'a Value) -> Result<Content<'a>, StuckKind>
    ensures { said content_of result ≡ m.leaf (tree_in (value_of value.now)) }
{
    match value {
        Value::Int(z) => Ok(Content::Int(*z)),
        Value::Word(n) => Ok(Content::Word(*n)),
        Value::Scalar(_, cell) => Ok(content_in(cell)),
        Value::Tree(_, tree) => content_of_tree(tree),
    }
}

pub fn type_of<'a>(value: &Value<'a>) -> ValueType<'a>
    ensures { value_type_of result ≡ type_in (value_of value.now) }
{
    match value {
        Value::Int(_) => ValueType::Of(Object::int()),
        Value::Word(_) => ValueType::Of(Object::word()),
        Value::Scalar(of, _) => *of,
        Value::Tree(of, _) => ValueType::Of(*of),
    }
}

/// The number in a cell of an `int64_t`.
#[tactic(auto, unfolding(c_meaning::specs::Values::int_cell))]
fn int_in(cell: &Cell) -> Result<i64, StuckKind>
    ensures { said (λ z. z) result ≡ m.int_cell cell.now }
{
    match &cell.node {
        CellNode::Int(z) => Ok(*z),
        _ => Err(StuckKind::Mismatch),
    }
}

/// The number in a cell of a `uint64_t`.
#[tactic(auto, unfolding(c_meaning::specs::Values::word_cell))]
fn word_in(cell: &Cell) -> Result<u64, StuckKind>
    ensures { said (λ n. n) result ≡ m.word_cell cell.now }
{
    match &cell.node {
        CellNode::Word(n) => Ok(*n),
        _ => Err(StuckKind::Mismatch),
    }
}

/// The number of an `int64_t`.
#[tactic(auto, using(crate::proofs::Leaves::int_leaf, crate::proofs::Leaves::int_int, crate::proofs::Leaves::int_word, crate::proofs::Leaves::int_branch))]
pub fn as_int(value: &Value) -> Result<i64, StuckKind>
    ensures { said (λ z. z) result ≡ m.as_int (value_of value.now) }
{
    match value {
        Value::Int(z) => Ok(*z),
        Value::Word(_) => Err(StuckKind::Mismatch),
        Value::Scalar(_, cell) => int_in(cell),
        Value::Tree(_, tree) => match &tree.node {
            CellTreeNode::Leaf(cell) => int_in(cell),
            CellTreeNode::Branch(_) => Err(StuckKind::Mismatch),
        },
    }
}

/// The number of a `uint64_t`.
#[tactic(auto, using(crate::proofs::Leaves::word_leaf, crate::proofs::Leaves::word_int, crate::proofs::Leaves::word_word, crate::proofs::Leaves::word_branch))]
pub fn as_word(value: &Value) -> Result<u64, StuckKind>
    ensures { said (λ n. n) result ≡ m.as_word (value_of value.now) }
{
    match value {
        Value::Int(_) => Err(StuckKind::Mismatch),
        Value::Word(n) => Ok(*n),
        Value::Scalar(_, cell) => word_in(cell),
        Value::Tree(_, tree) => match &tree.node {
            CellTreeNode::Leaf(cell) => word_in(cell),
            CellTreeNode::Branch(_) => Err(StuckKind::Mismatch),
        },
    }
}
