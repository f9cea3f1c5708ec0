//! The trees with which blocks begin.
ghost use Rattle.std.specs.Prelude.{◌≡◌, ◌++◌, ◌∷◌, [], Some, pos, ◌<◌, ◌^◌, IfOk, OnOk, OnErr, length, reverse, take};
ghost use Rattle.c_meaning.specs.Fresh.{fresh, fresh_block as fresh_variable, fresh_blocks, struct_tree, members_tree, member_tree, copies};
ghost use Rattle.c_meaning.specs.Cells.{Blocks, Int};
ghost use Rattle.c_cells.specs.Scalars.{scalar_tree, scalar_cell};
ghost use Rattle.c_cells.specs.Slots.{int_cell};

use crate::cell::{Cell, CellNode, copied};
use crate::memory::{Block, Memory};
use crate::slot::is_int;
use crate::structs::Declared;
use crate::tree::CellTree;
use c_tree::Name;
use c_tree::program::{CDeclaration, CMember, CVariable};
use c_tree::types::{CBaseType, CType};
use std::alloc::{AllocError, Global};
use tree_lists::Items;

fn copy_base(alloc: Global, base: &CBaseType) -> Result<CBaseType, AllocError>
    ensures { IfOk result (λ copy. copy ≡ base.now) }
{
    match base {
        CBaseType::Int => Ok(CBaseType::Int),
        CBaseType::Word => Ok(CBaseType::Word),
        CBaseType::Byte => Ok(CBaseType::Byte),
        CBaseType::VoidPointer => Ok(CBaseType::VoidPointer),
        CBaseType::Struct(name) => Ok(CBaseType::Struct(copied(alloc, name)?)),
        CBaseType::Named(name) => Ok(CBaseType::Named(copied(alloc, name)?)),
    }
}

/// A type of its own that is the same.
pub fn copy_type(alloc: Global, of: &CType) -> Result<CType, AllocError>
    ensures { IfOk result (λ copy. copy ≡ of.now) }
{
    Ok(CType {
        base: copy_base(alloc, &of.base)?,
        stars: of.stars,
    })
}

/// The block with which a variable, or what a `malloc` makes, begins.
pub fn fresh_block(
    alloc: Global,
    zeroed: bool,
    heap: bool,
    declared: &Declared,
    of: &CType,
) -> Result<Block, AllocError>
    ensures { IfOk result (λ block. block ≡ record { of = of.now; tree = fresh zeroed declared.now.list.now of.now; heap = heap }) }
{
    Ok(Block {
        of: copy_type(alloc, of)?,
        tree: fresh(alloc, zeroed, declared, of)?,
        heap,
    })
}

/// The number with which an `int64_t` begins.
fn first_number(zeroed: bool) -> Option<i64>
    ensures { int_cell result ≡ scalar_cell zeroed (Int (pos 0)) }
{
    if zeroed { Some(0) } else { None }
}

/// Makes the block of a variable.
#[tactic(auto, using(crate::proofs::FreshTrees::int_block_fresh), unfolding(c_meaning::specs::Fresh::fresh_block))]
fn push_variable(
    alloc: Global,
    zeroed: bool,
    declared: &Declared,
    variable: &CVariable,
    memory: &mut Memory,
) -> Result<(), AllocError>
    ensures ok { OnOk result (memory.new ≡ memory.old ++ Some (fresh_variable zeroed declared.now.list.now variable.now) ∷ []) }
    ensures err { OnErr result (memory.new ≡ memory.old) }
{
    if is_int(&variable.of) {
        return memory.push_int(first_number(zeroed));
    }
    let block = fresh_block(alloc, zeroed, false, declared, &variable.of)?;
    memory.push(alloc, block)
}

/// Makes the blocks of variables. The answer is the number of the block that is made next. Where
/// memory is short, only the first of them are made, and the blocks before these stay.
#[tactic(auto, unfolding(c_meaning::specs::Fresh::fresh_blocks, c_meaning::specs::Fresh::fresh_block))]
pub fn push_fresh(
    alloc: Global,
    zeroed: bool,
    declared: &Declared,
    variables: &[CVariable],
    memory: &mut Memory,
) -> Result<usize, AllocError>
    ensures blocks { OnOk result (memory.new ≡ memory.old ++ fresh_blocks zeroed declared.now.list.now variables.now) }
    ensures number { IfOk result (λ n. n ≡ length memory.new) }
    ensures small { OnOk result (length memory.new < 2 ^ 63) }
    ensures err { OnErr result ((made : Blocks) × (memory.new ≡ memory.old ++ made)) }
{
    let mut rest = variables;
    while let [first, after @ ..] = rest {
        push_variable(alloc, zeroed, declared, first, memory)?;
        rest = after;
    }
    Ok(memory.made())
}

/// A scalar that is zero, or holds nothing.
fn scalar(zeroed: bool, zero: CellNode) -> CellTree
    ensures { result ≡ scalar_tree zeroed zero }
{
    CellTree::leaf(Cell {
        node: if zeroed { zero } else { CellNode::Empty },
    })
}

/// The tree with which a block of a type begins.
#[tactic(auto, using(crate::proofs::FreshTrees::among_all))]
pub fn fresh(
    alloc: Global,
    zeroed: bool,
    declared: &Declared,
    of: &CType,
) -> Result<CellTree, AllocError>
    ensures { IfOk result (λ tree. tree ≡ fresh zeroed declared.now.list.now of.now) }
{
    fresh_among(alloc, zeroed, declared, declared.list.len(), of)
}

/// The tree of a type where only the first declarations count, the `above` ones.
#[cycle(fresh)]
#[tactic(auto, unfolding(c_meaning::specs::Fresh::fresh, c_meaning::specs::Fresh::object_tree))]
fn fresh_among(
    alloc: Global,
    zeroed: bool,
    declared: &Declared,
    above: usize,
    of: &CType,
) -> Result<CellTree, AllocError>
    ensures { IfOk result (λ tree. tree ≡ fresh zeroed (take above declared.now.list.now) of.now) }
{
    match (&of.base, of.stars) {
        (CBaseType::Int, 0) => Ok(scalar(zeroed, CellNode::Int(0))),
        (CBaseType::Word, 0) => Ok(scalar(zeroed, CellNode::Word(0))),
        (CBaseType::Byte, 0) => Ok(scalar(zeroed, CellNode::Byte(0))),
        (CBaseType::Struct(name), 0) => fresh_struct(alloc, zeroed, declared, above, name),
        _ => Ok(scalar(zeroed, CellNode::Null)),
    }
}

/// The tree of a struct: the last declaration with the name says what it is, by those above it.
#[cycle(fresh)]
#[tactic(auto, using(crate::proofs::FreshTrees::struct_found, crate::proofs::FreshTrees::struct_typedef, crate::proofs::FreshTrees::struct_none))]
fn fresh_struct(
    alloc: Global,
    zeroed: bool,
    declared: &Declared,
    above: usize,
    name: &Name,
) -> Result<CellTree, AllocError>
    ensures { IfOk result (λ tree. tree ≡ struct_tree zeroed (reverse (take above declared.now.list.now)) name.now) }
{
    if let Some(place) = declared.last_struct(name, above) {
        if let CDeclaration::Struct(found) = &declared.list[place] {
            return fresh_members(alloc, zeroed, declared, place, found.members.as_slice());
        }
    }
    Ok(CellTree::branch(Items::new(alloc)))
}

#[cycle(fresh)]
#[tactic(auto, using(crate::proofs::FreshTrees::built))]
fn fresh_members(
    alloc: Global,
    zeroed: bool,
    declared: &Declared,
    above: usize,
    members: &[CMember],
) -> Result<CellTree, AllocError>
    ensures { IfOk result (λ tree. tree ≡ members_tree zeroed (struct_tree zeroed (reverse (take above declared.now.list.now))) members.now) }
{
    let mut list = Items::new(alloc);
    let mut rest = members;
    while let [first, after @ ..] = rest {
        list.push(fresh_member(alloc, zeroed, declared, above, first)?)?;
        rest = after;
    }
    Ok(CellTree::branch(list))
}

#[cycle(fresh)]
#[tactic(auto, unfolding(c_meaning::specs::Fresh::member_tree))]
fn fresh_member(
    alloc: Global,
    zeroed: bool,
    declared: &Declared,
    above: usize,
    member: &CMember,
) -> Result<CellTree, AllocError>
    ensures { IfOk result (λ tree. tree ≡ member_tree member.now.length (fresh zeroed (take above declared.now.list.now) member.now.of)) }
{
    match member.length {
        None => fresh_among(alloc, zeroed, declared, above, &member.of),
        Some(length) => fresh_elements(alloc, zeroed, declared, above, &member.of, length),
    }
}

#[cycle(fresh)]
#[tactic(auto, using(crate::proofs::FreshTrees::copies_replicate))]
fn fresh_elements(
    alloc: Global,
    zeroed: bool,
    declared: &Declared,
    above: usize,
    of: &CType,
    length: u64,
) -> Result<CellTree, AllocError>
    ensures { IfOk result (λ tree. tree ≡ copies length (fresh zeroed (take above declared.now.list.now) of.now)) }
{
    let mut list = Items::new(alloc);
    for index in 0..length {
        list.push(fresh_among(alloc, zeroed, declared, above, of)?)?;
    }
    Ok(CellTree::branch(list))
}
