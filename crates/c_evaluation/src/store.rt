//! What places take of values, and where it goes.
ghost use Rattle.std.specs.Prelude.{◌≡◌, [], IfOk, length};
ghost use Rattle.c_meaning.specs.Values as w;
ghost use Rattle.c_meaning.specs.Evaluate as v;
ghost use Rattle.c_meaning.specs.Steps as m;
ghost use Rattle.c_evaluation.specs.Types.{object_of, place_type_of};
ghost use Rattle.c_cells.specs.Views.{cell_of};
ghost use Rattle.c_meaning.specs.Cells.{Leaf, Pointer, block_at};
ghost use Rattle.c_cells.specs.Slots.{found_block};
ghost use Rattle.c_tree.specs.Tree as t;
ghost use Rattle.c_meaning.specs.Types.{Of};
ghost use Rattle.c_meaning.specs.Answer.{Got};
ghost use Rattle.c_evaluation.specs.Values.{value_of as worth, content_of, tree_in};
ghost use Rattle.c_evaluation.specs.Scopes.{view_at, site_of, HasRoom};
ghost use Rattle.c_cells.specs.Halts.{said, Tells};
ghost use Rattle.c_evaluation.specs.Stores.{Stores, Finds, next_number, byte_stored, address_stored, byte_put, byte_number, byte_of_number, chosen, truth_in, Frees, freed_of, byte_taken as byte_given, alike_taken as alike_given};

use crate::evaluate::{place_of, value_of};
use crate::operate::is_zero;
use crate::place::Site;
use crate::read::root_number;
use crate::scope::Scope;
use crate::types::{Base, Object, PlaceType, ValueType, alike, points_to_object};
use crate::value::{Content, Value, as_int, held, type_of};
use c_cells::Path;
use c_cells::cell::{Cell, CellNode};
use c_cells::halt::Halt;
use c_cells::slot::Found;
use c_cells::tree::{CellTree, copy_tree};
use c_meaning::StuckKind;
use c_tree::expr::{CExpr, CPlace};
use c_tree::types::CType;
use std::alloc::AllocError;
use tree_lists::Items;

/// A part of a block that gets another tree.
#[derive(Drop)]
pub struct Store {
    pub number: usize,
    pub path: Path,
    pub tree: CellTree,
}

fn leaf_tree(node: CellNode) -> CellTree
    ensures { result ≡ Leaf (cell_of node) }
{
    CellTree::leaf(Cell { node })
}

/// What an `unsigned char` takes of a number.
#[tactic(auto, using(crate::proofs::Taking::byte_within, crate::proofs::Taking::byte_below, crate::proofs::Taking::byte_above))]
fn byte_of(z: i64) -> Result<CellTree, StuckKind>
    ensures { said (λ t. t) result ≡ w.byte_of z }
{
    if z < 0 {
        return Err(StuckKind::BadByteValue);
    }
    if z > 255 {
        return Err(StuckKind::BadByteValue);
    }
    Ok(leaf_tree(CellNode::Byte(z as u8)))
}

/// The tree of a value.
fn tree_of(scope: &Scope, value: Value) -> Result<CellTree, Halt>
    ensures { Tells (λ t. t) result (Got (tree_in (worth value.entry))) }
{
    match value {
        Value::Int(z) => Ok(leaf_tree(CellNode::Int(z))),
        Value::Word(n) => Ok(leaf_tree(CellNode::Word(n))),
        Value::Scalar(_, cell) => Ok(CellTree::leaf(cell)),
        Value::Tree(_, tree) => Ok(copy_tree(scope.alloc, tree)?),
    }
}

/// What an `unsigned char` takes of a value.
#[tactic(auto, using(crate::proofs::Taking::no_byte, crate::proofs::Taking::some_byte))]
fn byte_taken(value: &Value) -> Result<CellTree, StuckKind>
    ensures { said (λ t. t) result ≡ byte_given (worth value.now) }
{
    match as_int(value) {
        Ok(z) => byte_of(z),
        Err(kind) => Err(kind),
    }
}

/// What a place of a type that is no `unsigned char` takes of a value.
#[tactic(auto, using(crate::proofs::Taking::unlike, crate::proofs::Taking::alike_taken))]
fn alike_taken(scope: &Scope, of: Object, value: Value) -> Result<CellTree, Halt>
    ensures { Tells (λ t. t) result (alike_given scope.now.program.now.declarations (object_of of.entry) (worth value.entry)) }
{
    if !alike(scope, ValueType::Of(of), type_of(&value)) {
        return Err(Halt::Stuck(StuckKind::Mismatch));
    }
    tree_of(scope, value)
}

/// What a place of a type takes of a value.
#[tactic(auto, using(crate::proofs::Taking::as_byte, crate::proofs::Taking::as_other))]
pub fn converted(scope: &Scope, of: Object, value: Value) -> Result<CellTree, Halt>
    ensures { Tells (λ t. t) result (w.converted scope.now.program.now.declarations (object_of of.entry) (worth value.entry)) }
{
    if of.is_byte() {
        match byte_taken(&value) {
            Ok(tree) => Ok(tree),
            Err(kind) => Err(Halt::Stuck(kind)),
        }
    } else {
        alike_taken(scope, of, value)
    }
}

/// What a place takes of a value; a whole array takes none.
#[tactic(auto, unfolding(c_meaning::specs::Steps::taken))]
pub fn taken(scope: &Scope, of: PlaceType, value: Value) -> Result<CellTree, Halt>
    ensures { Tells (λ t. t) result (m.taken scope.now.program.now.declarations (place_type_of of.entry) (worth value.entry)) }
{
    match of {
        PlaceType::Plain(of) => converted(scope, of, value),
        PlaceType::Array(_, _) => Err(Halt::Stuck(StuckKind::Mismatch)),
    }
}

/// A store in a place.
pub fn put_value(scope: &Scope, site: Site, value: Value) -> Result<Store, Halt>
    requires { HasRoom scope.now }
    ensures { Stores scope.now.memory.now result (m.put_value (view_at scope.now) (site_of site.entry) (worth value.entry)) }
{
    let tree = taken(scope, site.of, value)?;
    match root_number(scope, site.root) {
        Ok(number) => Ok(Store {
            number,
            path: site.path,
            tree,
        }),
        Err(kind) => Err(Halt::Stuck(kind)),
    }
}

/// `place = e;`
pub fn assigned<'a>(scope: &Scope<'a>, place: &'a CPlace, e: &'a CExpr) -> Result<Store, Halt>
    requires { HasRoom scope.now }
    ensures { Stores scope.now.memory.now result (m.assign (view_at scope.now) place.now e.now) }
{
    let site = place_of(scope, place)?;
    let value = value_of(scope, e)?;
    put_value(scope, site, value)
}

/// The byte that comes next, or -1.
#[tactic(auto, unfolding(c_meaning::specs::Values::int))]
fn next_value<'a>(byte: Option<u8>) -> Value<'a>
    ensures { worth result ≡ w.int (next_number byte) }
{
    match byte {
        Some(b) => Value::Int(b as i64),
        None => Value::Int(-1),
    }
}

/// `place = getchar();` where this is the byte that comes next.
pub fn got<'a>(scope: &Scope<'a>, place: &'a CPlace, byte: Option<u8>) -> Result<Store, Halt>
    requires { HasRoom scope.now }
    ensures { Stores scope.now.memory.now result (byte_stored (view_at scope.now) place.now byte) }
{
    let site = place_of(scope, place)?;
    put_value(scope, site, next_value(byte))
}

/// Whether a place is there.
pub fn found<'a>(scope: &Scope<'a>, place: &'a CPlace) -> Result<(), Halt>
    requires { HasRoom scope.now }
    ensures { Finds result (v.place (view_at scope.now) place.now) }
{
    match place_of(scope, place) {
        Ok(_site) => Ok(()),
        Err(halt) => Err(halt),
    }
}

/// What a new block's address is, and where `place = malloc(sizeof(of));` puts it.
pub fn malloced<'a>(scope: &Scope<'a>, place: &'a CPlace, of: &'a CType) -> Result<Store, Halt>
    requires { HasRoom scope.now }
    ensures { Stores scope.now.memory.now result (address_stored (view_at scope.now) scope.now.memory.now place.now of.now) }
{
    let site = place_of(scope, place)?;
    let value = new_pointer(scope, of)?;
    put_value(scope, site, value)
}

/// A pointer to the block that is made next.
fn new_pointer<'a>(scope: &Scope<'a>, of: &'a CType) -> Result<Value<'a>, AllocError>
    ensures { IfOk result (λ value. worth value ≡ w.Typed (Of (t.Pointer of.now)) (Leaf (Pointer (length scope.now.memory.now) []))) }
{
    let of = Object {
        pointers: of.stars.checked_add(1).ok_or(AllocError)?,
        base: Base::written(&of.base),
    };
    let node = CellNode::Pointer(scope.memory.made(), Items::new(scope.alloc));
    Ok(Value::Scalar(ValueType::Of(of), Cell { node }))
}

/// The byte that `putchar(e);` writes.
pub fn put<'a>(scope: &Scope<'a>, e: &'a CExpr) -> Result<u8, Halt>
    requires { HasRoom scope.now }
    ensures { Tells (λ n. n) result (byte_put (view_at scope.now) e.now) }
{
    let value = value_of(scope, e)?;
    byte_in(&value)
}

/// The byte that a value is.
#[tactic(auto, using(crate::proofs::Taking::no_put, crate::proofs::Taking::some_put))]
fn byte_in(value: &Value) -> Result<u8, Halt>
    ensures { Tells (λ n. n) result (byte_number (worth value.now)) }
{
    match as_int(value) {
        Ok(z) => byte_from(z),
        Err(kind) => Err(Halt::Stuck(kind)),
    }
}

/// What a test chooses.
pub fn test<'a>(scope: &Scope<'a>, e: &'a CExpr) -> Result<bool, Halt>
    requires { HasRoom scope.now }
    ensures { Tells (λ b. b) result (chosen (view_at scope.now) e.now) }
{
    let value = value_of(scope, e)?;
    holds(&value)
}

#[tactic(auto, using(crate::proofs::Taking::no_truth, crate::proofs::Taking::some_truth))]
fn holds(value: &Value) -> Result<bool, Halt>
    ensures { Tells (λ b. b) result (truth_in (worth value.now)) }
{
    match as_int(value) {
        Ok(z) => Ok(!is_zero(z)),
        Err(kind) => Err(Halt::Stuck(kind)),
    }
}

/// A number that is a byte.
#[tactic(auto, using(crate::proofs::Taking::number_within, crate::proofs::Taking::number_below, crate::proofs::Taking::number_above))]
fn byte_from(z: i64) -> Result<u8, Halt>
    ensures { Tells (λ n. n) result (byte_of_number z) }
{
    if z < 0 {
        return Err(Halt::Stuck(StuckKind::BadByteValue));
    }
    if z > 255 {
        return Err(Halt::Stuck(StuckKind::BadByteValue));
    }
    Ok(z as u8)
}

/// The number of the block that `free(e);` makes be gone, or none where nothing is freed.
pub fn freed<'a>(scope: &Scope<'a>, e: &'a CExpr) -> Result<Option<usize>, Halt>
    requires { HasRoom scope.now }
    ensures { Frees scope.now.memory.now result (freed_of (view_at scope.now) scope.now.memory.now e.now) }
{
    let value = value_of(scope, e)?;
    freed_value(scope, &value)
}

#[tactic(auto, using(crate::proofs::Freeing::no_object, crate::proofs::Freeing::no_scalar, crate::proofs::Freeing::scalar))]
fn freed_value(scope: &Scope, value: &Value) -> Result<Option<usize>, Halt>
    ensures { Frees scope.now.memory.now result (m.free_value scope.now.memory.now (worth value.now)) }
{
    if !points_to_object(type_of(value)) {
        return Err(Halt::Stuck(StuckKind::Mismatch));
    }
    match held(value) {
        Ok(content) => freed_content(scope, content),
        Err(kind) => Err(Halt::Stuck(kind)),
    }
}

#[tactic(auto, unfolding(c_meaning::specs::Steps::free_cell))]
fn freed_content(scope: &Scope, content: Content) -> Result<Option<usize>, Halt>
    ensures { Frees scope.now.memory.now result (m.free_cell scope.now.memory.now (content_of content.entry)) }
{
    match content {
        Content::Null => Ok(None),
        Content::Pointer(number, path) => freed_block(scope, number, path),
        _ => Err(Halt::Stuck(StuckKind::Mismatch)),
    }
}

/// Only the start of a block that `malloc` made is freed.
#[tactic(auto, using(crate::proofs::Freeing::gone, crate::proofs::Freeing::inner, crate::proofs::Freeing::no_heap, crate::proofs::Freeing::heap))]
fn freed_block(scope: &Scope, number: usize, path: &Path) -> Result<Option<usize>, Halt>
    ensures { Frees scope.now.memory.now result (m.free_block scope.now.memory.now number path.now (block_at scope.now.memory.now number)) }
{
    match scope.memory.get(number) {
        None => Err(Halt::Stuck(StuckKind::GoneUse)),
        Some(block) => {
            if path.len() > 0 {
                return Err(Halt::Stuck(StuckKind::BadFree));
            }
            if !is_heap(block) {
                return Err(Halt::Stuck(StuckKind::BadFree));
            }
            Ok(Some(number))
        }
    }
}

fn is_heap(block: Found) -> bool
    ensures { result ≡ (found_block block.entry).heap }
{
    match block {
        Found::Int(_) => false,
        Found::Block(block) => block.heap,
    }
}
