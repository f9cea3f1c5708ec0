//! What is read of memory.
ghost use Rattle.std.specs.Prelude.{◌≡◌};
ghost use Rattle.c_meaning.specs.Cells.{Leaf, Pointer};
ghost use Rattle.c_meaning.specs.Answer.{or_bad};
ghost use Rattle.c_meaning.specs.States as g;
ghost use Rattle.c_meaning.specs.Evaluate as m;
ghost use Rattle.c_meaning.specs.Values as w;
ghost use Rattle.c_evaluation.specs.Types.{object_of, place_type_of};
ghost use Rattle.c_evaluation.specs.Values.{value_of, content_of};
ghost use Rattle.c_evaluation.specs.Scopes.{view_at, root_of, site_of, part_value, tree_value, follow_leaf, HasRoom};
ghost use Rattle.c_cells.specs.Halts.{said, Tells};
ghost use Rattle.c_cells.specs.Slots.{found_block, int_cell};

use crate::lookup::{named, number_of, signature};
use crate::place::{Root, Site};
use crate::scope::Scope;
use crate::types::{Layer, Object, PlaceType, ValueType};
use crate::value::{Content, Value, held, type_of};
use c_cells::Path;
use c_cells::cell::{Cell, CellNode, copied};
use c_cells::halt::Halt;
use c_cells::slot::{Found, int_cell};
use c_cells::tree::{CellTree, CellTreeNode};
use c_meaning::StuckKind;
use c_tree::Name;
use tree_lists::Items;

/// The type of a block.
pub fn found_type<'a>(block: Found<'a>) -> Object<'a>
    ensures { object_of result ≡ (found_block block.entry).of }
{
    match block {
        Found::Int(_) => Object::int(),
        Found::Block(block) => Object::written(&block.of),
    }
}

/// The block with a number.
#[tactic(auto, unfolding(c_meaning::specs::States::view, c_meaning::specs::Answer::or_bad))]
pub fn block_of<'a>(scope: &Scope<'a>, number: usize) -> Result<Found<'a>, StuckKind>
    ensures { said found_block result ≡ or_bad StuckKind.GoneUse ((view_at scope.now).block number) }
{
    match scope.memory.get(number) {
        Some(block) => Ok(block),
        None => Err(StuckKind::GoneUse),
    }
}

// ---- reading

/// The value of a scalar of a type: an `unsigned char` is read as an `int64_t`.
#[tactic(auto, unfolding(c_meaning::specs::Values::value_of, c_meaning::specs::Values::int))]
pub fn scalar_value<'a>(of: Object<'a>, cell: Cell) -> Value<'a>
    ensures { value_of result ≡ w.value_of (object_of of.entry) (Leaf cell) }
{
    match (of.layer(), &cell.node) {
        (Layer::Int, CellNode::Int(z)) => Value::Int(*z),
        (Layer::Word, CellNode::Word(n)) => Value::Word(*n),
        (Layer::Byte, CellNode::Byte(n)) => Value::Int(*n as i64),
        _ => Value::Scalar(ValueType::Of(of), cell),
    }
}

/// A scalar that is read is not empty, and a pointer's block is there.
#[tactic(auto, using(crate::proofs::Reading::read_gone, crate::proofs::Reading::read_there), unfolding(c_meaning::specs::Evaluate::read_cell))]
fn read_cell<'a>(scope: &Scope<'a>, of: Object<'a>, cell: &Cell) -> Result<Value<'a>, Halt>
    ensures { Tells value_of result (m.read_cell (view_at scope.now) (object_of of.entry) cell.now) }
{
    match &cell.node {
        CellNode::Empty => Err(Halt::Stuck(StuckKind::Indeterminate)),
        CellNode::Pointer(number, _) => match block_of(scope, *number) {
            Ok(_) => Ok(scalar_value(of, cell.copy(scope.alloc)?)),
            Err(kind) => Err(Halt::Stuck(kind)),
        },
        _ => Ok(scalar_value(of, cell.copy(scope.alloc)?)),
    }
}

/// A struct is taken as it is, and none of its cells counts as read.
#[tactic(auto, using(crate::proofs::Leaves::no_leaf, crate::proofs::Leaves::the_leaf, crate::proofs::Binary::bind_got, crate::proofs::Binary::bind_bad), unfolding(c_meaning::specs::Evaluate::read_tree, c_meaning::specs::Values::value_of))]
fn read_tree<'a>(scope: &Scope<'a>, of: Object<'a>, tree: &'a CellTree) -> Result<Value<'a>, Halt>
    ensures { Tells value_of result (m.read_tree (view_at scope.now) (object_of of.entry) tree.now) }
{
    match of.layer() {
        Layer::Struct(_) => Ok(Value::Tree(of, tree)),
        _ => match &tree.node {
            CellTreeNode::Leaf(cell) => read_cell(scope, of, cell),
            CellTreeNode::Branch(_) => Err(Halt::Stuck(StuckKind::Mismatch)),
        },
    }
}

/// A whole array is not read.
#[tactic(auto, unfolding(c_meaning::specs::Evaluate::read_as))]
fn read_as<'a>(scope: &Scope<'a>, of: PlaceType<'a>, tree: &'a CellTree) -> Result<Value<'a>, Halt>
    ensures { Tells value_of result (m.read_as (view_at scope.now) (place_type_of of.entry) tree.now) }
{
    match of {
        PlaceType::Plain(of) => read_tree(scope, of, tree),
        PlaceType::Array(_, _) => Err(Halt::Stuck(StuckKind::Mismatch)),
    }
}

// ---- places

/// The block in which a place is.
#[tactic(auto, unfolding(c_meaning::specs::States::view, c_meaning::specs::Answer::or_bad, c_meaning::specs::Evaluate::root_block))]
fn root_block<'a>(scope: &Scope<'a>, root: Root<'a>) -> Result<Found<'a>, StuckKind>
    requires { HasRoom scope.now }
    ensures { said found_block result ≡ m.root_block (view_at scope.now) (root_of root.entry) }
{
    match root {
        Root::Named(name) => match named(scope, name) {
            Some(block) => Ok(block),
            None => Err(StuckKind::UnknownName),
        },
        Root::At(number) => match scope.memory.get(number) {
            Some(block) => Ok(block),
            None => Err(StuckKind::GoneUse),
        },
    }
}

/// The number of that block.
#[tactic(auto, unfolding(c_meaning::specs::States::view, c_meaning::specs::Answer::or_bad, c_meaning::specs::Evaluate::root_number))]
pub fn root_number(scope: &Scope, root: Root) -> Result<usize, StuckKind>
    requires { HasRoom scope.now }
    ensures { said (λ n. n) result ≡ m.root_number (view_at scope.now) (root_of root.entry) }
{
    match root {
        Root::Named(name) => match number_of(scope, name) {
            Some(number) => Ok(number),
            None => Err(StuckKind::UnknownName),
        },
        Root::At(number) => Ok(number),
    }
}

/// The value of the part of a block.
fn load_part<'a>(scope: &Scope<'a>, site: &Site<'a>, block: Found<'a>) -> Result<Value<'a>, Halt>
    ensures { Tells value_of result (part_value (view_at scope.now) (site_of site.now) (found_block block.entry)) }
{
    match block {
        Found::Int(number) => load_int(scope, site, number),
        Found::Block(block) => load_tree(scope, site, &block.tree),
    }
}

/// The same where the block has this tree.
#[tactic(auto, using(crate::proofs::Reading::part_none, crate::proofs::Reading::part_some))]
fn load_tree<'a>(scope: &Scope<'a>, site: &Site<'a>, tree: &'a CellTree) -> Result<Value<'a>, Halt>
    ensures { Tells value_of result (tree_value (view_at scope.now) (site_of site.now) tree.now) }
{
    match tree.part(site.path.as_slice()) {
        Some(tree) => read_as(scope, site.of, tree),
        None => Err(Halt::Stuck(StuckKind::Mismatch)),
    }
}

/// The same in an `int64_t` variable, which has no parts.
#[tactic(auto, using(crate::proofs::Reading::whole_int, crate::proofs::Reading::no_part_of_int))]
fn load_int<'a>(scope: &Scope<'a>, site: &Site<'a>, number: Option<i64>) -> Result<Value<'a>, Halt>
    ensures { Tells value_of result (tree_value (view_at scope.now) (site_of site.now) (Leaf (int_cell number))) }
{
    match site.path.as_slice() {
        [] => read_int_as(scope, site.of, number),
        [_, ..] => Err(Halt::Stuck(StuckKind::Mismatch)),
    }
}

#[tactic(auto, unfolding(c_meaning::specs::Evaluate::read_as))]
fn read_int_as<'a>(
    scope: &Scope<'a>,
    of: PlaceType<'a>,
    number: Option<i64>,
) -> Result<Value<'a>, Halt>
    ensures { Tells value_of result (m.read_as (view_at scope.now) (place_type_of of.entry) (Leaf (int_cell number))) }
{
    match of {
        PlaceType::Plain(of) => read_int(scope, of, number),
        PlaceType::Array(_, _) => Err(Halt::Stuck(StuckKind::Mismatch)),
    }
}

/// The value of an `int64_t` variable.
#[tactic(auto, using(crate::proofs::Leaves::the_leaf, crate::proofs::Binary::bind_got), unfolding(c_meaning::specs::Evaluate::read_tree, c_meaning::specs::Values::value_of))]
fn read_int<'a>(scope: &Scope<'a>, of: Object<'a>, number: Option<i64>) -> Result<Value<'a>, Halt>
    ensures { Tells value_of result (m.read_tree (view_at scope.now) (object_of of.entry) (Leaf (int_cell number))) }
{
    match of.layer() {
        Layer::Struct(_) => Ok(Value::Scalar(ValueType::Of(of), int_cell(number))),
        _ => read_cell(scope, of, &int_cell(number)),
    }
}

/// The value at a place.
#[tactic(auto, using(crate::proofs::Reading::load_gone, crate::proofs::Reading::load_there))]
pub fn load<'a>(scope: &Scope<'a>, site: &Site<'a>) -> Result<Value<'a>, Halt>
    requires { HasRoom scope.now }
    ensures { Tells value_of result (m.load (view_at scope.now) (site_of site.now)) }
{
    match root_block(scope, site.root) {
        Ok(block) => load_part(scope, site, block),
        Err(kind) => Err(Halt::Stuck(kind)),
    }
}

// ---- pointers

/// The target of a pointer to a type.
#[tactic(auto, using(crate::proofs::Reading::follow_gone, crate::proofs::Reading::follow_there), unfolding(c_meaning::specs::Evaluate::follow_cell))]
fn follow_content<'a>(scope: &Scope<'a>, to: Object<'a>, content: Content) -> Result<Site<'a>, Halt>
    ensures { Tells site_of result (m.follow_cell (view_at scope.now) (object_of to.entry) (content_of content.entry)) }
{
    match content {
        Content::Pointer(number, path) => match block_of(scope, number) {
            Ok(_) => Ok(Site {
                root: Root::At(number),
                path: copied(scope.alloc, path)?,
                of: PlaceType::Plain(to),
            }),
            Err(kind) => Err(Halt::Stuck(kind)),
        },
        Content::Null => Err(Halt::Stuck(StuckKind::NullUse)),
        _ => Err(Halt::Stuck(StuckKind::Mismatch)),
    }
}

/// The target of a value that points to a type.
#[tactic(auto, using(crate::proofs::Binary::bind_got, crate::proofs::Binary::bind_bad))]
fn follow_held<'a>(scope: &Scope<'a>, to: Object<'a>, value: &Value) -> Result<Site<'a>, Halt>
    ensures { Tells site_of result (follow_leaf (view_at scope.now) (object_of to.entry) (value_of value.now)) }
{
    match held(value) {
        Ok(content) => follow_content(scope, to, content),
        Err(kind) => Err(Halt::Stuck(kind)),
    }
}

/// The target of a value: `void *` and pointers to functions have none.
#[tactic(auto, using(crate::proofs::Reading::follow_pointer, crate::proofs::Reading::follow_any, crate::proofs::Reading::follow_routine, crate::proofs::Reading::follow_other))]
pub fn follow<'a>(scope: &Scope<'a>, value: &Value<'a>) -> Result<Site<'a>, Halt>
    ensures { Tells site_of result (m.follow (view_at scope.now) (value_of value.now)) }
{
    match type_of(value) {
        ValueType::Of(of) => match of.target() {
            Some(to) => follow_held(scope, to, value),
            None => Err(Halt::Stuck(StuckKind::Mismatch)),
        },
        ValueType::AnyPointer => Err(Halt::Stuck(StuckKind::NullUse)),
        ValueType::Routine(_) => Err(Halt::Stuck(StuckKind::Mismatch)),
    }
}

fn pointer_cell(number: usize, path: Path) -> Cell
    ensures { result ≡ Pointer number path }
{
    Cell {
        node: CellNode::Pointer(number, path),
    }
}

/// A pointer to a part of a block; there are none to a whole array.
#[tactic(auto, unfolding(c_meaning::specs::Evaluate::pointer_to))]
fn pointer_to<'a>(of: PlaceType<'a>, path: Path, number: usize) -> Result<Value<'a>, Halt>
    ensures { Tells value_of result (m.pointer_to (place_type_of of.entry) path number) }
{
    match of {
        PlaceType::Plain(of) => {
            let of = of.pointer()?;
            Ok(Value::Scalar(ValueType::Of(of), pointer_cell(number, path)))
        }
        PlaceType::Array(_, _) => Err(Halt::Stuck(StuckKind::Mismatch)),
    }
}

/// `&` and a place.
#[tactic(auto, using(crate::proofs::Binary::bind_got, crate::proofs::Binary::bind_bad), unfolding(c_meaning::specs::Evaluate::address))]
pub fn address<'a>(scope: &Scope<'a>, site: Site<'a>) -> Result<Value<'a>, Halt>
    requires { HasRoom scope.now }
    ensures { Tells value_of result (m.address (view_at scope.now) (site_of site.entry)) }
{
    match root_number(scope, site.root) {
        Ok(number) => pointer_to(site.of, site.path, number),
        Err(kind) => Err(Halt::Stuck(kind)),
    }
}

// ---- names

/// The name of a function is a pointer to it.
#[tactic(auto, unfolding(c_meaning::specs::Evaluate::function_value))]
fn function_value<'a>(scope: &Scope<'a>, name: &Name) -> Result<Value<'a>, Halt>
    ensures { Tells value_of result (m.function_value name.now (g.signature_of scope.now.program.now scope.now.reach name.now)) }
{
    match signature(scope, name) {
        Some(found) => {
            let node = CellNode::Function(copied(scope.alloc, name)?);
            Ok(Value::Scalar(ValueType::Routine(found), Cell { node }))
        }
        None => Err(Halt::Stuck(StuckKind::UnknownName)),
    }
}

/// A name is a variable, or else a function.
#[tactic(auto, unfolding(c_meaning::specs::States::view, c_meaning::specs::Evaluate::name_value))]
pub fn name_value<'a>(scope: &Scope<'a>, name: &Name) -> Result<Value<'a>, Halt>
    requires { HasRoom scope.now }
    ensures { Tells value_of result (m.name_value (view_at scope.now) name.now ((view_at scope.now).named name.now)) }
{
    match named(scope, name) {
        Some(Found::Int(number)) => read_int(scope, Object::int(), number),
        Some(Found::Block(block)) => read_tree(scope, Object::written(&block.of), &block.tree),
        None => function_value(scope, name),
    }
}

/// The place that a name names.
#[tactic(auto, unfolding(c_meaning::specs::States::view, c_meaning::specs::Evaluate::variable, c_meaning::specs::Evaluate::no_variable))]
pub fn variable<'a>(scope: &Scope<'a>, name: &'a Name) -> Result<Site<'a>, StuckKind>
    requires { HasRoom scope.now }
    ensures { said site_of result ≡ m.variable (view_at scope.now) name.now ((view_at scope.now).named name.now) }
{
    match named(scope, name) {
        Some(block) => Ok(Site {
            root: Root::Named(name),
            path: Items::new(scope.alloc),
            of: PlaceType::Plain(found_type(block)),
        }),
        None => match signature(scope, name) {
            Some(_) => Err(StuckKind::Mismatch),
            None => Err(StuckKind::UnknownName),
        },
    }
}
