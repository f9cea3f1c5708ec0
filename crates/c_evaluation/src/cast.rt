//! Casts.
ghost use Rattle.std.specs.Prelude.{◌≡◌, ◌||◌, slice_get};
ghost use Rattle.std.specs.Option.{option_copied, option_map};
ghost use Rattle.c_meaning.specs.Cells.{Pointer};
ghost use Rattle.c_meaning.specs.Evaluate as m;
ghost use Rattle.c_meaning.specs.Types as t;
ghost use Rattle.c_meaning.specs.Values as w;
ghost use Rattle.c_evaluation.specs.Types.{object_of, place_type_of, value_type_of};
ghost use Rattle.c_evaluation.specs.Values.{value_of, content_of};
ghost use Rattle.c_evaluation.specs.Scopes.{view_at};
ghost use Rattle.c_evaluation.specs.Casts.{is_number, cast_cell};
ghost use Rattle.c_cells.specs.Slots.{found_block};
ghost use Rattle.c_cells.specs.Halts.{said, Tells};

use crate::lookup::members_of;
use crate::place::member_type;
use crate::read::{block_of, found_type};
use crate::scope::Scope;
use crate::types::{Base, Layer, Object, PlaceType, ValueType, points_to_object, same_type};
use crate::value::{Content, Value, held, type_of};
use c_cells::Path;
use c_cells::cell::{Cell, CellNode, copied};
use c_cells::halt::Halt;
use c_cells::slot::Found;
use c_meaning::StuckKind;
use c_tree::Name;
use c_tree::operators::CCast;
use c_tree::program::CMember;

/// The type of the member at a place.
#[tactic(auto, using(crate::proofs::Parts::type_at_some, crate::proofs::Parts::type_at_none))]
fn type_at<'a>(members: &'a [CMember], at: usize) -> Option<PlaceType<'a>>
    ensures { option_map place_type_of result ≡ t.type_at members.now at }
{
    match member_at(members, at) {
        Some(member) => Some(member_type(member)),
        None => None,
    }
}

fn member_at(members: &[CMember], at: usize) -> Option<&CMember>
    ensures { option_copied result ≡ slice_get members.now at }
{
    members.get(at)
}

/// The element of an array, or the member of a struct.
#[tactic(auto, using(crate::proofs::Parts::element_there, crate::proofs::Parts::element_past), unfolding(c_meaning::specs::Types::child_type, c_meaning::specs::Types::child_type_in))]
fn child_type<'a>(scope: &Scope<'a>, of: PlaceType<'a>, at: usize) -> Option<PlaceType<'a>>
    ensures { option_map place_type_of result ≡ t.child_type scope.now.program.now.declarations (place_type_of of.entry) at }
{
    match of {
        PlaceType::Array(length, of) => {
            if (at as u64) < length {
                Some(PlaceType::Plain(of))
            } else {
                None
            }
        }
        PlaceType::Plain(of) => match of.layer() {
            Layer::Struct(name) => match members_of(scope, name) {
                Some(members) => type_at(members, at),
                None => None,
            },
            _ => None,
        },
    }
}

/// The type of the part at a path of a place.
#[tactic(auto, unfolding(c_meaning::specs::Types::part_type))]
fn part_type<'a>(scope: &Scope<'a>, path: &[usize], of: PlaceType<'a>) -> Option<PlaceType<'a>>
    ensures { option_map place_type_of result ≡ t.part_type scope.now.program.now.declarations path.now (Some (place_type_of of.entry)) }
{
    let mut here = of;
    let mut rest = path;
    while let [first, after @ ..] = rest {
        match child_type(scope, here, *first) {
            Some(child) => here = child,
            None => return None,
        }
        rest = after;
    }
    Some(here)
}

/// Whether the part at a path of a block has the type.
#[tactic(auto, unfolding(c_meaning::specs::Evaluate::holds_type, c_meaning::specs::Evaluate::is_plain))]
fn holds_type(scope: &Scope, of: Object, path: &[usize], block: Found) -> bool
    ensures { result ≡ m.holds_type scope.now.program.now.declarations (object_of of.entry) path.now (found_block block.entry) }
{
    match part_type(scope, path, PlaceType::Plain(found_type(block))) {
        Some(PlaceType::Plain(found)) => same_type(of, found),
        _ => false,
    }
}

/// The same pointer as another type.
#[tactic(auto, unfolding(c_meaning::specs::Evaluate::retyped))]
fn retyped<'a>(scope: &Scope<'a>, of: Object<'a>, content: Content) -> Result<Value<'a>, Halt>
    ensures { Tells value_of result (m.retyped (object_of of.entry) (content_of content.entry)) }
{
    match content {
        Content::Pointer(number, path) => {
            let node = CellNode::Pointer(number, copied(scope.alloc, path)?);
            Ok(Value::Scalar(ValueType::Of(of), Cell { node }))
        }
        Content::Null => {
            let node = CellNode::Null;
            Ok(Value::Scalar(ValueType::Of(of), Cell { node }))
        }
        _ => Err(Halt::Stuck(StuckKind::Mismatch)),
    }
}

/// A pointer to a struct: the block says whether there is one.
#[tactic(auto, using(crate::proofs::Parts::pointer_gone, crate::proofs::Parts::pointer_unlike, crate::proofs::Parts::pointer_alike), unfolding(c_meaning::specs::States::view))]
fn found_pointer<'a>(
    scope: &Scope<'a>,
    name: &'a Name,
    number: usize,
    path: &Path,
) -> Result<Value<'a>, Halt>
    ensures { Tells value_of result (m.struct_pointer (view_at scope.now) name.now (Pointer number path.now)) }
{
    let of = Object {
        pointers: 1,
        base: Base::Struct(name),
    };
    match block_of(scope, number) {
        Ok(block) => {
            let inner = Object {
                pointers: 0,
                base: Base::Struct(name),
            };
            if holds_type(scope, inner, path.as_slice(), block) {
                retyped(scope, of, Content::Pointer(number, path))
            } else {
                Err(Halt::Stuck(StuckKind::Mismatch))
            }
        }
        Err(kind) => Err(Halt::Stuck(kind)),
    }
}

#[tactic(auto, unfolding(c_meaning::specs::Evaluate::struct_pointer))]
fn struct_pointer<'a>(
    scope: &Scope<'a>,
    name: &'a Name,
    content: Content,
) -> Result<Value<'a>, Halt>
    ensures { Tells value_of result (m.struct_pointer (view_at scope.now) name.now (content_of content.entry)) }
{
    match content {
        Content::Pointer(number, path) => found_pointer(scope, name, number, path),
        _ => retyped(
            scope,
            Object {
                pointers: 1,
                base: Base::Struct(name),
            },
            content,
        ),
    }
}

/// A number as an `int64_t`.
#[tactic(auto, using(crate::proofs::Exact::signed_bits), unfolding(c_meaning::specs::Values::int_of_cell, c_meaning::specs::Values::int))]
fn int_of<'a>(content: Content) -> Result<Value<'a>, StuckKind>
    ensures { said value_of result ≡ w.int_of_cell (content_of content.entry) }
{
    match content {
        Content::Int(z) => Ok(Value::Int(z)),
        Content::Word(n) => Ok(Value::Int(n.cast_signed())),
        _ => Err(StuckKind::Mismatch),
    }
}

/// A number as a `uint64_t`.
#[tactic(auto, using(crate::proofs::Exact::unsigned_bits), unfolding(c_meaning::specs::Values::word_of_cell, c_meaning::specs::Values::word))]
fn word_of<'a>(content: Content) -> Result<Value<'a>, StuckKind>
    ensures { said value_of result ≡ w.word_of_cell (content_of content.entry) }
{
    match content {
        Content::Int(z) => Ok(Value::Word(z.cast_unsigned())),
        Content::Word(n) => Ok(Value::Word(n)),
        _ => Err(StuckKind::Mismatch),
    }
}

/// A cast of what a scalar holds.
fn cast_content<'a>(scope: &Scope<'a>, to: &'a CCast, content: Content) -> Result<Value<'a>, Halt>
    ensures { Tells value_of result (cast_cell (view_at scope.now) to.now (content_of content.entry)) }
{
    match to {
        CCast::Int => match int_of(content) {
            Ok(value) => Ok(value),
            Err(kind) => Err(Halt::Stuck(kind)),
        },
        CCast::Word => match word_of(content) {
            Ok(value) => Ok(value),
            Err(kind) => Err(Halt::Stuck(kind)),
        },
        CCast::VoidPointer => retyped(
            scope,
            Object {
                pointers: 0,
                base: Base::VoidPointer,
            },
            content,
        ),
        CCast::StructPointer(name) => struct_pointer(scope, name, content),
    }
}

fn is_number(to: &CCast) -> bool
    ensures { result ≡ is_number to.now }
{
    match to {
        CCast::Int => true,
        CCast::Word => true,
        _ => false,
    }
}

/// Whether the cast takes values of the type.
fn takes(to: &CCast, of: ValueType) -> bool
    ensures { result ≡ (is_number to.now || t.points_to_object (value_type_of of.entry)) }
{
    is_number(to) || points_to_object(of)
}

/// A cast to a number takes a number, and a cast to a pointer a pointer to an object.
#[tactic(auto, using(crate::proofs::Casts::unlike, crate::proofs::Casts::no_scalar, crate::proofs::Casts::scalar))]
pub fn cast<'a>(scope: &Scope<'a>, to: &'a CCast, value: &Value) -> Result<Value<'a>, Halt>
    ensures { Tells value_of result (m.cast (view_at scope.now) to.now (value_of value.now)) }
{
    if !takes(to, type_of(value)) {
        return Err(Halt::Stuck(StuckKind::Mismatch));
    }
    match held(value) {
        Ok(content) => cast_content(scope, to, content),
        Err(kind) => Err(Halt::Stuck(kind)),
    }
}
