//! Places.
ghost use Rattle.std.specs.Prelude.{◌≡◌, ◌∷◌, ◌++◌, [], IfOk};
ghost use Rattle.std.specs.Option.{option_map};
ghost use Rattle.c_meaning.specs.Evaluate as m;
ghost use Rattle.c_tree.specs.Tree.{Struct};
ghost use Rattle.c_meaning.specs.Types as t;
ghost use Rattle.c_evaluation.specs.Types.{place_type_of};
ghost use Rattle.c_evaluation.specs.Scopes.{site_of, step_of};
ghost use Rattle.c_cells.specs.Halts.{said};

use crate::lookup::members_of;
use crate::scope::Scope;
use crate::types::{Layer, Object, PlaceType};
use c_cells::Path;
use c_meaning::StuckKind;
use c_tree::Name;
use c_tree::program::CMember;
use std::alloc::AllocError;

/// Where a place begins: at a variable, or in a block that a pointer gave.
#[derive(Clone, Copy)]
pub enum Root<'a> {
    Named(&'a Name),
    At(usize),
}

/// A part of a variable or a block, with its type.
#[derive(Drop)]
pub struct Site<'a> {
    pub root: Root<'a>,
    pub path: Path,
    pub of: PlaceType<'a>,
}

/// A part of a place: which child it is, and its type.
#[derive(Clone, Copy)]
pub struct Step<'a> {
    pub child: usize,
    pub of: PlaceType<'a>,
}

/// The type of a member.
#[tactic(auto, unfolding(c_meaning::specs::Types::member_type))]
pub fn member_type<'a>(member: &'a CMember) -> PlaceType<'a>
    ensures { place_type_of result ≡ t.member_type member.now.of member.now.length }
{
    match member.length {
        None => PlaceType::Plain(Object::written(&member.of)),
        Some(length) => PlaceType::Array(length, Object::written(&member.of)),
    }
}

/// The member with a name.
#[tactic(auto, unfolding(c_meaning::specs::Types::member_from))]
fn member_named<'a>(members: &'a [CMember], name: &Name) -> Option<Step<'a>>
    ensures { option_map step_of result ≡ t.member_from 0 name.now members.now }
{
    let mut rest = members;
    let mut child = 0;
    while let [first, after @ ..] = rest {
        if name.as_slice() == first.name.as_slice() {
            return Some(Step {
                child,
                of: member_type(first),
            });
        }
        rest = after;
        child += 1;
    }
    None
}

/// The member with a name, of a struct.
#[tactic(auto, using(crate::proofs::Places::no_struct, crate::proofs::Places::no_member, crate::proofs::Places::member_found))]
fn struct_member<'a>(scope: &Scope<'a>, of: &Name, name: &Name) -> Result<Step<'a>, StuckKind>
    ensures { said step_of result ≡ m.member scope.now.program.now.declarations name.now (t.Plain (Struct of.now)) }
{
    match members_of(scope, of) {
        None => Err(StuckKind::UnknownName),
        Some(members) => match member_named(members, name) {
            None => Err(StuckKind::UnknownName),
            Some(step) => Ok(step),
        },
    }
}

/// The member with a name.
#[tactic(auto, unfolding(c_meaning::specs::Evaluate::member))]
pub fn member<'a>(scope: &Scope<'a>, name: &Name, of: PlaceType<'a>) -> Result<Step<'a>, StuckKind>
    ensures { said step_of result ≡ m.member scope.now.program.now.declarations name.now (place_type_of of.entry) }
{
    match of {
        PlaceType::Plain(of) => match of.layer() {
            Layer::Struct(of) => struct_member(scope, of, name),
            _ => Err(StuckKind::Mismatch),
        },
        PlaceType::Array(_, _) => Err(StuckKind::Mismatch),
    }
}

/// The element with a number.
#[tactic(auto, using(crate::proofs::Places::element_below, crate::proofs::Places::element_past, crate::proofs::Places::element_within, crate::proofs::Places::element_of_plain))]
pub fn element<'a>(z: i64, of: PlaceType<'a>) -> Result<Step<'a>, StuckKind>
    ensures { said step_of result ≡ m.element z (place_type_of of.entry) }
{
    match of {
        PlaceType::Plain(_) => Err(StuckKind::Mismatch),
        PlaceType::Array(length, of) => {
            if z < 0 {
                return Err(StuckKind::BadIndex);
            }
            if z as u64 >= length {
                return Err(StuckKind::BadIndex);
            }
            Ok(Step {
                child: z as usize,
                of: PlaceType::Plain(of),
            })
        }
    }
}

/// One step into a place.
#[tactic(auto, unfolding(c_meaning::specs::Evaluate::onward))]
pub fn onward<'a>(mut site: Site<'a>, step: Step<'a>) -> Result<Site<'a>, AllocError>
    ensures { IfOk result (λ made. site_of made ≡ m.onward (site_of site.entry) (step_of step.entry)) }
{
    site.path.push(step.child)?;
    site.of = step.of;
    Ok(site)
}
