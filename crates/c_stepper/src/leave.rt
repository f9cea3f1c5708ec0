//! The end of a function.
ghost use Rattle.std.specs.Prelude.{◌≡◌, IfOk, IfErr, OnOk};
ghost use Rattle.std.specs.Option.{option_map};
ghost use Rattle.c_meaning.specs.Cells.{Blocks};
ghost use Rattle.c_meaning.specs.Answer.{Got};
ghost use Rattle.c_meaning.specs.Steps as m;
ghost use Rattle.c_meaning.specs.Values as w;
ghost use Rattle.c_cells.specs.Halts.{Tells, Refuses};
ghost use Rattle.c_evaluation.specs.Scopes.{view_at, HasRoom};
ghost use Rattle.c_evaluation.specs.Types.{object_of, place_type_of};
ghost use Rattle.c_evaluation.specs.Values.{value_of as worth};
ghost use Rattle.c_stepper.specs.Runners.{target_of as meant, stored_type};
ghost use Rattle.c_stepper.specs.Leaving.{given_of, status_in, Answers, place_answer, stored_in};

use crate::runner::Target;
use c_cells::Path;
use c_cells::cell::copied;
use c_cells::halt::Halt;
use c_cells::memory::Memory;
use c_cells::tree::{CellTree, CellTreeNode};
use c_evaluation::evaluate::value_of;
use c_evaluation::read::scalar_value;
use c_evaluation::scope::Scope;
use c_evaluation::store::{Store, converted, taken};
use c_evaluation::types::{Object, PlaceType};
use c_evaluation::value::{Value, as_int};
use c_meaning::StuckKind;
use c_tree::expr::CExpr;
use c_tree::types::CType;
use std::alloc::{AllocError, Global};
use tree_lists::Items;

// ---- what a function gives

/// What a function gives: a tree of its result's type.
#[derive(Drop)]
pub struct Given<'p> {
    pub of: Object<'p>,
    pub tree: CellTree,
}

/// What a function with this result gives of a value.
fn result_given<'a, 'p>(
    scope: &Scope<'a>,
    of: Option<Object<'p>>,
    value: Value<'a>,
) -> Result<Given<'p>, Halt>
    ensures { Tells given_of result (m.result_of scope.now.program.now.declarations (option_map object_of of.entry) (worth value.entry)) }
{
    match of {
        Some(of) => {
            let tree = converted(scope, of, value)?;
            Ok(Given { of, tree })
        }
        None => Err(Halt::Stuck(StuckKind::Mismatch)),
    }
}

/// The value of a `return`.
pub fn returned<'a, 'p>(
    scope: &Scope<'a>,
    of: Option<Object<'p>>,
    e: &'a Option<CExpr>,
) -> Result<Option<Given<'p>>, Halt>
    requires { HasRoom scope.now }
    ensures { Tells (option_map given_of) result (m.returned (view_at scope.now) (option_map object_of of.entry) e.now) }
{
    match e {
        None => Ok(None),
        Some(e) => {
            let value = value_of(scope, e)?;
            let given = result_given(scope, of, value)?;
            Ok(Some(given))
        }
    }
}

/// The value for which a tree of a type stands.
#[tactic(auto, using(crate::proofs::Leaving::branch_value))]
fn tree_value<'a>(
    alloc: Global,
    of: Object<'a>,
    tree: &'a CellTree,
) -> Result<Value<'a>, AllocError>
    ensures { IfOk result (λ x. worth x ≡ w.value_of (object_of of.entry) tree.now) }
{
    match &tree.node {
        CellTreeNode::Leaf(cell) => Ok(scalar_value(of, cell.copy(alloc)?)),
        CellTreeNode::Branch(_) => Ok(Value::Tree(of, tree)),
    }
}

// ---- where it goes

/// The type of a place for an answer.
fn place_type<'a>(array: Option<u64>, of: &'a CType) -> PlaceType<'a>
    ensures { place_type_of result ≡ stored_type array of.now }
{
    match array {
        None => PlaceType::Plain(Object::written(of)),
        Some(length) => PlaceType::Array(length, Object::written(of)),
    }
}

/// What a place takes of an answer.
fn answer_taken(scope: &Scope, place: PlaceType, given: &Given) -> Result<CellTree, Halt>
    ensures { Tells (λ t. t) result (m.taken scope.now.program.now.declarations (place_type_of place.entry) (given_of given.now)) }
{
    let value = tree_value(scope.alloc, given.of, &given.tree)?;
    taken(scope, place, value)
}

/// The store of an answer in a place.
fn store_of(
    scope: &Scope,
    number: usize,
    path: &Path,
    place: PlaceType,
    given: &Given,
) -> Result<Option<Store>, Halt>
    ensures { (blocks : Blocks) → Answers blocks result (place_answer scope.now.program.now.declarations blocks number path.now (place_type_of place.entry) (given_of given.now)) }
{
    let tree = answer_taken(scope, place, given)?;
    let path = copied(scope.alloc, path)?;
    Ok(Some(Store { number, path, tree }))
}

/// The store of an answer where it goes.
#[tactic(auto, unfolding(c_meaning::specs::Steps::answered))]
pub fn answer_stored(
    scope: &Scope,
    target: &Target,
    answer: &Option<Given>,
) -> Result<Option<Store>, Halt>
    ensures { (blocks : Blocks) → Answers blocks result (m.answered scope.now.program.now.declarations blocks (meant target.now) (option_map given_of answer.now)) }
{
    match target {
        Target::Nowhere => Ok(None),
        Target::Int(number) => match answer {
            None => Err(Halt::Stuck(StuckKind::NoValue)),
            Some(given) => {
                let whole = Items::new(scope.alloc);
                let of = PlaceType::Plain(Object::int());
                store_of(scope, *number, &whole, of, given)
            }
        },
        Target::Into(part) => match answer {
            None => Err(Halt::Stuck(StuckKind::NoValue)),
            Some(given) => {
                let of = place_type(part.array, &part.of);
                store_of(scope, part.number, &part.path, of, given)
            }
        },
    }
}

/// Puts an answer where it goes.
pub fn put_answer(alloc: Global, memory: &mut Memory, store: Option<Store>) -> Result<(), Halt>
    ensures stored { OnOk result (stored_in memory.old store ≡ Got memory.new) }
    ensures refused { IfErr result (λ halt. Refuses halt (stored_in memory.old store)) }
{
    match store {
        None => Ok(()),
        Some(Store { number, path, tree }) => {
            memory.store(alloc, number, path.as_slice(), tree)?;
            Ok(())
        }
    }
}

// ---- the status

/// A status is one of 0..209.
#[tactic(auto, using(crate::proofs::Leaving::status_within, crate::proofs::Leaving::status_below, crate::proofs::Leaving::status_above))]
fn status_from(z: i64) -> Result<u8, Halt>
    ensures { Tells (λ n. n) result (m.in_status z) }
{
    if z < 0 {
        return Err(Halt::Stuck(StuckKind::BadStatus));
    }
    if z > 209 {
        return Err(Halt::Stuck(StuckKind::BadStatus));
    }
    Ok(z as u8)
}

/// The status that a value is.
#[tactic(auto, using(crate::proofs::Leaving::no_status, crate::proofs::Leaving::some_status))]
fn status_in(value: &Value) -> Result<u8, Halt>
    ensures { Tells (λ n. n) result (status_in (worth value.now)) }
{
    match as_int(value) {
        Ok(z) => status_from(z),
        Err(kind) => Err(Halt::Stuck(kind)),
    }
}

/// The status that `main` gives.
#[tactic(auto, unfolding(c_meaning::specs::Steps::status_of))]
pub fn status_of(alloc: Global, answer: &Option<Given>) -> Result<u8, Halt>
    ensures { Tells (λ n. n) result (m.status_of (option_map given_of answer.now)) }
{
    match answer {
        None => Err(Halt::Stuck(StuckKind::BadStatus)),
        Some(given) => {
            let value = tree_value(alloc, given.of, &given.tree)?;
            status_in(&value)
        }
    }
}
