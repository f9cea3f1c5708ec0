//! The parts of a call.
ghost use Rattle.std.specs.Prelude.{◌≡◌, ◌<◌, Some, IfOk, IfSome, length, reverse};
ghost use Rattle.c_meaning.specs.Answer.{Got};
ghost use Rattle.c_meaning.specs.Evaluate as e;
ghost use Rattle.c_meaning.specs.Steps as m;
ghost use Rattle.c_cells.specs.Halts.{said, Tells};
ghost use Rattle.c_evaluation.specs.Scopes.{view_at, site_of, HasRoom};
ghost use Rattle.c_tree.specs.types.View.{base_of as written_base};
ghost use Rattle.c_evaluation.specs.Types.{object_of, base_of, place_type_of};
ghost use Rattle.c_evaluation.specs.Values.{value_of as worth, values_of, content_of, now_of};
ghost use Rattle.c_meaning.specs.States.{Into};
ghost use Rattle.c_stepper.specs.Runners.{target_of as meant, stored_type};
ghost use Rattle.c_stepper.specs.Calls.{function_from, callee_value, function_called, callee_function, parameter_block, pointed_name, is_named, IsEntry, entered_of, entered, entered_with, fitted, placed, site_target};

use crate::runner::{Part, Target, written_text};
use c_cells::Path;
use c_cells::cell::copied;
use c_cells::fresh::copy_type;
use c_cells::halt::Halt;
use c_cells::memory::Block;
use c_cells::slot::Slot;
use c_evaluation::evaluate::{place_of, value_of};
use c_evaluation::lookup::{function_place, number_of};
use c_evaluation::place::Site;
use c_evaluation::read::{name_value, root_number};
use c_evaluation::scope::Scope;
use c_evaluation::store::converted;
use c_evaluation::types::{Base, Layer, Object, PlaceType, ValueType};
use c_evaluation::value::{Content, Value, held, type_of};
use c_meaning::StuckKind;
use c_tree::Name;
use c_tree::expr::{CExpr, CPlace};
use c_tree::program::CVariable;
use c_tree::statement::CCallee;
use c_tree::types::{CBaseType, CType};
use std::alloc::{AllocError, Global};
use tree_lists::Items;

/// A function that is about to be entered, with the place for its answer and the blocks of its
/// parameters.
#[derive(Drop)]
pub struct Entry {
    pub function: usize,
    pub target: Target,
    pub parameters: Items<Slot>,
}

// ---- the callee

/// The place of the first function with a name.
fn function_at(scope: &Scope, name: &Name) -> Option<usize>
    ensures value { result ≡ function_from 0 name.now scope.now.program.now.functions }
    ensures within { IfSome result (λ i. i < length scope.now.program.now.functions) }
{
    function_place(scope, name)
}

/// The value that is called.
fn callee_value<'a>(scope: &Scope<'a>, who: &'a CCallee) -> Result<Value<'a>, Halt>
    requires { HasRoom scope.now }
    ensures { Tells worth result (callee_value (view_at scope.now) who.now) }
{
    match who {
        CCallee::Direct(name) => name_value(scope, name),
        CCallee::Indirect(e) => value_of(scope, e),
    }
}

/// The name of the function that a scalar points to.
#[tactic(auto, unfolding(c_meaning::specs::Steps::called_cell))]
fn function_in<'a>(content: Content<'a>) -> Result<&'a Name, StuckKind>
    ensures { said now_of result ≡ m.called_cell (content_of content.entry) }
{
    match content {
        Content::Function(name) => Ok(name),
        Content::Null => Err(StuckKind::NullUse),
        _ => Err(StuckKind::Mismatch),
    }
}

/// The name of the function that a value points to, where values of its type are called.
#[tactic(auto, using(crate::proofs::Calling::no_content, crate::proofs::Calling::some_content))]
fn function_held<'a>(value: &'a Value) -> Result<&'a Name, StuckKind>
    ensures { said now_of result ≡ pointed_name (worth value.now) }
{
    match held(value) {
        Ok(content) => function_in(content),
        Err(kind) => Err(kind),
    }
}

/// Only a function, and a variable of a typedef's type, is called.
#[tactic(auto, using(crate::proofs::Calling::called_routine, crate::proofs::Calling::called_named, crate::proofs::Calling::called_any, crate::proofs::Calling::called_other))]
fn called_name<'a>(value: &'a Value) -> Result<&'a Name, StuckKind>
    ensures { said now_of result ≡ m.called_value (worth value.now) }
{
    match type_of(value) {
        ValueType::Routine(_) => function_held(value),
        ValueType::AnyPointer => Err(StuckKind::NullUse),
        ValueType::Of(of) => {
            if is_named(of) {
                function_held(value)
            } else {
                Err(StuckKind::Mismatch)
            }
        }
    }
}

/// Whether the type is that of a typedef.
fn is_named(of: Object) -> bool
    ensures { result ≡ is_named (object_of of.entry) }
{
    match of.layer() {
        Layer::Named(_) => true,
        _ => false,
    }
}

/// The function with the name that a value points to.
#[tactic(auto, using(crate::proofs::Calling::no_function, crate::proofs::Calling::some_function))]
fn function_called(scope: &Scope, value: &Value) -> Result<Option<usize>, Halt>
    ensures value { Tells (λ o. o) result (function_called scope.now.program.now.functions (worth value.now)) }
    ensures within { IfOk result (λ o. IfSome o (λ n. n < length scope.now.program.now.functions)) }
{
    match called_name(value) {
        Ok(name) => Ok(function_at(scope, name)),
        Err(kind) => Err(Halt::Stuck(kind)),
    }
}

/// The function of a name that names no variable, where its text stands above or here.
#[tactic(auto, using(crate::proofs::Calling::direct))]
fn direct_function(scope: &Scope, name: &Name) -> Option<usize>
    requires { HasRoom scope.now }
    ensures value { IfSome result (λ n. callee_function scope.now.program.now (view_at scope.now) (CCallee.Direct name.now) ≡ Got (Some n)) }
    ensures within { IfSome result (λ n. n < length scope.now.program.now.functions) }
{
    match number_of(scope, name) {
        Some(_) => None,
        None => match function_place(scope, name) {
            Some(function) => {
                if function < scope.reach {
                    Some(function)
                } else {
                    None
                }
            }
            None => None,
        },
    }
}

/// The same of a callee.
fn direct_callee(scope: &Scope, who: &CCallee) -> Option<usize>
    requires { HasRoom scope.now }
    ensures value { IfSome result (λ n. callee_function scope.now.program.now (view_at scope.now) who.now ≡ Got (Some n)) }
    ensures within { IfSome result (λ n. n < length scope.now.program.now.functions) }
{
    match who {
        CCallee::Direct(name) => direct_function(scope, name),
        CCallee::Indirect(_) => None,
    }
}

/// The function that is called.
fn callee_function<'a>(scope: &Scope<'a>, who: &'a CCallee) -> Result<Option<usize>, Halt>
    requires { HasRoom scope.now }
    ensures value { Tells (λ o. o) result (callee_function scope.now.program.now (view_at scope.now) who.now) }
    ensures within { IfOk result (λ o. IfSome o (λ n. n < length scope.now.program.now.functions)) }
{
    match direct_callee(scope, who) {
        Some(function) => Ok(Some(function)),
        None => callee_by_value(scope, who),
    }
}

/// The function that a value points to.
fn callee_by_value<'a>(scope: &Scope<'a>, who: &'a CCallee) -> Result<Option<usize>, Halt>
    requires { HasRoom scope.now }
    ensures value { Tells (λ o. o) result (callee_function scope.now.program.now (view_at scope.now) who.now) }
    ensures within { IfOk result (λ o. IfSome o (λ n. n < length scope.now.program.now.functions)) }
{
    let value = callee_value(scope, who)?;
    function_called(scope, &value)
}

// ---- the place for the answer

fn owned_base(alloc: Global, base: Base) -> Result<CBaseType, AllocError>
    ensures { IfOk result (λ owned. written_base owned ≡ base_of base.entry) }
{
    match base {
        Base::Int => Ok(CBaseType::Int),
        Base::Word => Ok(CBaseType::Word),
        Base::Byte => Ok(CBaseType::Byte),
        Base::VoidPointer => Ok(CBaseType::VoidPointer),
        Base::Struct(name) => Ok(CBaseType::Struct(copied(alloc, name)?)),
        Base::Named(name) => Ok(CBaseType::Named(copied(alloc, name)?)),
    }
}

/// A type of its own that is the same.
fn owned_type(alloc: Global, of: Object) -> Result<CType, AllocError>
    ensures { IfOk result (λ owned. owned ≡ object_of of.entry) }
{
    Ok(CType {
        base: owned_base(alloc, of.base)?,
        stars: of.pointers,
    })
}

/// A part of a block, for an answer.
fn into_part(
    alloc: Global,
    number: usize,
    path: Path,
    array: Option<u64>,
    of: CType,
) -> Result<Target, AllocError>
    ensures { IfOk result (λ target. meant target ≡ Into number path (stored_type array of)) }
{
    let part = Part {
        number,
        path,
        array,
        of,
    };
    Ok(Target::Into(Box::new(alloc, part)?))
}

/// A place of a block, for an answer.
fn into_block(alloc: Global, number: usize, site: Site) -> Result<Target, Halt>
    ensures { Tells meant result (Got (placed number (site_of site.entry))) }
{
    match site.of {
        PlaceType::Plain(of) => {
            let of = owned_type(alloc, of)?;
            Ok(into_part(alloc, number, site.path, None, of)?)
        }
        PlaceType::Array(length, of) => {
            let of = owned_type(alloc, of)?;
            Ok(into_part(alloc, number, site.path, Some(length), of)?)
        }
    }
}

/// The place for an answer, where it is evaluated.
#[tactic(auto, using(crate::proofs::Calling::no_target, crate::proofs::Calling::some_target))]
fn site_target(scope: &Scope, site: Site) -> Result<Target, Halt>
    requires { HasRoom scope.now }
    ensures { Tells meant result (site_target (view_at scope.now) (site_of site.entry)) }
{
    match root_number(scope, site.root) {
        Ok(number) => into_block(scope.alloc, number, site),
        Err(kind) => Err(Halt::Stuck(kind)),
    }
}

/// Where the answer goes.
#[tactic(auto, unfolding(c_meaning::specs::Steps::target_of))]
fn target_of<'a>(scope: &Scope<'a>, into: &'a Option<CPlace>) -> Result<Target, Halt>
    requires { HasRoom scope.now }
    ensures { Tells meant result (m.target_of (view_at scope.now) into.now) }
{
    match into {
        None => Ok(Target::Nowhere),
        Some(place) => {
            let site = place_of(scope, place)?;
            site_target(scope, site)
        }
    }
}

// ---- arguments

/// The values of arguments, from left to right.
fn values<'s, 'a>(scope: &'s Scope<'a>, arguments: &'a [CExpr]) -> Result<Items<Value<'a>>, Halt>
    requires { HasRoom scope.now }
    ensures { Tells (λ list. values_of list) result (e.values (view_at scope.now) arguments.now) }
{
    let mut list = Items::new(scope.alloc);
    let mut rest = arguments;
    while let [first, after @ ..] = rest {
        list.push(value_of(scope, first)?)?;
        rest = after;
    }
    Ok(list)
}

/// The block of a parameter.
fn parameter_block<'a>(
    scope: &Scope<'a>,
    parameter: &'a CVariable,
    value: Value<'a>,
) -> Result<Block, Halt>
    ensures { Tells (λ b. b) result (parameter_block scope.now.program.now.declarations parameter.now (worth value.entry)) }
{
    let tree = converted(scope, Object::written(&parameter.of), value)?;
    let of = copy_type(scope.alloc, &parameter.of)?;
    Ok(Block {
        of,
        tree,
        heap: false,
    })
}

/// The blocks of the parameters, where the values come from the last to the first.
fn blocks_from<'s, 'a>(
    scope: &'s Scope<'a>,
    parameters: &'a [CVariable],
    values: Items<Value<'a>>,
) -> Result<Items<Slot>, Halt>
    ensures value { Tells (λ b. b) result (m.parameter_blocks scope.now.program.now.declarations parameters.now (reverse (values_of values.entry))) }
    ensures length { IfOk result (λ blocks. length blocks ≡ length parameters.now) }
{
    let mut left = values;
    let mut blocks = Items::new(scope.alloc);
    let mut rest = parameters;
    while let [first, after @ ..] = rest {
        let Some(value) = left.pop() else {
            return Err(Halt::Stuck(StuckKind::Mismatch));
        };
        let block = parameter_block(scope, first, value)?;
        blocks.push(Slot::new(scope.alloc, block)?)?;
        rest = after;
    }
    if left.is_empty() {
        Ok(blocks)
    } else {
        Err(Halt::Stuck(StuckKind::Mismatch))
    }
}

/// The blocks of the parameters.
fn parameter_blocks<'a>(
    scope: &Scope<'a>,
    parameters: &'a [CVariable],
    values: Items<Value<'a>>,
) -> Result<Items<Slot>, Halt>
    ensures value { Tells (λ b. b) result (m.parameter_blocks scope.now.program.now.declarations parameters.now (values_of values.entry)) }
    ensures length { IfOk result (λ blocks. length blocks ≡ length parameters.now) }
{
    let mut backward = values.into_vec();
    backward.reverse();
    blocks_from(scope, parameters, Items::from_vec(backward))
}

// ---- all parts

/// The entry of a function, where its place is known.
fn fitted<'a>(
    scope: &Scope<'a>,
    function: usize,
    target: Target,
    values: Items<Value<'a>>,
) -> Result<Entry, Halt>
    requires { function < length scope.now.program.now.functions }
    ensures value { Tells entered_of result (fitted scope.now.program.now function (meant target) (values_of values.entry)) }
    ensures entry { IfOk result (IsEntry scope.now.program.now) }
{
    let text = written_text(scope.program, Some(function));
    let parameters = parameter_blocks(scope, text.parameters, values)?;
    Ok(Entry {
        function,
        target,
        parameters,
    })
}

/// The entry of the function that a name names, or none.
#[tactic(auto, using(crate::proofs::Calling::entry_of, crate::proofs::Calling::no_entry))]
fn found<'a>(
    scope: &Scope<'a>,
    which: Option<usize>,
    target: Target,
    values: Items<Value<'a>>,
) -> Result<Entry, Halt>
    requires { IfSome which (λ n. n < length scope.now.program.now.functions) }
    ensures entry { IfOk result (IsEntry scope.now.program.now) }
    ensures value { Tells entered_of result (entered_with scope.now.program.now (meant target) (values_of values.entry) which) }
{
    match which {
        Some(function) => fitted(scope, function, target, values),
        None => Err(Halt::Stuck(StuckKind::UnknownName)),
    }
}

/// The entry that a call makes.
pub fn entered<'a>(
    scope: &Scope<'a>,
    into: &'a Option<CPlace>,
    who: &'a CCallee,
    arguments: &'a [CExpr],
) -> Result<Entry, Halt>
    requires { HasRoom scope.now }
    ensures entry { IfOk result (IsEntry scope.now.program.now) }
    ensures value { Tells entered_of result (entered scope.now.program.now (view_at scope.now) into.now who.now arguments.now) }
{
    let which = callee_function(scope, who)?;
    let target = target_of(scope, into)?;
    let values = values(scope, arguments)?;
    found(scope, which, target, values)
}
