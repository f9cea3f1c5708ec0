ghost use Rattle.std.specs.Prelude.{◌≡◌};
ghost use Rattle.pascal_tree.specs.Height.{capped};
ghost use Rattle.pascal_tree.specs.TypeHeights as types;
ghost use Rattle.pascal_tree.specs.BlockHeights as spec;

use super::above;
use super::expressions::expr_height;
use super::statements::stmts_height;
use super::types::{formals_height, type_height};
use crate::{
    Block, ConstPart, Declaration, Formals, Heading, Routine, RoutineBody, TypePart, Value, VarPart,
};

fn value_height(value: &Value) -> u32
    ensures { result ≡ capped (spec.value_height value.now) }
{
    match value {
        Value::Constant(_) => 0,
        Value::Expression(expr) => expr_height(expr),
    }
}

pub(super) fn constants_height(part: &ConstPart) -> u32
    ensures { result ≡ capped (spec.constants_height part.now) }
{
    let mut most = 0;
    for definition in part.definitions.as_slice() {
        most = most.max(value_height(&definition.value));
    }
    most
}

pub(super) fn types_height(part: &TypePart) -> u32
    ensures { result ≡ capped (spec.types_height part.now) }
{
    let mut most = 0;
    for definition in part.definitions.as_slice() {
        most = most.max(type_height(&definition.of));
    }
    most
}

pub(super) fn variables_height(part: &VarPart) -> u32
    ensures { result ≡ capped (spec.variables_height part.now) }
{
    let mut most = 0;
    for section in part.sections.as_slice() {
        most = most.max(type_height(&section.of));
    }
    most
}

fn given_height(formals: &Option<Formals>) -> u32
    ensures { result ≡ capped (types.given_height formals.now) }
{
    match formals {
        Some(formals) => formals_height(formals),
        None => 0,
    }
}

pub(super) fn heading_height(heading: &Heading) -> u32
    ensures { result ≡ capped (spec.heading_height heading.now) }
{
    match heading {
        Heading::Procedure { formals, .. } => given_height(formals),
        Heading::Function { formals, .. } => given_height(formals),
    }
}

#[tactic(auto, using(crate::proofs::BlockNodes::declaration_heights))]
#[cycle(blocks)]
fn declaration_height(declaration: &Declaration) -> u32
    ensures { result ≡ capped (spec.declaration_height declaration.now) }
{
    match declaration {
        Declaration::Labels(_) => 0,
        Declaration::Constants(part) => constants_height(part),
        Declaration::Types(part) => types_height(part),
        Declaration::Variables(part) => variables_height(part),
        Declaration::Routine(routine) => routine_height(routine),
    }
}

#[cycle(blocks)]
pub(super) fn declarations_height(declarations: &[Declaration]) -> u32
    ensures { result ≡ capped (spec.declarations_height declarations.now) }
{
    let mut most = 0;
    for declaration in declarations {
        most = most.max(declaration_height(declaration));
    }
    most
}

#[tactic(auto, using(crate::proofs::BlockNodes::routine_open))]
#[cycle(blocks)]
fn routine_height(routine: &Routine) -> u32
    ensures { result ≡ capped (spec.routine_height routine.now) }
{
    heading_height(&routine.heading).max(body_height(&routine.body))
}

#[tactic(auto, using(crate::proofs::BlockNodes::body_heights))]
#[cycle(blocks)]
fn body_height(body: &RoutineBody) -> u32
    ensures { result ≡ capped (spec.body_height body.now) }
{
    match body {
        RoutineBody::Block(block) => block_height(block.get()),
        RoutineBody::Directive(_) => 0,
    }
}

#[tactic(auto, using(crate::proofs::BlockNodes::block_open))]
#[cycle(blocks)]
pub(super) fn block_height(block: &Block) -> u32
    ensures { result ≡ capped (spec.block_height block.now) }
{
    let declarations = declarations_height(block.declarations.as_slice());
    above(declarations.max(stmts_height(block.body.as_slice())))
}
