//! How many cells a variable of a type takes.
//!
//! Sums end as soon as they pass the bound, and arrays multiply. So no more components are looked
//! at than the description of the type has when it is written out, and no more than the bound but
//! for records without fields.

ghost use Rattle.std.specs.Prelude.{◌≡◌, ◌+◌, ◌*◌, ◌≤◌, suc, sum_by};
ghost use Rattle.std.specs.Option.{SomeIff};
ghost use Rattle.typed_tree.specs.Ranges.{Range};
ghost use Rattle.type_rules.specs.Cells as spec;

use crate::relations::{range, type_at};
use tree_lists::Boxed;
use typed_tree::{FieldDecl, PasType, TypeId, Types, VariantArm, VariantPart};

/// The greatest number of cells of one type.
pub const MOST_CELLS: u64 = 4_194_304;

/// A sum that stays within the bound.
fn add(so_far: u64, more: u64) -> Option<u64>
    requires { so_far ≤ MOST_CELLS }
    ensures { SomeIff result (so_far + more ≤ MOST_CELLS) (so_far + more) }
{
    if more <= MOST_CELLS - so_far {
        Some(so_far + more)
    } else {
        None
    }
}

/// Adds `each` once more than `steps` says.
fn add_copies(so_far: u64, steps: u64, each: u64) -> Option<u64>
    requires sum { so_far ≤ MOST_CELLS }
    requires copy { each ≤ MOST_CELLS }
    ensures { SomeIff result (so_far + (steps + 1) * each ≤ MOST_CELLS) (so_far + (steps + 1) * each) }
{
    if each == 0 {
        return Some(so_far);
    }
    let copies = steps.checked_add(1)?;
    add(so_far, copies.checked_mul(each)?)
}

/// Adds the cells of a type whose components nest at most `levels` deep.
#[cycle(sums)]
#[tactic(auto, using(crate::proofs::CellTrees::cells_open), unfolding(crate::specs::Cells::type_cells, crate::proofs::CellSteps::type_steps))]
fn add_type(types: &Types, levels: usize, t: TypeId, so_far: u64) -> Option<u64>
    requires { so_far ≤ MOST_CELLS }
    ensures { SomeIff result (so_far + spec.cells_within (suc levels) types.now t ≤ MOST_CELLS) (so_far + spec.cells_within (suc levels) types.now t) }
{
    match type_at(types, t) {
        Some(PasType::Ordinal { .. } | PasType::Pointer { .. } | PasType::NilType) => {
            add(so_far, 1)
        }
        Some(
            PasType::Array {
                index,
                component,
                ..
            },
        ) => add_array(types, levels, *index, *component, so_far),
        Some(PasType::Literal { length }) => add(so_far, u64::from(*length)),
        Some(PasType::DynString { limit }) => add(so_far, u64::from(*limit) + 1),
        Some(PasType::TextValue | PasType::SetOf { .. }) => add(so_far, 256),
        Some(
            PasType::RecordOf {
                fields,
                variants,
                ..
            },
        ) => {
            let fields = add_fields(types, levels, fields.as_slice(), so_far)?;
            add_variants(types, levels, variants, fields)
        }
        None => Some(so_far),
    }
}

/// Adds the cells of a component.
#[cycle(sums)]
#[tactic(auto, unfolding(crate::specs::Cells::cells_within, crate::proofs::CellSteps::steps_within))]
fn add_component(types: &Types, levels: usize, t: TypeId, so_far: u64) -> Option<u64>
    requires { so_far ≤ MOST_CELLS }
    ensures { SomeIff result (so_far + spec.cells_within levels types.now t ≤ MOST_CELLS) (so_far + spec.cells_within levels types.now t) }
{
    match levels.checked_sub(1) {
        Some(below) => add_type(types, below, t, so_far),
        None => Some(so_far),
    }
}

#[cycle(sums)]
#[tactic(auto, unfolding(crate::specs::Cells::values_in))]
fn add_array(
    types: &Types,
    levels: usize,
    index: TypeId,
    component: TypeId,
    so_far: u64,
) -> Option<u64>
    requires { so_far ≤ MOST_CELLS }
    ensures { SomeIff result
        (so_far + spec.values_in (Range types.now index) * spec.cells_within levels types.now component ≤ MOST_CELLS)
        (so_far + spec.values_in (Range types.now index) * spec.cells_within levels types.now component) }
{
    match range(types, index) {
        Some((first, last)) => {
            let each = add_component(types, levels, component, 0)?;
            add_copies(so_far, last.abs_diff(first), each)
        }
        None => Some(so_far),
    }
}

#[cycle(sums)]
#[tactic(auto, unfolding(crate::specs::Cells::fields_cells, crate::proofs::CellSteps::fields_steps))]
fn add_fields(types: &Types, levels: usize, fields: &[FieldDecl], so_far: u64) -> Option<u64>
    requires { so_far ≤ MOST_CELLS }
    ensures { SomeIff result
        (so_far + spec.fields_cells (spec.cells_within levels types.now) fields.now ≤ MOST_CELLS)
        (so_far + spec.fields_cells (spec.cells_within levels types.now) fields.now) }
{
    let mut cells = so_far;
    let mut rest = fields;
    while let [first, after @ ..] = rest {
        cells = add_component(types, levels, first.of, cells)?;
        rest = after;
    }
    Some(cells)
}

#[cycle(sums)]
#[tactic(auto, unfolding(crate::specs::Cells::variants_cells, crate::proofs::CellSteps::variants_steps))]
fn add_variants(
    types: &Types,
    levels: usize,
    variants: &Option<Boxed<VariantPart>>,
    so_far: u64,
) -> Option<u64>
    requires { so_far ≤ MOST_CELLS }
    ensures { SomeIff result
        (so_far + spec.variants_cells (spec.cells_within levels types.now) variants.now ≤ MOST_CELLS)
        (so_far + spec.variants_cells (spec.cells_within levels types.now) variants.now) }
{
    match variants {
        Some(part) => add_part(types, levels, part.get(), so_far),
        None => Some(so_far),
    }
}

/// Adds the cells of a tag and of all its variants.
#[cycle(sums)]
#[tactic(auto, using(crate::proofs::CellTrees::part_open, crate::proofs::CellTrees::part_steps_open), unfolding(crate::specs::Cells::tag_cells))]
fn add_part(types: &Types, levels: usize, part: &VariantPart, so_far: u64) -> Option<u64>
    requires { so_far ≤ MOST_CELLS }
    ensures { SomeIff result
        (so_far + spec.part_cells (spec.cells_within levels types.now) part.now ≤ MOST_CELLS)
        (so_far + spec.part_cells (spec.cells_within levels types.now) part.now) }
{
    let tag = match &part.name {
        Some(_) => add_component(types, levels, part.of, so_far)?,
        None => add(so_far, 1)?,
    };
    add_arms(types, levels, part.arms.as_slice(), tag)
}

#[cycle(sums)]
fn add_arms(types: &Types, levels: usize, arms: &[VariantArm], so_far: u64) -> Option<u64>
    requires { so_far ≤ MOST_CELLS }
    ensures { SomeIff result
        (so_far + sum_by (spec.arm_cells (spec.cells_within levels types.now)) arms.now ≤ MOST_CELLS)
        (so_far + sum_by (spec.arm_cells (spec.cells_within levels types.now)) arms.now) }
{
    let mut cells = so_far;
    let mut rest = arms;
    while let [first, after @ ..] = rest {
        cells = add_arm(types, levels, first, cells)?;
        rest = after;
    }
    Some(cells)
}

#[cycle(sums)]
#[tactic(auto, using(crate::proofs::CellTrees::arm_open, crate::proofs::CellTrees::arm_steps_open))]
fn add_arm(types: &Types, levels: usize, arm: &VariantArm, so_far: u64) -> Option<u64>
    requires { so_far ≤ MOST_CELLS }
    ensures { SomeIff result
        (so_far + spec.arm_cells (spec.cells_within levels types.now) arm.now ≤ MOST_CELLS)
        (so_far + spec.arm_cells (spec.cells_within levels types.now) arm.now) }
{
    let fields = add_fields(types, levels, arm.fields.as_slice(), so_far)?;
    add_variants(types, levels, &arm.variants, fields)
}

/// How many cells a variable of the type takes. `None` says that there are more than 4,194,304.
#[tactic(auto, unfolding(crate::specs::Cells::Cells, crate::specs::Cells::bounded))]
pub fn cells(types: &Types, t: TypeId) -> Option<u64>
    ensures { result ≡ spec.bounded (spec.Cells types.now t) }
{
    add_type(types, t, t, 0)
}
