ghost use Rattle.std.specs.Prelude.{◌≡◌, map};
ghost use Rattle.pascal_tree.specs.Height.{capped};
ghost use Rattle.pascal_tree.specs.ExpressionHeights.{greatest};
ghost use Rattle.pascal_tree.specs.TypeHeights as spec;

use super::above;
use crate::{Fields, Fixed, FixedSection, Formal, Formals, Struct, TypeNode, Variant, Variants};
use tree_lists::Boxed;

#[tactic(auto, using(crate::proofs::TypeNodes::type_heights))]
#[cycle(types)]
pub(super) fn type_height(of: &TypeNode) -> u32
    ensures { result ≡ capped (spec.type_height of.now) }
{
    match of {
        TypeNode::Structured { of, .. } => above(struct_height(of)),
        TypeNode::Pointer { .. }
        | TypeNode::Enumeration { .. }
        | TypeNode::Subrange { .. }
        | TypeNode::Name(_)
        | TypeNode::String { .. } => 1,
    }
}

#[tactic(auto, using(crate::proofs::TypeNodes::struct_heights))]
#[cycle(types)]
fn struct_height(of: &Struct) -> u32
    ensures { result ≡ capped (spec.struct_height of.now) }
{
    match of {
        Struct::Array {
            indexes,
            component,
            ..
        } => index_heights(indexes.as_slice()).max(type_height(component.get())),
        Struct::Record { fields, .. } => fields_height(fields),
        Struct::Set { base, .. } => type_height(base.get()),
        Struct::File { component, .. } => type_height(component.get()),
    }
}

#[cycle(types)]
fn index_heights(types: &[TypeNode]) -> u32
    ensures { result ≡ capped (greatest (map spec.type_height types.now)) }
{
    let mut most = 0;
    for index in types {
        most = most.max(type_height(index));
    }
    most
}

#[tactic(auto, using(crate::proofs::TypeNodes::fields_open))]
#[cycle(types)]
fn fields_height(fields: &Fields) -> u32
    ensures { result ≡ capped (spec.fields_height fields.now) }
{
    let fixed = fixed_part_height(&fields.fixed);
    let variants = variant_part_height(&fields.variants);
    above(fixed.max(variants))
}

#[cycle(types)]
fn fixed_part_height(fixed: &Option<Fixed>) -> u32
    ensures { result ≡ capped (spec.fixed_part_height fixed.now) }
{
    match fixed {
        Some(fixed) => fixed_height(fixed),
        None => 0,
    }
}

#[tactic(auto, using(crate::proofs::TypeNodes::fixed_open))]
#[cycle(types)]
fn fixed_height(fixed: &Fixed) -> u32
    ensures { result ≡ capped (spec.fixed_height fixed.now) }
{
    section_heights(fixed.sections.as_slice())
}

#[tactic(auto, using(crate::proofs::TypeNodes::section_open))]
#[cycle(types)]
fn section_height(section: &FixedSection) -> u32
    ensures { result ≡ capped (spec.section_height section.now) }
{
    type_height(&section.of)
}

#[cycle(types)]
fn section_heights(sections: &[FixedSection]) -> u32
    ensures { result ≡ capped (greatest (map spec.section_height sections.now)) }
{
    let mut most = 0;
    for section in sections {
        most = most.max(section_height(section));
    }
    most
}

#[cycle(types)]
fn variant_part_height(variants: &Option<Boxed<Variants>>) -> u32
    ensures { result ≡ capped (spec.variant_part_height variants.now) }
{
    match variants {
        Some(variants) => variants_height(variants.get()),
        None => 0,
    }
}

#[tactic(auto, using(crate::proofs::TypeNodes::variants_open))]
#[cycle(types)]
fn variants_height(variants: &Variants) -> u32
    ensures { result ≡ capped (spec.variants_height variants.now) }
{
    variant_heights(variants.list.as_slice())
}

#[tactic(auto, using(crate::proofs::TypeNodes::variant_open))]
#[cycle(types)]
fn variant_height(variant: &Variant) -> u32
    ensures { result ≡ capped (spec.variant_height variant.now) }
{
    fields_height(&variant.fields)
}

#[cycle(types)]
fn variant_heights(variants: &[Variant]) -> u32
    ensures { result ≡ capped (greatest (map spec.variant_height variants.now)) }
{
    let mut most = 0;
    for variant in variants {
        most = most.max(variant_height(variant));
    }
    most
}

#[tactic(auto, using(crate::proofs::TypeNodes::formals_open))]
#[cycle(formals)]
pub(super) fn formals_height(formals: &Formals) -> u32
    ensures { result ≡ capped (spec.formals_height formals.now) }
{
    above(formal_heights(formals.list.as_slice()))
}

#[cycle(formals)]
fn given_height(formals: &Option<Boxed<Formals>>) -> u32
    ensures { result ≡ capped (spec.given_height formals.now) }
{
    match formals {
        Some(formals) => formals_height(formals.get()),
        None => 0,
    }
}

#[tactic(auto, using(crate::proofs::TypeNodes::formal_heights))]
#[cycle(formals)]
fn formal_height(formal: &Formal) -> u32
    ensures { result ≡ capped (spec.formal_height formal.now) }
{
    match formal {
        Formal::Variables { .. } => 0,
        Formal::Procedure { formals, .. } => given_height(formals),
        Formal::Function { formals, .. } => given_height(formals),
    }
}

#[cycle(formals)]
fn formal_heights(formals: &[Formal]) -> u32
    ensures { result ≡ capped (greatest (map spec.formal_height formals.now)) }
{
    let mut most = 0;
    for formal in formals {
        most = most.max(formal_height(formal));
    }
    most
}
