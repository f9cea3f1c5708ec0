//! Which types are the same, which are compatible, and what can be assigned to what.

ghost use Rattle.std.specs.Prelude.{◌≡◌};
ghost use Rattle.std.specs.Option.{option_copied};
ghost use Rattle.typed_tree.specs.Ranges as ranges;
ghost use Rattle.type_rules.specs.Relations as spec;

use p2c_text::Dialect;
use typed_tree::{Host, Packing, PasType, TypeId, Types};

#[tactic(auto, unfolding(typed_tree::specs::Ranges::type_at))]
pub(crate) fn type_at(types: &Types, t: TypeId) -> Option<&PasType>
    ensures { option_copied result ≡ ranges.type_at types.now t }
{
    types.list.get(t)
}

/// The least and the greatest value of a type. `None` says that it is not ordinal.
#[tactic(auto, unfolding(typed_tree::specs::Ranges::Range, typed_tree::specs::Ranges::range_of))]
pub fn range(types: &Types, t: TypeId) -> Option<(i64, i64)>
    ensures { result ≡ ranges.Range types.now t }
{
    match type_at(types, t) {
        Some(PasType::Ordinal { first, last, .. }) => Some((*first, *last)),
        _ => None,
    }
}

#[tactic(auto, unfolding(typed_tree::specs::Ranges::Hosted, typed_tree::specs::Ranges::host_of))]
fn hosted(types: &Types, t: TypeId) -> Option<Host>
    ensures { result ≡ ranges.Hosted types.now t }
{
    match type_at(types, t) {
        Some(PasType::Ordinal { host, .. }) => Some(*host),
        _ => None,
    }
}

fn are_ordinals(types: &Types, a: TypeId, b: TypeId) -> bool
    ensures { result ≡ spec.AreOrdinals types.now a b }
{
    match (hosted(types, a), hosted(types, b)) {
        (Some(Host::Whole), Some(Host::Whole))
        | (Some(Host::Char), Some(Host::Char))
        | (Some(Host::Bool), Some(Host::Bool)) => true,
        (Some(Host::Enumeration(m)), Some(Host::Enumeration(n))) => m == n,
        _ => false,
    }
}

/// Whether both types are the same one.
pub fn same(types: &Types, a: TypeId, b: TypeId) -> bool
    ensures { result ≡ spec.Same types.now a b }
{
    a == b
}

/// Whether both packings are those of one type; a set constructor is packed and unpacked.
fn one_packing(a: Packing, b: Packing) -> bool
    ensures { result ≡ spec.one_packing a b }
{
    !matches!(
        (a, b),
        (Packing::Packed, Packing::Unpacked) | (Packing::Unpacked, Packing::Packed)
    )
}

fn compatible_bases(types: &Types, a: Option<TypeId>, b: Option<TypeId>) -> bool
    ensures { result ≡ spec.compatible_bases types.now a b }
{
    match (a, b) {
        (Some(a), Some(b)) => are_ordinals(types, a, b),
        _ => true,
    }
}

fn are_sets(types: &Types, a: TypeId, b: TypeId) -> bool
    ensures { result ≡ spec.AreSets types.now a b }
{
    match (type_at(types, a), type_at(types, b)) {
        (
            Some(
                PasType::SetOf {
                    packing: p,
                    base: a,
                },
            ),
            Some(
                PasType::SetOf {
                    packing: q,
                    base: b,
                },
            ),
        ) => one_packing(*p, *q) && compatible_bases(types, *a, *b),
        _ => false,
    }
}

/// Whether the type has all characters.
fn is_char(types: &Types, t: TypeId) -> bool
    ensures { result ≡ spec.is_char (ranges.type_at types.now t) }
{
    match type_at(types, t) {
        Some(
            PasType::Ordinal {
                host: Host::Char,
                first,
                last,
            },
        ) => *first == 0 && *last == 255,
        _ => false,
    }
}

/// The n of a type of the whole numbers from 1 to n, where that is at least 2.
fn counted(types: &Types, t: TypeId) -> Option<i64>
    ensures { result ≡ spec.counted (ranges.type_at types.now t) }
{
    match type_at(types, t) {
        Some(
            PasType::Ordinal {
                host: Host::Whole,
                first,
                last,
            },
        ) => {
            if *first == 1 && 2 <= *last {
                Some(*last)
            } else {
                None
            }
        }
        _ => None,
    }
}

fn array_length(types: &Types, packed: bool, index: TypeId, component: TypeId) -> Option<i64>
    ensures { result ≡ spec.array_length types.now packed index component }
{
    if packed && is_char(types, component) {
        counted(types, index)
    } else {
        None
    }
}

/// The length of a fixed string: a packed array of characters with such an index, or a literal.
fn fixed_length(types: &Types, t: TypeId) -> Option<i64>
    ensures { result ≡ spec.FixedLength types.now t }
{
    match type_at(types, t) {
        Some(
            PasType::Array {
                packed,
                index,
                component,
            },
        ) => array_length(types, *packed, *index, *component),
        Some(PasType::Literal { length }) => Some(i64::from(*length)),
        _ => None,
    }
}

fn are_fixed_strings(types: &Types, a: TypeId, b: TypeId) -> bool
    ensures { result ≡ spec.AreFixedStrings types.now a b }
{
    match (fixed_length(types, a), fixed_length(types, b)) {
        (Some(m), Some(n)) => m == n,
        _ => false,
    }
}

/// Whether values of the types may meet in an operator or a comparison.
pub fn compatible(types: &Types, a: TypeId, b: TypeId) -> bool
    ensures { result ≡ spec.Compatible types.now a b }
{
    same(types, a, b)
        || are_ordinals(types, a, b)
        || are_sets(types, a, b)
        || are_fixed_strings(types, a, b)
}

/// Whether the type is one of texts, where there are dynamic strings.
fn is_text(types: &Types, t: TypeId) -> bool
    ensures { result ≡ spec.IsText types.now t }
{
    match type_at(types, t) {
        Some(
            PasType::Ordinal {
                host: Host::Char,
                ..
            }
            | PasType::DynString { .. }
            | PasType::TextValue,
        ) => true,
        _ => fixed_length(types, t).is_some(),
    }
}

/// Whether a pointer takes `nil`, or a dynamic string a text.
fn takes(dialect: Dialect, types: &Types, target: TypeId, value: TypeId) -> bool
    ensures { result ≡ spec.Takes dialect types.now target value }
{
    match type_at(types, target) {
        Some(PasType::Pointer { .. }) => { matches!(type_at(types, value), Some(PasType::NilType)) }
        Some(PasType::DynString { .. }) => {
            !matches!(dialect, Dialect::Iso) && is_text(types, value)
        }
        _ => false,
    }
}

/// Whether a value of the one type can be assigned to a variable of the other.
pub fn assignable(dialect: Dialect, types: &Types, target: TypeId, value: TypeId) -> bool
    ensures { result ≡ spec.Assignable dialect types.now target value }
{
    compatible(types, target, value) || takes(dialect, types, target, value)
}
