//! Types of places and of values.
ghost use Rattle.std.specs.Prelude.{◌≡◌, ◌+◌, map, IfOk, IfErr};
ghost use Rattle.c_tree.specs.Tree as t;
ghost use Rattle.c_tree.specs.types.View.{base_of as written_base};
ghost use Rattle.c_meaning.specs.Types as m;
ghost use Rattle.c_meaning.specs.States.{variable_type};
ghost use Rattle.c_evaluation.specs.Types.{base_of, object_of, layer_of, value_type_of, signature_of, target_of, is_byte};
ghost use Rattle.std.specs.Option.{option_map};

use crate::lookup::typedef_of;
use crate::scope::Scope;
use c_cells::halt::Halt;
use c_tree::Name;
use c_tree::program::CVariable;
use c_tree::types::{CBaseType, CType};

/// A type that is no pointer to another.
#[derive(Clone, Copy)]
pub enum Base<'a> {
    Int,
    Word,
    Byte,
    VoidPointer,
    Struct(&'a Name),
    Named(&'a Name),
}

/// A type: so many pointers around another.
#[derive(Clone, Copy)]
pub struct Object<'a> {
    pub pointers: usize,
    pub base: Base<'a>,
}

/// The outermost part of a type.
#[derive(Clone, Copy)]
pub enum Layer<'a> {
    Int,
    Word,
    Byte,
    VoidPointer,
    Struct(&'a Name),
    Named(&'a Name),
    Pointer(Object<'a>),
}

/// The type of a place. An array has its length.
#[derive(Clone, Copy)]
pub enum PlaceType<'a> {
    Plain(Object<'a>),
    Array(u64, Object<'a>),
}

/// What a function takes and gives.
#[derive(Clone, Copy)]
pub struct Signature<'a> {
    pub result: &'a Option<CType>,
    pub parameters: &'a [CVariable],
}

/// The type of a value: `NULL` and the names of functions fit several.
#[derive(Clone, Copy)]
pub enum ValueType<'a> {
    Of(Object<'a>),
    AnyPointer,
    Routine(Signature<'a>),
}

impl<'a> Base<'a> {
    /// The base that is written so.
    pub fn written(base: &'a CBaseType) -> Base<'a>
        ensures { base_of result ≡ written_base base.now }
    {
        match base {
            CBaseType::Int => Base::Int,
            CBaseType::Word => Base::Word,
            CBaseType::Byte => Base::Byte,
            CBaseType::VoidPointer => Base::VoidPointer,
            CBaseType::Struct(name) => Base::Struct(name),
            CBaseType::Named(name) => Base::Named(name),
        }
    }
}

impl<'a> Object<'a> {
    pub fn int() -> Object<'a>
        ensures { object_of result ≡ t.Int }
    {
        Object {
            pointers: 0,
            base: Base::Int,
        }
    }

    pub fn word() -> Object<'a>
        ensures { object_of result ≡ t.Word }
    {
        Object {
            pointers: 0,
            base: Base::Word,
        }
    }

    /// The type that is written so.
    pub fn written(of: &'a CType) -> Object<'a>
        ensures { object_of result ≡ of.now }
    {
        Object {
            pointers: of.stars,
            base: Base::written(&of.base),
        }
    }

    /// The type of pointers to this one.
    pub fn pointer(self) -> Result<Object<'a>, Halt>
        ensures pointer { IfOk result (λ o. object_of o ≡ t.Pointer (object_of self.entry)) }
        ensures memory { IfErr result (λ halt. halt ≡ Halt.Memory) }
    {
        match self.pointers.checked_add(1) {
            Some(pointers) => Ok(Object {
                pointers,
                base: self.base,
            }),
            None => Err(Halt::Memory),
        }
    }

    /// To what pointers of the type lead, where it is a pointer to another.
    pub fn target(self) -> Option<Object<'a>>
        ensures { option_map object_of result ≡ target_of (object_of self.entry) }
    {
        match self.layer() {
            Layer::Pointer(to) => Some(to),
            _ => None,
        }
    }

    /// Whether it is `unsigned char`.
    pub fn is_byte(self) -> bool
        ensures { result ≡ is_byte (object_of self.entry) }
    {
        match self.layer() {
            Layer::Byte => true,
            _ => false,
        }
    }

    pub fn layer(self) -> Layer<'a>
        ensures { layer_of result ≡ object_of self.entry }
    {
        if self.pointers > 0 {
            return Layer::Pointer(Object {
                pointers: self.pointers - 1,
                base: self.base,
            });
        }
        match self.base {
            Base::Int => Layer::Int,
            Base::Word => Layer::Word,
            Base::Byte => Layer::Byte,
            Base::VoidPointer => Layer::VoidPointer,
            Base::Struct(name) => Layer::Struct(name),
            Base::Named(name) => Layer::Named(name),
        }
    }
}

#[tactic(auto, unfolding(c_meaning::specs::Types::type_eq))]
fn same_base(a: Base, b: Base) -> bool
    ensures { result ≡ m.type_eq (base_of a.entry) (base_of b.entry) }
{
    match (a, b) {
        (Base::Int, Base::Int) => true,
        (Base::Word, Base::Word) => true,
        (Base::Byte, Base::Byte) => true,
        (Base::VoidPointer, Base::VoidPointer) => true,
        (Base::Struct(m), Base::Struct(n)) => m.as_slice() == n.as_slice(),
        (Base::Named(m), Base::Named(n)) => m.as_slice() == n.as_slice(),
        _ => false,
    }
}

/// Whether two types are one.
#[tactic(auto, using(crate::proofs::Pointers::same_pointers, crate::proofs::Pointers::other_pointers))]
pub fn same_type(a: Object, b: Object) -> bool
    ensures { result ≡ m.type_eq (object_of a.entry) (object_of b.entry) }
{
    a.pointers == b.pointers && same_base(a.base, b.base)
}

/// Whether two results are one.
#[tactic(auto, unfolding(c_meaning::specs::Types::result_eq))]
fn same_result(a: &Option<CType>, b: &Option<CType>) -> bool
    ensures { result ≡ m.result_eq a.now b.now }
{
    match (a, b) {
        (None, None) => true,
        (Some(a), Some(b)) => same_type(Object::written(a), Object::written(b)),
        _ => false,
    }
}

/// Whether variables have, one after another, the types of others.
#[tactic(auto, unfolding(c_meaning::specs::Types::types_eq))]
fn same_variables(a: &[CVariable], b: &[CVariable]) -> bool
    ensures { result ≡ m.types_eq (map variable_type a.now) (map variable_type b.now) }
{
    let mut left = a;
    let mut right = b;
    while let [x, after @ ..] = left {
        let [y, rest @ ..] = right else {
            return false;
        };
        if !same_type(Object::written(&x.of), Object::written(&y.of)) {
            return false;
        }
        left = after;
        right = rest;
    }
    right.is_empty()
}

/// Whether variables have, one after another, these types.
#[tactic(auto, unfolding(c_meaning::specs::Types::types_eq))]
fn variables_have(a: &[CType], b: &[CVariable]) -> bool
    ensures { result ≡ m.types_eq a.now (map variable_type b.now) }
{
    let mut left = a;
    let mut right = b;
    while let [x, after @ ..] = left {
        let [y, rest @ ..] = right else {
            return false;
        };
        if !same_type(Object::written(x), Object::written(&y.of)) {
            return false;
        }
        left = after;
        right = rest;
    }
    right.is_empty()
}

#[tactic(auto, unfolding(c_meaning::specs::Types::signature_eq))]
fn same_signature(a: Signature, b: Signature) -> bool
    ensures { result ≡ m.signature_eq (signature_of a.entry) (signature_of b.entry) }
{
    same_result(a.result, b.result) && same_variables(a.parameters, b.parameters)
}

/// Whether a function with the signature has the type that a name stands for.
#[tactic(auto, unfolding(c_meaning::specs::Types::names_signature, c_meaning::specs::Types::signature_eq))]
fn names_signature(scope: &Scope, name: &Name, of: Signature) -> bool
    ensures { result ≡ m.names_signature (m.typedef_of name.now scope.now.program.now.declarations) (signature_of of.entry) }
{
    match typedef_of(scope, name) {
        None => false,
        Some(found) => {
            same_result(&found.result, of.result)
                && variables_have(found.parameters.as_slice(), of.parameters)
        }
    }
}

/// Whether `NULL` has the type.
#[tactic(auto, unfolding(c_meaning::specs::Types::is_pointer))]
fn is_pointer(of: Object) -> bool
    ensures { result ≡ m.is_pointer (object_of of.entry) }
{
    match of.layer() {
        Layer::Pointer(_) => true,
        Layer::VoidPointer => true,
        Layer::Named(_) => true,
        _ => false,
    }
}

/// Whether a function with the signature has the type.
#[tactic(auto, unfolding(c_meaning::specs::Types::alike))]
fn holds_routine(scope: &Scope, of: Object, routine: Signature) -> bool
    ensures one { result ≡ m.alike scope.now.program.now.declarations (value_type_of (ValueType.Of of.entry)) (value_type_of (ValueType.Routine routine.entry)) }
    ensures other { result ≡ m.alike scope.now.program.now.declarations (value_type_of (ValueType.Routine routine.entry)) (value_type_of (ValueType.Of of.entry)) }
{
    match of.layer() {
        Layer::Named(name) => names_signature(scope, name, routine),
        _ => false,
    }
}

/// Whether values of two types are alike.
#[tactic(auto, unfolding(c_meaning::specs::Types::alike))]
pub fn alike(scope: &Scope, a: ValueType, b: ValueType) -> bool
    ensures { result ≡ m.alike scope.now.program.now.declarations (value_type_of a.entry) (value_type_of b.entry) }
{
    match (a, b) {
        (ValueType::Of(a), ValueType::Of(b)) => same_type(a, b),
        (ValueType::Of(a), ValueType::AnyPointer) => is_pointer(a),
        (ValueType::AnyPointer, ValueType::Of(b)) => is_pointer(b),
        (ValueType::Of(a), ValueType::Routine(r)) => holds_routine(scope, a, r),
        (ValueType::Routine(r), ValueType::Of(b)) => holds_routine(scope, b, r),
        (ValueType::Routine(r), ValueType::Routine(s)) => same_signature(r, s),
        (ValueType::AnyPointer, ValueType::AnyPointer) => true,
        (ValueType::AnyPointer, ValueType::Routine(_)) => true,
        (ValueType::Routine(_), ValueType::AnyPointer) => true,
    }
}

/// Whether the value is a pointer to an object.
#[tactic(auto, unfolding(c_meaning::specs::Types::points_to_object))]
pub fn points_to_object(of: ValueType) -> bool
    ensures { result ≡ m.points_to_object (value_type_of of.entry) }
{
    match of {
        ValueType::Of(of) => match of.layer() {
            Layer::Pointer(_) => true,
            Layer::VoidPointer => true,
            _ => false,
        },
        ValueType::AnyPointer => true,
        ValueType::Routine(_) => false,
    }
}
