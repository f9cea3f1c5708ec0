//! What names stand for.
ghost use Rattle.std.specs.Prelude.{◌≡◌, ◌<◌, IfSome, length, map, take};
ghost use Rattle.std.specs.Option.{option_copied, option_map};
ghost use Rattle.c_meaning.specs.States as m;
ghost use Rattle.c_meaning.specs.Types as y;
ghost use Rattle.name_tables.specs.Places.{first_from, prototype_name, function_name, struct_name, typedef_name};
ghost use Rattle.c_evaluation.specs.Types.{signature_of, typedef_signature};
ghost use Rattle.c_cells.specs.Slots.{found_block};
ghost use Rattle.c_evaluation.specs.Scopes.{names_at, HasRoom};
ghost use Rattle.c_evaluation.specs.Declarations.{members_in, typedef_in};

use crate::scope::Scope;
use crate::types::Signature;
use c_cells::slot::Found;
use c_tree::Name;
use c_tree::program::{CDeclaration, CMember, CTypedef, CVariable};

// ---- variables

/// The place of a name among variables.
#[tactic(auto, unfolding(c_meaning::specs::States::global_from))]
pub fn variable_at(variables: &[CVariable], name: &Name) -> Option<usize>
    ensures value { result ≡ m.global_from 0 name.now variables.now }
    ensures within { IfSome result (λ i. i < length variables.now) }
{
    for (i, variable) in variables.iter().enumerate() {
        if name.as_slice() == variable.name.as_slice() {
            return Some(i);
        }
    }
    None
}

/// The place of a global.
fn global_at(scope: &Scope, name: &Name) -> Option<usize>
    ensures { result ≡ m.global_from 0 name.now scope.now.program.now.globals }
{
    scope.tables.globals.get(name)
}

/// The number of a variable's block.
#[tactic(auto, using(crate::proofs::Names::parameter, crate::proofs::Names::local, crate::proofs::Names::global))]
pub fn number_of(scope: &Scope, name: &Name) -> Option<usize>
    requires { HasRoom scope.now }
    ensures { result ≡ m.number_of scope.now.program.now (names_at scope.now) name.now }
{
    match variable_at(scope.parameters, name) {
        Some(at) => Some(scope.base + at),
        None => match variable_at(scope.locals, name) {
            Some(at) => Some(scope.base + scope.parameters.len() + at),
            None => global_at(scope, name),
        },
    }
}

/// The block of a variable.
#[tactic(auto, unfolding(c_meaning::specs::States::numbered))]
pub fn named<'a>(scope: &Scope<'a>, name: &Name) -> Option<Found<'a>>
    requires { HasRoom scope.now }
    ensures { option_map found_block result ≡ m.numbered scope.now.memory.now (m.number_of scope.now.program.now (names_at scope.now) name.now) }
{
    match number_of(scope, name) {
        Some(number) => scope.memory.get(number),
        None => None,
    }
}

// ---- functions

fn prototype_place(scope: &Scope, name: &Name) -> Option<usize>
    ensures { result ≡ first_from 0 name.now (map prototype_name scope.now.program.now.prototypes) }
{
    scope.tables.prototypes.get(name)
}

/// The first place of a function's name.
#[tactic(auto, using(crate::proofs::Lookups::function_below))]
pub fn function_place(scope: &Scope, name: &Name) -> Option<usize>
    ensures value { result ≡ first_from 0 name.now (map function_name scope.now.program.now.functions) }
    ensures within { IfSome result (λ i. i < length scope.now.program.now.functions) }
{
    scope.tables.functions.get(name)
}

/// What the line that announces a function says of it.
#[tactic(auto, using(crate::proofs::Lookups::announced_none, crate::proofs::Lookups::announced_past, crate::proofs::Lookups::announced_there))]
fn announced<'a>(scope: &Scope<'a>, name: &Name) -> Option<Signature<'a>>
    ensures { option_map signature_of result ≡ m.announced name.now scope.now.program.now.prototypes }
{
    match prototype_place(scope, name) {
        None => None,
        Some(at) => match scope.program.prototypes.get(at) {
            None => None,
            Some(found) => Some(Signature {
                result: &found.result,
                parameters: found.parameters.as_slice(),
            }),
        },
    }
}

/// What the text of a function that stands above or is it says of it.
#[tactic(auto, using(crate::proofs::Lookups::written_none, crate::proofs::Lookups::written_beyond, crate::proofs::Lookups::written_past, crate::proofs::Lookups::written_there))]
fn written<'a>(scope: &Scope<'a>, name: &Name) -> Option<Signature<'a>>
    ensures { option_map signature_of result ≡ m.written name.now (take scope.now.reach scope.now.program.now.functions) }
{
    match function_place(scope, name) {
        None => None,
        Some(at) => {
            if at >= scope.reach {
                return None;
            }
            match scope.program.functions.get(at) {
                None => None,
                Some(found) => Some(Signature {
                    result: &found.result,
                    parameters: found.parameters.as_slice(),
                }),
            }
        }
    }
}

/// The signature of a function that is announced, or has its text above or here.
#[tactic(auto, using(crate::proofs::Names::is_announced, crate::proofs::Names::is_written))]
pub fn signature<'a>(scope: &Scope<'a>, name: &Name) -> Option<Signature<'a>>
    ensures { option_map signature_of result ≡ m.signature_of scope.now.program.now scope.now.reach name.now }
{
    match announced(scope, name) {
        Some(found) => Some(found),
        None => written(scope, name),
    }
}

// ---- declarations

fn struct_place(scope: &Scope, name: &Name) -> Option<usize>
    ensures { result ≡ first_from 0 name.now (map struct_name scope.now.program.now.declarations) }
{
    scope.tables.structs.get(name)
}

fn typedef_place(scope: &Scope, name: &Name) -> Option<usize>
    ensures { result ≡ first_from 0 name.now (map typedef_name scope.now.program.now.declarations) }
{
    scope.tables.typedefs.get(name)
}

fn members_in(declaration: &CDeclaration) -> Option<&[CMember]>
    ensures { option_copied result ≡ members_in declaration.now }
{
    match declaration {
        CDeclaration::Struct(found) => Some(found.members.as_slice()),
        CDeclaration::Typedef(_) => None,
    }
}

fn typedef_in(declaration: &CDeclaration) -> Option<&CTypedef>
    ensures { option_map typedef_signature (option_copied result) ≡ typedef_in declaration.now }
{
    match declaration {
        CDeclaration::Struct(_) => None,
        CDeclaration::Typedef(found) => Some(found),
    }
}

/// The members of a struct.
#[tactic(auto, using(crate::proofs::Lookups::members_none, crate::proofs::Lookups::members_past, crate::proofs::Lookups::members_there))]
pub fn members_of<'a>(scope: &Scope<'a>, name: &Name) -> Option<&'a [CMember]>
    ensures { option_copied result ≡ y.members_of name.now scope.now.program.now.declarations }
{
    match struct_place(scope, name) {
        None => None,
        Some(at) => match scope.program.declarations.get(at) {
            None => None,
            Some(declaration) => members_in(declaration),
        },
    }
}

/// The signature that a typedef's name stands for.
#[tactic(auto, using(crate::proofs::Lookups::typedef_none, crate::proofs::Lookups::typedef_past, crate::proofs::Lookups::typedef_there))]
pub fn typedef_of<'a>(scope: &Scope<'a>, name: &Name) -> Option<&'a CTypedef>
    ensures { y.typedef_of name.now scope.now.program.now.declarations ≡ option_map typedef_signature (option_copied result) }
{
    match typedef_place(scope, name) {
        None => None,
        Some(at) => match scope.program.declarations.get(at) {
            None => None,
            Some(declaration) => typedef_in(declaration),
        },
    }
}
