//! The tables of a program.
ghost use Rattle.std.specs.Prelude.{◌≡◌, List, ℕ, map, IfOk, OnOk};
ghost use Rattle.c_meaning.specs.Answer.{or_else};
ghost use Rattle.name_tables.specs.Places.{place_in, place_of, Holds, variable_name, prototype_name, function_name, struct_name, typedef_name};
ghost use Rattle.name_tables.specs.Tables.{Fits};

use crate::places::Places;
use c_tree::program::{CDeclaration, CFunction, CProgram, CPrototype, CVariable};
use std::alloc::{AllocError, Global};

/// Where the names of a program stand first.
#[derive(Drop)]
pub struct Tables {
    pub globals: Places,
    pub prototypes: Places,
    pub functions: Places,
    /// Among the declarations, as those of typedefs.
    pub structs: Places,
    pub typedefs: Places,
}

impl Tables {
    /// The tables of a program, in one pass over each of its lists.
    pub fn new(alloc: Global, program: &CProgram) -> Result<Tables, AllocError>
        ensures { IfOk result (Fits program.now) }
    {
        let declared = program.declarations.as_slice();
        let globals = places_of_variables(alloc, program.globals.as_slice())?;
        let prototypes = places_of_prototypes(alloc, program.prototypes.as_slice())?;
        let functions = places_of_functions(alloc, program.functions.as_slice())?;
        Tables::with(alloc, declared, globals, prototypes, functions)
    }

    /// The tables, where those of the declarations are made last.
    fn with(
        alloc: Global,
        declared: &[CDeclaration],
        globals: Places,
        prototypes: Places,
        functions: Places,
    ) -> Result<Tables, AllocError>
        ensures given { IfOk result (λ t. (t.globals ≡ globals) × (t.prototypes ≡ prototypes) × (t.functions ≡ functions)) }
        ensures structs { IfOk result (λ t. Holds t.structs (map struct_name declared.now)) }
        ensures typedefs { IfOk result (λ t. Holds t.typedefs (map typedef_name declared.now)) }
    {
        let structs = places_of_structs(alloc, declared)?;
        let typedefs = places_of_typedefs(alloc, declared)?;
        Ok(Tables {
            globals,
            prototypes,
            functions,
            structs,
            typedefs,
        })
    }
}

/// Adds the name of a struct.
#[tactic(auto, using(crate::proofs::Adding::none_added))]
fn add_struct(
    alloc: Global,
    places: &mut Places,
    declaration: &CDeclaration,
    place: usize,
) -> Result<(), AllocError>
    ensures { OnOk result ((x : List ℕ) → place_in places.new x ≡ or_else (place_in places.old x) (place_of x (struct_name declaration.now) place)) }
{
    match declaration {
        CDeclaration::Struct(found) => places.add(alloc, &found.name, place),
        CDeclaration::Typedef(_) => Ok(()),
    }
}

/// Adds the name of a typedef.
#[tactic(auto, using(crate::proofs::Adding::none_added))]
fn add_typedef(
    alloc: Global,
    places: &mut Places,
    declaration: &CDeclaration,
    place: usize,
) -> Result<(), AllocError>
    ensures { OnOk result ((x : List ℕ) → place_in places.new x ≡ or_else (place_in places.old x) (place_of x (typedef_name declaration.now) place)) }
{
    match declaration {
        CDeclaration::Typedef(found) => places.add(alloc, &found.name, place),
        CDeclaration::Struct(_) => Ok(()),
    }
}

/// The places of variables.
fn places_of_variables(alloc: Global, variables: &[CVariable]) -> Result<Places, AllocError>
    ensures { IfOk result (λ places. Holds places (map variable_name variables.now)) }
{
    let mut places = Places::new(alloc);
    for (i, variable) in variables.iter().enumerate() {
        places.add(alloc, &variable.name, i)?;
    }
    Ok(places)
}

/// The places of the lines that announce functions.
fn places_of_prototypes(alloc: Global, prototypes: &[CPrototype]) -> Result<Places, AllocError>
    ensures { IfOk result (λ places. Holds places (map prototype_name prototypes.now)) }
{
    let mut places = Places::new(alloc);
    for (i, prototype) in prototypes.iter().enumerate() {
        places.add(alloc, &prototype.name, i)?;
    }
    Ok(places)
}

/// The places of functions.
fn places_of_functions(alloc: Global, functions: &[CFunction]) -> Result<Places, AllocError>
    ensures { IfOk result (λ places. Holds places (map function_name functions.now)) }
{
    let mut places = Places::new(alloc);
    for (i, function) in functions.iter().enumerate() {
        places.add(alloc, &function.name, i)?;
    }
    Ok(places)
}

/// The places of structs.
fn places_of_structs(alloc: Global, declared: &[CDeclaration]) -> Result<Places, AllocError>
    ensures { IfOk result (λ places. Holds places (map struct_name declared.now)) }
{
    let mut places = Places::new(alloc);
    for (i, declaration) in declared.iter().enumerate() {
        add_struct(alloc, &mut places, declaration, i)?;
    }
    Ok(places)
}

/// The places of typedefs.
fn places_of_typedefs(alloc: Global, declared: &[CDeclaration]) -> Result<Places, AllocError>
    ensures { IfOk result (λ places. Holds places (map typedef_name declared.now)) }
{
    let mut places = Places::new(alloc);
    for (i, declaration) in declared.iter().enumerate() {
        add_typedef(alloc, &mut places, declaration, i)?;
    }
    Ok(places)
}
