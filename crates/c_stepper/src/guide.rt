//! What is known of a program before it runs.
ghost use Rattle.std.specs.Prelude.{◌≡◌, IfOk, map};
ghost use Rattle.c_stepper.specs.Guides.{IsGuide, is_counted};

use crate::names::ends_in_number;
use crate::resolved::ProgramCode;
use c_cells::structs::{Declared, StructPlaces};
use c_tree::program::{CFunction, CProgram};
use label_ways::ProgramWays;
use name_tables::Tables;
use std::alloc::{AllocError, Global};

/// Whether the calls of each function are counted.
fn counted(alloc: Global, functions: &[CFunction]) -> Result<Vec<bool>, AllocError>
    ensures { IfOk result (λ list. list.items ≡ map is_counted functions.now) }
{
    let mut list = Vec::new(alloc);
    let mut rest = functions;
    while let Some((first, after)) = rest.split_first() {
        list.push(ends_in_number(first.name.as_slice()))?;
        rest = after;
    }
    Ok(list)
}

/// Where the names and the structs of a program stand, the ways to its labels, its statements that
/// reckon with numbers alone, and which calls are counted.
#[derive(Drop)]
pub struct Guide {
    pub names: Tables,
    pub structs: StructPlaces,
    pub labels: ProgramWays,
    pub code: ProgramCode,
    /// Of each function, whether its calls are counted.
    pub counted: Vec<bool>,
}

impl Guide {
    /// The guide, in passes over the program's text that take linear time.
    pub fn new(alloc: Global, program: &CProgram) -> Result<Guide, AllocError>
        ensures { IfOk result (IsGuide program.now) }
    {
        let names = Tables::new(alloc, program)?;
        let structs = StructPlaces::new(alloc, program.declarations.as_slice())?;
        let labels = ProgramWays::new(alloc, program)?;
        let code = ProgramCode::new(alloc, program, &names)?;
        let counted = counted(alloc, program.functions.as_slice())?;
        Ok(Guide {
            names,
            structs,
            labels,
            code,
            counted,
        })
    }

    /// The program's declarations.
    pub fn declared<'a>(&'a self, program: &'a CProgram) -> Declared<'a>
        requires { IsGuide program.now self.now }
        ensures { result.list.now ≡ program.now.declarations }
    {
        Declared {
            list: program.declarations.as_slice(),
            structs: &self.structs,
        }
    }
}
