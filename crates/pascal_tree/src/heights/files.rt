ghost use Rattle.std.specs.Prelude.{◌≡◌};
ghost use Rattle.pascal_tree.specs.Height as spec;
ghost use Rattle.pascal_tree.specs.Height.{capped};

use super::blocks::{
    block_height, constants_height, declarations_height, heading_height, types_height,
    variables_height,
};
use super::statements::stmts_height;
use crate::{Public, SourceFile, Stmts};

fn public_height(public: &Public) -> u32
    ensures { result ≡ capped (spec.public_height public.now) }
{
    match public {
        Public::Constants(part) => constants_height(part),
        Public::Types(part) => types_height(part),
        Public::Variables(part) => variables_height(part),
        Public::Heading { heading, .. } => heading_height(heading),
    }
}

fn publics_height(publics: &[Public]) -> u32
    ensures { result ≡ capped (spec.publics_height publics.now) }
{
    let mut most = 0;
    for public in publics {
        most = most.max(public_height(public));
    }
    most
}

fn initial_height(initial: &Option<Stmts>) -> u32
    ensures { result ≡ capped (spec.initial_height initial.now) }
{
    match initial {
        Some(stmts) => stmts_height(stmts.as_slice()),
        None => 0,
    }
}

/// The greatest number of nodes on one path, where blocks, formals, fields, statements, types,
/// expressions and factors count. Any number above 4,294,967,295 is given as this one.
pub fn height(file: &SourceFile) -> u32
    ensures { result ≡ capped (spec.height file.now) }
{
    match file {
        SourceFile::Program(program) => block_height(&program.block),
        SourceFile::UnitText(unit) => {
            let declarations = declarations_height(unit.declarations.as_slice());
            let inside = declarations.max(initial_height(&unit.initial));
            publics_height(unit.publics.as_slice()).max(inside)
        }
        SourceFile::Module(module) => publics_height(module.publics.as_slice()).max(
            declarations_height(module.declarations.as_slice()),
        ),
    }
}
