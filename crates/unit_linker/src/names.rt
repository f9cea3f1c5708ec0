//! The names of given files, and the names that they use.

ghost use Rattle.std.specs.Prelude.{◌≡◌};
ghost use Rattle.std.specs.Option.{option_copied};
ghost use Rattle.unit_linker.specs.Files as spec;

use p2c_text::{Name, Span};
use pascal_tree::{Identifier, SourceFile, Uses};

pub fn is_program(file: &SourceFile) -> bool
    ensures { result ≡ spec.is_program file.now }
{
    matches!(file, SourceFile::Program(_))
}

/// The name of a unit; a program is none.
pub fn unit_name(file: &SourceFile) -> Option<&Name>
    ensures { option_copied result ≡ spec.unit_name file.now }
{
    match file {
        SourceFile::Program(_) => None,
        SourceFile::UnitText(unit) => Some(&unit.name.name),
        SourceFile::Module(module) => Some(&module.name.name),
    }
}

pub fn span_of(file: &SourceFile) -> Span
    ensures { result ≡ spec.span_of file.now }
{
    match file {
        SourceFile::Program(program) => program.span,
        SourceFile::UnitText(unit) => unit.span,
        SourceFile::Module(module) => module.span,
    }
}

fn uses_in(uses: &Option<Uses>) -> &[Identifier]
    ensures { result.now ≡ spec.uses_in uses.now }
{
    match uses {
        Some(uses) => uses.names.as_slice(),
        None => &[],
    }
}

/// What a file uses in its interface; all that a program uses.
pub fn interface_uses(file: &SourceFile) -> &[Identifier]
    ensures { result.now ≡ spec.interface_uses file.now }
{
    match file {
        SourceFile::Program(program) => uses_in(&program.uses),
        SourceFile::UnitText(unit) => uses_in(&unit.interface_uses),
        SourceFile::Module(module) => uses_in(&module.interface_uses),
    }
}

pub fn implementation_uses(file: &SourceFile) -> &[Identifier]
    ensures { result.now ≡ spec.implementation_uses file.now }
{
    match file {
        SourceFile::Program(_) => &[],
        SourceFile::UnitText(unit) => uses_in(&unit.implementation_uses),
        SourceFile::Module(module) => uses_in(&module.implementation_uses),
    }
}
