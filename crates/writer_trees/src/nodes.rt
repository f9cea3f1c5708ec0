//! The nodes of a program before its statements.

ghost use Rattle.std.specs.Prelude.{◌≡◌, map};
ghost use Rattle.p2c_text.specs.declared.dialect.Dialect.{Dialect};
ghost use Rattle.pascal_tree.specs.declared.declarations.Declaration.{out-Declaration};
ghost use Rattle.writer_trees.specs.Files as spec;
ghost use Rattle.writer_trees.specs.Files.{parameters_of};
ghost use Rattle.writer_trees.specs.Unbuilt.{Declared, IsFirstOf, Parameter, heads_of, or_else, span_in, used};

use p2c_text::Span;
use pascal_tree::{Declaration, Head, Identifier, Program, Uses};

/// Whether it is the name of the standard input or output.
fn is_standard(name: &Identifier) -> bool
    ensures { result ≡ spec.is_standard name.now }
{
    let spelling = name.name.as_bytes();
    spelling == b"input".as_slice() || spelling == b"output".as_slice()
}

fn unbuilt_name(names: &[Identifier]) -> Option<Span>
    ensures { (d : Dialect) → IsFirstOf d (map Parameter names.now) result }
{
    let mut rest = names;
    while let Some((name, after)) = rest.split_first() {
        if is_standard(name) {
            rest = after;
        } else {
            return Some(name.span);
        }
    }
    None
}

fn unbuilt_parameter(head: &Option<Head>) -> Option<Span>
    ensures { (d : Dialect) → IsFirstOf d (map Parameter (parameters_of head.now)) result }
{
    let Some(head) = head else {
        return None;
    };
    match &head.parameters {
        Some(names) => unbuilt_name(names.as_slice()),
        None => None,
    }
}

/// The form has no uses.
fn unbuilt_uses(uses: &Option<Uses>) -> Option<Span>
    ensures { (d : Dialect) → IsFirstOf d (used uses.now) result }
{
    match uses {
        Some(uses) => Some(uses.span),
        None => None,
    }
}

#[tactic(auto, using(crate::proofs::TreeNodes::declaration_spans))]
fn span_of(declaration: &Declaration) -> Span
    ensures { result ≡ span_in (out-Declaration declaration.now) }
{
    match declaration {
        Declaration::Labels(part) => part.span,
        Declaration::Constants(part) => part.span,
        Declaration::Types(part) => part.span,
        Declaration::Variables(part) => part.span,
        Declaration::Routine(routine) => routine.span,
    }
}

/// Nor has it declarations.
fn unbuilt_declaration(declarations: &[Declaration]) -> Option<Span>
    ensures { (d : Dialect) → IsFirstOf d (map Declared declarations.now) result }
{
    match declarations {
        [] => None,
        [first, ..] => Some(span_of(first)),
    }
}

/// The first node before the statements that the form has not.
pub fn unbuilt_head(program: &Program) -> Option<Span>
    ensures { (d : Dialect) → IsFirstOf d (heads_of program.now) result }
{
    let parameter = unbuilt_parameter(&program.head);
    let uses = unbuilt_uses(&program.uses);
    let declaration = unbuilt_declaration(program.block.declarations.as_slice());
    let before = first(parameter, uses);
    first(before, declaration)
}

fn first(one: Option<Span>, other: Option<Span>) -> Option<Span>
    ensures { result ≡ or_else one other }
{
    match one {
        Some(span) => Some(span),
        None => other,
    }
}
