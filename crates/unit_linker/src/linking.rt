//! Files become a program with its units.

ghost use Rattle.std.specs.Prelude.{◌≡◌, Some, None, slice_get, IsSome, IfOk, IfErr};
ghost use Rattle.std.specs.List.{filter_map};
ghost use Rattle.std.specs.Option.{option_copied};
ghost use Rattle.unit_linker.specs.Graph.{Among};
ghost use Rattle.unit_linker.specs.Slots.{IsOnce};
ghost use Rattle.unit_linker.specs.Linked as spec;
ghost use Rattle.unit_linker.specs.Files as files_spec;
ghost use Rattle.unit_linker.specs.Faults as faults;

use crate::cycle::first_cycle;
use crate::fault::LinkFault;
use crate::graph::{FileUses, interface_of};
use crate::names::{span_of, unit_name};
use crate::order::order;
use crate::program::the_program;
use crate::taking::{slots, take_all, take_at};
use crate::units::{graph, missing, units};
use p2c_text::{Name, Names, Span};
use pascal_tree::SourceFile;
use std::alloc::{AllocError, Global};
use tree_lists::Items;

/// A program with the units that it needs, in their order.
#[derive(Drop)]
pub struct Linked {
    pub program: SourceFile,
    pub units: Vec<SourceFile>,
}

/// The name of the unit at a place.
fn name_at(files: &[SourceFile], place: usize) -> Option<&Name>
    ensures { option_copied result ≡ faults.name_at files.now place }
{
    match files.get(place) {
        Some(file) => unit_name(file),
        None => None,
    }
}

fn copied(name: &Name) -> Result<Name, AllocError>
    ensures { IfOk result (λ copy. copy ≡ name.now) }
{
    name.clone()
}

fn names_at(alloc: Global, files: &[SourceFile], places: &[usize]) -> Result<Names, AllocError>
    ensures { IfOk result (λ names. names ≡ filter_map (faults.name_at files.now) places.now) }
{
    let mut names = Items::new(alloc);
    let mut rest = places;
    while let Some((first, after)) = rest.split_first() {
        if let Some(name) = name_at(files, *first) {
            names.push(copied(name)?)?;
        }
        rest = after;
    }
    Ok(names)
}

/// The span of the first of these files.
fn first_span(files: &[SourceFile], places: &[usize]) -> Option<Span>
    ensures { result ≡ faults.span_at files.now places.now }
{
    match places.split_first() {
        Some((first, _)) => Some(span_of(files.get(*first)?)),
        None => None,
    }
}

/// The fault of files with a cycle.
fn cycle_fault(alloc: Global, files: &[SourceFile], cycle: &[usize]) -> LinkFault
    requires { IsSome (faults.span_at files.now cycle.now) }
    ensures { faults.IsCycleOf files.now cycle.now result }
{
    match (names_at(alloc, files, cycle), first_span(files, cycle)) {
        (Ok(names), Some(span)) => LinkFault::Cycle(names, span),
        (Ok(_), None) => unreachable!(),
        (Err(fault), _) => LinkFault::Memory(fault),
    }
}

/// The order of the units, where no interfaces use each other in a cycle.
fn in_order(
    alloc: Global,
    files: &[SourceFile],
    graph: &[FileUses],
    program: usize,
) -> Result<Vec<usize>, LinkFault>
    requires program { files_spec.IsOneProgram files.now program }
    requires sound { faults.IsSound files.now }
    requires graph { graph.now ≡ files_spec.graph_of files.now }
    ensures ordered { IfOk result (λ order. spec.IsOrdered files.now program order.items) }
    ensures refused { IfErr result (faults.IsRefused files.now) }
{
    match first_cycle(alloc, graph).map_err(LinkFault::Memory)? {
        Some(cycle) => Err(cycle_fault(alloc, files, cycle.as_slice())),
        None => order(alloc, graph, interface_of(graph, program)).map_err(LinkFault::Memory),
    }
}

/// The order of the units of the program at this place.
fn unit_order(alloc: Global, files: &[SourceFile], program: usize) -> Result<Vec<usize>, LinkFault>
    requires { files_spec.IsOneProgram files.now program }
    ensures ordered { IfOk result (λ order. spec.IsOrdered files.now program order.items) }
    ensures refused { IfErr result (faults.IsRefused files.now) }
{
    let units = match units(alloc, files) {
        Ok(units) => units,
        Err(fault) => return Err(fault),
    };
    if let Some(span) = missing(&units, files) {
        return Err(LinkFault::MissingUnit(span));
    }
    let graph = graph(alloc, &units, files).map_err(LinkFault::Memory)?;
    in_order(alloc, files, graph.as_slice(), program)
}

/// Takes the program and its units out of the files.
fn taken(
    alloc: Global,
    files: Vec<SourceFile>,
    program: usize,
    order: &[usize],
) -> Result<Linked, AllocError>
    requires program { IsSome (slice_get files.items program) }
    requires once { IsOnce order.now }
    requires apart { Among order.now program → ⊥ }
    ensures program { IfOk result (λ linked. slice_get files.items program ≡ Some linked.program) }
    ensures units { IfOk result (λ linked. linked.units.items ≡ filter_map (slice_get files.items) order.now) }
{
    let mut slots = slots(alloc, files)?;
    let units = take_all(alloc, &mut slots, order)?;
    match take_at(&mut slots, program) {
        Some(program) => Ok(Linked { program, units }),
        None => unreachable!(),
    }
}

/// The program among the files, with the units that it needs in their order. The files are used up.
pub fn link(alloc: Global, files: Vec<SourceFile>) -> Result<Linked, LinkFault>
    ensures linked { IfOk result (spec.IsLinked files.items) }
    ensures refused { IfErr result (faults.IsRefused files.items) }
{
    let given = files.as_slice();
    let program = match the_program(given) {
        Ok(program) => program,
        Err(fault) => return Err(fault),
    };
    let order = match unit_order(alloc, given, program) {
        Ok(order) => order,
        Err(fault) => return Err(fault),
    };
    match taken(alloc, files, program, order.as_slice()) {
        Ok(linked) => Ok(linked),
        Err(fault) => Err(LinkFault::Memory(fault)),
    }
}
