//! The units by their names, and what files use.

ghost use Rattle.std.specs.Prelude.{◌≡◌, ◌++◌, [], true, false, map, None, OnOk, IfOk, IfErr};
ghost use Rattle.std.specs.Option.{option_map};
ghost use Rattle.unit_linker.specs.Files as spec;
ghost use Rattle.unit_linker.specs.Faults as faults;

use crate::fault::LinkFault;
use crate::graph::FileUses;
use crate::names::{implementation_uses, interface_uses, span_of, unit_name};
use indexmap::IndexMap;
use p2c_text::{Name, Span};
use pascal_tree::{Identifier, SourceFile};
use std::alloc::{AllocError, Global};
use tree_lists::Items;

/// Places of units among the files, by their names.
pub type Units = IndexMap<Name, usize>;

fn place_of(units: &Units, name: &Name) -> Option<usize>
    ensures { result ≡ spec.place_of units.now.entries name.now }
{
    units.get(name).copied()
}

fn is_known(units: &Units, name: Option<&Name>) -> bool
    ensures { result ≡ spec.is_known units.now.entries (option_map (λ n. n.now) name.entry) }
{
    match name {
        Some(name) => place_of(units, name).is_some(),
        None => false,
    }
}

/// Adds a name that is not there.
fn insert(units: &mut Units, name: Name, place: usize) -> Result<(), AllocError>
    requires { spec.place_of units.old.entries name ≡ None }
    ensures { OnOk result (units.new.entries ≡ units.old.entries ++ spec.with_name (Some name) place []) }
{
    units.insert(name, place)?;
    Ok(())
}

/// Adds a unit with its place; a program is none.
fn add(units: &mut Units, file: &SourceFile, place: usize) -> Result<(), LinkFault>
    ensures added { OnOk result (units.new.entries ≡ units.old.entries ++ spec.with_name (spec.unit_name file.now) place []) }
    ensures new { OnOk result (spec.is_known units.old.entries (spec.unit_name file.now) ≡ false) }
    ensures known { IfErr result (faults.IsKnown units.old.entries file.now) }
{
    let Some(name) = unit_name(file) else {
        return Ok(());
    };
    if place_of(units, name).is_some() {
        return Err(LinkFault::DoubleUnit(span_of(file)));
    }
    let name = name.clone().map_err(LinkFault::Memory)?;
    insert(units, name, place).map_err(LinkFault::Memory)
}

/// The units by their names, where these differ.
pub fn units(alloc: Global, files: &[SourceFile]) -> Result<Units, LinkFault>
    ensures named { IfOk result (λ units. units.entries ≡ spec.named files.now) }
    ensures once { OnOk result (spec.double files.now ≡ None) }
    ensures double { IfErr result (faults.IsDouble files.now) }
{
    let mut units = IndexMap::new(alloc);
    let mut rest = files;
    while let Some((file, after)) = rest.split_first() {
        match add(&mut units, file, files.len() - rest.len()) {
            Ok(()) => rest = after,
            Err(fault) => return Err(fault),
        }
    }
    Ok(units)
}

/// The places of the units that are used.
#[tactic(auto, unfolding(crate::specs::Files::places))]
pub fn places(alloc: Global, units: &Units, uses: &[Identifier]) -> Result<Items<usize>, AllocError>
    ensures { IfOk result (λ places. places ≡ spec.places units.now.entries uses.now) }
{
    let mut places = Items::new(alloc);
    let mut rest = uses;
    while let Some((first, after)) = rest.split_first() {
        if let Some(place) = place_of(units, &first.name) {
            places.push(place)?;
        }
        rest = after;
    }
    Ok(places)
}

#[tactic(auto, unfolding(crate::specs::Files::uses_of))]
fn uses_of(alloc: Global, units: &Units, file: &SourceFile) -> Result<FileUses, AllocError>
    ensures { IfOk result (λ uses. uses ≡ spec.uses_of units.now.entries file.now) }
{
    Ok(FileUses {
        interface: places(alloc, units, interface_uses(file))?,
        implementation: places(alloc, units, implementation_uses(file))?,
    })
}

/// What each file uses.
pub fn graph(
    alloc: Global,
    units: &Units,
    files: &[SourceFile],
) -> Result<Vec<FileUses>, AllocError>
    ensures { IfOk result (λ graph. graph.items ≡ map (spec.uses_of units.now.entries) files.now) }
{
    let mut graph = Vec::new(alloc);
    let mut rest = files;
    while let Some((file, after)) = rest.split_first() {
        graph.push(uses_of(alloc, units, file)?)?;
        rest = after;
    }
    Ok(graph)
}

/// The first use without a unit.
fn missing_in(units: &Units, uses: &[Identifier]) -> Option<Span>
    ensures { result ≡ option_map (λ name. name.span) (spec.first_missing units.now.entries uses.now) }
{
    let mut rest = uses;
    while let Some((first, after)) = rest.split_first() {
        match place_of(units, &first.name) {
            Some(_) => rest = after,
            None => return Some(first.span),
        }
    }
    None
}

fn missing_of(units: &Units, file: &SourceFile) -> Option<Span>
    ensures { result ≡ option_map (λ name. name.span)
        (spec.first_missing units.now.entries (spec.interface_uses file.now ++ spec.implementation_uses file.now)) }
{
    match missing_in(units, interface_uses(file)) {
        Some(span) => Some(span),
        None => missing_in(units, implementation_uses(file)),
    }
}

/// The first use, by files and text, without a unit.
pub fn missing(units: &Units, files: &[SourceFile]) -> Option<Span>
    ensures { result ≡ option_map (λ name. name.span) (spec.first_missing units.now.entries (spec.all_uses files.now)) }
{
    let mut rest = files;
    while let Some((file, after)) = rest.split_first() {
        if let Some(span) = missing_of(units, file) {
            return Some(span);
        }
        rest = after;
    }
    None
}
