//! What files use, by the places of the files in the list of given files.

ghost use Rattle.std.specs.Prelude.{◌≡◌};
ghost use Rattle.unit_linker.specs.Graph as spec;

use tree_lists::Items;

/// What a file uses. A program has all its uses in `interface`.
#[derive(Drop)]
pub struct FileUses {
    pub interface: Items<usize>,
    pub implementation: Items<usize>,
}

/// What a file uses in its interface.
#[tactic(auto, unfolding(crate::specs::Graph::interface_of, crate::specs::Graph::interface_in))]
pub fn interface_of(graph: &[FileUses], file: usize) -> &[usize]
    ensures { result.now ≡ spec.interface_of graph.now file }
{
    match graph.get(file) {
        Some(uses) => uses.interface.as_slice(),
        None => &[],
    }
}

/// What a file uses in its implementation.
#[tactic(auto, unfolding(crate::specs::Graph::implementation_of, crate::specs::Graph::implementation_in))]
pub fn implementation_of(graph: &[FileUses], file: usize) -> &[usize]
    ensures { result.now ≡ spec.implementation_of graph.now file }
{
    match graph.get(file) {
        Some(uses) => uses.implementation.as_slice(),
        None => &[],
    }
}
