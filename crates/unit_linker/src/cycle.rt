//! The first file on a cycle of interface uses.

ghost use Rattle.std.specs.Prelude.{◌≡◌, ◌<◌, length, IfOk, MatchOption};
ghost use Rattle.std.specs.Option.{option_map};
ghost use Rattle.unit_linker.specs.Graph as spec;
ghost use Rattle.unit_linker.specs.Search as search;

use crate::graph::{FileUses, interface_of};
use crate::marks::{enter, no_marks};
use std::alloc::{AllocError, Global};

/// Which files were entered, and the path to where the search is.
#[derive(Drop)]
struct Search {
    marks: Vec<bool>,
    path: Vec<usize>,
}

impl Search {
    /// Whether a way of interface uses leads from the file to the goal; then the path has it.
    #[cycle(way)]
    fn way(
        &mut self,
        graph: &[FileUses],
        depth: usize,
        goal: usize,
        from: usize,
    ) -> Result<bool, AllocError>
        ensures { IfOk result (λ found. (self.new.marks.items, found, self.new.path.items)
            ≡ search.told self.old.path.items (search.way depth graph.now goal from self.old.marks.items)) }
    {
        let Some(below) = depth.checked_sub(1) else {
            return Ok(false);
        };
        self.path.push(from)?;
        let found = self.way_by(graph, below, goal, interface_of(graph, from))?;
        if !found {
            self.path.pop();
        }
        Ok(found)
    }

    #[cycle(way)]
    fn way_by(
        &mut self,
        graph: &[FileUses],
        depth: usize,
        goal: usize,
        files: &[usize],
    ) -> Result<bool, AllocError>
        ensures { IfOk result (λ found. (self.new.marks.items, found, self.new.path.items)
            ≡ search.told self.old.path.items (search.way_by depth graph.now goal files.now self.old.marks.items)) }
    {
        let mut rest = files;
        while let Some((first, after)) = rest.split_first() {
            if *first == goal {
                return Ok(true);
            }
            if enter(&mut self.marks, *first) {
                if self.way(graph, depth, goal, *first)? {
                    return Ok(true);
                }
            }
            rest = after;
        }
        Ok(false)
    }
}

/// A cycle of interface uses that begins with the file.
fn cycle_at(
    alloc: Global,
    graph: &[FileUses],
    file: usize,
) -> Result<Option<Vec<usize>>, AllocError>
    requires closed { spec.IsClosed graph.now }
    requires within { file < length graph.now }
    ensures { IfOk result (λ cycle. spec.IsCycleAt graph.now file (option_map (λ v. v.items) cycle)) }
{
    let mut search = Search {
        marks: no_marks(alloc, graph.len())?,
        path: Vec::new(alloc),
    };
    enter(&mut search.marks, file);
    let found = search.way(graph, graph.len(), file, file)?;
    let Search { marks: _, path } = search;
    Ok(found.then_some(path))
}

/// A cycle of interface uses that begins with the first file on any.
pub fn first_cycle(alloc: Global, graph: &[FileUses]) -> Result<Option<Vec<usize>>, AllocError>
    requires { spec.IsClosed graph.now }
    ensures { IfOk result (λ cycle.
        MatchOption cycle (spec.IsAcyclic graph.now) (λ c. spec.IsFirstCycle graph.now c.items)) }
{
    for file in 0..graph.len() {
        if let Some(cycle) = cycle_at(alloc, graph, file)? {
            return Ok(Some(cycle));
        }
    }
    Ok(None)
}
