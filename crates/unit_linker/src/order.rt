//! The order of units: each behind those that its interface uses.

ghost use Rattle.std.specs.Prelude.{◌≡◌, ◌<◌, ℕ, length, slice_get, OnOk, IfOk};
ghost use Rattle.unit_linker.specs.Graph as spec;
ghost use Rattle.unit_linker.specs.Walk as walk;

use crate::graph::{FileUses, implementation_of, interface_of};
use crate::marks::{enter, no_marks};
use std::alloc::{AllocError, Global};

/// Which files were entered, and the order so far.
#[derive(Drop)]
struct Walk {
    marks: Vec<bool>,
    order: Vec<usize>,
}

impl Walk {
    /// Puts a file behind those that its interface uses.
    #[cycle(visit)]
    fn visit(&mut self, graph: &[FileUses], depth: usize, file: usize) -> Result<(), AllocError>
        ensures { OnOk result ((self.new.marks.items, self.new.order.items)
            ≡ walk.visit depth graph.now file (self.old.marks.items, self.old.order.items)) }
    {
        let Some(below) = depth.checked_sub(1) else {
            return Ok(());
        };
        if !enter(&mut self.marks, file) {
            return Ok(());
        }
        self.visit_all(graph, below, interface_of(graph, file))?;
        self.order.push(file)?;
        Ok(())
    }

    #[cycle(visit)]
    fn visit_all(
        &mut self,
        graph: &[FileUses],
        depth: usize,
        files: &[usize],
    ) -> Result<(), AllocError>
        ensures { OnOk result ((self.new.marks.items, self.new.order.items)
            ≡ walk.visit_all depth graph.now files.now (self.old.marks.items, self.old.order.items)) }
    {
        let mut rest = files;
        while let Some((first, after)) = rest.split_first() {
            self.visit(graph, depth, *first)?;
            rest = after;
        }
        Ok(())
    }

    fn member(&self, place: usize) -> Option<usize>
        ensures { result ≡ slice_get self.now.order.items place }
    {
        self.order.get(place).copied()
    }

    /// Visits what the implementations of the members use, from the first member on.
    fn members(&mut self, graph: &[FileUses]) -> Result<(), AllocError>
        ensures { OnOk result ((self.new.marks.items, self.new.order.items)
            ≡ walk.through (length graph.now) (length graph.now) graph.now 0 (self.old.marks.items, self.old.order.items)) }
    {
        for place in 0..graph.len() {
            let Some(file) = self.member(place) else {
                return Ok(());
            };
            self.visit_all(graph, graph.len(), implementation_of(graph, file))?;
        }
        Ok(())
    }
}

/// The units that a program with these uses needs, each behind those that its interface uses.
pub fn order(alloc: Global, graph: &[FileUses], uses: &[usize]) -> Result<Vec<usize>, AllocError>
    requires closed { spec.IsClosed graph.now }
    requires acyclic { spec.IsAcyclic graph.now }
    requires within { (v : ℕ) → spec.Among uses.now v → v < length graph.now }
    ensures { IfOk result (λ order. spec.IsOrder graph.now uses.now order.items) }
{
    let mut walk = Walk {
        marks: no_marks(alloc, graph.len())?,
        order: Vec::new(alloc),
    };
    walk.visit_all(graph, graph.len(), uses)?;
    walk.members(graph)?;
    let Walk { marks: _, order } = walk;
    Ok(order)
}
