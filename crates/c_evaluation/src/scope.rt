//! What evaluation sees.
ghost use Rattle.name_tables.specs.Tables.{Fits};

use c_cells::memory::Memory;
use c_tree::program::{CProgram, CVariable};
use name_tables::Tables;
use std::alloc::Global;

/// The function that runs, with the blocks of its variables from `base` on, and the memory.
#[derive(Clone, Copy)]
pub struct Scope<'a> {
    pub program: &'a CProgram,
    pub tables: &'a Tables,
    /// How many functions have their text above the function or are it.
    pub reach: usize,
    pub parameters: &'a [CVariable],
    pub locals: &'a [CVariable],
    pub base: usize,
    pub memory: &'a Memory,
    pub alloc: Global,
    pub ghost fits: { Fits program.now tables.now },
}
