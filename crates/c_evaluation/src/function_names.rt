//! The names of a function's text.
ghost use Rattle.name_tables.specs.Tables.{Fits};

use c_tree::program::{CProgram, CVariable};
use name_tables::Tables;

/// The names that the text of a function sees.
#[derive(Clone, Copy)]
pub struct Names<'a> {
    pub program: &'a CProgram,
    pub tables: &'a Tables,
    pub parameters: &'a [CVariable],
    pub locals: &'a [CVariable],
    pub ghost fits: { Fits program.now tables.now },
}
