//! Why a step is not taken.
ghost use Rattle.std.specs.Prelude.{◌≡◌};
ghost use Rattle.c_cells.specs.declared.halt.Halt.TheVariants.{Stuck, Memory};

use c_meaning::StuckKind;
use std::alloc::AllocError;

/// The program is stuck, or there is no memory.
#[derive(Clone, Copy)]
pub enum Halt {
    Stuck(StuckKind),
    Memory,
}

impl From<AllocError> for Halt {
    ghost from_gives = { λ error halt. halt ≡ Memory };

    fn from(_error: AllocError) -> Halt {
        Halt::Memory
    }
}

impl From<StuckKind> for Halt {
    ghost from_gives = { λ kind halt. halt ≡ Stuck kind };

    fn from(kind: StuckKind) -> Halt {
        Halt::Stuck(kind)
    }
}
