use c_grammar::fault::CTextKind;
use std::alloc::AllocError;

/// Why a program is refused.
#[derive(Drop)]
pub enum ConditionFault {
    /// The condition of this kind fails at the token that has so many before it.
    At { kind: CTextKind, token: usize },
    Memory(AllocError),
}

impl From<AllocError> for ConditionFault {
    ghost use Rattle.std.specs.Prelude.{◌≡◌};
    ghost use Rattle.c_conditions.specs.declared.fault.ConditionFault.TheVariants.{Memory};

    ghost from_gives = { λ error fault. fault ≡ Memory error };

    fn from(error: AllocError) -> ConditionFault {
        ConditionFault::Memory(error)
    }
}
