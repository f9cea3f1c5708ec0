//! Types: each named one is declared above.
ghost use Rattle.std.specs.Prelude.{◌≡◌};
ghost use Rattle.c_conditions.specs.World.{seen};
ghost use Rattle.c_conditions.specs.TypeSteps as spec;
ghost use Rattle.c_conditions.specs.Steps.{Gives};
ghost use Rattle.c_tree.specs.types.View.{base_of};

use crate::checker::Checker;
use crate::fault::ConditionFault;
use c_grammar::fault::CTextKind;
use c_tree::types::{CBaseType, CType};

impl<'a> Checker<'a> {
    /// A struct by value.
    fn whole_struct(&mut self, name: &'a [u8]) -> Result<(), ConditionFault>
        ensures { Gives result (seen self.new) (spec.whole_struct name.now (seen self.old)) }
    {
        self.pass(1)?;
        self.demand(self.structs.get(name).is_some(), CTextKind::BadType)?;
        self.pass(1)
    }

    /// A struct behind a pointer.
    pub fn pointed_struct(&mut self, name: &'a [u8]) -> Result<(), ConditionFault>
        ensures { Gives result (seen self.new) (spec.pointed_struct name.now (seen self.old)) }
    {
        self.pass(1)?;
        self.demand(self.pointed.has(name), CTextKind::BadType)?;
        self.pass(1)
    }

    fn typedef_name(&mut self, name: &'a [u8]) -> Result<(), ConditionFault>
        ensures { Gives result (seen self.new) (spec.typedef_name name.now (seen self.old)) }
    {
        self.demand(self.typedefs.has(name), CTextKind::BadType)?;
        self.pass(1)
    }

    /// A type before its stars, behind a pointer.
    #[tactic(auto, unfolding(crate::specs::TypeSteps::pointed_type))]
    fn pointed_base(&mut self, base: &'a CBaseType) -> Result<(), ConditionFault>
        ensures { Gives result (seen self.new) (spec.pointed_type (base_of base.now) (seen self.old)) }
    {
        match base {
            CBaseType::Int | CBaseType::Word => self.pass(1),
            CBaseType::Byte | CBaseType::VoidPointer => self.pass(2),
            CBaseType::Struct(name) => self.pointed_struct(name.as_slice()),
            CBaseType::Named(name) => self.typedef_name(name.as_slice()),
        }
    }

    #[tactic(auto, using(crate::proofs::Parts::stars_pass))]
    fn pointed_type(&mut self, of: &'a CType) -> Result<(), ConditionFault>
        ensures { Gives result (seen self.new) (spec.pointed_type of.now (seen self.old)) }
    {
        self.pointed_base(&of.base)?;
        self.pass(of.stars)
    }

    /// The type of a value.
    #[tactic(auto, unfolding(crate::specs::TypeSteps::type_of))]
    pub fn type_of(&mut self, of: &'a CType) -> Result<(), ConditionFault>
        ensures { Gives result (seen self.new) (spec.type_of of.now (seen self.old)) }
    {
        match (&of.base, of.stars) {
            (CBaseType::Struct(name), 0) => self.whole_struct(name.as_slice()),
            _ => self.pointed_type(of),
        }
    }
}
