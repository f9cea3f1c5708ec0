//! Declarations of types.
ghost use Rattle.std.specs.Prelude.{◌≡◌, nat_le};
ghost use Rattle.c_conditions.specs.World.{seen};
ghost use Rattle.c_conditions.specs.Cells as cell;
ghost use Rattle.c_conditions.specs.DeclarationSteps as spec;
ghost use Rattle.c_conditions.specs.Steps.{Gives, each};

use crate::checker::Checker;
use crate::fault::ConditionFault;
use crate::table::Table;
use c_grammar::fault::CTextKind;
use c_tree::Name;
use c_tree::program::{CDeclaration, CMember, CStruct, CTypedef};
use c_tree::types::{CBaseType, CType};

/// The greatest length of an array, and the greatest number of cells of a type.
const MOST_CELLS: u64 = 16_777_216;

fn is_small(cells: u64) -> bool
    ensures { result ≡ nat_le cells 16777216 }
{
    cells <= MOST_CELLS
}

fn is_length(length: u64) -> bool
    ensures { result ≡ cell.is_length length }
{
    1 <= length && length <= MOST_CELLS
}

/// The cells of a value. A struct that is not declared counts as one.
fn type_cells<'a>(structs: &Table<'a>, of: &'a CType) -> u64
    ensures { result ≡ cell.type_cells structs.now of.now }
{
    match (&of.base, of.stars) {
        (CBaseType::Struct(name), 0) => structs.get(name.as_slice()).unwrap_or(1),
        _ => 1,
    }
}

/// The cells of a member, where they are fewer than 2^64, else one less.
fn member_cells<'a>(structs: &Table<'a>, member: &'a CMember) -> u64
    ensures { result ≡ cell.capped_member structs.now member.now }
{
    let cells = type_cells(structs, &member.of);
    match member.length {
        None => cells,
        Some(length) => length.saturating_mul(cells),
    }
}

/// The cells of a struct, where they are fewer than 2^64, else one less.
fn struct_cells<'a>(structs: &Table<'a>, members: &'a [CMember]) -> u64
    ensures { result ≡ cell.capped_struct structs.now members.now }
{
    let mut rest = members;
    let mut cells = 0u64;
    while let [first, after @ ..] = rest {
        cells = cells.saturating_add(member_cells(structs, first));
        rest = after;
    }
    cells
}

impl<'a> Checker<'a> {
    fn forward(&mut self, name: &'a Name) -> Result<(), ConditionFault>
        ensures { Gives result (seen self.new) (spec.forward name.now (seen self.old)) }
    {
        self.pass(1)?;
        self.demand(!self.pointed.has(name.as_slice()), CTextKind::DoubleName)?;
        self.pointed.add(name.as_slice())?;
        self.pass(2)
    }

    /// The lines `struct name;`.
    #[tactic(auto, unfolding(crate::specs::Steps::each))]
    pub fn forwards(&mut self, list: &'a [Name]) -> Result<(), ConditionFault>
        ensures { Gives result (seen self.new) (each spec.forward list.now (seen self.old)) }
    {
        let mut rest = list;
        while let [first, after @ ..] = rest {
            self.forward(first)?;
            rest = after;
        }
        Ok(())
    }

    /// In a typedef a struct that is named by value may be forwarded only.
    #[tactic(auto, unfolding(crate::specs::TypeSteps::type_of))]
    fn typedef_type(&mut self, of: &'a CType) -> Result<(), ConditionFault>
        ensures { Gives result (seen self.new) (spec.typedef_type of.now (seen self.old)) }
    {
        match (&of.base, of.stars) {
            (CBaseType::Struct(name), 0) => self.pointed_struct(name.as_slice()),
            _ => self.type_of(of),
        }
    }

    fn typedef_result(&mut self, of: &'a Option<CType>) -> Result<(), ConditionFault>
        ensures { Gives result (seen self.new) (spec.typedef_result of.now (seen self.old)) }
    {
        match of {
            None => self.pass(1),
            Some(of) => self.typedef_type(of),
        }
    }

    /// A comma and a type.
    fn next_typedef_type(&mut self, of: &'a CType) -> Result<(), ConditionFault>
        ensures { Gives result (seen self.new) (spec.next_typedef_type of.now (seen self.old)) }
    {
        self.pass(1)?;
        self.typedef_type(of)
    }

    #[tactic(auto, unfolding(crate::specs::Steps::each))]
    fn more_typedef_types(&mut self, list: &'a [CType]) -> Result<(), ConditionFault>
        ensures { Gives result (seen self.new) (each spec.next_typedef_type list.now (seen self.old)) }
    {
        let mut rest = list;
        while let [first, after @ ..] = rest {
            self.next_typedef_type(first)?;
            rest = after;
        }
        Ok(())
    }

    fn typedef_types(&mut self, list: &'a [CType]) -> Result<(), ConditionFault>
        ensures { Gives result (seen self.new) (spec.typedef_types list.now (seen self.old)) }
    {
        match list {
            [] => self.pass(1),
            [first, more @ ..] => {
                self.typedef_type(first)?;
                self.more_typedef_types(more)
            }
        }
    }

    /// A typedef up to its name.
    fn typedef_head(&mut self, typedef: &'a CTypedef) -> Result<(), ConditionFault>
        ensures { Gives result (seen self.new) (spec.typedef_head typedef.now.result typedef.now.name (seen self.old)) }
    {
        self.pass(1)?;
        self.typedef_result(&typedef.result)?;
        self.pass(2)?;
        self.demand(
            !self.typedefs.has(typedef.name.as_slice()),
            CTextKind::DoubleName,
        )
    }

    fn typedef(&mut self, typedef: &'a CTypedef) -> Result<(), ConditionFault>
        ensures { Gives result (seen self.new) (spec.typedef typedef.now (seen self.old)) }
    {
        self.typedef_head(typedef)?;
        self.pass(3)?;
        self.typedef_types(typedef.parameters.as_slice())?;
        self.typedefs.add(typedef.name.as_slice())?;
        self.names.add(typedef.name.as_slice())?;
        self.pass(2)
    }

    fn member_length(&mut self, member: &'a CMember) -> Result<(), ConditionFault>
        ensures { Gives result (seen self.new) (spec.member_length member.now (seen self.old)) }
    {
        if let Some(length) = member.length {
            self.pass(1)?;
            self.demand(is_length(length), CTextKind::BadType)?;
            self.demand(
                is_small(member_cells(&self.structs, member)),
                CTextKind::BadType,
            )?;
            self.pass(2)?;
        }
        Ok(())
    }

    fn member(&mut self, member: &'a CMember) -> Result<(), ConditionFault>
        ensures { Gives result (seen self.new) (spec.member member.now (seen self.old)) }
    {
        self.type_of(&member.of)?;
        self.inner_name(member.name.as_slice())?;
        self.member_length(member)?;
        self.pass(1)
    }

    #[tactic(auto, unfolding(crate::specs::Steps::each))]
    fn members(&mut self, list: &'a [CMember]) -> Result<(), ConditionFault>
        ensures { Gives result (seen self.new) (each spec.member list.now (seen self.old)) }
    {
        let mut rest = list;
        while let [first, after @ ..] = rest {
            self.member(first)?;
            rest = after;
        }
        Ok(())
    }

    /// A struct with so many cells up to its opening brace.
    fn struct_head(&mut self, name: &'a [u8], cells: u64) -> Result<(), ConditionFault>
        ensures { Gives result (seen self.new) (spec.struct_head name.now cells (seen self.old)) }
    {
        self.pass(1)?;
        self.demand(self.structs.get(name).is_none(), CTextKind::DoubleName)?;
        self.demand(is_small(cells), CTextKind::BadType)?;
        self.pointed.add(name)?;
        self.pass(2)
    }

    fn structure(&mut self, structure: &'a CStruct) -> Result<(), ConditionFault>
        ensures { Gives result (seen self.new) (spec.structure structure.now (seen self.old)) }
    {
        let name = structure.name.as_slice();
        let cells = struct_cells(&self.structs, structure.members.as_slice());
        self.struct_head(name, cells)?;
        self.members(structure.members.as_slice())?;
        self.structs.put(name, cells)?;
        self.forget();
        self.pass(2)
    }

    fn declaration(&mut self, declaration: &'a CDeclaration) -> Result<(), ConditionFault>
        ensures { Gives result (seen self.new) (spec.declaration declaration.now (seen self.old)) }
    {
        match declaration {
            CDeclaration::Typedef(typedef) => self.typedef(typedef),
            CDeclaration::Struct(structure) => self.structure(structure),
        }
    }

    #[tactic(auto, unfolding(crate::specs::Steps::each))]
    pub fn declarations(&mut self, list: &'a [CDeclaration]) -> Result<(), ConditionFault>
        ensures { Gives result (seen self.new) (each spec.declaration list.now (seen self.old)) }
    {
        let mut rest = list;
        while let [first, after @ ..] = rest {
            self.declaration(first)?;
            rest = after;
        }
        Ok(())
    }
}
