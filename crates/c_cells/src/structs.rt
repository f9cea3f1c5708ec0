//! The structs of a program by name.
ghost use Rattle.std.specs.Prelude.{◌≡◌, ◌++◌, ◌∷◌, [], List, ℕ, length, IfOk, OnOk, IfSome, ◌<◌, slice_get, if◌then◌else◌};
ghost use Rattle.std.specs.Str.{bytes_eq};
ghost use Rattle.c_tree.specs.declared.program.CDeclaration.{CDeclaration as DeclarationOfTree};
ghost use Rattle.c_meaning.specs.Cells.{joined_option};
ghost use Rattle.c_cells.specs.Structs.{HoldsStructs, is_struct, last_struct, latest_in, latest_of};

use crate::cell::copied;
use c_tree::Name;
use c_tree::program::CDeclaration;
use std::alloc::{AllocError, Global};
use std::collections::HashMap;

/// Where the structs of a program are declared, by name.
#[derive(Drop)]
pub struct StructPlaces {
    /// The last place of each name.
    latest: HashMap<Name, usize>,
    /// For each declaration the last place above it of a struct with the same name.
    earlier: Vec<Option<usize>>,
}

impl StructPlaces {
    /// The table of declarations, in one pass over them.
    pub fn new(alloc: Global, declared: &[CDeclaration]) -> Result<StructPlaces, AllocError>
        ensures { IfOk result (HoldsStructs declared.now) }
    {
        let mut places = StructPlaces::empty(alloc);
        for declaration in declared {
            places.add(alloc, declaration)?;
        }
        Ok(places)
    }

    /// The table where nothing is declared.
    #[tactic(auto, unfolding(crate::specs::Structs::last_struct))]
    fn empty(alloc: Global) -> StructPlaces
        ensures { HoldsStructs [] result }
    {
        StructPlaces {
            latest: HashMap::new(alloc),
            earlier: Vec::new(alloc),
        }
    }

    /// Adds the declaration that comes next.
    fn add(&mut self, alloc: Global, declaration: &CDeclaration) -> Result<(), AllocError>
        ensures { OnOk result ((declared : List DeclarationOfTree) → HoldsStructs declared self.old → HoldsStructs (declared ++ declaration.now ∷ []) self.new) }
    {
        let before = self.note(alloc, declaration)?;
        self.earlier.push(before)?;
        Ok(())
    }

    /// Makes the next place the last one of a declaration's name. The answer is the one before.
    fn note(
        &mut self,
        alloc: Global,
        declaration: &CDeclaration,
    ) -> Result<Option<usize>, AllocError>
        ensures before { IfOk result (λ before. before ≡ latest_of self.old declaration.now) }
        ensures latest { OnOk result ((x : List ℕ) → latest_in self.new x ≡ (if is_struct x (Some declaration.now) then Some (length self.old.earlier.items) else latest_in self.old x)) }
        ensures earlier { OnOk result (self.new.earlier ≡ self.old.earlier) }
    {
        match declaration {
            CDeclaration::Struct(found) => self.note_name(alloc, &found.name),
            CDeclaration::Typedef(_) => Ok(None),
        }
    }

    /// The same for the name of a struct.
    fn note_name(&mut self, alloc: Global, name: &Name) -> Result<Option<usize>, AllocError>
        ensures before { IfOk result (λ before. before ≡ latest_in self.old name.now) }
        ensures latest { OnOk result ((x : List ℕ) → latest_in self.new x ≡ (if bytes_eq x name.now then Some (length self.old.earlier.items) else latest_in self.old x)) }
        ensures earlier { OnOk result (self.new.earlier ≡ self.old.earlier) }
    {
        let place = self.earlier.len();
        let name = copied(alloc, name)?;
        let before = self.latest.insert(name, place)?;
        Ok(before)
    }

    /// The last place of a name.
    fn last(&self, name: &Name) -> Option<usize>
        ensures { result ≡ latest_in self.now name.now }
    {
        self.latest.get(name).copied()
    }

    /// The place above a struct's of the last one with the same name.
    #[tactic(auto, unfolding(c_meaning::specs::Cells::joined_option))]
    fn before(&self, place: usize) -> Option<usize>
        ensures { result ≡ joined_option (slice_get self.now.earlier.items place) }
    {
        match self.earlier.get(place) {
            Some(before) => *before,
            None => None,
        }
    }
}

/// The declarations of a program and the places of the structs among them.
#[derive(Clone, Copy)]
pub struct Declared<'a> {
    pub list: &'a [CDeclaration],
    pub structs: &'a StructPlaces,
    pub ghost fits: { HoldsStructs list.now structs.now },
}

impl<'a> Declared<'a> {
    /// The place of the last struct with a name among the first `above` declarations.
    pub fn last_struct(&self, name: &Name, above: usize) -> Option<usize>
        ensures place { result ≡ last_struct self.now.list.now name.now above }
        ensures within { IfSome result (λ p. (p < above) × (p < length self.now.list.now)) }
    {
        let mut place = self.structs.last(name);
        while let Some(found) = place {
            if found < above {
                return Some(found);
            }
            place = self.structs.before(found);
        }
        None
    }
}
