//! What is known at a token of a program.
ghost use Rattle.std.specs.Prelude.{◌≡◌, Ok};
ghost use Rattle.c_conditions.specs.World.{seen};
ghost use Rattle.c_conditions.specs.Steps as spec;
ghost use Rattle.c_conditions.specs.Steps.{Gives};

use crate::fault::ConditionFault;
use crate::table::Table;
use c_grammar::fault::CTextKind;
use std::alloc::{AllocError, Global};

/// Where in a program the check is, and which names stand above.
#[derive(Drop)]
pub struct Checker<'a> {
    pub alloc: Global,
    /// The number of tokens before.
    pub place: usize,
    /// The declared structs, with their cells.
    pub structs: Table<'a>,
    /// The structs that may be named behind a pointer.
    pub pointed: Table<'a>,
    pub typedefs: Table<'a>,
    /// The typedefs, globals and functions.
    pub names: Table<'a>,
    /// The members of the struct, or the parameters and locals of the function.
    pub inner: Table<'a>,
    /// The labels of the function.
    pub labels: Table<'a>,
    /// How many of the lists around have each label.
    pub reached: Table<'a>,
}

impl<'a> Checker<'a> {
    /// Goes over so many tokens.
    pub fn pass(&mut self, tokens: usize) -> Result<(), ConditionFault>
        ensures { Gives result (seen self.new) (spec.pass tokens (seen self.old)) }
    {
        self.place = self.place.checked_add(tokens).ok_or(AllocError)?;
        Ok(())
    }

    /// Refuses the program at the next token, unless the condition holds.
    pub fn demand(&self, holds: bool, kind: CTextKind) -> Result<(), ConditionFault>
        ensures { Gives result (seen self.now) (spec.demand holds kind (seen self.now)) }
    {
        if holds {
            Ok(())
        } else {
            Err(ConditionFault::At {
                kind,
                token: self.place,
            })
        }
    }

    /// Goes over a name that has to differ from those of the same struct or function.
    pub fn inner_name(&mut self, name: &'a [u8]) -> Result<(), ConditionFault>
        ensures { Gives result (seen self.new) (spec.inner_name name.now (seen self.old)) }
    {
        self.demand(!self.inner.has(name), CTextKind::DoubleName)?;
        self.inner.add(name)?;
        self.pass(1)
    }

    /// Forgets the names of a struct or a function at its end.
    pub fn forget(&mut self)
        ensures { Ok (seen self.new) ≡ spec.forget (seen self.old) }
    {
        self.inner = Table::new(self.alloc);
        self.labels = Table::new(self.alloc);
    }

    pub fn new(alloc: Global) -> Checker<'a>
        ensures { seen result ≡ spec.first }
    {
        Checker {
            alloc,
            place: 0,
            structs: Table::new(alloc),
            pointed: Table::new(alloc),
            typedefs: Table::new(alloc),
            names: Table::new(alloc),
            inner: Table::new(alloc),
            labels: Table::new(alloc),
            reached: Table::new(alloc),
        }
    }
}
