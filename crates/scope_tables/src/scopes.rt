//! Open scopes.

ghost use Rattle.std.specs.Prelude.{◌≡◌, ◌<◌, ◌++◌, [], ◌∷◌, length, None, OnOk, IfOk, OnErr, IfErr};
ghost use Rattle.scope_tables.specs.Scopes as spec;

use crate::DeclareFault;
use indexmap::IndexMap;
use p2c_text::Name;
use std::alloc::{AllocError, Global};
use std::marker::Model;
use typed_tree::DeclId;

/// The names that one scope declares.
type Scope = IndexMap<Name, DeclId>;

/// Scopes that are open, one in another.
#[derive(Drop)]
pub struct Scopes {
    open: Vec<Scope>,
    alloc: Global,
}

impl Model for Scopes {
    ghost use Rattle.std.specs.Prelude.{List, map};
    ghost use Rattle.scope_tables.specs.Scopes as spec;

    ghost Value = { List spec.Scope };

    ghost view = { λ scopes. map (λ scope. scope.entries) scopes.open.items };
}

/// What a scope declares a name as.
fn declared_in(scope: &Scope, name: &Name) -> Option<DeclId>
    ensures { result ≡ spec.declared_in scope.now.entries name.now }
{
    scope.get(name).copied()
}

/// Declares a name in a scope.
fn declare_in(scope: &mut Scope, name: Name, decl: DeclId) -> Result<(), DeclareFault>
    ensures declared { OnOk result (scope.new.entries ≡ scope.old.entries ++ (name, decl) ∷ []) }
    ensures new { OnOk result (spec.declared_in scope.old.entries name ≡ None) }
    ensures refused { IfErr result (spec.IsRefused scope.old.entries name) }
    ensures unchanged { OnErr result (scope.new.entries ≡ scope.old.entries) }
{
    if declared_in(scope, &name).is_some() {
        return Err(DeclareFault::Double(name));
    }
    match scope.insert(name, decl) {
        Ok(_) => Ok(()),
        Err(failed) => Err(DeclareFault::Memory(failed.value.0)),
    }
}

impl Scopes {
    /// No open scope.
    pub fn new(alloc: Global) -> Result<Scopes, AllocError>
        ensures { IfOk result (λ scopes. scopes ≡ []) }
    {
        Ok(Scopes {
            open: Vec::new(alloc),
            alloc,
        })
    }

    /// Opens a scope, the innermost from then on.
    pub fn enter(&mut self) -> Result<(), AllocError>
        ensures opened { OnOk result (self.new ≡ self.old ++ [] ∷ []) }
        ensures unchanged { OnErr result (self.new ≡ self.old) }
    {
        self.open.push(IndexMap::new(self.alloc))?;
        Ok(())
    }

    /// Closes the innermost scope.
    pub fn leave(&mut self)
        requires { 0 < length self.old }
        ensures { self.old ≡ self.new ++ spec.innermost self.old ∷ [] }
    {
        self.open.pop();
    }

    /// Declares a name in the innermost scope.
    pub fn declare(&mut self, name: Name, decl: DeclId) -> Result<(), DeclareFault>
        requires { 0 < length self.old }
        ensures declared { OnOk result (self.new ≡ spec.with_declared self.old name decl) }
        ensures new { OnOk result (spec.declared_in (spec.innermost self.old) name ≡ None) }
        ensures refused { IfErr result (spec.IsRefused (spec.innermost self.old) name) }
        ensures unchanged { OnErr result (self.new ≡ self.old) }
    {
        let last = self.open.len() - 1;
        declare_in(&mut self.open[last], name, decl)
    }

    /// What the innermost scope that has the name declares it as.
    pub fn find(&self, name: &Name) -> Option<DeclId>
        ensures { result ≡ spec.found self.now name.now }
    {
        let mut open = self.open.as_slice();
        while let Some((scope, outer)) = open.split_last() {
            if let Some(decl) = declared_in(scope, name) {
                return Some(decl);
            }
            open = outer;
        }
        None
    }

    /// The place among the open scopes, from 0 on, of the innermost one that has the name.
    pub fn depth(&self, name: &Name) -> Option<usize>
        ensures { result ≡ spec.depth_of self.now name.now }
    {
        let mut rest = self.open.as_slice();
        while let Some((scope, before)) = rest.split_last() {
            if declared_in(scope, name).is_some() {
                return Some(before.len());
            }
            rest = before;
        }
        None
    }
}
