// What references mean, and the numbers of all entries.

ghost use Rattle.std.specs.Prelude.{◌≡◌, ◌<◌, ◌+◌, ◌^◌, OnOk, IfOk, IfSome, length, None, Some, cond};
ghost use Rattle.std.specs.Str.{chars};
ghost use Rattle.es_scopes.specs.Table.{HasScope, HasScopeIfAny, HasSymbol, HasRoom};
ghost use Rattle.es_scopes.specs.Tables.{is_in_parameters, visible, meant, held_symbol, id_of, referred, number, numbered, numbering_of, scope_count, Fits, AreOrdered, IsWhole};

use crate::declare::{Declarations, declare_all, declarer_at};
use crate::entry::Entry;
use crate::surroundings::Declarer;
use es_base::ids::{ScopeId, SymbolId};
use es_base::list::List;
use std::alloc::{AllocError, Global};

impl Declarations {
    /// Whether a symbol of a scope is seen from the parameters of the function whose scope that is, or
    /// from elsewhere.
    fn is_seen(&self, symbol: SymbolId, in_parameters: bool) -> bool
        ensures { cond result (Some symbol) None ≡ visible self.now in_parameters (Some symbol) }
    {
        !in_parameters
            || match declarer_at(self.declarers.as_slice(), symbol) {
                Declarer::Other => false,
                _ => true,
            }
    }

    /// Whether the scope stands in the parameters of the function whose scope is around it.
    fn is_in_parameters(&self, scope: ScopeId) -> bool
        ensures { result ≡ is_in_parameters self.now scope }
    {
        let i = scope.0 as usize;
        let in_parameters = self.in_parameters.as_slice();
        i < in_parameters.len() && in_parameters[i]
    }

    /// The symbol that a name means in the scope, or in the parameters of its function: that of the
    /// nearest scope from there upwards where the name is seen.
    fn find_seen(&self, scope: ScopeId, in_parameters: bool, name: &str) -> Option<SymbolId>
        requires { HasScope self.now.scoping scope }
        ensures value { result ≡ meant self.now (Some scope) in_parameters (chars name.now) }
        ensures there { IfSome result (HasSymbol self.now.scoping) }
    {
        let mut in_parameters = in_parameters;
        for scope in self.scoping.scope_ancestors(scope) {
            if let Some(symbol) = self.scoping.get_binding(scope, name) {
                if self.is_seen(symbol, in_parameters) {
                    return Some(symbol);
                }
            }
            in_parameters = self.is_in_parameters(scope);
        }
        None
    }

    /// The symbol that a name means in the scope, if there is one.
    fn meant(&self, scope: Option<ScopeId>, in_parameters: bool, name: &str) -> Option<SymbolId>
        requires { HasScopeIfAny self.now.scoping scope }
        ensures value { result ≡ meant self.now scope in_parameters (chars name.now) }
        ensures there { IfSome result (HasSymbol self.now.scoping) }
    {
        match scope {
            Some(scope) => self.find_seen(scope, in_parameters, name),
            None => None,
        }
    }

    /// The symbol that the scope holds for the name, if there is one.
    fn held_symbol(&self, scope: Option<ScopeId>, name: &str) -> Option<u32>
        requires { HasScopeIfAny self.now.scoping scope }
        ensures { result ≡ held_symbol self.now.scoping scope (chars name.now) }
    {
        match scope {
            Some(scope) => match self.scoping.get_binding(scope, name) {
                Some(symbol) => Some(symbol.0),
                None => None,
            },
            None => None,
        }
    }
}

/// The table of a program, and the numbers of its entries.
#[derive(Drop)]
pub struct Numbering {
    pub declarations: Declarations,
    /// The numbers of the entries so far.
    pub ids: List<Option<u32>>,
    /// The number of the next scope.
    pub next_scope: u32,
}

impl Numbering {
    /// Adds the reference of an entry, and answers the number of the entry: of its scope, its symbol or
    /// its reference.
    fn number_of(&mut self, entry: &Entry) -> Result<Option<u32>, AllocError>
        requires whole { IsWhole self.old.declarations.scoping }
        requires fits { Fits (length self.old.declarations.scoping.scopes) entry.now }
        requires room { HasRoom self.old.declarations.scoping.references }
        ensures id { IfOk result (λ id. id ≡ id_of self.old entry.now) }
        ensures ok { OnOk result (self.new ≡ record self.old { declarations = referred self.old.declarations entry.now }) }
    {
        match entry {
            Entry::Scope { .. } => Ok(Some(self.next_scope)),
            Entry::Body { .. } => Ok(None),
            Entry::Binding { holder, name, .. } => {
                Ok(self.declarations.held_symbol(*holder, name.as_str()))
            }
            Entry::Reference {
                scope,
                in_parameters,
                name,
                flags,
                ..
            } => {
                let symbol = self
                    .declarations
                    .meant(*scope, *in_parameters, name.as_str());
                let reference = self.declarations.scoping.create_reference(symbol, *flags)?;
                Ok(Some(reference.0))
            }
        }
    }

    /// Adds the reference of an entry, and its number.
    fn number(&mut self, entry: &Entry) -> Result<(), AllocError>
        requires whole { IsWhole self.old.declarations.scoping }
        requires fits { Fits (length self.old.declarations.scoping.scopes) entry.now }
        requires references { HasRoom self.old.declarations.scoping.references }
        requires scopes { self.old.next_scope + 1 < 2 ^ 32 }
        ensures { OnOk result (self.new ≡ number self.old entry.now) }
    {
        let id = self.number_of(entry)?;
        self.ids.push(id)?;
        if let Entry::Scope { .. } = entry {
            self.next_scope += 1;
        }
        Ok(())
    }
}

/// The table of these entries, and their numbers. Fails on allocation failure alone.
pub fn number_all(alloc: Global, entries: &[Entry]) -> Result<Numbering, AllocError>
    requires ordered { AreOrdered 0 entries.now }
    requires room { length entries.now < 2 ^ 32 }
    ensures { IfOk result (λ n. n ≡ numbering_of entries.now) }
{
    let mut numbering = Numbering {
        declarations: declare_all(alloc, entries)?,
        ids: List::new(alloc),
        next_scope: 0,
    };
    for entry in entries {
        numbering.number(entry)?;
    }
    Ok(numbering)
}
