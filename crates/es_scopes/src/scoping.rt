// The scope table.

ghost use Rattle.std.specs.Prelude.{◌≡◌, ◌↔◌, ◌⊎◌, ◌-◌, ◌^◌, ◌<◌, [], ◌∷◌, true, length, map, option_map, is_some, IsTrue, IsSome, IfOk, OnOk, OnErr, IfSome, All, Some, None};
ghost use Rattle.std.specs.Option.{ForSome};
ghost use Rattle.std.specs.Str.{chars};
ghost use Rattle.es_scopes.specs.Table.{Table, IsTable, HasScope, HasSymbol, HasReference, HasScopeIfAny, HasRoom, scope_at, symbol_at, reference_at, names_at, parent_of, IsNamed, Holds, IsMutated, scope_ancestors, ancestors_from, IsWithin, get_binding, find_binding, with_scope_flags, with_parent, with_new_scope, without_scope, with_binding, with_name, with_symbol_flags, with_mark, with_created_reference, with_reference_flags, with_target, with_listed, without_listed};

use crate::bindings::Bindings;
use crate::flags::{ReferenceFlags, ScopeFlags, SymbolFlags};
use crate::reference_set::ReferenceSet;
use crate::rows::{hold_name, lift_all, rename_in};
use crate::scope_ancestors::ScopeAncestors;
use crate::table::{Reference, Scope, Symbol};
use es_base::ids::{ReferenceId, ScopeId, SymbolId};
use es_base::name::Name;
use std::alloc::{AllocError, Global};
use std::marker::Model;

/// The scopes of a program, their symbols, and the references to these. Each is known by its number,
/// which counts from 0 in the order in which they were added.
///
/// A call that adds something fails on allocation failure alone. After that the table is to be dropped.
#[derive(Drop)]
pub struct Scoping {
    // By their numbers; none in the place of a scope that was removed.
    scopes: Vec<Option<Scope>>,
    symbols: Vec<Symbol>,
    references: Vec<Reference>,
    alloc: Global,
}

impl Model for Scoping {
    ghost use Rattle.es_scopes.specs.Table.{Table, IsTable};

    ghost Value = { Table };

    ghost use Rattle.es_scopes.specs.contracts.table.Scope as scope;
    ghost use Rattle.es_scopes.specs.contracts.table.Symbol as symbol;
    ghost use Rattle.es_scopes.specs.contracts.table.Reference as reference;
    ghost use Rattle.std.specs.Coded.{codes};

    ghost coded = { Prim.hlevel (codes, scope.the_row.coded, symbol.the_row.coded, reference.the_row.coded) };

    ghost view = { λ s. record { scopes = s.scopes.items; symbols = s.symbols.items; references = s.references.items } };

    ghost invariant = { λ s. IsTable (record { scopes = s.scopes.items; symbols = s.symbols.items; references = s.references.items }) };
}

// Scopes.
impl Scoping {
    /// A table with nothing in it.
    pub fn new(alloc: Global) -> Scoping
        ensures { result ≡ record { scopes = []; symbols = []; references = [] } }
    {
        Scoping {
            scopes: Vec::new(alloc),
            symbols: Vec::new(alloc),
            references: Vec::new(alloc),
            alloc,
        }
    }

    /// Whether there may be one more scope, symbol and reference.
    pub fn has_room(&self) -> bool
        ensures { IsTrue result ↔ (HasRoom self.now.scopes × HasRoom self.now.symbols × HasRoom self.now.references) }
    {
        let most = u32::MAX as usize;
        self.scopes.len() < most && self.symbols.len() < most && self.references.len() < most
    }

    /// The scope of the program, which is numbered first.
    pub fn root_scope_id(&self) -> ScopeId
        ensures { result.0 ≡ 0 }
    {
        ScopeId(0)
    }

    /// Whether the table has this scope.
    pub fn has_scope(&self, scope_id: ScopeId) -> bool
        ensures { result ≡ is_some (scope_at self.now scope_id) }
    {
        let i = scope_id.0 as usize;
        i < self.scopes.len() && self.scopes[i].is_some()
    }

    /// The row of a scope.
    fn scope(&self, scope_id: ScopeId) -> &Scope
        requires { HasScope self.now scope_id }
        ensures row { scope_at self.now scope_id ≡ Some result.now }
        ensures table { IsTable self.now }
    {
        match &self.scopes[scope_id.0 as usize] {
            Some(scope) => scope,
            None => unreachable!(),
        }
    }

    /// What the scope is.
    pub fn scope_flags(&self, scope_id: ScopeId) -> ScopeFlags
        requires { HasScope self.now scope_id }
        ensures { option_map (λ x. x.flags) (scope_at self.now scope_id) ≡ Some result }
    {
        self.scope(scope_id).flags
    }

    /// Changes what the scope is.
    pub fn set_scope_flags(&mut self, scope_id: ScopeId, flags: ScopeFlags)
        requires { HasScope self.old scope_id }
        ensures { self.new ≡ with_scope_flags self.old scope_id flags }
    {
        let Some(scope) = &mut self.scopes[scope_id.0 as usize] else {
            unreachable!();
        };
        scope.flags = flags;
    }

    /// The scope around, unless this is a root.
    pub fn scope_parent_id(&self, scope_id: ScopeId) -> Option<ScopeId>
        requires { HasScope self.now scope_id }
        ensures parent { option_map (λ x. x.parent) (scope_at self.now scope_id) ≡ Some result }
        ensures around { HasScopeIfAny self.now result }
        ensures ancestors { scope_ancestors self.now scope_id ≡ scope_id ∷ ancestors_from self.now result }
    {
        self.scope(scope_id).parent
    }

    /// The scope, the one around it, and so on up to the root.
    pub fn scope_ancestors(&self, scope_id: ScopeId) -> ScopeAncestors<'_>
        requires { HasScope self.now scope_id }
        ensures ancestors { result ≡ scope_ancestors self.now scope_id }
        ensures held { All (HasScope self.now) result }
    {
        // Parents form trees.
        let _ = &self.scopes;
        ScopeAncestors::new(self, scope_id)
    }

    /// Adds a scope without names, and answers its number.
    pub fn add_scope(
        &mut self,
        parent: Option<ScopeId>,
        flags: ScopeFlags,
    ) -> Result<ScopeId, AllocError>
        requires around { HasScopeIfAny self.old parent }
        requires room { HasRoom self.old.scopes }
        ensures number { IfOk result (λ s. s.0 ≡ length self.old.scopes) }
        ensures ok { OnOk result (self.new ≡ with_new_scope self.old parent flags) }
        ensures err { OnErr result (self.new ≡ self.old) }
    {
        let id = ScopeId(self.scopes.len() as u32);
        let names = Bindings::new(self.alloc);
        self.scopes.push(Some(Scope {
            parent,
            flags,
            names,
        }))?;
        Ok(id)
    }

    /// Puts the scope into another, which neither is it nor stands below it, or makes it a root.
    pub fn change_scope_parent_id(&mut self, scope_id: ScopeId, parent: Option<ScopeId>)
        requires there { HasScope self.old scope_id }
        requires around { HasScopeIfAny self.old parent }
        requires outside { ForSome parent (λ p. ¬ IsWithin self.old scope_id p) }
        ensures { self.new ≡ with_parent self.old scope_id parent }
    {
        let Some(scope) = &mut self.scopes[scope_id.0 as usize] else {
            unreachable!();
        };
        scope.parent = parent;
    }

    /// Removes a scope that holds no name and is no root. The scopes right below it get its parent.
    pub fn remove_scope(&mut self, scope_id: ScopeId)
        requires below { IsSome (parent_of self.old scope_id) }
        requires empty { names_at self.old scope_id ≡ [] }
        ensures { self.new ≡ without_scope self.old scope_id }
    {
        let parent = self.scope(scope_id).parent;
        lift_all(&mut self.scopes, scope_id, parent);
        self.scopes[scope_id.0 as usize] = None;
    }

    /// Whether the scope holds a name.
    pub fn has_bindings(&self, scope_id: ScopeId) -> bool
        requires { HasScope self.now scope_id }
        ensures { IsTrue result ↔ (¬ (names_at self.now scope_id ≡ [])) }
    {
        !self.scope(scope_id).names.is_empty()
    }

    /// The symbol that the scope itself holds for the name.
    pub fn get_binding(&self, scope_id: ScopeId, name: &str) -> Option<SymbolId>
        requires { HasScope self.now scope_id }
        ensures value { result ≡ get_binding self.now scope_id (chars name.now) }
        ensures named { IfSome result (λ y. IsNamed self.now.symbols y (chars name.now) scope_id) }
    {
        self.scope(scope_id).names.get(name)
    }

    /// The symbol that the name means in the scope: that of the nearest scope from there upwards that
    /// holds it.
    pub fn find_binding(&self, scope_id: ScopeId, name: &str) -> Option<SymbolId>
        requires { HasScope self.now scope_id }
        ensures value { result ≡ find_binding self.now scope_id (chars name.now) }
        ensures there { IfSome result (HasSymbol self.now) }
    {
        for scope in self.scope_ancestors(scope_id) {
            if let Some(symbol) = self.get_binding(scope, name) {
                return Some(symbol);
            }
        }
        None
    }
}

// Symbols.
impl Scoping {
    /// Adds a symbol, as the last name of the scope, and answers its number. It is not marked.
    pub fn add_binding(
        &mut self,
        scope_id: ScopeId,
        name: &str,
        flags: SymbolFlags,
    ) -> Result<SymbolId, AllocError>
        requires there { HasScope self.old scope_id }
        requires free { get_binding self.old scope_id (chars name.now) ≡ None }
        requires room { HasRoom self.old.symbols }
        ensures number { IfOk result (λ y. y.0 ≡ length self.old.symbols) }
        ensures ok { OnOk result (self.new ≡ with_binding self.old scope_id (chars name.now) flags) }
    {
        let id = SymbolId(self.symbols.len() as u32);
        let symbol = Symbol {
            name: Name::new(self.alloc, name)?,
            scope: scope_id,
            flags,
            references: ReferenceSet::new(self.alloc),
            is_marked: false,
        };
        self.symbols.push(symbol)?;
        hold_name(&mut self.scopes, scope_id, name, id)?;
        Ok(id)
    }

    /// Gives a symbol another name, in the scope that holds it. The order of the names stays.
    pub fn rename_symbol(
        &mut self,
        symbol_id: SymbolId,
        scope_id: ScopeId,
        name: &str,
    ) -> Result<(), AllocError>
        requires held { Holds self.old scope_id symbol_id }
        requires free { get_binding self.old scope_id (chars name.now) ≡ None }
        ensures ok { OnOk result (self.new ≡ with_name self.old symbol_id scope_id (chars name.now)) }
    {
        let new_name = Name::new(self.alloc, name)?;
        let symbol = &mut self.symbols[symbol_id.0 as usize];
        rename_in(
            &mut self.scopes,
            scope_id,
            symbol.name.as_str(),
            name,
            symbol_id,
        )?;
        symbol.name = new_name;
        Ok(())
    }

    /// Whether the table has this symbol.
    pub fn has_symbol(&self, symbol_id: SymbolId) -> bool
        ensures { result ≡ is_some (symbol_at self.now symbol_id) }
    {
        (symbol_id.0 as usize) < self.symbols.len()
    }

    /// The name of the symbol.
    pub fn symbol_name(&self, symbol_id: SymbolId) -> &str
        requires { HasSymbol self.now symbol_id }
        ensures { option_map (λ x. x.name) (symbol_at self.now symbol_id) ≡ Some (chars result.now) }
    {
        self.symbols[symbol_id.0 as usize].name.as_str()
    }

    /// The scope that holds the symbol.
    pub fn symbol_scope_id(&self, symbol_id: SymbolId) -> ScopeId
        requires { HasSymbol self.now symbol_id }
        ensures { option_map (λ x. x.scope) (symbol_at self.now symbol_id) ≡ Some result }
    {
        self.symbols[symbol_id.0 as usize].scope
    }

    /// What declares the symbol.
    pub fn symbol_flags(&self, symbol_id: SymbolId) -> SymbolFlags
        requires { HasSymbol self.now symbol_id }
        ensures { option_map (λ x. x.flags) (symbol_at self.now symbol_id) ≡ Some result }
    {
        self.symbols[symbol_id.0 as usize].flags
    }

    /// Changes what declares the symbol.
    pub fn set_symbol_flags(&mut self, symbol_id: SymbolId, flags: SymbolFlags)
        requires { HasSymbol self.old symbol_id }
        ensures { self.new ≡ with_symbol_flags self.old symbol_id flags }
    {
        self.symbols[symbol_id.0 as usize].flags = flags;
    }

    /// Marks the symbol: it changes without any reference that writes.
    pub fn mark_symbol(&mut self, symbol_id: SymbolId)
        requires { HasSymbol self.old symbol_id }
        ensures { self.new ≡ with_mark self.old symbol_id }
    {
        self.symbols[symbol_id.0 as usize].is_marked = true;
    }

    /// Whether the symbol is marked, or a reference on its list writes.
    pub fn symbol_is_mutated(&self, symbol_id: SymbolId) -> bool
        requires { HasSymbol self.now symbol_id }
        ensures { IsTrue result ↔ IsMutated self.now symbol_id }
    {
        let symbol = &self.symbols[symbol_id.0 as usize];
        symbol.is_marked || symbol.references.has_write(&self.references)
    }
}

// References.
impl Scoping {
    /// Adds a reference, which is put on the list of its symbol, and answers its number.
    pub fn create_reference(
        &mut self,
        symbol_id: Option<SymbolId>,
        flags: ReferenceFlags,
    ) -> Result<ReferenceId, AllocError>
        requires there { ForSome symbol_id (HasSymbol self.old) }
        requires room { HasRoom self.old.references }
        ensures number { IfOk result (λ r. r.0 ≡ length self.old.references) }
        ensures ok { OnOk result (self.new ≡ with_created_reference self.old symbol_id flags) }
    {
        let id = ReferenceId(self.references.len() as u32);
        self.references.push(Reference { symbol_id, flags })?;
        if let Some(symbol_id) = symbol_id {
            self.add_resolved_reference(symbol_id, id)?;
        }
        Ok(id)
    }

    /// Whether the table has this reference.
    pub fn has_reference(&self, reference_id: ReferenceId) -> bool
        ensures { result ≡ is_some (reference_at self.now reference_id) }
    {
        (reference_id.0 as usize) < self.references.len()
    }

    /// The reference.
    pub fn get_reference(&self, reference_id: ReferenceId) -> &Reference
        requires { HasReference self.now reference_id }
        ensures { reference_at self.now reference_id ≡ Some result.now }
    {
        &self.references[reference_id.0 as usize]
    }

    /// Changes how the reference uses its name.
    pub fn set_reference_flags(&mut self, reference_id: ReferenceId, flags: ReferenceFlags)
        requires { HasReference self.old reference_id }
        ensures { self.new ≡ with_reference_flags self.old reference_id flags }
    {
        self.references[reference_id.0 as usize].flags = flags;
    }

    /// Changes what the reference means. The lists of the symbols stay.
    pub fn set_symbol_id(&mut self, reference_id: ReferenceId, symbol_id: SymbolId)
        requires reference { HasReference self.old reference_id }
        requires symbol { HasSymbol self.old symbol_id }
        ensures { self.new ≡ with_target self.old reference_id symbol_id }
    {
        self.references[reference_id.0 as usize].symbol_id = Some(symbol_id);
    }

    /// Puts the reference on the list of the symbol, if it is not there. What it means stays.
    pub fn add_resolved_reference(
        &mut self,
        symbol_id: SymbolId,
        reference_id: ReferenceId,
    ) -> Result<(), AllocError>
        requires symbol { HasSymbol self.old symbol_id }
        requires reference { HasReference self.old reference_id }
        ensures ok { OnOk result (self.new ≡ with_listed self.old symbol_id reference_id) }
        ensures err { OnErr result (self.new ≡ self.old) }
    {
        self.symbols[symbol_id.0 as usize]
            .references
            .insert(reference_id)
    }

    /// Takes the reference off the list of the symbol, if it is there. What it means stays.
    pub fn delete_resolved_reference(&mut self, symbol_id: SymbolId, reference_id: ReferenceId)
        requires symbol { HasSymbol self.old symbol_id }
        requires reference { HasReference self.old reference_id }
        ensures { self.new ≡ without_listed self.old symbol_id reference_id }
    {
        self.symbols[symbol_id.0 as usize]
            .references
            .remove(reference_id);
    }
}
