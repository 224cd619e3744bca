// The scopes of a program, and the names that they hold.

ghost use Rattle.std.specs.Prelude.{◌≡◌, ◌<◌, ◌≤◌, ◌+◌, ◌^◌, OnOk, IfOk, length, None, Some, IsSome, true, cond};
ghost use Rattle.std.specs.Str.{chars};
ghost use Rattle.es_scopes.specs.Table.{HasScope, HasScopeIfAny, HasSymbol, HasRoom, get_binding, changed_at};
ghost use Rattle.es_scopes.specs.Tables.{declare, declared, opened, none_declared, bound, bound_first, bound_again, marked_if, declarer_at, joined, flags_with, Fits, AreOrdered, IsWhole};

use crate::entry::Entry;
use crate::flags::{ScopeFlags, SymbolFlags};
use crate::scoping::Scoping;
use crate::surroundings::Declarer;
use es_base::ids::{ScopeId, SymbolId};
use es_base::list::List;
use std::alloc::{AllocError, Global};

/// The scopes of a program with their names, and what is known of these while it is built.
#[derive(Drop)]
pub struct Declarations {
    pub scoping: Scoping,
    /// By the numbers of scopes: whether the scope stands in the parameters of the function whose scope
    /// is around it.
    pub in_parameters: List<bool>,
    /// By the numbers of symbols: as what their identifiers declare them.
    pub declarers: List<Declarer>,
}

/// Marks the symbol, if it is to be marked.
fn mark_if(scoping: &mut Scoping, marked: bool, symbol: SymbolId)
    requires { HasSymbol scoping.old symbol }
    ensures { scoping.new ≡ marked_if marked symbol scoping.old }
{
    if marked {
        scoping.mark_symbol(symbol);
    }
}

/// The declarer of this number.
pub(crate) fn declarer_at(declarers: &[Declarer], symbol: SymbolId) -> Declarer
    ensures { result ≡ declarer_at declarers.now symbol }
{
    let i = symbol.0 as usize;
    if i < declarers.len() {
        declarers[i]
    } else {
        Declarer::Other
    }
}

/// Notes as what one more identifier declares the symbol.
#[tactic(auto, using(crate::proofs::RowLemmas::set_changed, crate::proofs::RowLemmas::changed_at_beyond))]
fn join_declarer(declarers: &mut [Declarer], symbol: SymbolId, declarer: Declarer)
    ensures { declarers.new ≡ changed_at (joined declarer) symbol.0 declarers.old }
{
    let i = symbol.0 as usize;
    if i < declarers.len() {
        declarers[i] = declarer.joined(declarers[i]);
    }
}

/// The flags of a symbol with those of one more identifier.
fn flags_with(
    old: Declarer,
    declarer: Declarer,
    before: SymbolFlags,
    flags: SymbolFlags,
) -> SymbolFlags
    ensures { result ≡ flags_with old declarer before flags }
{
    match (old, declarer) {
        (Declarer::OwnName, Declarer::OwnName) => before.with(flags),
        (Declarer::OwnName, _) => flags,
        (_, Declarer::OwnName) => before,
        _ => before.with(flags),
    }
}

impl Declarations {
    /// Adds the first identifier of a name in a scope.
    fn bind_first(
        &mut self,
        scope: ScopeId,
        declarer: Declarer,
        name: &str,
        flags: SymbolFlags,
        head_var: bool,
    ) -> Result<(), AllocError>
        requires there { HasScope self.old.scoping scope }
        requires free { get_binding self.old.scoping scope (chars name.now) ≡ None }
        requires room { HasRoom self.old.scoping.symbols }
        ensures { OnOk result (self.new ≡ bound_first self.old scope declarer (chars name.now) flags head_var) }
    {
        let symbol = self.scoping.add_binding(scope, name, flags)?;
        mark_if(&mut self.scoping, head_var, symbol);
        self.declarers.push(declarer)
    }

    /// Adds a further identifier of a symbol. The symbol is marked if two identifiers declare it that are
    /// not the own name of a function expression.
    #[tactic(auto, using(crate::proofs::BindSteps::has_flags))]
    fn bind_again(
        &mut self,
        symbol: SymbolId,
        declarer: Declarer,
        flags: SymbolFlags,
        head_var: bool,
    )
        requires { HasSymbol self.old.scoping symbol }
        ensures { self.new ≡ bound_again self.old symbol declarer flags head_var }
    {
        let old = declarer_at(self.declarers.as_slice(), symbol);
        let flags = flags_with(old, declarer, self.scoping.symbol_flags(symbol), flags);
        self.scoping.set_symbol_flags(symbol, flags);
        let repeats = !(old.is_own_name() || declarer.is_own_name());
        mark_if(&mut self.scoping, head_var || repeats, symbol);
        join_declarer(self.declarers.as_mut_slice(), symbol, declarer);
    }

    /// Adds an identifier that declares a name in a scope.
    fn bind(
        &mut self,
        scope: ScopeId,
        declarer: Declarer,
        name: &str,
        flags: SymbolFlags,
        head_var: bool,
    ) -> Result<(), AllocError>
        requires there { HasScope self.old.scoping scope }
        requires room { HasRoom self.old.scoping.symbols }
        ensures { OnOk result (self.new ≡ bound self.old scope declarer (chars name.now) flags head_var) }
    {
        match self.scoping.get_binding(scope, name) {
            Some(symbol) => {
                self.bind_again(symbol, declarer, flags, head_var);
                Ok(())
            }
            None => self.bind_first(scope, declarer, name, flags, head_var),
        }
    }

    /// Adds a scope.
    fn open(
        &mut self,
        parent: Option<ScopeId>,
        in_parameters: bool,
        flags: ScopeFlags,
    ) -> Result<(), AllocError>
        requires there { HasScopeIfAny self.old.scoping parent }
        requires room { HasRoom self.old.scoping.scopes }
        ensures { OnOk result (self.new ≡ opened self.old parent in_parameters flags) }
    {
        self.scoping.add_scope(parent, flags)?;
        self.in_parameters.push(in_parameters)
    }

    /// Adds the scope of an entry, or its name.
    fn declare(&mut self, entry: &Entry) -> Result<(), AllocError>
        requires whole { IsWhole self.old.scoping }
        requires fits { Fits (length self.old.scoping.scopes) entry.now }
        requires scopes { HasRoom self.old.scoping.scopes }
        requires symbols { HasRoom self.old.scoping.symbols }
        ensures { OnOk result (self.new ≡ declare self.old entry.now) }
    {
        match entry {
            Entry::Scope {
                parent,
                in_parameters,
                flags,
                ..
            } => self.open(*parent, *in_parameters, *flags),
            Entry::Binding {
                holder: Some(holder),
                declarer,
                name,
                flags,
                head_var,
                ..
            } => self.bind(*holder, *declarer, name.as_str(), *flags, *head_var),
            _ => Ok(()),
        }
    }
}

/// The scopes of these entries, with their names. Fails on allocation failure alone.
pub(crate) fn declare_all(alloc: Global, entries: &[Entry]) -> Result<Declarations, AllocError>
    requires ordered { AreOrdered 0 entries.now }
    requires room { length entries.now < 2 ^ 32 }
    ensures { IfOk result (λ d. d ≡ declared none_declared entries.now) }
{
    let mut declarations = Declarations {
        scoping: Scoping::new(alloc),
        in_parameters: List::new(alloc),
        declarers: List::new(alloc),
    };
    for entry in entries {
        declarations.declare(entry)?;
    }
    Ok(declarations)
}
