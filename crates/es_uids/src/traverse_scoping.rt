// The scope table together with the names that are taken.

ghost use Rattle.std.specs.Prelude.{◌≡◌, ◌∷◌, ◌++◌, [], None, IfOk, OnOk, false};
ghost use Rattle.std.specs.Str.{chars};
ghost use Rattle.es_base.specs.Conforms.{is_among};
ghost use Rattle.es_base.specs.declared.ids.ScopeId.{ScopeId};
ghost use Rattle.es_base.specs.declared.ledger.GeneratedKind.TheVariants as kinds;
ghost use Rattle.es_names.specs.Candidates.{base_of, first_free};
ghost use Rattle.es_scopes.specs.Table.{HasRoom, HasScope, HasSymbol};
ghost use Rattle.program_names.specs.Suggested.{suggested};

use es_base::ids::{NodeId, ScopeId};
use es_base::ledger::{GeneratedKind, LedgerEntry};
use es_base::list::List;
use es_base::name::Name;
use es_builders::bound_identifier::BoundIdentifier;
use es_names::names::Names;
use es_node::node::Node;
use es_scopes::flags::SymbolFlags;
use es_scopes::scoping::Scoping;
use program_names::suggest::suggest;
use std::alloc::{AllocError, Global};

/// The scope table of a program that is lowered, the names that are taken, and the generated names so far
/// (oxc_traverse, `TraverseScoping`). After an error of a call nothing is said of it.
#[derive(Drop)]
pub struct TraverseScoping {
    pub alloc: Global,
    pub scoping: Scoping,
    pub names: Names,
    pub ledger: List<LedgerEntry>,
}

impl TraverseScoping {
    ghost use Rattle.es_uids.specs.Uids.{AreTaken, IsGenerated};

    /// With this table, and no generated name yet. Takes no memory.
    pub fn new(alloc: Global, scoping: Scoping, names: Names) -> TraverseScoping
        ensures scoping { result.scoping ≡ scoping }
        ensures names { result.names ≡ names }
        ensures ledger { result.ledger ≡ [] }
    {
        TraverseScoping {
            alloc,
            scoping,
            names,
            ledger: List::new(alloc),
        }
    }

    /// A name that was not taken yet, and now is, which no scope holds. Fails on allocation failure alone, as the
    /// calls below do.
    pub fn generate_uid_name(&mut self, base: &str) -> Result<Name, AllocError>
        ensures first { IfOk result (λ name. name ≡ first_free self.old.names (base_of (chars base.now))) }
        ensures free { IfOk result (λ name. is_among name self.old.names ≡ false) }
        ensures names { IfOk result (λ name. self.new.names ≡ self.old.names ++ name ∷ []) }
        ensures scoping { self.new.scoping ≡ self.old.scoping }
        ensures ledger { self.new.ledger ≡ self.old.ledger }
    {
        self.names.generate(base)
    }

    /// A name that was not taken yet, bound in a scope, whose names are taken. Whatever scope had taken names
    /// alone has them still.
    pub fn generate_uid(
        &mut self,
        base: &str,
        scope: ScopeId,
        flags: SymbolFlags,
        kind: GeneratedKind,
    ) -> Result<BoundIdentifier, AllocError>
        requires scope { HasScope self.old.scoping scope }
        requires taken { AreTaken self.old scope }
        requires room { HasRoom self.old.scoping.symbols }
        ensures generated { IfOk result (IsGenerated self.old self.new (chars base.now) scope flags kind) }
        ensures bound { IfOk result (λ b. HasSymbol self.new.scoping b.symbol_id) }
        ensures taken { OnOk result ((other : ScopeId) → AreTaken self.old other → AreTaken self.new other) }
    {
        let name = self.names.generate(base)?;
        let symbol_id = self.scoping.add_binding(scope, name.as_str(), flags)?;
        self.note(&name, kind)?;
        Ok(BoundIdentifier::new(name, symbol_id))
    }

    /// The same from the name that an expression suggests; it stands for a temporary.
    pub fn generate_uid_based_on_node(
        &mut self,
        expression: &Node,
        scope: ScopeId,
        flags: SymbolFlags,
    ) -> Result<BoundIdentifier, AllocError>
        requires scope { HasScope self.old.scoping scope }
        requires taken { AreTaken self.old scope }
        requires room { HasRoom self.old.scoping.symbols }
        ensures generated { IfOk result (IsGenerated self.old self.new (suggested expression.now) scope flags kinds.Temp) }
        ensures bound { IfOk result (λ b. HasSymbol self.new.scoping b.symbol_id) }
        ensures taken { OnOk result ((other : ScopeId) → AreTaken self.old other → AreTaken self.new other) }
    {
        let base = suggest(self.alloc, expression)?;
        self.generate_uid(base.as_str(), scope, flags, GeneratedKind::Temp)
    }

    /// Enters a private name that a lowering makes for a class.
    pub fn note_private(&mut self, name: &Name, class: NodeId) -> Result<(), AllocError>
        ensures ledger { OnOk result (self.new.ledger ≡ self.old.ledger ++ record { name = name.now; kind = kinds.Private class } ∷ []) }
        ensures names { self.new.names ≡ self.old.names }
        ensures scoping { self.new.scoping ≡ self.old.scoping }
    {
        self.note(name, GeneratedKind::Private(class))
    }

    /// Enters a generated name.
    fn note(&mut self, name: &Name, kind: GeneratedKind) -> Result<(), AllocError>
        ensures ledger { OnOk result (self.new.ledger ≡ self.old.ledger ++ record { name = name.now; kind = kind } ∷ []) }
        ensures names { self.new.names ≡ self.old.names }
        ensures scoping { self.new.scoping ≡ self.old.scoping }
    {
        let name = name.try_clone(self.alloc)?;
        self.ledger.push(LedgerEntry { name, kind })
    }
}
