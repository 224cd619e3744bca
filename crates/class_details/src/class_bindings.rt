// The names of a class: its own, and those that a lowering gives it.

ghost use Rattle.std.specs.Prelude.{◌≡◌, IsSome, IfOk, OnOk, None, false, true, option_map, Some};
ghost use Rattle.es_base.specs.declared.ids.ScopeId.{ScopeId};
ghost use Rattle.es_base.specs.declared.ids.TheConstants.NodeId as node_id;
ghost use Rattle.es_base.specs.declared.ledger.GeneratedKind.TheVariants as kinds;
ghost use Rattle.es_scopes.specs.Table.{HasRoom, HasScope};
ghost use Rattle.es_scopes.specs.declared.flags.TheConstants.SymbolFlags as flag;
ghost use Rattle.es_uids.specs.Uids.{AreTaken, IsGenerated};

use es_base::ids::{NodeId, ScopeId, SymbolId};
use es_base::ledger::GeneratedKind;
use es_builders::bound_identifier::BoundIdentifier;
use es_scopes::flags::SymbolFlags;
use es_uids::traverse_scoping::TraverseScoping;
use std::alloc::AllocError;

/// The names of a class (oxc_transformer, `class_bindings`).
#[derive(Drop)]
pub struct ClassBindings {
    /// The name of the class, if it has one.
    pub name: Option<BoundIdentifier>,
    /// The temporary that holds the class, once there is one.
    pub temp: Option<BoundIdentifier>,
    /// The `WeakSet` of its private methods, if it has one.
    pub brand: Option<BoundIdentifier>,
    /// The scope around the class that a `var` is declared in.
    pub outer_hoist_scope_id: ScopeId,
    /// Whether code that uses a private static member names the class by the temporary.
    pub static_private_fields_use_temp: bool,
    /// Whether the temporary is declared.
    pub temp_var_is_created: bool,
    /// The number of the class.
    pub class: NodeId,
}

impl ClassBindings {
    ghost use Rattle.class_details.specs.Created.{IsTempCreated, class_base};

    /// Of the class of this number.
    pub fn new(
        name: Option<BoundIdentifier>,
        temp: Option<BoundIdentifier>,
        brand: Option<BoundIdentifier>,
        outer_hoist_scope_id: ScopeId,
        static_private_fields_use_temp: bool,
        temp_var_is_created: bool,
        class: NodeId,
    ) -> ClassBindings
        ensures { result ≡ record { name = name; temp = temp; brand = brand; outer_hoist_scope_id = outer_hoist_scope_id; static_private_fields_use_temp = static_private_fields_use_temp; temp_var_is_created = temp_var_is_created; class = class } }
    {
        ClassBindings {
            name,
            temp,
            brand,
            outer_hoist_scope_id,
            static_private_fields_use_temp,
            temp_var_is_created,
            class,
        }
    }

    /// Those of no class: no name, the scope of number 0, and the number of no node.
    pub fn dummy() -> ClassBindings
        ensures name { result.name ≡ None }
        ensures temp { result.temp ≡ None }
        ensures brand { result.brand ≡ None }
        ensures scope { result.outer_hoist_scope_id.0 ≡ 0 }
        ensures uses_temp { result.static_private_fields_use_temp ≡ false }
        ensures created { result.temp_var_is_created ≡ false }
        ensures class { result.class ≡ node_id.DUMMY }
    {
        ClassBindings::new(None, None, None, ScopeId(0), false, false, NodeId::DUMMY)
    }

    /// The symbol of the class's name.
    pub fn name_symbol_id(&self) -> Option<SymbolId>
        ensures { result ≡ option_map (λ b. b.symbol_id) self.now.name }
    {
        match &self.name {
            Some(name) => Some(name.symbol_id),
            None => None,
        }
    }

    /// The `WeakSet` of the class's private methods.
    pub fn brand(&self) -> &BoundIdentifier
        requires { IsSome self.now.brand }
        ensures { self.now.brand ≡ Some result.now }
    {
        match &self.brand {
            Some(brand) => brand,
            None => unreachable!(),
        }
    }

    /// The name that code which uses a private static member names the class by: the temporary, which is generated
    /// if there is none yet, or the class's own. Fails on allocation failure alone; then nothing is said of the table.
    pub fn get_or_init_static_binding(
        &mut self,
        scoping: &mut TraverseScoping,
    ) -> Result<BoundIdentifier, AllocError>
        requires named { self.old.static_private_fields_use_temp ≡ false → IsSome self.old.name }
        requires scope { HasScope scoping.old.scoping self.old.outer_hoist_scope_id }
        requires taken { AreTaken scoping.old self.old.outer_hoist_scope_id }
        requires room { HasRoom scoping.old.scoping.symbols }
        ensures named { self.old.static_private_fields_use_temp ≡ false → IfOk result (λ b. (self.old.name ≡ Some b) × (self.new ≡ self.old) × (scoping.new ≡ scoping.old)) }
        ensures temp { self.old.static_private_fields_use_temp ≡ true → IfOk result (IsTempCreated self.old self.new scoping.old scoping.new) }
    {
        if self.static_private_fields_use_temp {
            self.get_or_init_temp(scoping)
        } else {
            match &self.name {
                Some(name) => name.try_clone(scoping.alloc),
                None => unreachable!(),
            }
        }
    }

    fn get_or_init_temp(
        &mut self,
        scoping: &mut TraverseScoping,
    ) -> Result<BoundIdentifier, AllocError>
        requires scope { HasScope scoping.old.scoping self.old.outer_hoist_scope_id }
        requires taken { AreTaken scoping.old self.old.outer_hoist_scope_id }
        requires room { HasRoom scoping.old.scoping.symbols }
        ensures { IfOk result (IsTempCreated self.old self.new scoping.old scoping.new) }
    {
        match &self.temp {
            Some(temp) => temp.try_clone(scoping.alloc),
            None => {
                let temp = ClassBindings::create_temp_binding(
                    self.name.as_ref(),
                    self.outer_hoist_scope_id,
                    self.class,
                    scoping,
                )?;
                self.temp = Some(temp.try_clone(scoping.alloc)?);
                Ok(temp)
            }
        }
    }

    /// The temporary of a class: a new name from the class's, or from `Class`, bound in the scope. Fails on allocation
    /// failure alone; then nothing is said of the table.
    pub fn create_temp_binding(
        name: Option<&BoundIdentifier>,
        scope: ScopeId,
        class: NodeId,
        scoping: &mut TraverseScoping,
    ) -> Result<BoundIdentifier, AllocError>
        requires scope { HasScope scoping.old.scoping scope }
        requires taken { AreTaken scoping.old scope }
        requires room { HasRoom scoping.old.scoping.symbols }
        ensures generated { IfOk result (IsGenerated scoping.old scoping.new (class_base (option_map (λ b. b.now.name) name.entry)) scope flag.VAR (kinds.ClassTemp class)) }
        ensures taken { OnOk result ((other : ScopeId) → AreTaken scoping.old other → AreTaken scoping.new other) }
    {
        let kind = GeneratedKind::ClassTemp(class);
        match name {
            Some(name) => scoping.generate_uid(name.name.as_str(), scope, SymbolFlags::VAR, kind),
            None => scoping.generate_uid("Class", scope, SymbolFlags::VAR, kind),
        }
    }
}
