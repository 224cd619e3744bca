// What is known of a class, and of its private members.

ghost use Rattle.std.specs.Prelude.{◌≡◌, [], None, Some, false, is_some};
ghost use Rattle.class_details.specs.Details.{is_accessor_kind};

use crate::class_bindings::ClassBindings;
use crate::found::is_accessor_kind;
use es_base::list::List;
use es_base::name::Name;
use es_base::operator::MethodDefinitionKind;
use es_builders::bound_identifier::BoundIdentifier;
use es_node::node::Node;
use indexmap::IndexMap;
use std::alloc::Global;

/// A private member (oxc_transformer, `class_details`).
#[derive(Drop)]
pub struct PrivateProp {
    /// The name of its `WeakMap`, its object, its function or its key.
    pub binding: BoundIdentifier,
    pub is_static: bool,
    /// What it is, unless it is a field.
    pub method_kind: Option<MethodDefinitionKind>,
    /// The name of the other accessor, where there are two.
    pub binding2: Option<BoundIdentifier>,
}

impl PrivateProp {
    /// A member that has one name.
    pub fn new(
        binding: BoundIdentifier,
        is_static: bool,
        method_kind: Option<MethodDefinitionKind>,
    ) -> PrivateProp
        ensures { result ≡ record { binding = binding; is_static = is_static; method_kind = method_kind; binding2 = None } }
    {
        PrivateProp {
            binding,
            is_static,
            method_kind,
            binding2: None,
        }
    }

    /// Whether it is a method or an accessor.
    pub fn is_method(&self) -> bool
        ensures { result ≡ is_some self.now.method_kind }
    {
        self.method_kind.is_some()
    }

    /// Whether it is an accessor.
    pub fn is_accessor(&self) -> bool
        ensures { result ≡ is_accessor_kind self.now.method_kind }
    {
        is_accessor_kind(self.method_kind)
    }

    /// Gives it the name of the other accessor.
    pub fn set_binding2(&mut self, binding: BoundIdentifier)
        ensures { self.new ≡ record self.old { binding2 = Some binding } }
    {
        self.binding2 = Some(binding);
    }
}

/// What is known of a class (oxc_transformer, `class_details`).
#[derive(Drop)]
pub struct ClassDetails {
    pub is_declaration: bool,
    /// Whether the functions of its private methods stand in the sequence of a class expression.
    pub private_method_helpers_in_class_sequence: bool,
    pub is_transform_required: bool,
    /// Its private members by their names, without `#`, in the order of their declarations.
    pub private_props: IndexMap<Name, PrivateProp>,
    pub bindings: ClassBindings,
    /// What stands before the class.
    pub insert_before: List<Node>,
    /// What stands behind the class, in the sequence of a class expression.
    pub insert_after_exprs: List<Node>,
    /// What stands behind the class declaration.
    pub insert_after_stmts: List<Node>,
}

impl ClassDetails {
    /// Those of no class. Takes no memory.
    pub fn dummy(alloc: Global, is_declaration: bool) -> ClassDetails
        ensures declaration { result.is_declaration ≡ is_declaration }
        ensures sequence { result.private_method_helpers_in_class_sequence ≡ false }
        ensures required { result.is_transform_required ≡ false }
        ensures members { result.private_props.entries ≡ [] }
        ensures name { result.bindings.name ≡ None }
        ensures before { result.insert_before ≡ [] }
        ensures exprs { result.insert_after_exprs ≡ [] }
        ensures stmts { result.insert_after_stmts ≡ [] }
    {
        ClassDetails {
            is_declaration,
            private_method_helpers_in_class_sequence: false,
            is_transform_required: false,
            private_props: IndexMap::new(alloc),
            bindings: ClassBindings::dummy(),
            insert_before: List::new(alloc),
            insert_after_exprs: List::new(alloc),
            insert_after_stmts: List::new(alloc),
        }
    }
}
