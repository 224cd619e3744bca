// What the names of a program mean, as far as its shapes ask.

ghost use Rattle.std.specs.Prelude.{◌≡◌, codes, option_map};
ghost use Rattle.es_base.specs.Tree.{Tree};
ghost use Rattle.es_steps.specs.LoweredClasses.{referent_of};
ghost use Rattle.es_steps.specs.References.{resolve, written, changed_otherwise, varying, assigned, has_number, changes_free};
ghost use Rattle.es_shapes.specs.Names.{bound_number};

use es_base::ids::NodeId;

/// What the names of a program mean, by the numbers of its nodes. A binding is known by the first
/// identifier that declares it.
pub trait NameFacts: Drop {
    ghost program: { Self → Tree };

    /// The binding that the reference means; nothing where it is free.
    fn binding_of(&self, reference: NodeId) -> Option<NodeId>
        ensures { option_map (λ n. n.0) result ≡ bound_number (referent_of reference.0 (resolve (program self.now))) };

    /// Whether the binding is written anywhere in the program: a reference writes it, more than one
    /// identifier declares it, or it is a `var` of a for-in or for-of head.
    fn is_written(&self, binding: NodeId) -> bool
        ensures { result ≡ has_number binding.0 (written (program self.now)) };

    /// Whether the binding changes without a write: an import declares it, a function in a block gives it a value
    /// (ECMA-262, B.3.2), or a `var` of its name in a catch (B.3.4).
    fn changes_otherwise(&self, binding: NodeId) -> bool
        ensures { result ≡ has_number binding.0 (changed_otherwise (program self.now)) };

    /// Whether the binding is written, or changes without.
    fn is_varying(&self, binding: NodeId) -> bool
        ensures { result ≡ has_number binding.0 (varying (program self.now)) };

    /// Whether a reference writes the binding.
    fn is_assigned(&self, binding: NodeId) -> bool
        ensures { result ≡ has_number binding.0 (assigned (resolve (program self.now))) };

    /// Whether a free name `arguments` is given a value: by a reference, or by a function in a block.
    fn changes_arguments(&self) -> bool
        ensures { result ≡ changes_free (codes "arguments") (program self.now) };
}
