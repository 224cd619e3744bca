// Whether a class is named in its heritage or its keys.

ghost use Rattle.std.specs.Prelude.{◌≡◌, [], ◌∷◌, ◌&&◌, option_map};
ghost use Rattle.es_base.specs.Preorder.{preorder};
ghost use Rattle.es_base.specs.Tree.{child, nullable, trees, nullable_trees};
ghost use Rattle.es_node.specs.View.{kind_of, part_of, parts_of};
ghost use Rattle.es_steps.specs.LoweredClasses.{elements_in};
ghost use Rattle.es_steps.specs.References.{resolve};
ghost use Rattle.es_steps.specs.Shapes.{lowered_classes, names_stand, names_stand_at, names_stand_in, named_in_keys, has_shape_7};
ghost use Rattle.es_shapes.specs.Classes.{class_view, is_lowered, is_lowered_with};
ghost use Rattle.es_shapes.specs.Names.{names_itself, refers_here};

use crate::class::{ClassRef, class_of, elements_of};
use crate::element::{element_kinds, element_of};
use crate::facts::NameFacts;
use crate::walk::{NodeTest, any_node, is_any_function};
use es_base::ids::NodeId;
use es_base::kind::Kind;
use es_node::node::{Node, Part};
use es_steps::options::Options;

/// Whether a lowered class is named in its heritage or its keys, outside functions: shape S7.
#[tactic(auto, using(crate::proofs::Lowered::any_lowered))]
pub fn has_own_name<F: NameFacts>(program: &Node, options: &Options, facts: &F) -> bool
    requires { F.program facts.now ≡ program.now }
    ensures { result ≡ has_shape_7 program.now (lowered_classes options.now (preorder program.now)) }
{
    let test = NamesItself { options, facts };
    any_node(&test, program)
}

/// Whether the node is a lowered class that is named in its heritage or its keys.
#[derive(Drop)]
struct NamesItself<'a, F> {
    options: &'a Options,
    facts: &'a F,
}

impl<'a, F: NameFacts> NodeTest for NamesItself<'a, F> {
    ghost passes = { λ k t. is_lowered_with k.options.now (names_itself (resolve (F.program k.facts.now))) t };

    fn passes(&self, node: &Node) -> bool
        ensures { result ≡ is_lowered_with self.now.options.now (names_itself (resolve (F.program self.now.facts.now))) node.now }
    {
        // class A { [A.k] = 1; }
        match class_of(node) {
            Some(class) => names_itself(self.options, self.facts, class),
            None => false,
        }
    }
}

#[tactic(auto, using(crate::proofs::Names::unnamed, crate::proofs::Names::number_of_id))]
fn names_itself<F: NameFacts>(options: &Options, facts: &F, class: ClassRef) -> bool
    ensures { result ≡ (is_lowered options.now (class_view class.entry) && names_itself (resolve (F.program facts.now)) (class_view class.entry)) }
{
    match class.id {
        Some(id) => {
            let elements = elements_of(class.body);
            element_kinds(options, elements).has_lowered
                && (is_named_in_heritage(facts, id.node_id(), class.super_class)
                    || is_named_in_keys(facts, id.node_id(), elements))
        }
        None => false,
    }
}

fn is_named_in_heritage<F: NameFacts>(facts: &F, name: NodeId, heritage: Option<&Node>) -> bool
    ensures { result ≡ names_stand_at (name.0 ∷ []) (resolve (F.program facts.now)) (nullable (option_map (λ x. x.now) heritage.entry)) }
{
    match heritage {
        Some(heritage) => is_named(facts, name, heritage),
        None => false,
    }
}

#[tactic(auto, using(crate::proofs::Names::named_in_first))]
fn is_named_in_keys<F: NameFacts>(facts: &F, name: NodeId, elements: &[Node]) -> bool
    ensures { result ≡ named_in_keys (name.0 ∷ []) (resolve (F.program facts.now)) (elements_in (trees elements.now)) }
{
    for element in elements {
        if is_named_in_key(facts, name, element) {
            return true;
        }
    }
    false
}

fn is_named_in_key<F: NameFacts>(facts: &F, name: NodeId, element: &Node) -> bool
    ensures { result ≡ named_in_keys (name.0 ∷ []) (resolve (F.program facts.now)) (elements_in (trees (element.now ∷ []))) }
{
    let Some(element) = element_of(element) else {
        return false;
    };
    match element.key {
        Some(key) => element.computed && is_named(facts, name, key),
        None => false,
    }
}

/// Whether a reference to the name stands in the node, outside functions.
#[cycle(named)]
#[tactic(auto, using(crate::proofs::Names::names_stand_node, es_node::proofs::Below::nodes_in))]
fn is_named<F: NameFacts>(facts: &F, name: NodeId, node: &Node) -> bool
    ensures { result ≡ names_stand (name.0 ∷ []) (resolve (F.program facts.now)) node.now }
{
    if is_any_function(node.kind()) {
        return false;
    }
    refers_to(facts, name, node) || is_named_in(facts, name, node.parts())
}

#[cycle(named)]
fn is_named_in<F: NameFacts>(facts: &F, name: NodeId, parts: &[Part]) -> bool
    ensures { result ≡ names_stand_in (name.0 ∷ []) (resolve (F.program facts.now)) (parts_of parts.now) }
{
    for part in parts {
        if is_named_at(facts, name, part) {
            return true;
        }
    }
    false
}

#[cycle(named)]
fn is_named_at<F: NameFacts>(facts: &F, name: NodeId, part: &Part) -> bool
    ensures { result ≡ names_stand_at (name.0 ∷ []) (resolve (F.program facts.now)) (part_of part.now) }
{
    match part {
        Part::Child(node) => is_named(facts, name, node),
        Part::List(nodes) => is_named_in_list(facts, name, nodes.as_slice()),
        Part::Holes(nodes) => is_named_in_list_with_holes(facts, name, nodes.as_slice()),
        _ => false,
    }
}

#[cycle(named)]
fn is_named_in_list<F: NameFacts>(facts: &F, name: NodeId, nodes: &[Node]) -> bool
    ensures { result ≡ names_stand_in (name.0 ∷ []) (resolve (F.program facts.now)) (trees nodes.now) }
{
    for node in nodes {
        if is_named(facts, name, node) {
            return true;
        }
    }
    false
}

#[cycle(named)]
fn is_named_in_list_with_holes<F: NameFacts>(
    facts: &F,
    name: NodeId,
    nodes: &[Option<Node>],
) -> bool
    ensures { result ≡ names_stand_in (name.0 ∷ []) (resolve (F.program facts.now)) (nullable_trees nodes.now) }
{
    for node in nodes {
        if is_named_in_hole(facts, name, node) {
            return true;
        }
    }
    false
}

#[cycle(named)]
fn is_named_in_hole<F: NameFacts>(facts: &F, name: NodeId, node: &Option<Node>) -> bool
    ensures { result ≡ names_stand_at (name.0 ∷ []) (resolve (F.program facts.now)) (nullable node.now) }
{
    match node {
        Some(node) => is_named(facts, name, node),
        None => false,
    }
}

/// Whether the node is a reference to the name.
#[tactic(auto, using(crate::proofs::Names::refers_to_one, crate::proofs::Names::no_reference_here))]
fn refers_to<F: NameFacts>(facts: &F, name: NodeId, node: &Node) -> bool
    ensures { result ≡ refers_here (name.0 ∷ []) (resolve (F.program facts.now)) node.now }
{
    match node.kind() {
        Kind::IdentifierReference => match facts.binding_of(node.node_id()) {
            Some(binding) => binding.0 == name.0,
            None => false,
        },
        _ => false,
    }
}
