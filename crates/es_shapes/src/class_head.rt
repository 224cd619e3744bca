// Whether a class expression reads its own name in its heritage or its keys.

ghost use Rattle.std.specs.Prelude.{◌≡◌, ◌++◌, ℕ, option_map};
ghost use Rattle.std.specs.List.{list_any};
ghost use Rattle.es_base.specs.Preorder.{preorder_of_part};
ghost use Rattle.es_base.specs.Tree.{child, nullable, trees};
ghost use Rattle.es_base.specs.declared.kind.Kind.{Kind};
ghost use Rattle.es_node.specs.View.{kind_of, number_in, parts_in};
ghost use Rattle.es_steps.specs.ClassHeads.{body_keys, is_named_pair, key_nodes, named_by, names_itself};
ghost use Rattle.es_shapes.specs.ClassHeads.{element_key, spells};

use crate::walk::{NodeTest, any_node};
use es_base::kind::Kind;
use es_base::name::Name;
use es_base::strings::is_word;
use es_node::node::Node;
use es_tree::class::{
    ClassBodyRef, ClassExpressionRef, MethodDefinitionRef, PropertyDefinitionRef,
};
use es_tree::identifier::{BindingIdentifierRef, IdentifierReferenceRef};

/// Whether the class expression reads its name in its heritage or its keys, in functions there, too: what
/// such a function is given to may read the name later (ECMA-262, 15.7.14). Allocates nothing.
pub fn names_itself(class: &Node) -> bool
    requires { kind_of class.now ≡ Kind.ClassExpression }
    ensures { result ≡ names_itself (number_in class.now) (parts_in class.now) }
{
    let class = ClassExpressionRef::from_node(class);
    // class A extends f(() => A) {}
    match class.id {
        Some(id) => is_named_in_head(id, class.super_class, class.body),
        None => false,
    }
}

/// A test for references of one spelling.
#[derive(Drop)]
struct Spells<'a> {
    name: &'a Name,
}

impl<'a> NodeTest for Spells<'a> {
    ghost passes = { λ k t. spells k.name.now t };

    #[tactic(auto, using(crate::proofs::ClassHeads::no_reference))]
    fn passes(&self, node: &Node) -> bool
        ensures { result ≡ spells self.now.name.now node.now }
    {
        match node.kind() {
            Kind::IdentifierReference => {
                let reference = IdentifierReferenceRef::from_node(node);
                is_word(reference.name.as_str(), self.name.as_str())
            }
            _ => false,
        }
    }
}

#[tactic(auto, using(crate::proofs::ClassHeads::head_reads, crate::proofs::ClassHeads::no_name))]
fn is_named_in_head(id: &Node, heritage: Option<&Node>, body: &Node) -> bool
    ensures { (n : ℕ) → result ≡ is_named_pair (named_by n (child id.now) (preorder_of_part (nullable (option_map (λ x. x.now) heritage.entry)) ++ body_keys (child body.now))) }
{
    match id.kind() {
        Kind::BindingIdentifier => {
            let test = Spells {
                name: BindingIdentifierRef::from_node(id).name,
            };
            is_read_in_heritage(&test, heritage) || is_read_in_body(&test, body)
        }
        _ => false,
    }
}

fn is_read_in_heritage(test: &Spells, heritage: Option<&Node>) -> bool
    ensures { result ≡ list_any (spells test.now.name.now) (preorder_of_part (nullable (option_map (λ x. x.now) heritage.entry))) }
{
    match heritage {
        Some(heritage) => any_node(test, heritage),
        None => false,
    }
}

#[tactic(auto, using(crate::proofs::ClassHeads::no_body))]
fn is_read_in_body(test: &Spells, body: &Node) -> bool
    ensures { result ≡ list_any (spells test.now.name.now) (body_keys (child body.now)) }
{
    match body.kind() {
        Kind::ClassBody => is_read_in_keys(test, ClassBodyRef::from_node(body).body),
        _ => false,
    }
}

#[tactic(auto, using(crate::proofs::ClassHeads::keys_first))]
fn is_read_in_keys(test: &Spells, elements: &[Node]) -> bool
    ensures { result ≡ list_any (spells test.now.name.now) (key_nodes (trees elements.now)) }
{
    for element in elements {
        if is_read_in_key(test, element) {
            return true;
        }
    }
    false
}

#[tactic(auto, using(crate::proofs::ClassHeads::no_key))]
fn is_read_in_key(test: &Spells, element: &Node) -> bool
    ensures { result ≡ list_any (spells test.now.name.now) (element_key element.now) }
{
    match element.kind() {
        // [A.k] = 1;
        Kind::PropertyDefinition => any_node(test, PropertyDefinitionRef::from_node(element).key),
        // [A.k]() {}
        Kind::MethodDefinition => any_node(test, MethodDefinitionRef::from_node(element).key),
        _ => false,
    }
}
