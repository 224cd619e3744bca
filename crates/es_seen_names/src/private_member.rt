// The private members of a class.

ghost use Rattle.std.specs.Prelude.{◌≡◌, ◌++◌, ◌∷◌, [], IfOk, MatchOption, OnOk, option_map, cond, nat_eq};
ghost use Rattle.es_base.specs.Tree.{child, trees};
ghost use Rattle.es_base.specs.Words.{method_definition_kind_string};
ghost use Rattle.es_binding_faults.specs.Seen.{seen};
ghost use Rattle.es_node.specs.View.{kind_of, number_in, parts_in};
ghost use Rattle.es_steps.specs.PrivateNames as spec;
ghost use Rattle.es_steps.specs.PrivateNames.{body_members, element_members, elements_members, keyed_member, member_at, members_at, members_of_all, seen_members};
ghost use Rattle.es_validity.specs.Reached.{kind_in};
ghost use Rattle.es_seen_names.specs.PrivateMembers.{private_member_of, private_members_of};

use es_base::kind::Kind;
use es_binding_faults::preorder::preorder;
use es_node::node::Node;
use es_tree::class::{
    ClassBodyRef, ClassDeclarationRef, ClassExpressionRef, MethodDefinitionRef,
    PropertyDefinitionRef,
};
use es_tree::identifier::PrivateIdentifierRef;
use es_validity::privates::{PrivateKind, method_kind};
use std::alloc::{AllocError, Global};

/// A private member of a class, by its key.
#[derive(Debug, Clone, Copy)]
pub struct PrivateMember<'a> {
    pub node: u32,
    pub name: &'a str,
    pub class: u32,
    pub is_static: bool,
    pub kind: PrivateKind,
}

/// The private member of a class that an element with this key is, if its key is a private name.
fn keyed_member(
    class: u32,
    key: &Node,
    is_static: bool,
    kind: PrivateKind,
) -> Option<PrivateMember<'_>>
    ensures { MatchOption result (keyed_member class is_static (kind_in kind) (child key.now) ≡ [])
        (λ x. keyed_member class is_static (kind_in kind) (child key.now) ≡ private_member_of x ∷ []) }
{
    match key.kind() {
        Kind::PrivateIdentifier => Some(PrivateMember {
            node: key.node_id().0,
            name: PrivateIdentifierRef::from_node(key).name.as_str(),
            class,
            is_static,
            kind,
        }),
        _ => None,
    }
}

/// The private member that an element of a class is, if it is one.
fn private_member(class: u32, element: &Node) -> Option<PrivateMember<'_>>
    ensures { MatchOption result (element_members class (child element.now) ≡ [])
        (λ x. element_members class (child element.now) ≡ private_member_of x ∷ []) }
{
    match element.kind() {
        Kind::PropertyDefinition => {
            let field = PropertyDefinitionRef::from_node(element);
            keyed_member(class, field.key, field.is_static, PrivateKind::Field)
        }
        Kind::MethodDefinition => {
            let method = MethodDefinitionRef::from_node(element);
            keyed_member(
                class,
                method.key,
                method.is_static,
                method_kind(method.kind),
            )
        }
        _ => None,
    }
}

/// Adds the private member that an element of a class is, if it is one. Fails on allocation failure alone.
fn add_element<'a>(
    class: u32,
    element: &'a Node,
    members: &mut Vec<PrivateMember<'a>>,
) -> Result<(), AllocError>
    ensures { OnOk result (private_members_of members.new.items ≡ private_members_of members.old.items ++ element_members class (child element.now)) }
{
    if let Some(member) = private_member(class, element) {
        members.push(member)?;
    }
    Ok(())
}

/// Adds the private members among the elements of a class. Fails on allocation failure alone.
fn add_elements<'a>(
    class: u32,
    elements: &'a [Node],
    members: &mut Vec<PrivateMember<'a>>,
) -> Result<(), AllocError>
    ensures { OnOk result (private_members_of members.new.items ≡ private_members_of members.old.items ++ elements_members class (trees elements.now)) }
{
    for element in elements {
        add_element(class, element, members)?;
    }
    Ok(())
}

/// Adds the private members of the body of a class. Fails on allocation failure alone.
#[tactic(auto, using(crate::proofs::PrivateKinds::no_body))]
fn add_body<'a>(
    class: u32,
    body: &'a Node,
    members: &mut Vec<PrivateMember<'a>>,
) -> Result<(), AllocError>
    ensures { OnOk result (private_members_of members.new.items ≡ private_members_of members.old.items ++ body_members class (child body.now)) }
{
    match body.kind() {
        Kind::ClassBody => add_elements(class, ClassBodyRef::from_node(body).body, members),
        _ => Ok(()),
    }
}

/// Adds the private members that a node declares for what is in it. Fails on allocation failure alone.
#[tactic(auto, using(crate::proofs::PrivateKinds::no_members))]
pub fn add_members_at<'a>(
    node: &'a Node,
    members: &mut Vec<PrivateMember<'a>>,
) -> Result<(), AllocError>
    ensures { OnOk result (private_members_of members.new.items ≡ private_members_of members.old.items ++ members_at (kind_of node.now) (number_in node.now) (parts_in node.now)) }
{
    let class = node.node_id().0;
    match node.kind() {
        Kind::ClassDeclaration => {
            add_body(class, ClassDeclarationRef::from_node(node).body, members)
        }
        Kind::ClassExpression => {
            add_body(class, ClassExpressionRef::from_node(node).body, members)
        }
        _ => Ok(()),
    }
}

/// The private members that a node lets its i-th part see beside those around it. Fails on allocation failure alone.
pub fn members_seen(
    alloc: Global,
    node: &Node,
    i: usize,
) -> Result<Vec<PrivateMember<'_>>, AllocError>
    ensures { IfOk result (λ r. private_members_of r.items ≡ seen_members (kind_of node.now) (number_in node.now) (parts_in node.now) i) }
{
    let mut members = Vec::new(alloc);
    if i == 2 {
        add_members_at(node, &mut members)?;
    }
    Ok(members)
}

/// The private members of a program. Fails on allocation failure alone.
pub fn private_members(alloc: Global, program: &Node) -> Result<Vec<PrivateMember<'_>>, AllocError>
    ensures { IfOk result (λ r. private_members_of r.items ≡ spec.private_members program.now) }
{
    let nodes = preorder(alloc, program)?;
    let mut members = Vec::new(alloc);
    for node in nodes.as_slice() {
        add_members_at(node, &mut members)?;
    }
    Ok(members)
}

/// The member that the key of this number declares.
pub fn member_at<'a>(node: u32, members: &[PrivateMember<'a>]) -> Option<PrivateMember<'a>>
    ensures { option_map private_member_of result ≡ member_at node (private_members_of members.now) }
{
    for member in members {
        if node == member.node {
            return Some(*member);
        }
    }
    None
}
