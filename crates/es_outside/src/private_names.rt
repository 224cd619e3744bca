// The private members of a class, looked up by their names.

ghost use Rattle.std.specs.Prelude.{◌≡◌, ◌∷◌, [], List, ℕ, Bool, ◌&&◌, ◌||◌, bytes_eq, IfOk, OnOk, MatchOption};
ghost use Rattle.std.specs.Str.{chars};
ghost use Rattle.es_base.specs.Conforms.{is_among};
ghost use Rattle.es_base.specs.Tree.{child, trees};
ghost use Rattle.es_base.specs.Words.{method_definition_kind_string};
ghost use Rattle.es_node.specs.View.{kind_of, parts_in};
ghost use Rattle.es_steps.specs.PrivateNames as privates;
ghost use Rattle.es_steps.specs.PrivateNames.{elements_members, element_members, keyed_member, members_at};
ghost use Rattle.es_outside.specs.PrivateMembers.{declares, declares_written, spelled};

use es_base::kind::Kind;
use es_base::operator::MethodDefinitionKind;
use es_name_set::Names;
use es_node::node::Node;
use es_tree::class::{
    ClassBodyRef, ClassDeclarationRef, ClassExpressionRef, MethodDefinitionRef,
    PropertyDefinitionRef,
};
use es_tree::identifier::PrivateIdentifierRef;
use std::alloc::{AllocError, Global};

/// The private members of a class.
#[derive(Drop)]
pub struct PrivateNames<'a> {
    /// The elements of the class.
    pub elements: &'a [Node],
    /// The names of all of them.
    declared: Names<'a>,
    /// Those of fields and setters.
    written: Names<'a>,

    ghost declared_are: { (s : List ℕ) → is_among s declared ≡ declares s (elements_members 0 (trees elements.now)) },
    ghost written_are: { (s : List ℕ) → is_among s written ≡ declares_written s (elements_members 0 (trees elements.now)) },
}

/// The names of private members.
#[derive(Drop)]
struct Collected<'a> {
    declared: Names<'a>,
    written: Names<'a>,
}

impl<'a> PrivateNames<'a> {
    /// Those of the node: none if it is no class. Fails on allocation failure alone.
    pub fn of(alloc: Global, node: &'a Node) -> Result<PrivateNames<'a>, AllocError>
        ensures { IfOk result (λ r. (n : ℕ) → elements_members n (trees r.elements.now) ≡ members_at (kind_of node.now) n (parts_in node.now)) }
    {
        let elements = private_elements(node);
        let Collected { declared, written } = names_among(alloc, elements)?;
        Ok(PrivateNames {
            elements,
            declared,
            written,
        })
    }

    /// Whether one of them has this name.
    pub fn declares(&self, name: &str) -> bool
        ensures { result ≡ declares (chars name.now) (elements_members 0 (trees self.now.elements.now)) }
    {
        self.declared.has(name)
    }

    /// Whether a field or setter among them has this name.
    pub fn declares_written(&self, name: &str) -> bool
        ensures { result ≡ declares_written (chars name.now) (elements_members 0 (trees self.now.elements.now)) }
    {
        self.written.has(name)
    }
}

/// The elements of the body, if the node is a class.
#[tactic(auto, using(crate::proofs::PrivateTargets::no_members))]
fn private_elements(node: &Node) -> &[Node]
    ensures { (n : ℕ) → elements_members n (trees result.now) ≡ members_at (kind_of node.now) n (parts_in node.now) }
{
    match node.kind() {
        Kind::ClassDeclaration => elements_of(ClassDeclarationRef::from_node(node).body),
        Kind::ClassExpression => elements_of(ClassExpressionRef::from_node(node).body),
        _ => &[],
    }
}

#[tactic(auto, using(crate::proofs::PrivateTargets::no_body))]
fn elements_of(body: &Node) -> &[Node]
    ensures { (n : ℕ) → elements_members n (trees result.now) ≡ privates.body_members n (child body.now) }
{
    match body.kind() {
        Kind::ClassBody => ClassBodyRef::from_node(body).body,
        _ => &[],
    }
}

/// The names of the private members among these elements. Fails on allocation failure alone.
fn names_among<'a>(alloc: Global, elements: &'a [Node]) -> Result<Collected<'a>, AllocError>
    ensures declared { IfOk result (λ r. (s : List ℕ) → is_among s r.declared ≡ declares s (elements_members 0 (trees elements.now))) }
    ensures written { IfOk result (λ r. (s : List ℕ) → is_among s r.written ≡ declares_written s (elements_members 0 (trees elements.now))) }
{
    let mut declared = Names::new(alloc);
    let mut written = Names::new(alloc);
    for element in elements {
        add_element(element, &mut declared, &mut written)?;
    }
    Ok(Collected { declared, written })
}

/// Adds the name of the element, if it is a private member.
fn add_element<'a>(
    element: &'a Node,
    declared: &mut Names<'a>,
    written: &mut Names<'a>,
) -> Result<(), AllocError>
    ensures declared { OnOk result ((s : List ℕ) → is_among s declared.new ≡ (is_among s declared.old || declares s (element_members 0 (child element.now)))) }
    ensures written { OnOk result ((s : List ℕ) → is_among s written.new ≡ (is_among s written.old || declares_written s (element_members 0 (child element.now)))) }
{
    match member_of(element) {
        None => Ok(()),
        Some(member) => {
            declared.insert(member.name)?;
            add_if_written(member, written)
        }
    }
}

/// Adds the name of a field or a setter.
fn add_if_written<'a>(member: Member<'a>, written: &mut Names<'a>) -> Result<(), AllocError>
    ensures { OnOk result ((s : List ℕ) → is_among s written.new ≡ (is_among s written.old || (member.entry.is_written && bytes_eq s (chars member.entry.name.now)))) }
{
    if member.is_written {
        written.insert(member.name)?;
    }
    Ok(())
}

/// A private member by its name.
#[derive(Clone, Copy)]
pub struct Member<'a> {
    pub name: &'a str,
    /// Whether it is a field or a setter.
    pub is_written: bool,
}

/// The private member that the element is, if it is one.
#[tactic(auto, using(crate::proofs::PrivateTargets::no_member))]
fn member_of(element: &Node) -> Option<Member<'_>>
    ensures { MatchOption result (spelled (element_members 0 (child element.now)) ≡ []) (λ x. spelled (element_members 0 (child element.now)) ≡ (chars x.name.now, x.is_written) ∷ []) }
{
    match element.kind() {
        // #x = 1;
        Kind::PropertyDefinition => {
            keyed_member(PropertyDefinitionRef::from_node(element).key, true)
        }
        // set #x(v) {}
        Kind::MethodDefinition => {
            let method = MethodDefinitionRef::from_node(element);
            keyed_member(method.key, is_setter(method.kind))
        }
        _ => None,
    }
}

/// The member with this key, if that is a private name.
#[tactic(auto, using(crate::proofs::PrivateTargets::no_key))]
fn keyed_member(key: &Node, is_written: bool) -> Option<Member<'_>>
    ensures { (is_static : Bool) (kind : privates.PrivateKind) → is_written ≡ privates.is_written kind → MatchOption result (spelled (keyed_member 0 is_static kind (child key.now)) ≡ []) (λ x. spelled (keyed_member 0 is_static kind (child key.now)) ≡ (chars x.name.now, x.is_written) ∷ []) }
{
    match key.kind() {
        Kind::PrivateIdentifier => Some(Member {
            name: PrivateIdentifierRef::from_node(key).name.as_str(),
            is_written,
        }),
        _ => None,
    }
}

fn is_setter(kind: MethodDefinitionKind) -> bool
    ensures { result ≡ privates.is_written (privates.method_kind (method_definition_kind_string kind)) }
{
    match kind {
        MethodDefinitionKind::Set => true,
        MethodDefinitionKind::Constructor
        | MethodDefinitionKind::Method
        | MethodDefinitionKind::Get => false,
    }
}
