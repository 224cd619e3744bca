// Private names that a class body declares again, and those that no class body around declares.

ghost use Rattle.std.specs.Prelude.{◌≡◌, ◌++◌, List, ◌∷◌, [], map, MatchOption, IfOk, OnOk, true, false};
ghost use Rattle.std.specs.Str.{chars};
ghost use Rattle.es_base.specs.Conforms.{is_among};
ghost use Rattle.es_base.specs.Tree.{child, trees, nullable, nullable_trees};
ghost use Rattle.es_base.specs.declared.kind.Kind.{Kind};
ghost use Rattle.es_name_set.specs.Names.{HaveSame};
ghost use Rattle.es_node.specs.View.{kind_of, parts_in, number_in, part_of};
ghost use Rattle.es_steps.specs.PrivateNames as members;
ghost use Rattle.es_validity.specs.Faults.{first_with, fault_at};
ghost use Rattle.es_validity.specs.Found.{found};
ghost use Rattle.es_validity.specs.Privates as privates;
ghost use Rattle.es_validity.specs.Reached.{reach_of, kind_in, member_of, Holds, AddsMembers};
ghost use Rattle.es_base.specs.Words.{method_definition_kind_string};
ghost use Rattle.es_validity.specs.declared.fault.Cause.{Cause};

use crate::fault::{Cause, Fault};
use crate::first::earlier;
use es_base::ids::NodeId;
use es_base::kind::Kind;
use es_base::operator::MethodDefinitionKind;
use es_name_set::Names;
use es_node::node::{Node, Part};
use es_tree::class::{
    ClassBodyRef, ClassDeclarationRef, ClassExpressionRef, MethodDefinitionRef,
    PropertyDefinitionRef,
};
use es_tree::identifier::PrivateIdentifierRef;
use std::alloc::{AllocError, Global};

/// What a private member is.
#[derive(Debug, Clone, Copy, PartialEq, Eq)]
pub enum PrivateKind {
    Field,
    Method,
    Getter,
    Setter,
}

/// A private member of a class, by its key.
#[derive(Clone, Copy)]
pub struct PrivateMember<'a> {
    pub node: NodeId,
    pub name: &'a str,
    pub is_static: bool,
    pub kind: PrivateKind,
}

/// The names of the private members of a class that were met so far.
#[derive(Drop)]
pub struct Declared<'a> {
    /// All of them.
    pub all: Names<'a>,
    /// Those that a getter may not have, since what they name is no setter that is not static; and so on.
    pub no_getter: Names<'a>,
    pub no_static_getter: Names<'a>,
    pub no_setter: Names<'a>,
    pub no_static_setter: Names<'a>,
}

/// The private names that are declared around a node.
#[derive(Clone, Copy)]
pub enum Reach<'r, 'a> {
    /// None.
    None,
    /// Those of a class body, and those around it.
    Class {
        names: &'r Names<'a>,
        outer: &'r Reach<'r, 'a>,
    },
}

/// The names of the private members of a class, and a fault.
#[derive(Drop)]
struct ClassPrivates<'a> {
    names: Names<'a>,
    first: Option<Fault>,
}

/// Whether a member of the one kind and one of the other are a getter and a setter.
fn is_pair(kind: PrivateKind, other: PrivateKind) -> bool
    ensures { result ≡ privates.is_pair (kind_in kind) (kind_in other) }
{
    match (kind, other) {
        (PrivateKind::Getter, PrivateKind::Setter) | (PrivateKind::Setter, PrivateKind::Getter) => {
            true
        }
        _ => false,
    }
}

/// Whether a member of this kind, static or not, completes this one to a getter and a setter.
fn completes(kind: PrivateKind, is_static: bool, member: &PrivateMember) -> bool
    ensures { result ≡ privates.completes (kind_in kind) is_static (member_of member.now) }
{
    is_pair(kind, member.kind) && is_static == member.is_static
}

/// Adds the name of a member to those that a member of this kind, static or not, may not have.
fn add_taken<'a>(
    names: &mut Names<'a>,
    kind: PrivateKind,
    is_static: bool,
    member: &PrivateMember<'a>,
) -> Result<(), AllocError>
    ensures { OnOk result (HaveSame names.new (privates.taken_for (kind_in kind) is_static (member_of member.now ∷ []) ++ names.old)) }
{
    if completes(kind, is_static, member) {
        Ok(())
    } else {
        names.insert(member.name)
    }
}

impl<'a> Declared<'a> {
    /// No names. Takes no memory.
    fn new(alloc: Global) -> Declared<'a>
        ensures { Holds result [] }
    {
        Declared {
            all: Names::new(alloc),
            no_getter: Names::new(alloc),
            no_static_getter: Names::new(alloc),
            no_setter: Names::new(alloc),
            no_static_setter: Names::new(alloc),
        }
    }

    /// Adds the name of a member. Fails on allocation failure alone.
    fn add(&mut self, member: &PrivateMember<'a>) -> Result<(), AllocError>
        ensures { OnOk result ((earlier : List members.PrivateMember) → Holds self.old earlier → Holds self.new (member_of member.now ∷ earlier)) }
    {
        self.all.insert(member.name)?;
        add_taken(&mut self.no_getter, PrivateKind::Getter, false, member)?;
        add_taken(
            &mut self.no_static_getter,
            PrivateKind::Getter,
            true,
            member,
        )?;
        add_taken(&mut self.no_setter, PrivateKind::Setter, false, member)?;
        add_taken(
            &mut self.no_static_setter,
            PrivateKind::Setter,
            true,
            member,
        )?;
        Ok(())
    }

    /// Whether a member has the name of one before it that it does not complete.
    fn has_duplicate_of(&self, member: &PrivateMember<'a>) -> bool
        ensures { (earlier : List members.PrivateMember) → Holds self.now earlier → result ≡ privates.is_duplicate earlier (member_of member.now) }
    {
        match member.kind {
            PrivateKind::Getter => {
                if member.is_static {
                    self.no_static_getter.has(member.name)
                } else {
                    self.no_getter.has(member.name)
                }
            }
            PrivateKind::Setter => {
                if member.is_static {
                    self.no_static_setter.has(member.name)
                } else {
                    self.no_setter.has(member.name)
                }
            }
            PrivateKind::Field => self.all.has(member.name),
            PrivateKind::Method => self.all.has(member.name),
        }
    }
}

/// The kind of a private method.
pub fn method_kind(kind: MethodDefinitionKind) -> PrivateKind
    ensures { kind_in result ≡ members.method_kind (method_definition_kind_string kind) }
{
    match kind {
        MethodDefinitionKind::Get => PrivateKind::Getter,
        MethodDefinitionKind::Set => PrivateKind::Setter,
        MethodDefinitionKind::Constructor | MethodDefinitionKind::Method => PrivateKind::Method,
    }
}

/// The private member that an element with this key is, if its key is a private name.
fn keyed_member(key: &Node, is_static: bool, kind: PrivateKind) -> Option<PrivateMember<'_>>
    ensures { MatchOption result (members.keyed_member 0 is_static (kind_in kind) (child key.now) ≡ [])
        (λ x. members.keyed_member 0 is_static (kind_in kind) (child key.now) ≡ member_of x ∷ []) }
{
    match key.kind() {
        Kind::PrivateIdentifier => Some(PrivateMember {
            node: key.node_id(),
            name: PrivateIdentifierRef::from_node(key).name.as_str(),
            is_static,
            kind,
        }),
        _ => None,
    }
}

/// The private member that an element of a class is, if it is one.
fn private_member(element: &Node) -> Option<PrivateMember<'_>>
    ensures { MatchOption result (members.element_members 0 (child element.now) ≡ [])
        (λ x. members.element_members 0 (child element.now) ≡ member_of x ∷ []) }
{
    match element.kind() {
        Kind::PropertyDefinition => {
            let field = PropertyDefinitionRef::from_node(element);
            keyed_member(field.key, field.is_static, PrivateKind::Field)
        }
        Kind::MethodDefinition => {
            let method = MethodDefinitionRef::from_node(element);
            keyed_member(method.key, method.is_static, method_kind(method.kind))
        }
        _ => None,
    }
}

/// Adds the private member that an element is, if it is one, and gives the first fault, where that counts if it is declared
/// again. Fails on allocation failure alone.
fn add_element<'a>(
    declared: &mut Declared<'a>,
    element: &'a Node,
    first: Option<Fault>,
) -> Result<Option<Fault>, AllocError>
    ensures { IfOk result (λ r. (earlier : List members.PrivateMember) → Holds declared.old earlier → AddsMembers declared.new earlier (found first) (found r) (members.element_members 0 (child element.now))) }
{
    match private_member(element) {
        None => Ok(first),
        Some(member) => add_member(declared, &member, first),
    }
}

/// The same of a member.
fn add_member<'a>(
    declared: &mut Declared<'a>,
    member: &PrivateMember<'a>,
    first: Option<Fault>,
) -> Result<Option<Fault>, AllocError>
    ensures { IfOk result (λ r. (earlier : List members.PrivateMember) → Holds declared.old earlier → AddsMembers declared.new earlier (found first) (found r) (member_of member.now ∷ [])) }
{
    let is_duplicate = declared.has_duplicate_of(member);
    declared.add(member)?;
    if is_duplicate {
        Ok(earlier(first, member.node, Cause::DuplicatePrivate))
    } else {
        Ok(first)
    }
}

/// The names of the private members among these elements, and the first fault, where those that are declared again count.
/// Fails on allocation failure alone.
fn elements_privates<'a>(
    alloc: Global,
    elements: &'a [Node],
    first: Option<Fault>,
) -> Result<ClassPrivates<'a>, AllocError>
    ensures { IfOk result (λ r. HaveSame r.names (privates.spellings (members.elements_members 0 (trees elements.now)))
        × (found r.first ≡ first_with (found first) (map (fault_at Cause.DuplicatePrivate) (privates.duplicates [] (members.elements_members 0 (trees elements.now)))))) }
{
    let mut declared = Declared::new(alloc);
    let mut first = first;
    for element in elements {
        first = add_element(&mut declared, element, first)?;
    }
    Ok(ClassPrivates {
        names: declared.all,
        first,
    })
}

/// The same of the body of a class.
fn body_privates<'a>(
    alloc: Global,
    body: &'a Node,
    first: Option<Fault>,
) -> Result<ClassPrivates<'a>, AllocError>
    ensures { IfOk result (λ r. HaveSame r.names (privates.spellings (members.body_members 0 (child body.now)))
        × (found r.first ≡ first_with (found first) (map (fault_at Cause.DuplicatePrivate) (privates.duplicates [] (members.body_members 0 (child body.now)))))) }
{
    match body.kind() {
        Kind::ClassBody => elements_privates(alloc, ClassBodyRef::from_node(body).body, first),
        _ => Ok(ClassPrivates {
            names: Names::new(alloc),
            first,
        }),
    }
}

/// The same of a node, which has private members if it is a class.
fn class_privates<'a>(
    alloc: Global,
    node: &'a Node,
    first: Option<Fault>,
) -> Result<ClassPrivates<'a>, AllocError>
    ensures { IfOk result (λ r. HaveSame r.names (privates.spellings (privates.members_in (kind_of node.now) (parts_in node.now)))
        × (found r.first ≡ first_with (found first) (map (fault_at Cause.DuplicatePrivate) (privates.duplicates [] (privates.members_in (kind_of node.now) (parts_in node.now)))))) }
{
    match node.kind() {
        Kind::ClassDeclaration => {
            body_privates(alloc, ClassDeclarationRef::from_node(node).body, first)
        }
        Kind::ClassExpression => {
            body_privates(alloc, ClassExpressionRef::from_node(node).body, first)
        }
        _ => Ok(ClassPrivates {
            names: Names::new(alloc),
            first,
        }),
    }
}

/// Whether the name is declared around.
#[tactic(auto, using(crate::proofs::Reaching::reached_here, crate::proofs::Reaching::reached_outside))]
fn is_reached(reach: &Reach, name: &str) -> bool
    ensures { result ≡ is_among (chars name.now) (reach_of reach.now) }
{
    match reach {
        Reach::None => false,
        Reach::Class { names, outer } => names.has(name) || is_reached(outer, name),
    }
}

/// The first fault, where that of the node counts if it is a private name that is not declared around. A name that declares is
/// no use.
fn undeclared(reach: &Reach, declares: bool, node: &Node, first: Option<Fault>) -> Option<Fault>
    ensures { found result ≡ first_with (found first) (privates.undeclared (reach_of reach.now) declares (kind_of node.now) (number_in node.now) (parts_in node.now)) }
{
    match node.kind() {
        Kind::PrivateIdentifier => {
            let name = PrivateIdentifierRef::from_node(node).name.as_str();
            if declares || is_reached(reach, name) {
                first
            } else {
                earlier(first, node.node_id(), Cause::UndeclaredPrivate)
            }
        }
        _ => first,
    }
}

/// Whether the part at this place declares a private name: the key of an element.
fn declares_at(kind: Kind, index: usize) -> bool
    ensures { result ≡ privates.declares_at kind index }
{
    matches!(kind, Kind::MethodDefinition | Kind::PropertyDefinition) && index == 0
}

/// The names that the part of a class at this place sees: `inner` in its body, `reach` in its heritage.
fn seen_at<'r, 'a>(
    inner: &'r Reach<'r, 'a>,
    reach: &'r Reach<'r, 'a>,
    index: usize,
) -> &'r Reach<'r, 'a>
    ensures { reach_of result.now ≡ privates.seen_by (reach_of inner.now) (reach_of reach.now) index }
{
    if index == 2 { inner } else { reach }
}

/// The first of the faults of a program's private names, and of the one that was first before. Fails on allocation failure
/// alone.
pub fn private_faults(
    alloc: Global,
    program: &Node,
    first: Option<Fault>,
) -> Result<Option<Fault>, AllocError>
    ensures { IfOk result (λ r. found r ≡ first_with (found first) (privates.private_faults [] false program.now)) }
{
    node_privates(alloc, &Reach::None, false, program, first)
}

/// The same of a node where these names are declared around, which declares if it is a private name or not.
#[cycle(privates)]
fn node_privates<'a>(
    alloc: Global,
    reach: &Reach<'_, 'a>,
    declares: bool,
    node: &'a Node,
    first: Option<Fault>,
) -> Result<Option<Fault>, AllocError>
    ensures { IfOk result (λ r. found r ≡ first_with (found first) (privates.private_faults (reach_of reach.now) declares node.now)) }
{
    let first = undeclared(reach, declares, node, first);
    let class = class_privates(alloc, node, first)?;
    let inner = Reach::Class {
        names: &class.names,
        outer: &*reach,
    };
    parts_privates(alloc, &inner, &*reach, node, class.first)
}

/// The same of the parts of a node, in whose body, if it is a class, `inner` are declared.
#[cycle(privates)]
fn parts_privates<'a>(
    alloc: Global,
    inner: &Reach<'_, 'a>,
    reach: &Reach<'_, 'a>,
    node: &'a Node,
    first: Option<Fault>,
) -> Result<Option<Fault>, AllocError>
    ensures { IfOk result (λ r. found r ≡ first_with (found first) (privates.private_faults_from (privates.seen_by (reach_of inner.now) (reach_of reach.now)) (privates.declares_at (kind_of node.now)) 0 (parts_in node.now))) }
{
    let mut first = first;
    let parts = node.parts();
    let kind = node.kind();
    for (i, part) in parts.iter().enumerate() {
        let seen = seen_at(&*inner, &*reach, i);
        first = part_privates(alloc, &*seen, declares_at(kind, i), part, first)?;
    }
    Ok(first)
}

#[cycle(privates)]
fn part_privates<'a>(
    alloc: Global,
    reach: &Reach<'_, 'a>,
    declares: bool,
    part: &'a Part,
    first: Option<Fault>,
) -> Result<Option<Fault>, AllocError>
    ensures { IfOk result (λ r. found r ≡ first_with (found first) (privates.private_part_faults (reach_of reach.now) declares (part_of part.now))) }
{
    match part {
        Part::Child(node) => node_privates(alloc, reach, declares, node, first),
        Part::List(nodes) => list_privates(alloc, reach, nodes.as_slice(), first),
        Part::Holes(nodes) => list_with_holes_privates(alloc, reach, nodes.as_slice(), first),
        _ => Ok(first),
    }
}

#[cycle(privates)]
fn list_privates<'a>(
    alloc: Global,
    reach: &Reach<'_, 'a>,
    nodes: &'a [Node],
    first: Option<Fault>,
) -> Result<Option<Fault>, AllocError>
    ensures { IfOk result (λ r. found r ≡ first_with (found first) (privates.private_item_faults (reach_of reach.now) (trees nodes.now))) }
{
    let mut first = first;
    for node in nodes {
        first = node_privates(alloc, reach, false, node, first)?;
    }
    Ok(first)
}

#[cycle(privates)]
fn list_with_holes_privates<'a>(
    alloc: Global,
    reach: &Reach<'_, 'a>,
    nodes: &'a [Option<Node>],
    first: Option<Fault>,
) -> Result<Option<Fault>, AllocError>
    ensures { IfOk result (λ r. found r ≡ first_with (found first) (privates.private_item_faults (reach_of reach.now) (nullable_trees nodes.now))) }
{
    let mut first = first;
    for node in nodes {
        first = hole_privates(alloc, reach, node, first)?;
    }
    Ok(first)
}

#[cycle(privates)]
fn hole_privates<'a>(
    alloc: Global,
    reach: &Reach<'_, 'a>,
    node: &'a Option<Node>,
    first: Option<Fault>,
) -> Result<Option<Fault>, AllocError>
    ensures { IfOk result (λ r. found r ≡ first_with (found first) (privates.private_part_faults (reach_of reach.now) false (nullable node.now))) }
{
    match node {
        Some(node) => node_privates(alloc, reach, false, node, first),
        None => Ok(first),
    }
}
