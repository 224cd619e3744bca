// The nodes around the node at hand.

ghost use Rattle.std.specs.Prelude.{◌≡◌, map, IfOk};
ghost use Rattle.es_base.specs.Table.{field_of};
ghost use Rattle.es_base.specs.Words.{assignment_operator_string};
ghost use Rattle.es_ctx.specs.Ancestors.{parent_of, innermost_kind, ancestor_of, ancestor_role, class_head, class_head_of, is_node, begins_with_node, semantic_id_of, borrowed_name, identifier_name, first_name, name_of, assigns_plainly, is_plain_or_logical, is_statement_list, has_statements_in, has_statements};
ghost use Rattle.es_ctx.specs.ScopesAround.{is_discriminant, scope_there, is_in_list, is_hoisted_to, hoist_scope_there};
ghost use Rattle.es_node.specs.View.{kind_of, part_of, parts_of, parts_in};

use crate::ancestor_kind::{AncestorKind, kind_inside};
use es_base::kind::Kind;
use es_base::name::Name;
use es_base::operator::AssignmentOperator;
use es_base::table::{Member, Place, Sort, members};
use es_expression::expression::AssignmentExpressionRef;
use es_expression::identifier::{BindingIdentifierRef, IdentifierReferenceRef};
use es_node::node::{Node, Part};
use es_visit::roles::{Role, is_computed, is_static, role_at};
use std::alloc::{AllocError, Global};

/// What a class says of itself before its body.
#[derive(Debug, Clone, Copy, PartialEq, Eq)]
pub struct ClassHead {
    pub is_declaration: bool,
    pub has_name: bool,
    /// The symbol of its name.
    pub symbol: Option<u32>,
    pub has_heritage: bool,
}

/// A node that is walked, as its parts are: what is told of it to the hooks below.
#[derive(Drop)]
pub struct Parent {
    pub kind: Kind,
    pub node: u32,
    /// The number of the scope that it opens.
    pub scope: Option<u32>,
    /// Whether it has a computed key.
    pub is_computed: bool,
    /// Whether it is a static element of a class.
    pub is_static: bool,
    /// Of a class.
    pub class: Option<ClassHead>,
    /// The name of the class, or of the variable that it declares, assigns to, or gives a default value. It is told at every
    /// member; an anonymous function or class gets it that stands as the value. A tree does not show parentheses around the
    /// variable, with which none gets it.
    pub name: Option<Name>,
    /// Whether it assigns as `=`, `||=`, `&&=` and `??=` do, which name an anonymous function or class by the variable
    /// that is assigned to (ECMA-262, 13.15.2).
    pub is_plain_or_logical: bool,
}

impl Parent {
    /// What is told of this node. Fails on allocation failure alone, as the calls below do.
    pub fn of(alloc: Global, node: &Node) -> Result<Parent, AllocError>
        ensures { IfOk result (λ parent. parent ≡ parent_of node.now) }
    {
        let kind = node.kind();
        let parts = node.parts();
        Ok(Parent {
            kind,
            node: node.node_id().0,
            scope: node.semantic_id(),
            is_computed: is_computed(kind, parts),
            is_static: is_static(kind, parts),
            class: class_head(kind, parts),
            name: clone_name(alloc, name_of(kind, parts))?,
            is_plain_or_logical: is_plain_or_logical(node),
        })
    }

    /// An equal one.
    pub fn try_clone(&self, alloc: Global) -> Result<Parent, AllocError>
        ensures { IfOk result (λ parent. parent ≡ self.now) }
    {
        Ok(Parent {
            kind: self.kind,
            node: self.node,
            scope: self.scope,
            is_computed: self.is_computed,
            is_static: self.is_static,
            class: self.class,
            name: clone_name(alloc, self.name.as_ref())?,
            is_plain_or_logical: self.is_plain_or_logical,
        })
    }
}

/// An equal name, if there is one.
fn clone_name(alloc: Global, name: Option<&Name>) -> Result<Option<Name>, AllocError>
    ensures { IfOk result (λ copy. copy ≡ borrowed_name name.entry) }
{
    match name {
        Some(name) => Ok(Some(name.try_clone(alloc)?)),
        None => Ok(None),
    }
}

/// A node around the node at hand, and at which of its members that stands.
#[derive(Drop)]
pub struct Ancestor {
    /// The place of that member.
    pub kind: AncestorKind,
    pub parent: Parent,
    pub at: usize,
}

impl Ancestor {
    /// Of a member of the node of which this is told, behind the places around that node, the outermost first. Fails on
    /// allocation failure alone.
    pub fn of(
        alloc: Global,
        around: &[Ancestor],
        parent: &Parent,
        at: usize,
    ) -> Result<Ancestor, AllocError>
        ensures { IfOk result (λ place. place ≡ ancestor_of around.now parent.now at) }
    {
        Ok(Ancestor {
            kind: kind_inside(innermost_kind(around), parent.kind, at),
            parent: parent.try_clone(alloc)?,
            at,
        })
    }

    /// Whether what stands there is an element of a list of statements.
    pub fn is_in_list(&self) -> bool
        ensures { result ≡ is_in_list self.now }
    {
        has_statements(self.parent.kind, self.at)
    }

    /// The scope of the node around, if it has one that what stands there is in.
    pub fn scope(&self) -> Option<u32>
        ensures { result ≡ scope_there self.now }
    {
        if is_discriminant(self.parent.kind, self.at) {
            None
        } else {
            self.parent.scope
        }
    }

    /// The scope of the node around, if what stands there is a part from which `var` is hoisted to it.
    pub fn hoist_scope(&self) -> Option<u32>
        ensures { result ≡ hoist_scope_there self.now }
    {
        if is_hoisted_to(self.kind) {
            self.parent.scope
        } else {
            None
        }
    }

    /// How what stands there stands there.
    pub fn role(&self) -> Role
        ensures { result ≡ ancestor_role self.now }
    {
        role_at(self.parent.kind, self.parent.is_computed, self.at)
    }
}

// switch (a) { case b: }
fn is_discriminant(kind: Kind, at: usize) -> bool
    ensures { result ≡ is_discriminant kind at }
{
    match kind {
        Kind::SwitchStatement => at == 0,
        _ => false,
    }
}

/// Whether `var` is hoisted from there to the scope of the node around: a program, a function or a static block.
fn is_hoisted_to(kind: AncestorKind) -> bool
    ensures { result ≡ is_hoisted_to kind }
{
    matches!(
        kind,
        AncestorKind::ProgramBody
            | AncestorKind::FunctionParams
            | AncestorKind::FunctionBody
            | AncestorKind::ArrowParams
            | AncestorKind::ArrowBody
            | AncestorKind::StaticBlockBody
    )
}

/// The innermost of these places, which stand outermost first.
#[tactic(auto, using(crate::proofs::Last::no_kind))]
fn innermost_kind(around: &[Ancestor]) -> AncestorKind
    ensures { result ≡ innermost_kind around.now }
{
    match around.last() {
        Some(ancestor) => ancestor.kind,
        None => AncestorKind::Other,
    }
}

/// What a class says of itself before its body; of another node nothing.
fn class_head(kind: Kind, parts: &[Part]) -> Option<ClassHead>
    ensures { result ≡ class_head kind (parts_of parts.now) }
{
    match kind {
        Kind::ClassDeclaration => Some(class_head_of(true, parts)),
        Kind::ClassExpression => Some(class_head_of(false, parts)),
        _ => None,
    }
}

// class id extends superClass { .. }
fn class_head_of(is_declaration: bool, parts: &[Part]) -> ClassHead
    ensures { result ≡ class_head_of is_declaration (parts_of parts.now) }
{
    match parts {
        [id, rest @ ..] => ClassHead {
            is_declaration,
            has_name: is_node(id),
            symbol: semantic_id_of(id),
            has_heritage: begins_with_node(rest),
        },
        [] => ClassHead {
            is_declaration,
            has_name: false,
            symbol: None,
            has_heritage: false,
        },
    }
}

fn begins_with_node(parts: &[Part]) -> bool
    ensures { result ≡ begins_with_node (parts_of parts.now) }
{
    match parts {
        [part, ..] => is_node(part),
        [] => false,
    }
}

/// Whether a node stands there.
fn is_node(part: &Part) -> bool
    ensures { result ≡ is_node (part_of part.now) }
{
    matches!(part, Part::Child(_))
}

/// The semantic id of the node that stands there.
fn semantic_id_of(part: &Part) -> Option<u32>
    ensures { result ≡ semantic_id_of (part_of part.now) }
{
    match part {
        Part::Child(node) => node.semantic_id(),
        _ => None,
    }
}

/// The name of a class, or of the variable that a node declares, assigns to, or gives a default value.
fn name_of(kind: Kind, parts: &[Part]) -> Option<&Name>
    ensures { borrowed_name result ≡ name_of kind (parts_of parts.now) }
{
    match kind {
        // class a {}, (class a {}), var a = b;, ({ a = b }) => c, ({ a = b } = c)
        Kind::ClassDeclaration
        | Kind::ClassExpression
        | Kind::VariableDeclarator
        | Kind::AssignmentPattern
        | Kind::AssignmentTargetWithDefault => first_name(parts),
        // a = b
        Kind::AssignmentExpression => match parts {
            [_, rest @ ..] => first_name(rest),
            [] => None,
        },
        _ => None,
    }
}

/// The name of the identifier that stands first.
fn first_name(parts: &[Part]) -> Option<&Name>
    ensures { borrowed_name result ≡ first_name (parts_of parts.now) }
{
    match parts {
        [Part::Child(node), ..] => identifier_name(node),
        _ => None,
    }
}

/// The name of an identifier.
fn identifier_name(node: &Node) -> Option<&Name>
    ensures { borrowed_name result ≡ identifier_name node.now }
{
    match node.kind() {
        Kind::BindingIdentifier => Some(BindingIdentifierRef::from_node(node).name),
        Kind::IdentifierReference => Some(IdentifierReferenceRef::from_node(node).name),
        _ => None,
    }
}

// a = b, a ||= b, a &&= b, a ??= b
fn is_plain_or_logical(node: &Node) -> bool
    ensures { result ≡ is_plain_or_logical (kind_of node.now) (parts_in node.now) }
{
    match node.kind() {
        Kind::AssignmentExpression => {
            assigns_plainly(AssignmentExpressionRef::from_node(node).operator)
        }
        _ => false,
    }
}

fn assigns_plainly(operator: AssignmentOperator) -> bool
    ensures { result ≡ assigns_plainly (assignment_operator_string operator) }
{
    matches!(
        operator,
        AssignmentOperator::Assign
            | AssignmentOperator::LogicalOr
            | AssignmentOperator::LogicalAnd
            | AssignmentOperator::LogicalNullish
    )
}

/// Whether the member of a node of this kind at this place is a list of statements: the body of a program, a
/// block, a function or a static block, or what a case of a `switch` has.
pub fn has_statements(kind: Kind, at: usize) -> bool
    ensures { result ≡ has_statements kind at }
{
    has_statements_in(members(kind), at)
}

#[tactic(auto, using(crate::proofs::Rows::statements_found, crate::proofs::Rows::statements_past))]
fn has_statements_in(members: &[Member], at: usize) -> bool
    ensures { result ≡ has_statements_in (map field_of members.now) at }
{
    at < members.len() && is_statement_list(members[at].sort)
}

fn is_statement_list(sort: Sort) -> bool
    ensures { result ≡ is_statement_list sort }
{
    match sort {
        Sort::List(Place::Statement) => true,
        _ => false,
    }
}
