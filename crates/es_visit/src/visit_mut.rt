// A walk that changes a tree, with hooks by the place and the kind of a node.

ghost use Rattle.std.specs.Prelude.{◌≡◌, ℕ, Bool, List, IfOk, OnOk, option_map};
ghost use Rattle.es_base.specs.Carried.{scope_number};
ghost use Rattle.es_base.specs.Table.{Field};
ghost use Rattle.es_base.specs.Tree.{Tree, trees, nullable, nullable_trees};
ghost use Rattle.es_base.specs.declared.table.Sort as sorts;
ghost use Rattle.es_node.specs.View.{part_of, parts_of, has_shape, have_shapes, kind_of};
ghost use Rattle.es_visit.specs.declared.visit_mut.Hook as hook;
ghost use Rattle.es_visit.specs.Visited.{hook_of_role, hook_of_kind, scope_of, EntersScope, LeavesScope, Visited, VisitedBy, VisitedKind, VisitedInside, VisitedBelow, VisitedPart, VisitedItems};

use crate::roles::{Role, is_computed, role_at};
use es_base::ids::ScopeId;
use es_base::kind::Kind;
use es_base::list::List;
use es_base::table::{Place, fits};
use es_node::node::{Node, Part};
use std::alloc::AllocError;

/// A hook of `VisitMut`: one that enters nodes, and one that leaves them.
#[derive(Debug, Clone, Copy, PartialEq, Eq)]
pub enum Hook {
    Statement,
    Expression,
    Class,
    Function,
    Arrow,
    Call,
    PropertyDefinition,
    StaticBlock,
    IdentifierReference,
    BindingIdentifier,
}

/// Hooks that a walk calls as it enters a node, whose answer says whether the walk goes into it, and as
/// it leaves the node, which they may change.
///
/// An impl says by the ghost members what its hooks do. A hook has no default body, since only the impl
/// knows what it does.
pub trait VisitMut {
    /// What an entering hook does: the state before, the node, the answer, the state after.
    ghost enters: { hook.Hook → Self → Tree → Bool → Self → Type 0 };

    /// What a leaving hook does: the state and the node before, and those after.
    ghost leaves: { hook.Hook → Self → Tree → Self → Tree → Type 0 };

    /// What is done as the walk goes into a node with a scope.
    ghost scope_enters: { ℕ → Self → Self → Type 0 };

    /// What is done as the walk comes out of it.
    ghost scope_leaves: { Self → Self → Type 0 };

    /// What holds whenever a hook is called.
    ghost ready: { Self → Type 0 };

    /// Called as a node that stands as a statement is entered; answers whether the walk goes into it. If not, the node is not left either.
    fn enter_statement(&mut self, node: &Node) -> Result<bool, AllocError>
        requires { ready self.old }
        ensures { IfOk result (λ goes. enters hook.Hook.Statement self.old node.now goes self.new) };

    /// Called as a node that stands as a statement is left.
    fn visit_statement(&mut self, node: &mut Node) -> Result<(), AllocError>
        requires { ready self.old }
        ensures { OnOk result (leaves hook.Hook.Statement self.old node.old self.new node.new) };

    /// Called as a node that stands as an expression is entered; answers whether the walk goes into it. If not, the node is not left either.
    fn enter_expression(&mut self, node: &Node) -> Result<bool, AllocError>
        requires { ready self.old }
        ensures { IfOk result (λ goes. enters hook.Hook.Expression self.old node.now goes self.new) };

    /// Called as a node that stands as an expression is left.
    fn visit_expression(&mut self, node: &mut Node) -> Result<(), AllocError>
        requires { ready self.old }
        ensures { OnOk result (leaves hook.Hook.Expression self.old node.old self.new node.new) };

    /// Called as a class is entered; answers whether the walk goes into it. If not, the node is not left either.
    fn enter_class(&mut self, node: &Node) -> Result<bool, AllocError>
        requires { ready self.old }
        ensures { IfOk result (λ goes. enters hook.Hook.Class self.old node.now goes self.new) };

    /// Called as a class is left.
    fn visit_class(&mut self, node: &mut Node) -> Result<(), AllocError>
        requires { ready self.old }
        ensures { OnOk result (leaves hook.Hook.Class self.old node.old self.new node.new) };

    /// Called as a function that is no arrow is entered; answers whether the walk goes into it. If not, the node is not left either.
    fn enter_function(&mut self, node: &Node) -> Result<bool, AllocError>
        requires { ready self.old }
        ensures { IfOk result (λ goes. enters hook.Hook.Function self.old node.now goes self.new) };

    /// Called as a function that is no arrow is left.
    fn visit_function(&mut self, node: &mut Node) -> Result<(), AllocError>
        requires { ready self.old }
        ensures { OnOk result (leaves hook.Hook.Function self.old node.old self.new node.new) };

    /// Called as an arrow function is entered; answers whether the walk goes into it. If not, the node is not left either.
    fn enter_arrow(&mut self, node: &Node) -> Result<bool, AllocError>
        requires { ready self.old }
        ensures { IfOk result (λ goes. enters hook.Hook.Arrow self.old node.now goes self.new) };

    /// Called as an arrow function is left.
    fn visit_arrow(&mut self, node: &mut Node) -> Result<(), AllocError>
        requires { ready self.old }
        ensures { OnOk result (leaves hook.Hook.Arrow self.old node.old self.new node.new) };

    /// Called as a call is entered; answers whether the walk goes into it. If not, the node is not left either.
    fn enter_call(&mut self, node: &Node) -> Result<bool, AllocError>
        requires { ready self.old }
        ensures { IfOk result (λ goes. enters hook.Hook.Call self.old node.now goes self.new) };

    /// Called as a call is left.
    fn visit_call(&mut self, node: &mut Node) -> Result<(), AllocError>
        requires { ready self.old }
        ensures { OnOk result (leaves hook.Hook.Call self.old node.old self.new node.new) };

    /// Called as a field of a class is entered; answers whether the walk goes into it. If not, the node is not left either.
    fn enter_property_definition(&mut self, node: &Node) -> Result<bool, AllocError>
        requires { ready self.old }
        ensures { IfOk result (λ goes. enters hook.Hook.PropertyDefinition self.old node.now goes self.new) };

    /// Called as a field of a class is left.
    fn visit_property_definition(&mut self, node: &mut Node) -> Result<(), AllocError>
        requires { ready self.old }
        ensures { OnOk result (leaves hook.Hook.PropertyDefinition self.old node.old self.new node.new) };

    /// Called as a static block is entered; answers whether the walk goes into it. If not, the node is not left either.
    fn enter_static_block(&mut self, node: &Node) -> Result<bool, AllocError>
        requires { ready self.old }
        ensures { IfOk result (λ goes. enters hook.Hook.StaticBlock self.old node.now goes self.new) };

    /// Called as a static block is left.
    fn visit_static_block(&mut self, node: &mut Node) -> Result<(), AllocError>
        requires { ready self.old }
        ensures { OnOk result (leaves hook.Hook.StaticBlock self.old node.old self.new node.new) };

    /// Called as an identifier that is read or written is entered; answers whether the walk goes into it. If not, the node is not left either.
    fn enter_identifier_reference(&mut self, node: &Node) -> Result<bool, AllocError>
        requires { ready self.old }
        ensures { IfOk result (λ goes. enters hook.Hook.IdentifierReference self.old node.now goes self.new) };

    /// Called as an identifier that is read or written is left.
    fn visit_identifier_reference(&mut self, node: &mut Node) -> Result<(), AllocError>
        requires { ready self.old }
        ensures { OnOk result (leaves hook.Hook.IdentifierReference self.old node.old self.new node.new) };

    /// Called as an identifier that declares is entered; answers whether the walk goes into it. If not, the node is not left either.
    fn enter_binding_identifier(&mut self, node: &Node) -> Result<bool, AllocError>
        requires { ready self.old }
        ensures { IfOk result (λ goes. enters hook.Hook.BindingIdentifier self.old node.now goes self.new) };

    /// Called as an identifier that declares is left.
    fn visit_binding_identifier(&mut self, node: &mut Node) -> Result<(), AllocError>
        requires { ready self.old }
        ensures { OnOk result (leaves hook.Hook.BindingIdentifier self.old node.old self.new node.new) };

    /// Called as the walk goes into a node with this scope.
    fn enter_scope(&mut self, scope: ScopeId) -> Result<(), AllocError>
        requires { ready self.old }
        ensures { OnOk result (scope_enters scope.0 self.old self.new) };

    /// Called as the walk comes out of a node with a scope.
    fn leave_scope(&mut self)
        requires { ready self.old }
        ensures { scope_leaves self.old self.new };

    ghost enter_ready: { (hook : hook.Hook) (s e : Self) (t : Tree) (goes : Bool) → enters hook s t goes e → ready s → ready e };

    ghost leave_ready: { (hook : hook.Hook) (s e : Self) (t u : Tree) → leaves hook s t e u → ready s → ready e };

    ghost scope_enter_ready: { (scope : ℕ) (s e : Self) → scope_enters scope s e → ready s → ready e };

    ghost scope_leave_ready: { (s e : Self) → scope_leaves s e → ready s → ready e };
}

/// The hook of the place of a node of this kind.
pub fn hook_of_role(role: Role, kind: Kind) -> Option<Hook>
    ensures { result ≡ hook_of_role role kind }
{
    match role {
        Role::Statement if fits(Place::Statement, kind) => Some(Hook::Statement),
        Role::Expression if fits(Place::Expression, kind) => Some(Hook::Expression),
        _ => None,
    }
}

/// The hook of a kind.
pub fn hook_of_kind(kind: Kind) -> Option<Hook>
    ensures { result ≡ hook_of_kind kind }
{
    match kind {
        Kind::ClassDeclaration | Kind::ClassExpression => Some(Hook::Class),
        Kind::FunctionDeclaration | Kind::FunctionExpression => Some(Hook::Function),
        Kind::ArrowFunctionExpression => Some(Hook::Arrow),
        Kind::CallExpression => Some(Hook::Call),
        Kind::PropertyDefinition => Some(Hook::PropertyDefinition),
        Kind::StaticBlock => Some(Hook::StaticBlock),
        Kind::IdentifierReference => Some(Hook::IdentifierReference),
        Kind::BindingIdentifier => Some(Hook::BindingIdentifier),
        _ => None,
    }
}

/// The scope that a node of this kind with this semantic id opens.
pub fn scope_of(kind: Kind, semantic_id: Option<u32>) -> Option<ScopeId>
    ensures { scope_number result ≡ scope_of kind semantic_id }
{
    match kind {
        Kind::IdentifierReference | Kind::BindingIdentifier => None,
        _ => semantic_id.map(ScopeId),
    }
}

/// Calls the hook as the node is entered.
fn enter<V: VisitMut>(visitor: &mut V, hook: Hook, node: &Node) -> Result<bool, AllocError>
    requires { V.ready visitor.old }
    ensures { IfOk result (λ goes. V.enters hook visitor.old node.now goes visitor.new) }
{
    match hook {
        Hook::Statement => visitor.enter_statement(node),
        Hook::Expression => visitor.enter_expression(node),
        Hook::Class => visitor.enter_class(node),
        Hook::Function => visitor.enter_function(node),
        Hook::Arrow => visitor.enter_arrow(node),
        Hook::Call => visitor.enter_call(node),
        Hook::PropertyDefinition => visitor.enter_property_definition(node),
        Hook::StaticBlock => visitor.enter_static_block(node),
        Hook::IdentifierReference => visitor.enter_identifier_reference(node),
        Hook::BindingIdentifier => visitor.enter_binding_identifier(node),
    }
}

/// Calls the hook as the node is left.
fn leave<V: VisitMut>(visitor: &mut V, hook: Hook, node: &mut Node) -> Result<(), AllocError>
    requires { V.ready visitor.old }
    ensures { OnOk result (V.leaves hook visitor.old node.old visitor.new node.new) }
{
    match hook {
        Hook::Statement => visitor.visit_statement(node),
        Hook::Expression => visitor.visit_expression(node),
        Hook::Class => visitor.visit_class(node),
        Hook::Function => visitor.visit_function(node),
        Hook::Arrow => visitor.visit_arrow(node),
        Hook::Call => visitor.visit_call(node),
        Hook::PropertyDefinition => visitor.visit_property_definition(node),
        Hook::StaticBlock => visitor.visit_static_block(node),
        Hook::IdentifierReference => visitor.visit_identifier_reference(node),
        Hook::BindingIdentifier => visitor.visit_binding_identifier(node),
    }
}

/// Walks a node that stands in this role: calls its hooks as it enters it, that of its place first; where
/// all of them answer true walks what is below; and calls the hooks of those that did as it leaves it, in
/// the other order.
#[cycle(walk)]
pub fn walk_node_mut<V: VisitMut>(
    visitor: &mut V,
    role: Role,
    node: &mut Node,
) -> Result<(), AllocError>
    requires { V.ready visitor.old }
    ensures { OnOk result (Visited V.enters V.leaves V.scope_enters V.scope_leaves role visitor.old node.old visitor.new node.new) }
{
    match hook_of_role(role, node.kind()) {
        Some(hook) => {
            if enter(visitor, hook, node)? {
                walk_by_kind(visitor, node)?;
                leave(visitor, hook, node)?;
            }
            Ok(())
        }
        None => {
            walk_by_kind(visitor, node)?;
            Ok(())
        }
    }
}

/// Walks a node whose hook of its place was called.
#[cycle(walk)]
fn walk_by_kind<V: VisitMut>(visitor: &mut V, node: &mut Node) -> Result<(), AllocError>
    requires { V.ready visitor.old }
    ensures { OnOk result (VisitedKind V.enters V.leaves V.scope_enters V.scope_leaves (hook_of_kind (kind_of node.old)) visitor.old node.old visitor.new node.new) }
{
    match hook_of_kind(node.kind()) {
        Some(hook) => {
            if enter(visitor, hook, node)? {
                walk_inside(visitor, node)?;
                leave(visitor, hook, node)?;
            }
            Ok(())
        }
        None => {
            walk_inside(visitor, node)?;
            Ok(())
        }
    }
}

/// Walks what is below a node.
#[cycle(walk)]
fn walk_inside<V: VisitMut>(visitor: &mut V, node: &mut Node) -> Result<(), AllocError>
    requires { V.ready visitor.old }
    ensures { OnOk result (VisitedInside V.enters V.leaves V.scope_enters V.scope_leaves visitor.old node.old visitor.new node.new) }
{
    let taken = node.take();
    let kind = taken.kind();
    let mut contents = taken.into_contents();
    let scope = scope_of(kind, contents.semantic_id);
    let computed = is_computed(kind, contents.parts.as_slice());
    go_in(visitor, scope)?;
    walk_parts(visitor, kind, computed, &mut contents.parts)?;
    come_out(visitor, scope);
    *node = Node::new(kind, contents);
    Ok(())
}

fn go_in<V: VisitMut>(visitor: &mut V, scope: Option<ScopeId>) -> Result<(), AllocError>
    requires { V.ready visitor.old }
    ensures { OnOk result (EntersScope V.enters V.leaves V.scope_enters V.scope_leaves (scope_number scope) visitor.old visitor.new) }
{
    match scope {
        Some(scope) => visitor.enter_scope(scope),
        None => Ok(()),
    }
}

fn come_out<V: VisitMut>(visitor: &mut V, scope: Option<ScopeId>)
    requires { V.ready visitor.old }
    ensures { LeavesScope V.enters V.leaves V.scope_enters V.scope_leaves (scope_number scope) visitor.old visitor.new }
{
    match scope {
        Some(_) => visitor.leave_scope(),
        None => {}
    }
}

/// Walks the parts of a node of this kind, whose key is computed or not.
#[cycle(walk)]
fn walk_parts<V: VisitMut>(
    visitor: &mut V,
    kind: Kind,
    computed: bool,
    parts: &mut List<Part>,
) -> Result<(), AllocError>
    requires { V.ready visitor.old }
    ensures walked { OnOk result (VisitedBelow V.enters V.leaves V.scope_enters V.scope_leaves kind computed 0 visitor.old (parts_of parts.old) visitor.new (parts_of parts.new)) }
    ensures shapes { OnOk result ((fs : List Field) → have_shapes fs parts.new ≡ have_shapes fs parts.old) }
{
    let parts = parts.as_mut_slice();
    for i in 0..parts.len() {
        walk_part(visitor, role_at(kind, computed, i), &mut parts[i])?;
    }
    Ok(())
}

#[cycle(walk)]
fn walk_part<V: VisitMut>(visitor: &mut V, role: Role, part: &mut Part) -> Result<(), AllocError>
    requires { V.ready visitor.old }
    ensures walked { OnOk result (VisitedPart V.enters V.leaves V.scope_enters V.scope_leaves role visitor.old (part_of part.old) visitor.new (part_of part.new)) }
    ensures shape { OnOk result ((sort : sorts.Sort) → has_shape sort part.new ≡ has_shape sort part.old) }
{
    match part {
        Part::Child(node) => {
            walk_node_mut(visitor, role, node)?;
            Ok(())
        }
        Part::List(nodes) => {
            walk_nodes_mut(visitor, role, nodes)?;
            Ok(())
        }
        Part::Holes(nodes) => {
            walk_nodes_or_holes(visitor, role, nodes)?;
            Ok(())
        }
        _ => Ok(()),
    }
}

/// Walks nodes that stand in this role, one after the other.
#[cycle(walk)]
pub fn walk_nodes_mut<V: VisitMut>(
    visitor: &mut V,
    role: Role,
    nodes: &mut List<Node>,
) -> Result<(), AllocError>
    requires { V.ready visitor.old }
    ensures { OnOk result (VisitedItems V.enters V.leaves V.scope_enters V.scope_leaves role visitor.old (trees nodes.old) visitor.new (trees nodes.new)) }
{
    let nodes = nodes.as_mut_slice();
    for i in 0..nodes.len() {
        walk_node_mut(visitor, role, &mut nodes[i])?;
    }
    Ok(())
}

#[cycle(walk)]
fn walk_nodes_or_holes<V: VisitMut>(
    visitor: &mut V,
    role: Role,
    nodes: &mut List<Option<Node>>,
) -> Result<(), AllocError>
    requires { V.ready visitor.old }
    ensures { OnOk result (VisitedItems V.enters V.leaves V.scope_enters V.scope_leaves role visitor.old (nullable_trees nodes.old) visitor.new (nullable_trees nodes.new)) }
{
    let nodes = nodes.as_mut_slice();
    for i in 0..nodes.len() {
        walk_node_or_hole(visitor, role, &mut nodes[i])?;
    }
    Ok(())
}

#[cycle(walk)]
fn walk_node_or_hole<V: VisitMut>(
    visitor: &mut V,
    role: Role,
    node: &mut Option<Node>,
) -> Result<(), AllocError>
    requires { V.ready visitor.old }
    ensures { OnOk result (VisitedPart V.enters V.leaves V.scope_enters V.scope_leaves role visitor.old (nullable node.old) visitor.new (nullable node.new)) }
{
    match node {
        Some(node) => {
            walk_node_mut(visitor, role, node)?;
            Ok(())
        }
        None => Ok(()),
    }
}
