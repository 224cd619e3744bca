// Hooks by the role and the kind of a node, as a transform of the walk.

ghost use Rattle.std.specs.Prelude.{◌≡◌, ℕ, ◌+◌, ◌<◌, ◌≤◌, ◌^◌, Bool, true, OnOk, Option, ◌∷◌, List};
ghost use Rattle.es_base.specs.Preorder.{nodes};
ghost use Rattle.es_base.specs.Tree.{Tree, Part};
ghost use Rattle.es_base.specs.declared.kind.Kind as kind;
ghost use Rattle.es_ctx.specs.declared.ancestor.Parent as parents;
ghost use Rattle.es_ctx.specs.declared.ctx.TraverseCtx as ctxs;
ghost use Rattle.es_node.specs.View.{kind_of};
ghost use Rattle.es_walk.specs.Given.{Ids, Suffice, load};
ghost use Rattle.es_walk.specs.Hooks.{is_entering, is_leaving, is_last, enter_hook_of_role, enter_hook_of_kind, exit_hook_of_role, exit_hook_of_kind, role_here, Calls, EntersNode, LeavesNode, enters_ready, leaves_ready, enters_pay, leaves_pay, enters_place, leaves_place, inner_opens, inner_closes, inner_place, never};
ghost use Rattle.es_walk.specs.Holes.{Hole, places, pending, pending_below};
ghost use Rattle.es_walk.specs.Laws.{AllSettled, BelowSettled};
ghost use Rattle.es_walk.specs.SettledStores.{ListsSettled};
ghost use Rattle.es_walk.specs.Steps.{OpensPart, ClosesPart, KeepPlaces, path_of, lists_of};
ghost use Rattle.es_walk.specs.Whole.{whole};
ghost use Rattle.es_walk.specs.Weight.{total, heft, NoMore, KeepsReady};
ghost use Rattle.es_walk.specs.declared.hooks.Hook as hook;

use crate::program::Lawful;
use crate::walk::Traverse;
use es_base::kind::Kind;
use es_base::table::{Place, fits};
use es_ctx::ctx::TraverseCtx;
use es_node::node::Node;
use es_visit::roles::Role;
use std::alloc::AllocError;

/// A hook of `Hooks`.
#[derive(Debug, Clone, Copy, PartialEq, Eq)]
pub enum Hook {
    EnterStatement,
    EnterExpression,
    ExitExpression,
    EnterClassBody,
    ExitClass,
    EnterAssignmentTarget,
    EnterPropertyDefinition,
    ExitPropertyDefinition,
    EnterStaticBlock,
    ExitStaticBlock,
    EnterAwaitExpression,
    ExitProgram,
}

/// Hooks by name. A node with two of them meets that of its role first as it is entered, and last as it is
/// left.
pub trait Hooks {
    /// What a hook does, told by the states and the nodes before and after.
    ghost does: { hook.Hook → Self × ctxs.TraverseCtx → Tree → Self × ctxs.TraverseCtx → Tree → Type 0 };

    /// As in `Traverse`.
    ghost weight: { kind.Kind → ℕ };

    /// As in `Traverse`.
    ghost spare: { Self → ℕ };

    /// As in `Traverse`.
    ghost ready: { Self × ctxs.TraverseCtx → Type 0 };

    /// Called as a node that stands as a statement is entered.
    fn enter_statement(&mut self, node: &mut Node, ctx: &mut TraverseCtx) -> Result<(), AllocError>
        requires ready { ready (self.old, ctx.old) }
        requires bound { Suffice spare (total weight node.old) (self.old, ctx.old) }
        ensures { OnOk result (does hook.Hook.EnterStatement (self.old, ctx.old) node.old (self.new, ctx.new) node.new) };

    /// Called as a node that stands as an expression is entered.
    fn enter_expression(&mut self, node: &mut Node, ctx: &mut TraverseCtx) -> Result<(), AllocError>
        requires ready { ready (self.old, ctx.old) }
        requires bound { Suffice spare (total weight node.old) (self.old, ctx.old) }
        ensures { OnOk result (does hook.Hook.EnterExpression (self.old, ctx.old) node.old (self.new, ctx.new) node.new) };

    /// Called as a node that stands as an expression is left.
    fn exit_expression(&mut self, node: &mut Node, ctx: &mut TraverseCtx) -> Result<(), AllocError>
        requires ready { ready (self.old, ctx.old) }
        requires bound { Suffice spare (heft weight node.old) (self.old, ctx.old) }
        ensures { OnOk result (does hook.Hook.ExitExpression (self.old, ctx.old) node.old (self.new, ctx.new) node.new) };

    /// Called as the body of a class is entered.
    fn enter_class_body(&mut self, node: &mut Node, ctx: &mut TraverseCtx) -> Result<(), AllocError>
        requires ready { ready (self.old, ctx.old) }
        requires bound { Suffice spare (total weight node.old) (self.old, ctx.old) }
        ensures { OnOk result (does hook.Hook.EnterClassBody (self.old, ctx.old) node.old (self.new, ctx.new) node.new) };

    /// Called as a class is left.
    fn exit_class(&mut self, node: &mut Node, ctx: &mut TraverseCtx) -> Result<(), AllocError>
        requires ready { ready (self.old, ctx.old) }
        requires bound { Suffice spare (heft weight node.old) (self.old, ctx.old) }
        ensures { OnOk result (does hook.Hook.ExitClass (self.old, ctx.old) node.old (self.new, ctx.new) node.new) };

    /// Called as what is assigned to is entered.
    fn enter_assignment_target(
        &mut self,
        node: &mut Node,
        ctx: &mut TraverseCtx,
    ) -> Result<(), AllocError>
        requires ready { ready (self.old, ctx.old) }
        requires bound { Suffice spare (total weight node.old) (self.old, ctx.old) }
        ensures { OnOk result (does hook.Hook.EnterAssignmentTarget (self.old, ctx.old) node.old (self.new, ctx.new) node.new) };

    /// Called as a field of a class is entered.
    fn enter_property_definition(
        &mut self,
        node: &mut Node,
        ctx: &mut TraverseCtx,
    ) -> Result<(), AllocError>
        requires ready { ready (self.old, ctx.old) }
        requires bound { Suffice spare (total weight node.old) (self.old, ctx.old) }
        ensures { OnOk result (does hook.Hook.EnterPropertyDefinition (self.old, ctx.old) node.old (self.new, ctx.new) node.new) };

    /// Called as a field of a class is left.
    fn exit_property_definition(
        &mut self,
        node: &mut Node,
        ctx: &mut TraverseCtx,
    ) -> Result<(), AllocError>
        requires ready { ready (self.old, ctx.old) }
        requires bound { Suffice spare (heft weight node.old) (self.old, ctx.old) }
        ensures { OnOk result (does hook.Hook.ExitPropertyDefinition (self.old, ctx.old) node.old (self.new, ctx.new) node.new) };

    /// Called as a static block is entered.
    fn enter_static_block(
        &mut self,
        node: &mut Node,
        ctx: &mut TraverseCtx,
    ) -> Result<(), AllocError>
        requires ready { ready (self.old, ctx.old) }
        requires bound { Suffice spare (total weight node.old) (self.old, ctx.old) }
        ensures { OnOk result (does hook.Hook.EnterStaticBlock (self.old, ctx.old) node.old (self.new, ctx.new) node.new) };

    /// Called as a static block is left.
    fn exit_static_block(
        &mut self,
        node: &mut Node,
        ctx: &mut TraverseCtx,
    ) -> Result<(), AllocError>
        requires ready { ready (self.old, ctx.old) }
        requires bound { Suffice spare (heft weight node.old) (self.old, ctx.old) }
        ensures { OnOk result (does hook.Hook.ExitStaticBlock (self.old, ctx.old) node.old (self.new, ctx.new) node.new) };

    /// Called as an `await` expression is entered.
    fn enter_await_expression(
        &mut self,
        node: &mut Node,
        ctx: &mut TraverseCtx,
    ) -> Result<(), AllocError>
        requires ready { ready (self.old, ctx.old) }
        requires bound { Suffice spare (total weight node.old) (self.old, ctx.old) }
        ensures { OnOk result (does hook.Hook.EnterAwaitExpression (self.old, ctx.old) node.old (self.new, ctx.new) node.new) };

    /// Called as a program is left.
    fn exit_program(&mut self, node: &mut Node, ctx: &mut TraverseCtx) -> Result<(), AllocError>
        requires ready { ready (self.old, ctx.old) }
        requires bound { Suffice spare (heft weight node.old) (self.old, ctx.old) }
        ensures { OnOk result (does hook.Hook.ExitProgram (self.old, ctx.old) node.old (self.new, ctx.new) node.new) };

    ghost does_ready: { (h : hook.Hook) → KeepsReady (does h) ready };

    ghost open_ready: { (s e : Self × ctxs.TraverseCtx) (parent : parents.Parent) (at : ℕ) (p : Part) → OpensPart s parent at p e → ready s → ready e };

    ghost close_ready: { (s e : Self × ctxs.TraverseCtx) (parent : parents.Parent) (at : ℕ) (p q : Part) → ClosesPart s parent at p e q → ready s → ready e };

    ghost weighs_something: { (k : kind.Kind) → 1 ≤ weight k };

    ghost entering_pays: { (h : hook.Hook) → is_entering h ≡ true → (ids : Ids) → NoMore (does h) (total weight) (total weight) (load spare ids) };

    ghost leaving_pays: { (h : hook.Hook) → is_leaving h ≡ true → (ids : Ids) → NoMore (does h) (heft weight) (heft weight) (load spare ids) };

    /// The last hook of an expression turns its weight into nodes.
    ghost last_pays: { (h : hook.Hook) → is_last h ≡ true → (ids : Ids) → NoMore (does h) (heft weight) nodes (load spare ids) };

    ghost keeps_place: { (h : hook.Hook) → KeepPlaces (does h) };
}

/// The role of the node at hand.
#[tactic(auto, using(crate::proofs::Here::role_last, crate::proofs::Here::role_none))]
pub fn role_here(ctx: &TraverseCtx) -> Role
    ensures { result ≡ role_here ctx.now.path }
{
    match ctx.path.as_slice().last() {
        Some(ancestor) => ancestor.role(),
        None => Role::Other,
    }
}

/// Calls the hook of the role of a node that is entered.
fn enter_by_role<T: Hooks>(
    transform: &mut T,
    role: Role,
    node: &mut Node,
    ctx: &mut TraverseCtx,
) -> Result<(), AllocError>
    requires ready { T.ready (transform.old, ctx.old) }
    requires bound { Suffice T.spare (total T.weight node.old) (transform.old, ctx.old) }
    ensures { OnOk result (Calls is_entering T.does (enter_hook_of_role role (kind_of node.old)) (transform.old, ctx.old) node.old (transform.new, ctx.new) node.new) }
{
    match role {
        Role::Statement if fits(Place::Statement, node.kind()) => {
            transform.enter_statement(node, ctx)
        }
        Role::Expression if fits(Place::Expression, node.kind()) => {
            transform.enter_expression(node, ctx)
        }
        Role::Target if fits(Place::AssignmentTarget, node.kind()) => {
            transform.enter_assignment_target(node, ctx)
        }
        _ => Ok(()),
    }
}

/// Calls the hook of the kind of a node that is entered.
fn enter_by_kind<T: Hooks>(
    transform: &mut T,
    node: &mut Node,
    ctx: &mut TraverseCtx,
) -> Result<(), AllocError>
    requires ready { T.ready (transform.old, ctx.old) }
    requires bound { Suffice T.spare (total T.weight node.old) (transform.old, ctx.old) }
    ensures { OnOk result (Calls is_entering T.does (enter_hook_of_kind (kind_of node.old)) (transform.old, ctx.old) node.old (transform.new, ctx.new) node.new) }
{
    match node.kind() {
        Kind::ClassBody => transform.enter_class_body(node, ctx),
        Kind::PropertyDefinition => transform.enter_property_definition(node, ctx),
        Kind::StaticBlock => transform.enter_static_block(node, ctx),
        Kind::AwaitExpression => transform.enter_await_expression(node, ctx),
        _ => Ok(()),
    }
}

/// Calls the hook of the kind of a node that is left.
fn exit_by_kind<T: Hooks>(
    transform: &mut T,
    node: &mut Node,
    ctx: &mut TraverseCtx,
) -> Result<(), AllocError>
    requires ready { T.ready (transform.old, ctx.old) }
    requires bound { Suffice T.spare (heft T.weight node.old) (transform.old, ctx.old) }
    ensures { OnOk result (Calls is_leaving T.does (exit_hook_of_kind (kind_of node.old)) (transform.old, ctx.old) node.old (transform.new, ctx.new) node.new) }
{
    match node.kind() {
        Kind::ClassDeclaration | Kind::ClassExpression => transform.exit_class(node, ctx),
        Kind::PropertyDefinition => transform.exit_property_definition(node, ctx),
        Kind::StaticBlock => transform.exit_static_block(node, ctx),
        Kind::Program => transform.exit_program(node, ctx),
        _ => Ok(()),
    }
}

/// Calls the hook of the role of a node that is left, and was of this kind.
fn exit_by_role<T: Hooks>(
    transform: &mut T,
    role: Role,
    kind: Kind,
    node: &mut Node,
    ctx: &mut TraverseCtx,
) -> Result<(), AllocError>
    requires ready { T.ready (transform.old, ctx.old) }
    requires bound { Suffice T.spare (heft T.weight node.old) (transform.old, ctx.old) }
    ensures { OnOk result (Calls is_last T.does (exit_hook_of_role role kind) (transform.old, ctx.old) node.old (transform.new, ctx.new) node.new) }
{
    match role {
        Role::Expression if fits(Place::Expression, kind) => transform.exit_expression(node, ctx),
        _ => Ok(()),
    }
}

/// Calls the hooks of a node that is entered.
fn enter_node<T: Hooks>(
    transform: &mut T,
    node: &mut Node,
    ctx: &mut TraverseCtx,
) -> Result<(), AllocError>
    requires ready { T.ready (transform.old, ctx.old) }
    requires bound { Suffice T.spare (total T.weight node.old) (transform.old, ctx.old) }
    ensures { OnOk result (EntersNode T.does (transform.old, ctx.old) node.old (transform.new, ctx.new) node.new) }
{
    let role = role_here(ctx);
    enter_by_role(transform, role, node, ctx)?;
    enter_by_kind(transform, node, ctx)?;
    Ok(())
}

/// Calls the hooks of a node that is left.
fn exit_node<T: Hooks>(
    transform: &mut T,
    node: &mut Node,
    ctx: &mut TraverseCtx,
) -> Result<(), AllocError>
    requires ready { T.ready (transform.old, ctx.old) }
    requires bound { Suffice T.spare (heft T.weight node.old) (transform.old, ctx.old) }
    ensures { OnOk result (LeavesNode T.does (transform.old, ctx.old) node.old (transform.new, ctx.new) node.new) }
{
    let role = role_here(ctx);
    let kind = node.kind();
    exit_by_kind(transform, node, ctx)?;
    exit_by_role(transform, role, kind, node, ctx)?;
    Ok(())
}

/// A transform by named hooks, as one of the walk.
#[derive(Drop)]
pub struct Named<T> {
    pub transform: T,
}

impl<T: Hooks> Traverse for Named<T> {
    ghost enters = { λ goes s t e u. (goes ≡ true) × EntersNode T.does (s.0.transform, s.1) t (e.0.transform, e.1) u };

    ghost leaves = { λ s t e u. LeavesNode T.does (s.0.transform, s.1) t (e.0.transform, e.1) u };

    ghost weight = { T.weight };

    ghost spare = { λ s. T.spare s.transform };

    ghost ready = { λ s. T.ready (s.0.transform, s.1) };

    ghost enter_ready = { λ goes s e t u h. enters_ready T.does T.ready T.does_ready (s.0.transform, s.1) (e.0.transform, e.1) t u h.1 };

    ghost leave_ready = { λ s e t u h. leaves_ready T.does T.ready T.does_ready (s.0.transform, s.1) (e.0.transform, e.1) t u h };

    ghost open_ready = { λ s e parent at p h. T.open_ready (s.0.transform, s.1) (e.0.transform, e.1) parent at p (inner_opens (λ x. x.transform) s parent at p e h) };

    ghost close_ready = { λ s e parent at p q h. T.close_ready (s.0.transform, s.1) (e.0.transform, e.1) parent at p q (inner_closes (λ x. x.transform) s parent at p e q h) };

    ghost weighs_something = { T.weighs_something };

    ghost enter_pays = { λ goes ids s e t u h. enters_pay T.does T.weight (load T.spare ids) (λ k is. T.entering_pays k is ids) (s.0.transform, s.1) (e.0.transform, e.1) t u h.1 };

    ghost leave_pays = { λ ids s e t u h. leaves_pay T.does T.weight (load T.spare ids) T.weighs_something (λ k is. T.leaving_pays k is ids) (λ k is. T.last_pays k is ids) (s.0.transform, s.1) (e.0.transform, e.1) t u h };

    ghost enter_keeps_place = { λ goes s e t u h. inner_place (λ x. x.transform) s e (enters_place T.does T.keeps_place (s.0.transform, s.1) (e.0.transform, e.1) t u h.1) };

    ghost leave_keeps_place = { λ s e t u h. inner_place (λ x. x.transform) s e (leaves_place T.does T.keeps_place (s.0.transform, s.1) (e.0.transform, e.1) t u h) };

    fn enter(&mut self, node: &mut Node, ctx: &mut TraverseCtx) -> Result<bool, AllocError> {
        enter_node(&mut self.transform, node, ctx)?;
        Ok(true)
    }

    fn exit(&mut self, node: &mut Node, ctx: &mut TraverseCtx) -> Result<(), AllocError> {
        exit_node(&mut self.transform, node, ctx)?;
        Ok(())
    }
}

/// What the hooks by name of a transform keep of whole trees: as `Lawful`, of all hooks of a node that is
/// entered, and of all hooks of a node that is left.
pub trait LawfulHooks: Hooks {
    ghost settled: { Self → Tree → Type 0 };

    ghost kept: { Self × ctxs.TraverseCtx → Tree → Self × ctxs.TraverseCtx → Tree → List Tree → List Tree → Type 0 };

    ghost enter_steady: { (s e : Self × ctxs.TraverseCtx) (t u : Tree) → EntersNode Self.does s t e u → (v : Tree) → settled s.0 v → settled e.0 v };

    ghost leave_steady: { (s e : Self × ctxs.TraverseCtx) (t u : Tree) → LeavesNode Self.does s t e u → (v : Tree) → settled s.0 v → settled e.0 v };

    ghost enter_settles: { (s e : Self × ctxs.TraverseCtx) (t u : Tree) → EntersNode Self.does s t e u → Self.ready s → ListsSettled (settled s.0) (lists_of s) → ListsSettled (settled e.0) (lists_of e) };

    ghost leave_settles: { (s e : Self × ctxs.TraverseCtx) (t u : Tree) → LeavesNode Self.does s t e u → Self.ready s → ListsSettled (settled s.0) (lists_of s) → BelowSettled (settled s.0) t → ListsSettled (settled e.0) (lists_of e) × AllSettled (settled e.0) u };

    ghost enter_keeps: { (begin : Self × ctxs.TraverseCtx) (program : Tree) (s e : Self × ctxs.TraverseCtx) (t u : Tree) → EntersNode Self.does s t e u → Self.ready s → (hole : Hole) → path_of s ≡ places hole → (around rest : List Tree) → kept begin program s (whole (lists_of s) hole t) around (pending t rest) → kept begin program e (whole (lists_of e) hole u) (t ∷ around) (pending_below u rest) };

    ghost leave_keeps: { (begin : Self × ctxs.TraverseCtx) (program : Tree) (s e : Self × ctxs.TraverseCtx) (t u : Tree) → LeavesNode Self.does s t e u → Self.ready s → (hole : Hole) → path_of s ≡ places hole → (entered : Tree) (around rest : List Tree) → kept begin program s (whole (lists_of s) hole t) (entered ∷ around) rest → kept begin program e (whole (lists_of e) hole u) around rest };

    ghost open_keeps: { (begin : Self × ctxs.TraverseCtx) (program : Tree) (s e : Self × ctxs.TraverseCtx) (parent : parents.Parent) (at : ℕ) (p : Part) → OpensPart s parent at p e → Self.ready s → (t : Tree) (around rest : List Tree) → kept begin program s t around rest → kept begin program e t around rest };

    ghost close_keeps: { (begin : Self × ctxs.TraverseCtx) (program : Tree) (s e : Self × ctxs.TraverseCtx) (parent : parents.Parent) (at : ℕ) (p q : Part) → ClosesPart s parent at p e q → Self.ready s → (t : Tree) (around rest : List Tree) → kept begin program s t around rest → kept begin program e t around rest };
}

impl<T: LawfulHooks> Lawful for Named<T> {
    ghost settled = { λ n. T.settled n.transform };

    ghost kept = { λ begin program s t around rest. T.kept (begin.0.transform, begin.1) program (s.0.transform, s.1) t around rest };

    ghost enter_steady = { λ goes s e t u h v x. T.enter_steady (s.0.transform, s.1) (e.0.transform, e.1) t u h.1 v x };

    ghost leave_steady = { λ s e t u h v x. T.leave_steady (s.0.transform, s.1) (e.0.transform, e.1) t u h v x };

    ghost enter_settles = { λ s e t u h r l. T.enter_settles (s.0.transform, s.1) (e.0.transform, e.1) t u h.1 r l };

    ghost pass_settles = { λ s e t u h r l. never h.0 };

    ghost leave_settles = { λ s e t u h r l below. T.leave_settles (s.0.transform, s.1) (e.0.transform, e.1) t u h r l below };

    ghost enter_keeps = { λ begin program s e t u h r hole here around rest x. T.enter_keeps (begin.0.transform, begin.1) program (s.0.transform, s.1) (e.0.transform, e.1) t u h.1 r hole here around rest x };

    ghost pass_keeps = { λ begin program s e t u h r hole here around rest x. never h.0 };

    ghost leave_keeps = { λ begin program s e t u h r hole here entered around rest x. T.leave_keeps (begin.0.transform, begin.1) program (s.0.transform, s.1) (e.0.transform, e.1) t u h r hole here entered around rest x };

    ghost open_keeps = { λ begin program s e parent at p h r t around rest x. T.open_keeps (begin.0.transform, begin.1) program (s.0.transform, s.1) (e.0.transform, e.1) parent at p (inner_opens (λ n. n.transform) s parent at p e h) r t around rest x };

    ghost close_keeps = { λ begin program s e parent at p q h r t around rest x. T.close_keeps (begin.0.transform, begin.1) program (s.0.transform, s.1) (e.0.transform, e.1) parent at p q (inner_closes (λ n. n.transform) s parent at p e q h) r t around rest x };
}
