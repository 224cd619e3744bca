// The walk, and the hooks that it calls.

ghost use Rattle.std.specs.Prelude.{◌≡◌, ℕ, ◌+◌, ◌<◌, ◌≤◌, ◌^◌, Bool, true, IfOk, OnOk, List, Option};
ghost use Rattle.es_base.specs.Preorder.{nodes};
ghost use Rattle.es_base.specs.Table.{Field, members_of};
ghost use Rattle.es_base.specs.Tree.{Tree, Part, trees, nullable, nullable_trees};
ghost use Rattle.es_base.specs.declared.kind.Kind as kind;
ghost use Rattle.es_base.specs.declared.table.Sort as sorts;
ghost use Rattle.es_ctx.specs.Ancestors.{has_statements};
ghost use Rattle.es_ctx.specs.declared.ancestor.Parent as parents;
ghost use Rattle.es_ctx.specs.declared.ctx.TraverseCtx as ctxs;
ghost use Rattle.es_node.specs.View.{part_of, parts_of, is_list, has_shape, have_shapes};
ghost use Rattle.es_walk.specs.Given.{Ids, Suffice, load};
ghost use Rattle.es_walk.specs.Steps.{OpensPart, ClosesPart, KeepPlaces};
ghost use Rattle.es_walk.specs.Traversed.{Traversed, TraversedMember, TraversedPart, TraversedParts, TraversedItem, TraversedItems};
ghost use Rattle.es_walk.specs.Weight.{total, total_of, total_of_part, heft, NoMore, KeepsReady};

use es_base::kind::Kind;
use es_base::list::List;
use es_ctx::ancestor::Parent;
use es_ctx::ctx::TraverseCtx;
use es_node::node::{Node, Part};
use std::alloc::AllocError;

/// Hooks that may replace the node that they are given. After an error nothing is said of the tree, the
/// transform and the context.
pub trait Traverse {
    /// What `enter` does, told by its answer, the states before and after, and the node before and after.
    ghost enters: { Bool → Self × ctxs.TraverseCtx → Tree → Self × ctxs.TraverseCtx → Tree → Type 0 };

    /// What `exit` does.
    ghost leaves: { Self × ctxs.TraverseCtx → Tree → Self × ctxs.TraverseCtx → Tree → Type 0 };

    /// What a node of each kind weighs that is still to be walked: a hook may turn weight into nodes
    /// and numbers.
    ghost weight: { kind.Kind → ℕ };

    /// What else it may turn into nodes and numbers: what it keeps for the tree, among others.
    ghost spare: { Self → ℕ };

    /// What holds whenever a hook is called.
    ghost ready: { Self × ctxs.TraverseCtx → Type 0 };

    /// Called before the walk of what is below the node that it leaves there. Answers whether the walk
    /// goes into that; else the node is not left either.
    fn enter(&mut self, node: &mut Node, ctx: &mut TraverseCtx) -> Result<bool, AllocError>
        requires ready { ready (self.old, ctx.old) }
        requires bound { Suffice spare (total weight node.old) (self.old, ctx.old) }
        ensures { IfOk result (λ goes. enters goes (self.old, ctx.old) node.old (self.new, ctx.new) node.new) };

    /// Called after the walk of what is below the node.
    fn exit(&mut self, node: &mut Node, ctx: &mut TraverseCtx) -> Result<(), AllocError>
        requires ready { ready (self.old, ctx.old) }
        requires bound { Suffice spare (heft weight node.old) (self.old, ctx.old) }
        ensures { OnOk result (leaves (self.old, ctx.old) node.old (self.new, ctx.new) node.new) };

    ghost enter_ready: { (goes : Bool) → KeepsReady (enters goes) ready };

    ghost leave_ready: { KeepsReady leaves ready };

    ghost open_ready: { (s e : Self × ctxs.TraverseCtx) (parent : parents.Parent) (at : ℕ) (p : Part) → OpensPart s parent at p e → ready s → ready e };

    ghost close_ready: { (s e : Self × ctxs.TraverseCtx) (parent : parents.Parent) (at : ℕ) (p q : Part) → ClosesPart s parent at p e q → ready s → ready e };

    /// No node weighs nothing.
    ghost weighs_something: { (k : kind.Kind) → 1 ≤ weight k };

    /// What the tree, the transform and the stores weigh together, with the numbers given to nodes, does not grow; nor
    /// does it with those of scopes, of symbols or of references.
    ghost enter_pays: { (goes : Bool) (ids : Ids) → NoMore (enters goes) (total weight) (total weight) (load spare ids) };

    ghost leave_pays: { (ids : Ids) → NoMore leaves (heft weight) nodes (load spare ids) };

    /// A hook leaves where the walk stands, and how many lists are open; it gives no number of any sort back.
    ghost enter_keeps_place: { (goes : Bool) → KeepPlaces (enters goes) };

    ghost leave_keeps_place: { KeepPlaces leaves };
}

/// Enters the node, walks what the hook left there, and leaves it.
#[cycle(walk)]
pub fn walk_node<T: Traverse>(
    transform: &mut T,
    node: &mut Node,
    ctx: &mut TraverseCtx,
) -> Result<(), AllocError>
    requires ready { T.ready (transform.old, ctx.old) }
    requires bound { Suffice T.spare (total T.weight node.old) (transform.old, ctx.old) }
    ensures { OnOk result (Traversed T.enters T.leaves OpensPart ClosesPart (transform.old, ctx.old) node.old (transform.new, ctx.new) node.new) }
{
    let goes = transform.enter(node, ctx)?;
    if goes {
        let parent = Parent::of(ctx.alloc, node)?;
        let taken = node.take();
        let kind = taken.kind();
        let mut contents = taken.into_contents();
        walk_parts(transform, &parent, &mut contents.parts, ctx)?;
        *node = Node::new(kind, contents);
        transform.exit(node, ctx)?;
        return Ok(());
    }
    Ok(())
}

/// Walks the parts of a node of which this is told.
#[cycle(walk)]
fn walk_parts<T: Traverse>(
    transform: &mut T,
    parent: &Parent,
    parts: &mut List<Part>,
    ctx: &mut TraverseCtx,
) -> Result<(), AllocError>
    requires ready { T.ready (transform.old, ctx.old) }
    requires bound { Suffice T.spare (total_of T.weight (parts_of parts.old)) (transform.old, ctx.old) }
    requires shapes { have_shapes (members_of parent.now.kind) parts.old ≡ true }
    ensures walked { OnOk result (TraversedParts T.enters T.leaves OpensPart ClosesPart parent.now 0 (transform.old, ctx.old) (parts_of parts.old) (transform.new, ctx.new) (parts_of parts.new)) }
    ensures shapes { OnOk result (have_shapes (members_of parent.now.kind) parts.new ≡ true) }
{
    let all = parts.as_mut_slice();
    for i in 0..all.len() {
        walk_member(transform, parent, i, &mut all[i], ctx)?;
    }
    Ok(())
}

/// Walks the part at this place of a node of which this is told.
#[cycle(walk)]
fn walk_member<T: Traverse>(
    transform: &mut T,
    parent: &Parent,
    at: usize,
    part: &mut Part,
    ctx: &mut TraverseCtx,
) -> Result<(), AllocError>
    requires ready { T.ready (transform.old, ctx.old) }
    requires bound { Suffice T.spare (total_of_part T.weight (part_of part.old)) (transform.old, ctx.old) }
    requires shape { has_statements parent.now.kind at ≡ true → is_list part.old ≡ true }
    ensures walked { OnOk result (TraversedMember T.enters T.leaves OpensPart ClosesPart parent.now at (transform.old, ctx.old) (part_of part.old) (transform.new, ctx.new) (part_of part.new)) }
    ensures shape { OnOk result ((sort : sorts.Sort) → has_shape sort part.new ≡ has_shape sort part.old) }
{
    ctx.open(parent, at, part)?;
    walk_part(transform, part, ctx)?;
    ctx.close(parent, at, part)?;
    Ok(())
}

#[cycle(walk)]
fn walk_part<T: Traverse>(
    transform: &mut T,
    part: &mut Part,
    ctx: &mut TraverseCtx,
) -> Result<(), AllocError>
    requires ready { T.ready (transform.old, ctx.old) }
    requires bound { Suffice T.spare (total_of_part T.weight (part_of part.old)) (transform.old, ctx.old) }
    ensures walked { OnOk result (TraversedPart T.enters T.leaves OpensPart ClosesPart (transform.old, ctx.old) (part_of part.old) (transform.new, ctx.new) (part_of part.new)) }
    ensures shape { OnOk result ((sort : sorts.Sort) → has_shape sort part.new ≡ has_shape sort part.old) }
{
    match part {
        Part::Child(node) => {
            walk_node(transform, node, ctx)?;
            Ok(())
        }
        Part::List(nodes) => {
            walk_nodes(transform, nodes, ctx)?;
            Ok(())
        }
        Part::Holes(nodes) => {
            walk_nodes_or_holes(transform, nodes, ctx)?;
            Ok(())
        }
        _ => Ok(()),
    }
}

#[cycle(walk)]
fn walk_nodes<T: Traverse>(
    transform: &mut T,
    nodes: &mut List<Node>,
    ctx: &mut TraverseCtx,
) -> Result<(), AllocError>
    requires ready { T.ready (transform.old, ctx.old) }
    requires bound { Suffice T.spare (total_of T.weight (trees nodes.old)) (transform.old, ctx.old) }
    ensures { OnOk result (TraversedItems T.enters T.leaves OpensPart ClosesPart (transform.old, ctx.old) (trees nodes.old) (transform.new, ctx.new) (trees nodes.new)) }
{
    let all = nodes.as_mut_slice();
    for i in 0..all.len() {
        walk_node(transform, &mut all[i], ctx)?;
    }
    Ok(())
}

#[cycle(walk)]
fn walk_nodes_or_holes<T: Traverse>(
    transform: &mut T,
    nodes: &mut List<Option<Node>>,
    ctx: &mut TraverseCtx,
) -> Result<(), AllocError>
    requires ready { T.ready (transform.old, ctx.old) }
    requires bound { Suffice T.spare (total_of T.weight (nullable_trees nodes.old)) (transform.old, ctx.old) }
    ensures { OnOk result (TraversedItems T.enters T.leaves OpensPart ClosesPart (transform.old, ctx.old) (nullable_trees nodes.old) (transform.new, ctx.new) (nullable_trees nodes.new)) }
{
    let all = nodes.as_mut_slice();
    for i in 0..all.len() {
        walk_node_or_hole(transform, &mut all[i], ctx)?;
    }
    Ok(())
}

#[cycle(walk)]
fn walk_node_or_hole<T: Traverse>(
    transform: &mut T,
    node: &mut Option<Node>,
    ctx: &mut TraverseCtx,
) -> Result<(), AllocError>
    requires ready { T.ready (transform.old, ctx.old) }
    requires bound { Suffice T.spare (total_of_part T.weight (nullable node.old)) (transform.old, ctx.old) }
    ensures { OnOk result (TraversedItem T.enters T.leaves OpensPart ClosesPart (transform.old, ctx.old) (nullable node.old) (transform.new, ctx.new) (nullable node.new)) }
{
    match node {
        Some(node) => {
            walk_node(transform, node, ctx)?;
            Ok(())
        }
        None => Ok(()),
    }
}
