// The walk of a whole program, and what it promises of every transform that has the laws.

ghost use Rattle.std.specs.Prelude.{◌≡◌, ℕ, ◌+◌, ◌<◌, ◌≤◌, ◌^◌, ◌∷◌, [], Bool, true, false, OnOk, List};
ghost use Rattle.es_base.specs.Preorder.{nodes};
ghost use Rattle.es_base.specs.Tree.{Tree, Part};
ghost use Rattle.es_ctx.specs.declared.ancestor.Parent as parents;
ghost use Rattle.es_ctx.specs.declared.ctx.TraverseCtx as ctxs;
ghost use Rattle.es_walk.specs.Given.{Ids, Suffice, ids_given};
ghost use Rattle.es_walk.specs.Holes.{Hole, places, pending, pending_below};
ghost use Rattle.es_walk.specs.Laws.{AllSettled, BelowSettled};
ghost use Rattle.es_walk.specs.SettledStores.{ListsSettled};
ghost use Rattle.es_walk.specs.Steps.{OpensPart, ClosesPart, path_of, lists_of};
ghost use Rattle.es_walk.specs.Traversed.{Traversed};
ghost use Rattle.es_walk.specs.Weight.{total};
ghost use Rattle.es_walk.specs.Whole.{whole};

use crate::walk::{Traverse, walk_node};
use es_ctx::ctx::TraverseCtx;
use es_node::node::Node;
use std::alloc::AllocError;

/// What the hooks of a transform keep of whole trees.
///
/// `settled` is a test of a node, which the walk leaves true of every node. It may read what stays of the
/// transform, as its options.
///
/// `kept` is any relation of the program that the walk began with, and its state then, to its state now, to the
/// whole (the program with what the stores keep put at its places), to the nodes that the walk has entered and
/// not left, the innermost first, and to those that it has still to enter, in preorder. What the transform
/// itself keeps for the tree, or has moved in it, stands in its state, which `kept` reads.
pub trait Lawful: Traverse {
    ghost settled: { Self → Tree → Type 0 };

    ghost kept: { Self × ctxs.TraverseCtx → Tree → Self × ctxs.TraverseCtx → Tree → List Tree → List Tree → Type 0 };

    /// No step makes `settled` stronger.
    ghost enter_steady: { (goes : Bool) (s e : Self × ctxs.TraverseCtx) (t u : Tree) → Self.enters goes s t e u → (v : Tree) → settled s.0 v → settled e.0 v };

    ghost leave_steady: { (s e : Self × ctxs.TraverseCtx) (t u : Tree) → Self.leaves s t e u → (v : Tree) → settled s.0 v → settled e.0 v };

    /// What is kept for the lists is settled, as what the walk does not go into, and each node that is left,
    /// where those below it are.
    ghost enter_settles: { (s e : Self × ctxs.TraverseCtx) (t u : Tree) → Self.enters true s t e u → Self.ready s → ListsSettled (settled s.0) (lists_of s) → ListsSettled (settled e.0) (lists_of e) };

    ghost pass_settles: { (s e : Self × ctxs.TraverseCtx) (t u : Tree) → Self.enters false s t e u → Self.ready s → ListsSettled (settled s.0) (lists_of s) → ListsSettled (settled e.0) (lists_of e) × AllSettled (settled e.0) u };

    ghost leave_settles: { (s e : Self × ctxs.TraverseCtx) (t u : Tree) → Self.leaves s t e u → Self.ready s → ListsSettled (settled s.0) (lists_of s) → BelowSettled (settled s.0) t → ListsSettled (settled e.0) (lists_of e) × AllSettled (settled e.0) u };

    ghost enter_keeps: { (begin : Self × ctxs.TraverseCtx) (program : Tree) (s e : Self × ctxs.TraverseCtx) (t u : Tree) → Self.enters true s t e u → Self.ready s → (hole : Hole) → path_of s ≡ places hole → (around rest : List Tree) → kept begin program s (whole (lists_of s) hole t) around (pending t rest) → kept begin program e (whole (lists_of e) hole u) (t ∷ around) (pending_below u rest) };

    ghost pass_keeps: { (begin : Self × ctxs.TraverseCtx) (program : Tree) (s e : Self × ctxs.TraverseCtx) (t u : Tree) → Self.enters false s t e u → Self.ready s → (hole : Hole) → path_of s ≡ places hole → (around rest : List Tree) → kept begin program s (whole (lists_of s) hole t) around (pending t rest) → kept begin program e (whole (lists_of e) hole u) around rest };

    ghost leave_keeps: { (begin : Self × ctxs.TraverseCtx) (program : Tree) (s e : Self × ctxs.TraverseCtx) (t u : Tree) → Self.leaves s t e u → Self.ready s → (hole : Hole) → path_of s ≡ places hole → (entered : Tree) (around rest : List Tree) → kept begin program s (whole (lists_of s) hole t) (entered ∷ around) rest → kept begin program e (whole (lists_of e) hole u) around rest };

    ghost open_keeps: { (begin : Self × ctxs.TraverseCtx) (program : Tree) (s e : Self × ctxs.TraverseCtx) (parent : parents.Parent) (at : ℕ) (p : Part) → OpensPart s parent at p e → Self.ready s → (t : Tree) (around rest : List Tree) → kept begin program s t around rest → kept begin program e t around rest };

    ghost close_keeps: { (begin : Self × ctxs.TraverseCtx) (program : Tree) (s e : Self × ctxs.TraverseCtx) (parent : parents.Parent) (at : ℕ) (p q : Part) → ClosesPart s parent at p e q → Self.ready s → (t : Tree) (around rest : List Tree) → kept begin program s t around rest → kept begin program e t around rest };
}

/// Walks a program with a context at its root. Fails on allocation failure alone, or as the hooks do; then
/// nothing is said of the program, the transform and the context.
pub fn walk_program<T: Lawful>(
    transform: &mut T,
    program: &mut Node,
    ctx: &mut TraverseCtx,
) -> Result<(), AllocError>
    requires ready { T.ready (transform.old, ctx.old) }
    requires bound { Suffice T.spare (total T.weight program.old) (transform.old, ctx.old) }
    requires path { ctx.old.path ≡ [] }
    requires stores { ctx.old.lists ≡ [] }
    requires kept { T.kept (transform.old, ctx.old) program.old (transform.old, ctx.old) program.old [] (pending program.old []) }

    ensures walked { OnOk result (Traversed T.enters T.leaves OpensPart ClosesPart (transform.old, ctx.old) program.old (transform.new, ctx.new) program.new) }
    ensures ready { OnOk result (T.ready (transform.new, ctx.new)) }
    ensures numbers { OnOk result (nodes program.new + (T.spare transform.new + ctx.new.next) ≤ total T.weight program.old + (T.spare transform.old + ctx.old.next)) }
    ensures budget { OnOk result ((ids : Ids) → nodes program.new + (T.spare transform.new + ids_given ids ctx.new) ≤ total T.weight program.old + (T.spare transform.old + ids_given ids ctx.old)) }
    ensures given { OnOk result (ctx.old.next ≤ ctx.new.next) }
    ensures onward { OnOk result ((ids : Ids) → ids_given ids ctx.old ≤ ids_given ids ctx.new) }
    ensures path { OnOk result (ctx.new.path ≡ []) }
    ensures stores { OnOk result (ctx.new.lists ≡ []) }
    ensures settled { OnOk result (AllSettled (T.settled transform.new) program.new) }
    ensures kept { OnOk result (T.kept (transform.old, ctx.old) program.old (transform.new, ctx.new) program.new [] []) }
{
    walk_node(transform, program, ctx)?;
    Ok(())
}
