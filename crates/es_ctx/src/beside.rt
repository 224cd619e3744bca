// Statements that go beside an element of an open list (oxc_transformer, `StatementInjectorStore`).

ghost use Rattle.std.specs.Prelude.{◌≡◌, ◌<◌, [], ◌∷◌, length, OnOk};
ghost use Rattle.es_ctx.specs.Outcome.{KeepsOutcome};
ghost use Rattle.es_ctx.specs.Stores.{kept_beside};
ghost use Rattle.es_ctx.specs.declared.stores.Side as sides;

use crate::ctx::TraverseCtx;
use crate::stores::Side;
use es_base::ids::NodeId;
use es_base::list::List;
use es_node::node::Node;
use std::alloc::AllocError;

/// Keeps a statement for the place before the element of this number, behind those that are kept there, as
/// `TraverseCtx::insert` does. Fails on allocation failure alone, as the calls below do; then nothing is said of the
/// lists.
pub fn insert_before(stmt: NodeId, new: Node, ctx: &mut TraverseCtx) -> Result<(), AllocError>
    requires { 0 < length ctx.old.lists }
    ensures next { ctx.new.next ≡ ctx.old.next }
    ensures path { ctx.new.path ≡ ctx.old.path }
    ensures lists { OnOk result (ctx.new.lists ≡ kept_beside sides.Side.Before (new ∷ []) stmt.0 ctx.old.lists) }
    ensures outcome { KeepsOutcome ctx.old ctx.new }
{
    let mut statements = List::new(ctx.alloc);
    statements.push(new)?;
    ctx.insert(Side::Before, stmt, statements)
}

/// The same for the place after that element.
pub fn insert_after(stmt: NodeId, new: Node, ctx: &mut TraverseCtx) -> Result<(), AllocError>
    requires { 0 < length ctx.old.lists }
    ensures next { ctx.new.next ≡ ctx.old.next }
    ensures path { ctx.new.path ≡ ctx.old.path }
    ensures lists { OnOk result (ctx.new.lists ≡ kept_beside sides.Side.After (new ∷ []) stmt.0 ctx.old.lists) }
    ensures outcome { KeepsOutcome ctx.old ctx.new }
{
    let mut statements = List::new(ctx.alloc);
    statements.push(new)?;
    ctx.insert(Side::After, stmt, statements)
}

/// Keeps statements for the place before the element of this number.
pub fn insert_many_before(
    stmt: NodeId,
    new: List<Node>,
    ctx: &mut TraverseCtx,
) -> Result<(), AllocError>
    requires { 0 < length ctx.old.lists }
    ensures next { ctx.new.next ≡ ctx.old.next }
    ensures path { ctx.new.path ≡ ctx.old.path }
    ensures lists { OnOk result (ctx.new.lists ≡ kept_beside sides.Side.Before new stmt.0 ctx.old.lists) }
    ensures outcome { KeepsOutcome ctx.old ctx.new }
{
    ctx.insert(Side::Before, stmt, new)
}

/// Keeps statements for the place after that element.
pub fn insert_many_after(
    stmt: NodeId,
    new: List<Node>,
    ctx: &mut TraverseCtx,
) -> Result<(), AllocError>
    requires { 0 < length ctx.old.lists }
    ensures next { ctx.new.next ≡ ctx.old.next }
    ensures path { ctx.new.path ≡ ctx.old.path }
    ensures lists { OnOk result (ctx.new.lists ≡ kept_beside sides.Side.After new stmt.0 ctx.old.lists) }
    ensures outcome { KeepsOutcome ctx.old ctx.new }
{
    ctx.insert(Side::After, stmt, new)
}
