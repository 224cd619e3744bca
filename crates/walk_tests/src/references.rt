// A reference for each `this`: a transform that gives numbers of the scope table, and need not ask whether there are any left.

ghost use Rattle.std.specs.Prelude.{◌≡◌, ◌+◌, ◌*◌, ◌<◌, ◌≤◌, ◌^◌, IfOk, OnOk, length};
ghost use Rattle.es_base.specs.Preorder.{nodes};
ghost use Rattle.es_scopes.specs.Table.{HasRoom};
ghost use Rattle.es_walk.specs.Any.{Any};
ghost use Rattle.walk_tests.specs.Calls as calls;
ghost use Rattle.walk_tests.specs.Hoist.{Enters, is_this};
ghost use Rattle.walk_tests.specs.References as laws;
ghost use Rattle.walk_tests.specs.References.{Leaves, one_if, weight};

use crate::hoist::is_this;
use es_ctx::ctx::TraverseCtx;
use es_node::node::Node;
use es_scopes::flags::ReferenceFlags;
use es_scopes::scoping::Scoping;
use es_steps::options::CompilerAssumptions;
use es_walk::program::{Lawful, walk_program};
use es_walk::walk::Traverse;
use std::alloc::{AllocError, Global};

/// Makes a reference for each `this` as it is left.
#[derive(Drop)]
struct References {
    alloc: Global,
}

impl Traverse for References {
    ghost enters = { Enters };

    ghost leaves = { Leaves };

    ghost weight = { weight };

    ghost spare = { λ s. 0 };

    ghost ready = { λ s. Unit {0} };

    ghost enter_ready = { λ goes s e t u h r. r };

    ghost leave_ready = { λ s e t u h r. r };

    ghost open_ready = { λ s e parent at p h r. r };

    ghost close_ready = { λ s e parent at p q h r. r };

    ghost weighs_something = { laws.weighs_something };

    ghost enter_pays = { laws.enter_pays };

    ghost leave_pays = { laws.leave_pays };

    ghost enter_keeps_place = { laws.enter_keeps_place };

    ghost leave_keeps_place = { laws.leave_keeps_place };

    fn enter(&mut self, _node: &mut Node, _ctx: &mut TraverseCtx) -> Result<bool, AllocError> {
        Ok(true)
    }

    fn exit(&mut self, node: &mut Node, ctx: &mut TraverseCtx) -> Result<(), AllocError> {
        if is_this(node) {
            refer(ctx)?;
        }
        Ok(())
    }
}

impl Lawful for References {
    ghost settled = { λ transform. Any };

    ghost kept = { calls.Keeps };

    ghost enter_steady = { λ goes s e t u h v x. x };

    ghost leave_steady = { λ s e t u h v x. x };

    ghost enter_settles = { λ s e t u h r l. laws.enter_settles s e t u h l };

    ghost pass_settles = { λ s e t u h r l. absurd (cc h.0) };

    ghost leave_settles = { λ s e t u h r l below. laws.leave_settles s e t u h l below };

    ghost enter_keeps = { λ begin program s e t u h r hole here around rest x. rw (h.1, h.2) x };

    ghost pass_keeps = { λ begin program s e t u h r hole here around rest x. absurd (cc h.0) };

    ghost leave_keeps = { λ begin program s e t u h r hole here entered around rest x. rw (h.node, h.lists) x };

    ghost open_keeps = { λ begin program s e parent at p h r t around rest x. x };

    ghost close_keeps = { λ begin program s e parent at p q h r t around rest x. x };
}

/// A reference more in the table.
fn refer(ctx: &mut TraverseCtx) -> Result<(), AllocError>
    requires { HasRoom ctx.old.scoping.scoping.references }
    ensures next { ctx.new.next ≡ ctx.old.next }
    ensures path { ctx.new.path ≡ ctx.old.path }
    ensures lists { ctx.new.lists ≡ ctx.old.lists }
    ensures scopes { OnOk result (ctx.new.scoping.scoping.scopes ≡ ctx.old.scoping.scoping.scopes) }
    ensures symbols { OnOk result (ctx.new.scoping.scoping.symbols ≡ ctx.old.scoping.scoping.symbols) }
    ensures references { OnOk result (length ctx.new.scoping.scoping.references ≡ length ctx.old.scoping.scoping.references + 1) }
{
    ctx.scoping_mut()
        .create_reference(None, ReferenceFlags::READ)?;
    Ok(())
}

/// Makes a reference for each `this` of a program, and hands the table back, which has at most one more for each node. The
/// program stays. Fails on allocation failure alone.
#[tactic(auto, using(crate::proofs::Weights::references_weigh, es_walk::specs::Given::suffice_begun))]
pub fn refer_to_this(
    alloc: Global,
    program: &mut Node,
    scoping: Scoping,
) -> Result<Scoping, AllocError>
    requires numbers { 3 * nodes program.old < 2 ^ 32 }
    requires scopes { 2 * nodes program.old + length scoping.scopes < 2 ^ 32 }
    requires symbols { 2 * nodes program.old + length scoping.symbols < 2 ^ 32 }
    requires references { 2 * nodes program.old + length scoping.references < 2 ^ 32 }
    ensures program { OnOk result (program.new ≡ program.old) }
    ensures references { IfOk result (λ table. length table.references ≤ length scoping.references + nodes program.old) }
{
    let mut transform = References { alloc };
    let mut ctx = TraverseCtx::new(alloc, program, scoping, CompilerAssumptions::default())?;
    walk_program(&mut transform, program, &mut ctx)?;
    let (scoping, _warnings, _names) = ctx.finish();
    Ok(scoping)
}
