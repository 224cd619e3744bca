// A warning of each `await`: a transform that leaves the tree as it is, and adds to the context.

ghost use Rattle.std.specs.Prelude.{◌≡◌, ◌+◌, ◌*◌, ◌++◌, ◌<◌, ◌^◌, [], IfOk, OnOk, length};
ghost use Rattle.es_base.specs.Preorder.{nodes};
ghost use Rattle.es_walk.specs.Any.{Any};
ghost use Rattle.es_walk.specs.Holes.{pending};
ghost use Rattle.walk_tests.specs.Calls as calls;
ghost use Rattle.walk_tests.specs.Warnings as laws;
ghost use Rattle.walk_tests.specs.Warnings.{warned, own_await, awaits};

use es_base::diagnostic::Diagnostic;
use es_base::kind::Kind;
use es_base::list::List;
use es_ctx::ctx::TraverseCtx;
use es_node::node::Node;
use es_scopes::scoping::Scoping;
use es_steps::options::CompilerAssumptions;
use es_walk::program::{Lawful, walk_program};
use es_walk::walk::Traverse;
use std::alloc::{AllocError, Global};

/// Warns of each `await` as it is entered.
#[derive(Drop)]
struct Warnings {
    alloc: Global,
}

impl Traverse for Warnings {
    ghost enters = { laws.Enters };

    ghost leaves = { laws.Leaves };

    ghost weight = { calls.weight };

    ghost spare = { λ s. 0 };

    ghost ready = { λ s. Unit {0} };

    ghost enter_ready = { λ goes s e t u h r. r };

    ghost leave_ready = { λ s e t u h r. r };

    ghost open_ready = { λ s e parent at p h r. r };

    ghost close_ready = { λ s e parent at p q h r. r };

    ghost weighs_something = { calls.weighs_something };

    ghost enter_pays = { laws.enter_pays };

    ghost leave_pays = { laws.leave_pays };

    ghost enter_keeps_place = { laws.enter_keeps_place };

    ghost leave_keeps_place = { laws.leave_keeps_place };

    fn enter(&mut self, node: &mut Node, ctx: &mut TraverseCtx) -> Result<bool, AllocError> {
        warn_if_await(node, ctx)?;
        Ok(true)
    }

    fn exit(&mut self, _node: &mut Node, _ctx: &mut TraverseCtx) -> Result<(), AllocError> {
        Ok(())
    }
}

impl Lawful for Warnings {
    ghost settled = { λ transform. Any };

    ghost kept = { laws.Keeps };

    ghost enter_steady = { λ goes s e t u h v x. x };

    ghost leave_steady = { λ s e t u h v x. x };

    ghost enter_settles = { λ s e t u h r l. laws.enter_settles s e t u h l };

    ghost pass_settles = { λ s e t u h r l. laws.never h.into };

    ghost leave_settles = { λ s e t u h r l below. laws.leave_settles s e t u h l below };

    ghost enter_keeps = { λ begin program s e t u h r hole here around rest x. laws.enter_keeps begin program s e t u h hole around rest x };

    ghost pass_keeps = { λ begin program s e t u h r hole here around rest x. laws.never h.into };

    ghost leave_keeps = { λ begin program s e t u h r hole here entered around rest x. laws.leave_keeps begin program s e t u h hole entered around rest x };

    ghost open_keeps = { λ begin program s e parent at p h r t around rest x. laws.open_keeps begin program s e parent at p h t around rest x };

    ghost close_keeps = { λ begin program s e parent at p q h r t around rest x. laws.close_keeps begin program s e parent at p q h t around rest x };
}

// await a
#[tactic(auto, using(crate::proofs::Awaits::await_warned, crate::proofs::Awaits::not_warned))]
fn warn_if_await(node: &Node, ctx: &mut TraverseCtx) -> Result<(), AllocError>
    ensures next { ctx.new.next ≡ ctx.old.next }
    ensures path { ctx.new.path ≡ ctx.old.path }
    ensures lists { ctx.new.lists ≡ ctx.old.lists }
    ensures scoping { ctx.new.scoping ≡ ctx.old.scoping }
    ensures warned { OnOk result (warned ctx.new.diagnostics ≡ warned ctx.old.diagnostics ++ own_await node.now) }
{
    match node.kind() {
        Kind::AwaitExpression => {
            ctx.warn(Diagnostic {
                node: node.node_id(),
                span: node.span(),
            })?;
            Ok(())
        }
        _ => Ok(()),
    }
}

/// Warns of each `await` of a program, in preorder, and hands its scope table back. Fails on allocation failure alone.
#[tactic(auto, using(crate::specs::Calls::total_same, es_walk::specs::Given::suffice_begun, crate::specs::Warnings::none_warned, crate::specs::Warnings::all_warned, crate::specs::Warnings::table_stays))]
pub fn warn_of_awaits(
    alloc: Global,
    program: &mut Node,
    scoping: Scoping,
) -> Result<(Scoping, List<Diagnostic>), AllocError>
    requires numbers { 2 * nodes program.old < 2 ^ 32 }
    requires scopes { nodes program.old + length scoping.scopes < 2 ^ 32 }
    requires symbols { nodes program.old + length scoping.symbols < 2 ^ 32 }
    requires references { nodes program.old + length scoping.references < 2 ^ 32 }
    ensures program { OnOk result (program.new ≡ program.old) }
    ensures table { IfOk result (λ r. r.0 ≡ scoping) }
    ensures warnings { IfOk result (λ r. warned r.1 ≡ awaits (pending program.old [])) }
{
    let mut transform = Warnings { alloc };
    let mut ctx = TraverseCtx::new(alloc, program, scoping, CompilerAssumptions::default())?;
    walk_program(&mut transform, program, &mut ctx)?;
    let (scoping, found, _names) = ctx.finish();
    Ok((scoping, found))
}
