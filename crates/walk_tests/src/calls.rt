// Hooks by name that change nothing: which are called, and in what order.

ghost use Rattle.std.specs.Prelude.{◌≡◌, ◌*◌, ◌<◌, ◌^◌, OnOk};
ghost use Rattle.es_base.specs.Preorder.{nodes};
ghost use Rattle.es_walk.specs.Any.{Any};
ghost use Rattle.walk_tests.specs.Calls as laws;

use es_ctx::ctx::TraverseCtx;
use es_node::node::Node;
use es_scopes::scoping::Scoping;
use es_steps::options::CompilerAssumptions;
use es_walk::hooks::{Hooks, LawfulHooks, Named};
use es_walk::program::walk_program;
use std::alloc::{AllocError, Global};

/// The hooks that were called, each with the number of its node.
#[derive(Drop)]
struct Calls {
    text: String,
}

impl Calls {
    fn add(&mut self, hook: &str, node: &Node) -> Result<(), AllocError> {
        write!(self.text, "{hook} {}\n", node.node_id().0)?;
        Ok(())
    }
}

impl Hooks for Calls {
    ghost does = { laws.Stays };

    ghost weight = { laws.weight };

    ghost spare = { λ s. 0 };

    ghost ready = { λ s. Unit {0} };

    fn enter_statement(
        &mut self,
        node: &mut Node,
        _ctx: &mut TraverseCtx,
    ) -> Result<(), AllocError> {
        self.add("enter_statement", node)
    }

    fn enter_expression(
        &mut self,
        node: &mut Node,
        _ctx: &mut TraverseCtx,
    ) -> Result<(), AllocError> {
        self.add("enter_expression", node)
    }

    fn exit_expression(
        &mut self,
        node: &mut Node,
        _ctx: &mut TraverseCtx,
    ) -> Result<(), AllocError> {
        self.add("exit_expression", node)
    }

    fn enter_class_body(
        &mut self,
        node: &mut Node,
        _ctx: &mut TraverseCtx,
    ) -> Result<(), AllocError> {
        self.add("enter_class_body", node)
    }

    fn exit_class(&mut self, node: &mut Node, _ctx: &mut TraverseCtx) -> Result<(), AllocError> {
        self.add("exit_class", node)
    }

    fn enter_assignment_target(
        &mut self,
        node: &mut Node,
        _ctx: &mut TraverseCtx,
    ) -> Result<(), AllocError> {
        self.add("enter_assignment_target", node)
    }

    fn enter_property_definition(
        &mut self,
        node: &mut Node,
        _ctx: &mut TraverseCtx,
    ) -> Result<(), AllocError> {
        self.add("enter_property_definition", node)
    }

    fn exit_property_definition(
        &mut self,
        node: &mut Node,
        _ctx: &mut TraverseCtx,
    ) -> Result<(), AllocError> {
        self.add("exit_property_definition", node)
    }

    fn enter_static_block(
        &mut self,
        node: &mut Node,
        _ctx: &mut TraverseCtx,
    ) -> Result<(), AllocError> {
        self.add("enter_static_block", node)
    }

    fn exit_static_block(
        &mut self,
        node: &mut Node,
        _ctx: &mut TraverseCtx,
    ) -> Result<(), AllocError> {
        self.add("exit_static_block", node)
    }

    fn enter_await_expression(
        &mut self,
        node: &mut Node,
        _ctx: &mut TraverseCtx,
    ) -> Result<(), AllocError> {
        self.add("enter_await_expression", node)
    }

    fn exit_program(&mut self, node: &mut Node, _ctx: &mut TraverseCtx) -> Result<(), AllocError> {
        self.add("exit_program", node)
    }

    ghost does_ready = { λ h s e t u x r. r };

    ghost open_ready = { λ s e parent at p x r. r };

    ghost close_ready = { λ s e parent at p q x r. r };

    ghost weighs_something = { laws.weighs_something };

    ghost entering_pays = { λ h is. laws.stays_pays h _ };

    ghost leaving_pays = { λ h is. laws.stays_pays h _ };

    ghost last_pays = { λ h is. laws.last_pays h };

    ghost keeps_place = { laws.keeps_place };
}

impl LawfulHooks for Calls {
    ghost settled = { λ calls. Any };

    ghost kept = { laws.Keeps };

    ghost enter_steady = { λ s e t u h v x. x };

    ghost leave_steady = { λ s e t u h v x. x };

    ghost enter_settles = { λ s e t u h r l. laws.enter_settles s e t u h l };

    ghost leave_settles = { λ s e t u h r l below. laws.leave_settles s e t u h l below };

    ghost enter_keeps = { λ begin program s e t u h r hole here around rest x. laws.enter_keeps program s e t u h hole x };

    ghost leave_keeps = { λ begin program s e t u h r hole here entered around rest x. laws.leave_keeps program s e t u h hole x };

    ghost open_keeps = { λ begin program s e parent at p h r t around rest x. x };

    ghost close_keeps = { λ begin program s e parent at p q h r t around rest x. x };
}

/// The hooks that a walk of the program calls, each with the number of its node, a line each. Fails on
/// allocation failure alone.
#[tactic(auto, using(crate::specs::Calls::total_same, es_walk::specs::Given::suffice_begun))]
pub fn called_hooks(alloc: Global, program: &mut Node) -> Result<String, AllocError>
    requires { 2 * nodes program.old < 2 ^ 32 }
    ensures { OnOk result (program.new ≡ program.old) }
{
    let calls = Calls {
        text: String::new(alloc),
    };
    let mut named = Named { transform: calls };
    let mut ctx = TraverseCtx::new(
        alloc,
        program,
        Scoping::new(alloc),
        CompilerAssumptions::default(),
    )?;
    walk_program(&mut named, program, &mut ctx)?;
    let Named { transform } = named;
    let Calls { text } = transform;
    Ok(text)
}
