// `this` becomes `_this`, which the list around declares: a transform that puts a declaration in front of a
// list.

ghost use Rattle.std.specs.Prelude.{◌≡◌, ◌+◌, ◌*◌, ◌<◌, ◌≤◌, ◌^◌, true, OnOk, IfOk};
ghost use Rattle.es_base.specs.Numbered.{unnumbered, old_numbers};
ghost use Rattle.es_base.specs.Preorder.{nodes};
ghost use Rattle.es_node.specs.View.{parts_of};
ghost use Rattle.es_walk.specs.Laws.{AllSettled};
ghost use Rattle.walk_tests.specs.Hoist.{is_none, is_this, IsNoThis, declarator, replaced, hoisted, Enters, Leaves, weight};
ghost use Rattle.walk_tests.specs.HoistKept as kept;
ghost use Rattle.walk_tests.specs.HoistLaws as laws;

use es_base::kind::Kind;
use es_base::name::Name;
use es_ctx::ctx::TraverseCtx;
use es_node::node::{Node, Part};
use es_scopes::scoping::Scoping;
use es_steps::options::CompilerAssumptions;
use es_tree::identifier::{
    IdentifierReference, make_binding_identifier, make_identifier_reference,
};
use es_tree::statement::make_variable_declarator;
use es_walk::program::{Lawful, walk_program};
use es_walk::walk::Traverse;
use std::alloc::{AllocError, Global};

#[derive(Drop)]
struct Hoist {
    alloc: Global,
}

impl Traverse for Hoist {
    ghost enters = { Enters };

    ghost leaves = { Leaves };

    ghost weight = { weight };

    ghost spare = { λ s. 0 };

    ghost ready = { laws.Ready };

    ghost enter_ready = { laws.enter_ready };

    ghost leave_ready = { laws.leave_ready };

    ghost open_ready = { laws.open_ready };

    ghost close_ready = { laws.close_ready };

    ghost weighs_something = { laws.weighs_something };

    ghost enter_pays = { laws.enter_pays };

    ghost leave_pays = { laws.leave_pays };

    ghost enter_keeps_place = { laws.enter_keeps_place };

    ghost leave_keeps_place = { laws.leave_keeps_place };

    fn enter(&mut self, _node: &mut Node, _ctx: &mut TraverseCtx) -> Result<bool, AllocError> {
        Ok(true)
    }

    fn exit(&mut self, node: &mut Node, ctx: &mut TraverseCtx) -> Result<(), AllocError> {
        if is_this(node) {
            declare(self.alloc, ctx)?;
            name_this(self.alloc, node)?;
        }
        Ok(())
    }
}

impl Lawful for Hoist {
    ghost settled = { λ transform. IsNoThis };

    ghost kept = { kept.Keeps };

    ghost enter_steady = { λ goes s e t u h v x. x };

    ghost leave_steady = { λ s e t u h v x. x };

    ghost enter_settles = { laws.enter_settles };

    ghost pass_settles = { laws.pass_settles };

    ghost leave_settles = { laws.leave_settles };

    ghost enter_keeps = { λ begin program s e t u h r hole here around rest x. kept.enter_keeps begin program s e t u h hole around rest x };

    ghost pass_keeps = { λ begin program s e t u h r hole here around rest x. absurd (cc h.0) };

    ghost leave_keeps = { λ begin program s e t u h r hole here entered around rest x. kept.leave_keeps begin program s e t u h r hole around rest x };

    ghost open_keeps = { λ begin program s e parent at p h r t around rest x. x };

    ghost close_keeps = { λ begin program s e parent at p q h r t around rest x. x };
}

// this
#[tactic(auto, using(crate::proofs::Words::this_is, crate::proofs::Words::no_this))]
pub(crate) fn is_this(node: &Node) -> bool
    ensures { result ≡ is_this node.now }
{
    match node.kind() {
        Kind::ThisExpression => has_none(node.parts()),
        _ => false,
    }
}

/// Whether there are no parts.
#[tactic(auto, using(crate::proofs::Words::some_parts))]
fn has_none(parts: &[Part]) -> bool
    ensures { result ≡ is_none (parts_of parts.now) }
{
    match parts {
        [] => true,
        [_, ..] => false,
    }
}

// this
// _this
#[tactic(auto, using(crate::proofs::Words::this_word, crate::proofs::Words::named_is))]
fn name_this(alloc: Global, node: &mut Node) -> Result<(), AllocError>
    ensures { OnOk result (node.new ≡ replaced true node.old) }
{
    let name = make_identifier_reference(alloc, Name::new(alloc, "_this")?)?;
    let mut name = IdentifierReference::from_node(name);
    name.node_id = node.node_id();
    name.span = node.span();
    *node = name.into_node();
    Ok(())
}

// var _this;
fn declare(alloc: Global, ctx: &mut TraverseCtx) -> Result<(), AllocError>
    ensures next { OnOk result (ctx.new.next ≡ ctx.old.next) }
    ensures path { OnOk result (ctx.new.path ≡ ctx.old.path) }
    ensures lists { OnOk result (ctx.new.lists ≡ hoisted true ctx.old.lists) }
    ensures scoping { OnOk result (ctx.new.scoping ≡ ctx.old.scoping) }
{
    if ctx.has_open_list() {
        ctx.insert_var(make_declarator(alloc)?)?;
    }
    Ok(())
}

// _this, in var _this;
#[tactic(auto, using(crate::proofs::Words::this_word))]
fn make_declarator(alloc: Global) -> Result<Node, AllocError>
    ensures { IfOk result (λ t. t ≡ declarator) }
{
    let name = make_binding_identifier(alloc, Name::new(alloc, "_this")?)?;
    make_variable_declarator(alloc, name, None)
}

/// Replaces each `this` by a name that the list around it declares; the name has the number of the `this`, and
/// the nodes of a declaration have none. Fails on allocation failure alone.
#[tactic(auto, using(crate::proofs::Weights::names_weigh, es_walk::specs::Given::suffice_begun))]
pub fn hoist_this(alloc: Global, program: &mut Node) -> Result<(), AllocError>
    requires { 5 * nodes program.old < 2 ^ 32 }
    ensures settled { OnOk result (AllSettled IsNoThis program.new) }
    ensures numbers { OnOk result (old_numbers unnumbered program.new ≡ old_numbers unnumbered program.old) }
    ensures growth { OnOk result (nodes program.new ≤ 4 * nodes program.old) }
{
    let mut transform = Hoist { alloc };
    let mut ctx = TraverseCtx::new(
        alloc,
        program,
        Scoping::new(alloc),
        CompilerAssumptions::default(),
    )?;
    walk_program(&mut transform, program, &mut ctx)?;
    Ok(())
}
