// `x ** y` becomes `Math.pow(x, y)`: a transform that replaces an expression by a bigger one, with fresh
// numbers.

ghost use Rattle.std.specs.Prelude.{◌≡◌, ◌+◌, ◌*◌, ◌<◌, ◌≤◌, ◌^◌, true, IfOk, OnOk};
ghost use Rattle.es_base.specs.Numbered.{old_numbers};
ghost use Rattle.es_base.specs.Preorder.{nodes};
ghost use Rattle.es_walk.specs.Idle.{NothingKept, open_keeps_none, close_keeps_none};
ghost use Rattle.es_walk.specs.Laws.{AllSettled};
ghost use Rattle.walk_tests.specs.Power.{is_power, callee, lowered, IsNoPower, Enters, Leaves, weight};
ghost use Rattle.walk_tests.specs.PowerKept as kept;
ghost use Rattle.walk_tests.specs.PowerLaws as laws;

use es_base::ids::NodeId;
use es_base::kind::Kind;
use es_base::list::List;
use es_base::name::Name;
use es_base::operator::BinaryOperator;
use es_ctx::ctx::TraverseCtx;
use es_node::node::Node;
use es_scopes::scoping::Scoping;
use es_steps::options::CompilerAssumptions;
use es_tree::expression::{
    BinaryExpression, BinaryExpressionRef, CallExpression, MemberExpression, make_call_expression,
    make_member_expression,
};
use es_tree::identifier::{
    IdentifierName, IdentifierReference, make_identifier_name, make_identifier_reference,
};
use es_walk::program::{Lawful, walk_program};
use es_walk::walk::Traverse;
use std::alloc::{AllocError, Global};

#[derive(Drop)]
struct Powers {
    alloc: Global,
}

impl Traverse for Powers {
    ghost enters = { Enters };

    ghost leaves = { Leaves };

    ghost weight = { weight };

    ghost spare = { λ s. 0 };

    ghost ready = { NothingKept };

    ghost enter_ready = { laws.enter_ready };

    ghost leave_ready = { laws.leave_ready };

    ghost open_ready = { open_keeps_none };

    ghost close_ready = { close_keeps_none };

    ghost weighs_something = { laws.weighs_something };

    ghost enter_pays = { laws.enter_pays };

    ghost leave_pays = { laws.leave_pays };

    ghost enter_keeps_place = { laws.enter_keeps_place };

    ghost leave_keeps_place = { laws.leave_keeps_place };

    fn enter(&mut self, _node: &mut Node, _ctx: &mut TraverseCtx) -> Result<bool, AllocError> {
        Ok(true)
    }

    fn exit(&mut self, node: &mut Node, ctx: &mut TraverseCtx) -> Result<(), AllocError> {
        if is_power(node) {
            let number = ctx.fresh_id();
            let _object = ctx.fresh_id();
            let _property = ctx.fresh_id();
            *node = lower_power(self.alloc, number, node.take())?;
        }
        Ok(())
    }
}

impl Lawful for Powers {
    ghost settled = { λ transform. IsNoPower };

    ghost kept = { kept.Keeps };

    ghost enter_steady = { λ goes s e t u h v x. x };

    ghost leave_steady = { λ s e t u h v x. x };

    ghost enter_settles = { laws.enter_settles };

    ghost pass_settles = { laws.pass_settles };

    ghost leave_settles = { laws.leave_settles };

    ghost enter_keeps = { λ begin program s e t u h r hole here around rest x. kept.enter_keeps begin program s e t u h hole around _ _ _ x };

    ghost pass_keeps = { λ begin program s e t u h r hole here around rest x. absurd (cc h.0) };

    ghost leave_keeps = { λ begin program s e t u h r hole here entered around rest x. kept.leave_keeps begin program s e t u h r hole _ _ _ x };

    ghost open_keeps = { kept.open_keeps };

    ghost close_keeps = { kept.close_keeps };
}

// x ** y
#[tactic(auto, using(crate::proofs::Words::power_is, crate::proofs::Words::no_power))]
fn is_power(node: &Node) -> bool
    ensures { result ≡ is_power node.now }
{
    match node.kind() {
        Kind::BinaryExpression => {
            matches!(
                BinaryExpressionRef::from_node(node).operator,
                BinaryOperator::Exponential
            )
        }
        _ => false,
    }
}

// x ** y
// Math.pow(x, y)
fn lower_power(alloc: Global, number: NodeId, node: Node) -> Result<Node, AllocError>
    requires power { is_power node ≡ true }
    requires number { number.0 + 2 < 2 ^ 32 }
    ensures { IfOk result (λ t. t ≡ lowered number.0 node) }
{
    let power = BinaryExpression::from_node(node);
    let operands = List::from_vec(vec![in alloc; power.left, power.right]?);
    let call = make_call_expression(alloc, make_callee(alloc, number)?, operands, false)?;
    let mut call = CallExpression::from_node(call);
    call.node_id = power.node_id;
    call.span = power.span;
    Ok(call.into_node())
}

// Math.pow
#[tactic(auto, using(crate::proofs::Words::math_word, crate::proofs::Words::pow_word))]
fn make_callee(alloc: Global, number: NodeId) -> Result<Node, AllocError>
    requires { number.0 + 2 < 2 ^ 32 }
    ensures { IfOk result (λ t. t ≡ callee number.0) }
{
    let object = make_identifier_reference(alloc, Name::new(alloc, "Math")?)?;
    let mut object = IdentifierReference::from_node(object);
    object.node_id = NodeId(number.0 + 1);
    let property = make_identifier_name(alloc, Name::new(alloc, "pow")?)?;
    let mut property = IdentifierName::from_node(property);
    property.node_id = NodeId(number.0 + 2);
    let member = make_member_expression(
        alloc,
        object.into_node(),
        property.into_node(),
        false,
        false,
    )?;
    let mut member = MemberExpression::from_node(member);
    member.node_id = number;
    Ok(member.into_node())
}

/// Replaces each power by a call, whose new nodes have the numbers behind those of the program, which are below the
/// number of its nodes; each call has the number of its power. Fails on allocation failure alone.
#[tactic(auto, using(crate::proofs::Weights::powers_weigh, es_walk::specs::Given::suffice_begun))]
pub fn lower_powers(alloc: Global, program: &mut Node) -> Result<(), AllocError>
    requires { 8 * nodes program.old < 2 ^ 32 }
    ensures settled { OnOk result (AllSettled IsNoPower program.new) }
    ensures numbers { OnOk result (old_numbers (nodes program.old) program.new ≡ old_numbers (nodes program.old) program.old) }
    ensures growth { OnOk result (nodes program.new ≤ 7 * nodes program.old) }
{
    let mut transform = Powers { alloc };
    let mut ctx = TraverseCtx::new(
        alloc,
        program,
        Scoping::new(alloc),
        CompilerAssumptions::default(),
    )?;
    walk_program(&mut transform, program, &mut ctx)?;
    Ok(())
}
