// Assignments. (ECMA-262, 13.15.)

ghost use Rattle.std.specs.Prelude.{◌≡◌, IfOk, cond};
ghost use Rattle.std.specs.Str.{chars};
ghost use Rattle.es_codes.specs.CodeView.{code_of, target_of};
ghost use Rattle.es_codes.specs.View.{kind_of};
ghost use Rattle.es_steps.specs.Code as of;
ghost use Rattle.es_steps.specs.Context.{new_here};
ghost use Rattle.es_steps.specs.Expressions as spec;
ghost use Rattle.es_steps.specs.GeneratedForms as generated;
ghost use Rattle.es_steps.specs.Members as members;
ghost use Rattle.es_code_members.specs.MembersView.{member_of};
ghost use Rattle.es_code_reading.specs.Contexts.{context_of};

use crate::private::private_assignment;
use crate::value::take_assigned;
use es_base::ids::NodeId;
use es_base::ledger::GeneratedKind;
use es_base::name::Name;
use es_base::strings::spells;
use es_code_declarations::given::{given, given_function};
use es_code_members::member::{Member, take_code, word_of};
use es_code_reading::context::Context;
use es_code_targets::target::{boxed_target, written_target};
use es_codes::boxed::Boxed;
use es_codes::code::{Code, Target};
use es_codes::name::NameKind;
use es_generated::numbers::is_new;
use std::alloc::{AllocError, Global};
use std::mem;

// ---- by `=`

/// `t = e`, where the value is that of the assignment. Fails on allocation failure alone.
fn plain_assignment(
    alloc: Global,
    c: &Context,
    node: u32,
    to: Target,
    right: &mut Code,
) -> Result<Code, AllocError>
    ensures { IfOk result (λ e. code_of e ≡ of.assign (target_of to) (generated.assigned_value (new_here (context_of c.now) node) node (code_of right.old))) }
{
    match take_assigned(alloc, is_new(c.terms.first_new, node), node, right) {
        Ok(right) => Ok(Code::assign(Boxed::new(alloc, to)?, right)),
        Err(error) => {
            drop(to);
            Err(error)
        }
    }
}

/// `x = e`, where x is the node `name`. Fails on allocation failure alone.
#[tactic(auto, using(crate::proofs::AssignmentForms::other_name))]
fn name_assignment(
    alloc: Global,
    c: &Context,
    node: u32,
    name: u32,
    spelling: Name,
    kind: NameKind,
    right: &mut Code,
) -> Result<Code, AllocError>
    ensures { IfOk result (λ e. code_of e ≡ generated.generated_assignment (context_of c.now) node (of.to_name name spelling (kind_of kind)) (code_of right.old)) }
{
    match kind {
        NameKind::Generated(generated) => given(alloc, c, node, name, spelling, generated, right),
        NameKind::StaticMethod { key, .. } => {
            given_function(
                alloc,
                node,
                spelling,
                GeneratedKind::Method(NodeId(key)),
                right,
            )
        }
        other => plain_assignment(
            alloc,
            c,
            node,
            Target::to_name(name, spelling, other),
            right,
        ),
    }
}

/// `t = e`. Fails on allocation failure alone.
#[tactic(auto, using(crate::proofs::AssignmentForms::to_a_name, crate::proofs::AssignmentForms::to_a_private, crate::proofs::AssignmentForms::to_another))]
fn target_assignment(
    alloc: Global,
    c: &Context,
    node: u32,
    to: Target,
    right: &mut Code,
) -> Result<Code, AllocError>
    ensures { IfOk result (λ e. code_of e ≡ generated.generated_assignment (context_of c.now) node (target_of to) (code_of right.old)) }
{
    match to {
        Target::ToName {
            node: name,
            spelling,
            kind,
        } => name_assignment(alloc, c, node, name, spelling, kind, right),
        Target::ToPrivate {
            node: member,
            means,
            object,
        } => {
            let is_new = is_new(c.terms.first_new, node);
            private_assignment(alloc, is_new, node, member, means, object, right)
        }
        other => plain_assignment(alloc, c, node, other, right),
    }
}

// ---- by another operator

fn is_logical(operator: &str) -> bool
    ensures { result ≡ spec.is_logical (chars operator.now) }
{
    spells(operator, "||=") || spells(operator, "&&=") || spells(operator, "??=")
}

/// An operator without its `=`, which is its last character. Fails on allocation failure alone.
fn without_sign(alloc: Global, operator: &str) -> Result<Name, AllocError>
    ensures { IfOk result (λ s. s ≡ spec.without_sign (chars operator.now)) }
{
    let mut rest = operator.chars();
    rest.next_back();
    Name::new(alloc, rest.as_str())
}

/// `t += e`, `t ||= e`. Fails on allocation failure alone.
fn operator_assignment(
    alloc: Global,
    node: u32,
    operator: &str,
    left: &mut Member,
    right: &mut Code,
) -> Result<Code, AllocError>
    ensures { IfOk result (λ e. code_of e ≡ cond (spec.is_logical (chars operator.now)) (of.logical_assign node (spec.without_sign (chars operator.now)) (spec.target_of (spec.the_code (member_of left.old))) (code_of right.old)) (of.compound node (spec.without_sign (chars operator.now)) (spec.target_of (spec.the_code (member_of left.old))) (code_of right.old))) }
{
    let sign = without_sign(alloc, operator)?;
    let right = Boxed::new(alloc, mem::replace(right, Code::nothing()))?;
    let to = boxed_target(alloc, take_code(left))?;
    if is_logical(operator) {
        Ok(Code::logical_assign(node, sign, to, right))
    } else {
        Ok(Code::compound(node, sign, to, right))
    }
}

// ---- all assignments

/// `t = e`, `t += e`, where e is taken out. Fails on allocation failure alone.
fn assigned(
    alloc: Global,
    c: &Context,
    node: u32,
    operator: &Member,
    left: &mut Member,
    right: &mut Code,
) -> Result<Code, AllocError>
    ensures { IfOk result (λ e. code_of e ≡ spec.assignment_code (context_of c.now) node (members.more (member_of operator.now) (members.more (member_of left.old) (members.more (members.code (code_of right.old)) members.end)))) }
{
    if spells(word_of(operator), "=") {
        target_assignment(alloc, c, node, written_target(take_code(left)), right)
    } else {
        operator_assignment(alloc, node, word_of(operator), left, right)
    }
}

/// `t = e`, `t += e`: also what a lowering gives to what stands for private members. Fails on allocation failure alone.
pub fn assignment_code(
    alloc: Global,
    c: &Context,
    node: u32,
    operator: &Member,
    left: &mut Member,
    right: &mut Member,
) -> Result<Code, AllocError>
    ensures { IfOk result (λ e. code_of e ≡ spec.assignment_code (context_of c.now) node (members.more (member_of operator.now) (members.more (member_of left.old) (members.more (member_of right.old) members.end)))) }
{
    let mut right = take_code(right);
    let assigned = assigned(alloc, c, node, operator, left, &mut right);
    drop(right);
    assigned
}
