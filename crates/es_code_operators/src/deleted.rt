// `delete`. (ECMA-262, 13.5.1.2.)

ghost use Rattle.std.specs.Prelude.{◌≡◌, IfOk, OnOk};
ghost use Rattle.es_codes.specs.CodeView.{code_of, codes_of};
ghost use Rattle.es_codes.specs.Constants.{origin_of};
ghost use Rattle.es_steps.specs.Code as of;
ghost use Rattle.es_steps.specs.Events.{Delete};
ghost use Rattle.es_steps.specs.Expressions as spec;
ghost use Rattle.es_code_members.specs.MembersView.{member_of};
ghost use Rattle.es_code_operators.specs.Deleting.{deleted_chain, deleted_whole, deletion, deletion_of};

use es_base::list::List;
use es_code_members::member::Member;
use es_codes::boxed::Boxed;
use es_codes::code::Code;
use es_codes::event::Operation;
use es_codes::value::{Origin, Value};
use std::alloc::{AllocError, Global};

/// What `delete` does with its operand.
#[derive(Debug, Clone, Copy, PartialEq, Eq)]
pub enum Deletion {
    /// A member is deleted, and not evaluated.
    InPlace,
    /// A chain, at its end.
    InChain,
    /// Nothing that a lowering makes is deleted.
    NoRule,
    /// `delete this` is true.
    Known,
    /// The operand is evaluated.
    Whole,
}

fn deletion_of_origin(origin: &Origin) -> Deletion
    ensures { result ≡ deletion_of (origin_of origin.now) }
{
    match origin {
        Origin::ThisOf(_) => Deletion::Known,
        Origin::ClassOf(_) => Deletion::Known,
        _ => Deletion::Whole,
    }
}

#[tactic(auto, using(crate::proofs::DeleteForms::key_whole))]
fn deletion_of_value(value: &Value) -> Deletion
    ensures { result ≡ deletion_of value.now }
{
    match value.origin() {
        Some(origin) => deletion_of_origin(origin),
        None => Deletion::Whole,
    }
}

#[tactic(auto, using(crate::proofs::DeleteForms::a_member, crate::proofs::DeleteForms::a_super_member, crate::proofs::DeleteForms::a_chain, crate::proofs::DeleteForms::a_generated_member, crate::proofs::DeleteForms::a_value, crate::proofs::DeleteForms::another))]
fn deletion_of_code(code: &Code) -> Deletion
    ensures { result ≡ deletion (code_of code.now) }
{
    match code {
        Code::Member { .. } => Deletion::InPlace,
        Code::SuperMember { .. } => Deletion::InPlace,
        Code::Chain { .. } => Deletion::InChain,
        Code::FromMember { .. } => Deletion::NoRule,
        Code::Value { value } => deletion_of_value(value),
        _ => Deletion::Whole,
    }
}

/// What `delete` does with what stands at a member.
pub fn deletion_at(operand: &Member) -> Deletion
    ensures { result ≡ deletion (spec.the_code (member_of operand.now)) }
{
    match operand {
        Member::Code(code) => deletion_of_code(code),
        _ => Deletion::Whole,
    }
}

// ---- deleting

fn delete_operation(alloc: Global, node: u32, operands: List<Code>) -> Code
    ensures { code_of result ≡ of.operation node Delete (codes_of operands) of.done }
{
    Code::operation(node, Operation::Delete, operands, List::new(alloc))
}

/// `delete e`, behind the last event. Fails on allocation failure alone.
#[tactic(auto, using(crate::proofs::DeleteForms::no_rule_deleted, crate::proofs::DeleteForms::whole_deleted))]
fn deleted_whole(alloc: Global, node: u32, code: Code) -> Result<Code, AllocError>
    ensures { IfOk result (λ c. code_of c ≡ deleted_whole node (code_of code)) }
{
    match code {
        Code::FromMember { expression } => {
            drop(expression);
            Ok(Code::no_rule())
        }
        other => {
            let mut operands = List::new(alloc);
            operands.push(other)?;
            Ok(delete_operation(alloc, node, operands))
        }
    }
}

/// `delete o[k]`, `delete super[k]`, and `delete` at the end of a chain: in place of a member. Fails on allocation failure alone.
#[tactic(auto, using(crate::proofs::DeleteForms::member_deleted, crate::proofs::DeleteForms::super_member_deleted, crate::proofs::DeleteForms::tested_deleted, crate::proofs::DeleteForms::other_deleted))]
pub fn deleted(alloc: Global, node: u32, code: Code) -> Result<Code, AllocError>
    ensures { IfOk result (λ c. code_of c ≡ spec.deleted node (code_of code)) }
{
    match code {
        Code::Member { object, key, .. } => {
            let mut operands = List::new(alloc);
            operands.push(object.into_inner())?;
            operands.push(key.into_inner())?;
            Ok(delete_operation(alloc, node, operands))
        }
        Code::SuperMember { key, this, .. } => {
            drop(this);
            let mut operands = List::new(alloc);
            operands.push(key.into_inner())?;
            Ok(delete_operation(alloc, node, operands))
        }
        Code::Tested {
            object,
            again,
            rest,
        } => {
            let rest = deleted(alloc, node, rest.into_inner())?;
            Ok(Code::tested(object, again, Boxed::new(alloc, rest)?))
        }
        other => deleted_whole(alloc, node, other),
    }
}

/// `delete o?.k`. Fails on allocation failure alone.
#[tactic(auto, using(crate::proofs::DeleteForms::chain_deleted, crate::proofs::DeleteForms::no_chain_deleted))]
pub fn deleted_chain(alloc: Global, node: u32, code: Code) -> Result<Code, AllocError>
    ensures { IfOk result (λ c. code_of c ≡ deleted_chain node (code_of code)) }
{
    match code {
        Code::Chain { expression, .. } => {
            let inner = deleted(alloc, node, expression.into_inner())?;
            Ok(Code::chain(node, Boxed::new(alloc, inner)?))
        }
        other => Ok(other),
    }
}
