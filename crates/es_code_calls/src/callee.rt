// What is called. (ECMA-262, 13.3.6.)

ghost use Rattle.std.specs.Prelude.{◌≡◌, IfOk};
ghost use Rattle.es_codes.specs.CodeView.{callee_of, code_of};
ghost use Rattle.es_steps.specs.Code as of;
ghost use Rattle.es_steps.specs.Expressions as spec;
ghost use Rattle.es_code_calls.specs.Called.{called_bound, called_member};

use es_codes::boxed::Boxed;
use es_codes::code::{Callee, Code};
use std::alloc::{AllocError, Global};

/// What is called by itself. Fails on allocation failure alone.
fn plain(alloc: Global, code: Code) -> Result<Callee, AllocError>
    ensures { IfOk result (λ f. callee_of f ≡ of.plain (code_of code)) }
{
    Ok(Callee::plain(Boxed::new(alloc, code)?))
}

/// What is called where no member stands: `f.bind(o)` hands on its object. Fails on allocation failure alone.
#[tactic(auto, using(crate::proofs::Called::of_bound, crate::proofs::Called::of_from_member, crate::proofs::Called::no_bound))]
fn called_bound(alloc: Global, code: Code) -> Result<Callee, AllocError>
    ensures { IfOk result (λ f. callee_of f ≡ called_bound (code_of code)) }
{
    match code {
        Code::Bound { function, object } => Ok(Callee::with_receiver(function, object)),
        Code::FromMember { expression } => {
            drop(expression);
            plain(alloc, Code::no_rule())
        }
        other => plain(alloc, other),
    }
}

/// What is called outside a chain: a member hands on its object. Fails on allocation failure alone.
#[tactic(auto, using(crate::proofs::Called::of_member, crate::proofs::Called::of_private, crate::proofs::Called::of_super, crate::proofs::Called::no_member))]
fn called_member(alloc: Global, code: Code) -> Result<Callee, AllocError>
    ensures { IfOk result (λ f. callee_of f ≡ called_member (code_of code)) }
{
    match code {
        Code::Member { node, object, key } => Ok(Callee::on_member(node, object, key)),
        Code::PrivateMember {
            node,
            means,
            object,
        } => Ok(Callee::on_private(node, means, object)),
        Code::SuperMember {
            node,
            home,
            key,
            this,
        } => Ok(Callee::on_super(node, home, key, this)),
        other => called_bound(alloc, other),
    }
}

/// What is called where a code stands as callee: `o.f` in `o.f(a)`, which hands on `o` as receiver, also at the end of a
/// chain. Fails on allocation failure alone.
#[tactic(auto, using(crate::proofs::Called::of_chain, crate::proofs::Called::of_tested, crate::proofs::Called::no_chain))]
pub fn called(alloc: Global, code: Code) -> Result<Callee, AllocError>
    ensures { IfOk result (λ f. callee_of f ≡ spec.callee_of (code_of code)) }
{
    match code {
        Code::Chain { node, expression } => {
            let inner = called(alloc, expression.into_inner())?;
            Ok(Callee::on_chain(node, Boxed::new(alloc, inner)?))
        }
        Code::Tested {
            object,
            again,
            rest,
        } => {
            let inner = called(alloc, rest.into_inner())?;
            Ok(Callee::behind_test(object, again, Boxed::new(alloc, inner)?))
        }
        other => called_member(alloc, other),
    }
}

/// What is called where a code stands as callee, in a box. Fails on allocation failure alone.
pub fn boxed_callee(alloc: Global, code: Code) -> Result<Boxed<Callee>, AllocError>
    ensures { IfOk result (λ f. callee_of f ≡ spec.callee_of (code_of code)) }
{
    Boxed::new(alloc, called(alloc, code)?)
}
