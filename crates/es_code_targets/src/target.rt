// What is written where a code stands as target. (ECMA-262, 13.15.1.)

ghost use Rattle.std.specs.Prelude.{◌≡◌, IfOk};
ghost use Rattle.es_codes.specs.CodeView.{code_of, target_of};
ghost use Rattle.es_steps.specs.Expressions as spec;
ghost use Rattle.es_code_targets.specs.Written.{written_member, written_pattern};

use es_codes::boxed::Boxed;
use es_codes::code::{Code, Target};
use std::alloc::{AllocError, Global};

/// What is written where a setter or a pattern stands.
#[tactic(auto, using(crate::proofs::Written::of_setter, crate::proofs::Written::of_pattern, crate::proofs::Written::no_pattern))]
fn written_pattern(code: Code) -> Target
    ensures { target_of result ≡ written_pattern (code_of code) }
{
    match code {
        Code::Setter { node, key, object } => Target::to_setter(node, key, object),
        Code::Pattern { to, .. } => to.into_inner(),
        other => {
            drop(other);
            Target::no_target()
        }
    }
}

/// What is written where a member stands, or what no name is.
#[tactic(auto, using(crate::proofs::Written::of_member, crate::proofs::Written::of_private, crate::proofs::Written::of_super, crate::proofs::Written::no_member))]
fn written_member(code: Code) -> Target
    ensures { target_of result ≡ written_member (code_of code) }
{
    match code {
        Code::Member { node, object, key } => Target::to_member(node, object, key),
        Code::PrivateMember {
            node,
            means,
            object,
        } => Target::to_private(node, means, object),
        Code::SuperMember {
            node,
            home,
            key,
            this,
        } => Target::to_super(node, home, key, this),
        other => written_pattern(other),
    }
}

/// What is written where a code stands as target: `x` in `x = e`, `o[k]` in `o[k] = e`.
#[tactic(auto, using(crate::proofs::Written::of_name, crate::proofs::Written::of_binding, crate::proofs::Written::of_from_member, crate::proofs::Written::no_name))]
pub fn written_target(code: Code) -> Target
    ensures { target_of result ≡ spec.target_of (code_of code) }
{
    match code {
        Code::Name {
            node,
            spelling,
            kind,
        } => Target::to_name(node, spelling, kind),
        Code::Binding {
            node,
            spelling,
            kind,
        } => Target::to_name(node, spelling, kind),
        Code::FromMember { expression } => written_target(expression.into_inner()),
        other => written_member(other),
    }
}

/// What is written where a code stands as target, in a box. Fails on allocation failure alone.
pub fn boxed_target(alloc: Global, code: Code) -> Result<Boxed<Target>, AllocError>
    ensures { IfOk result (λ to. target_of to ≡ spec.target_of (code_of code)) }
{
    Boxed::new(alloc, written_target(code))
}
