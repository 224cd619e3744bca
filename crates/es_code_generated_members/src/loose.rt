// Private members that are kept as properties.

ghost use Rattle.std.specs.Prelude.{◌≡◌, IfOk, ℕ, cond, length, option_map};
ghost use Rattle.es_codes.specs.CodeView.{code_of, codes_of, helper_of};
ghost use Rattle.es_seen_names.specs.PrivateMembers.{private_member_of};
ghost use Rattle.es_steps.specs.Code as of;
ghost use Rattle.es_steps.specs.GeneratedForms as generated;
ghost use Rattle.es_steps.specs.Helpers as helpers;
ghost use Rattle.es_code_reading.specs.Contexts.{context_of};
ghost use Rattle.es_code_generated_members.specs.Accesses.{accessed};

use crate::access::Access;
use crate::kept::kept_name;
use es_base::list::List;
use es_code_helpers::moved::take_boxed;
use es_code_helpers::private::read_private;
use es_code_reading::context::Context;
use es_code_reading::letters::loose_key;
use es_codes::code::{Code, Helper};
use es_seen_names::private_member::PrivateMember;
use std::alloc::{AllocError, Global};

/// Whether both are the same private member.
fn same_number(left: Option<PrivateMember>, right: Option<PrivateMember>) -> bool
    ensures { result ≡ generated.same_number (option_map private_member_of left.entry) (option_map private_member_of right.entry) }
{
    match left {
        Some(left) => match right {
            Some(right) => left.node == right.node,
            None => false,
        },
        None => false,
    }
}

/// `babelHelpers.classPrivateFieldLooseBase(o, l)[k]`, where `l` is the key of a private member, and `k` is that again. Fails on
/// allocation failure alone.
fn loose_read(
    alloc: Global,
    c: &Context,
    node: u32,
    key: &Code,
    object: &mut Code,
    base: &Code,
) -> Result<Code, AllocError>
    ensures { IfOk result (λ e. code_of e ≡ cond (generated.same_number (generated.loose_key (context_of c.now) (code_of base.now)) (generated.loose_key (context_of c.now) (code_of key.now))) (generated.read_private node (generated.loose_key (context_of c.now) (code_of key.now)) (code_of object.old)) of.no_rule) }
{
    let member = loose_key(c, key);
    if same_number(loose_key(c, base), member) {
        Ok(read_private(node, member, take_boxed(alloc, object)?))
    } else {
        Ok(Code::no_rule())
    }
}

/// The same, by the arguments of the helper. Fails on allocation failure alone.
fn loose_read_by(
    alloc: Global,
    c: &Context,
    node: u32,
    key: &Code,
    arguments: &mut [Code],
) -> Result<Code, AllocError>
    requires { length arguments.old ≡ 2 }
    ensures { (call : ℕ) (whole : of.Code) → IfOk result (λ e. code_of e ≡ generated.loose_member (context_of c.now) node (of.helper_call call helpers.ClassPrivateFieldLooseBase (codes_of arguments.old)) (code_of key.now) whole) }
{
    match arguments {
        [object, base] => loose_read(alloc, c, node, key, object, base),
        _ => unreachable!(),
    }
}

/// A member of `babelHelpers.classPrivateFieldLooseBase(..)`. Fails on allocation failure alone.
#[tactic(auto, using(crate::proofs::LooseForms::no_base))]
fn member_of_base(
    alloc: Global,
    c: &Context,
    access: Access,
    call: u32,
    mut arguments: List<Code>,
) -> Result<Code, AllocError>
    ensures { IfOk result (λ e. code_of e ≡ generated.loose_member (context_of c.now) access.node (of.helper_call call helpers.ClassPrivateFieldLooseBase (codes_of arguments)) (code_of access.key) (accessed access (of.helper_call call helpers.ClassPrivateFieldLooseBase (codes_of arguments)))) }
{
    if arguments.len() == 2 {
        loose_read_by(
            alloc,
            c,
            access.node,
            access.key.get(),
            arguments.as_mut_slice(),
        )
    } else {
        let helper = Helper::ClassPrivateFieldLooseBase;
        access.on(alloc, Code::helper_call(call, helper, arguments))
    }
}

/// A member of a call of a helper. Fails on allocation failure alone.
#[tactic(auto, using(crate::proofs::LooseForms::other_helper))]
fn member_of_call(
    alloc: Global,
    c: &Context,
    access: Access,
    call: u32,
    helper: Helper,
    arguments: List<Code>,
) -> Result<Code, AllocError>
    ensures { IfOk result (λ e. code_of e ≡ generated.loose_member (context_of c.now) access.node (of.helper_call call (helper_of helper) (codes_of arguments)) (code_of access.key) (accessed access (of.helper_call call (helper_of helper) (codes_of arguments)))) }
{
    match helper {
        Helper::ClassPrivateFieldLooseBase => member_of_base(alloc, c, access, call, arguments),
        other => access.on(alloc, Code::helper_call(call, other, arguments)),
    }
}

/// A member that is kept as a property, or that gives a value its name, or another one. Fails on allocation failure alone.
#[tactic(auto, using(crate::proofs::LooseForms::of_helper_call, crate::proofs::LooseForms::of_other))]
pub fn loose_member(
    alloc: Global,
    c: &Context,
    access: Access,
    object: Code,
) -> Result<Code, AllocError>
    ensures { IfOk result (λ e. code_of e ≡ generated.loose_member (context_of c.now) access.node (code_of object) (code_of access.key) (generated.kept_name (code_of access.key) (generated.single_property (context_of c.now) (code_of object)) (accessed access (code_of object)))) }
{
    match object {
        Code::HelperCall {
            node: call,
            helper,
            arguments,
        } => member_of_call(alloc, c, access, call, helper, arguments),
        other => kept_name(alloc, c, access, other),
    }
}
