// The rule of members. (ECMA-262, 13.3.2 and 13.3.7.)

ghost use Rattle.std.specs.Prelude.{◌≡◌, IfOk};
ghost use Rattle.es_codes.specs.CodeView.{code_of, codes_of};
ghost use Rattle.es_steps.specs.Code as of;
ghost use Rattle.es_steps.specs.Expressions as spec;
ghost use Rattle.es_steps.specs.GeneratedForms as generated;
ghost use Rattle.es_steps.specs.Members as members;
ghost use Rattle.es_code_members.specs.MembersView.{member_of};
ghost use Rattle.es_code_reading.specs.Contexts.{context_of};
ghost use Rattle.es_code_generated_members.specs.Accesses.{accessed};
ghost use Rattle.es_code_generated_members.specs.Members.{member_of_two};

use crate::access::Access;
use crate::loose::loose_member;
use crate::underscore::underscore_of;
use es_base::list::List;
use es_code_expressions::key::key_code;
use es_code_helpers::helper::helper_member;
use es_code_helpers::known::known_value;
use es_code_members::member::{Member, flag_of, take_code};
use es_code_reading::context::Context;
use es_code_reading::literals::is_string;
use es_codes::boxed::Boxed;
use es_codes::code::Code;
use std::alloc::{AllocError, Global};
use std::mem;

/// `super[k]`; no rule, where nothing is known that it is looked up on.
pub fn super_member_at(c: &Context, node: u32, key: Boxed<Code>) -> Code
    ensures { code_of result ≡ spec.super_member_at node (context_of c.now).home (code_of key) (context_of c.now).this }
{
    match c.around.home {
        Some(home) => Code::super_member(node, home, key, known_value(c.around.this)),
        None => {
            drop(key);
            Code::no_rule()
        }
    }
}

/// The member of an object, unless that is of a generated form. Fails on allocation failure alone.
pub fn generated_member(
    alloc: Global,
    c: &Context,
    access: Access,
    object: Code,
) -> Result<Code, AllocError>
    ensures { IfOk result (λ e. code_of e ≡ generated.generated_member (context_of c.now) access.node (code_of object) (code_of access.key) (accessed access (code_of object))) }
{
    if is_string("_", access.key.get()) {
        underscore_of(alloc, c, access, object)
    } else {
        loose_member(alloc, c, access, object)
    }
}

/// The member of an object, or of `super`. Fails on allocation failure alone.
#[tactic(auto, using(crate::proofs::MemberForms::on_super, crate::proofs::MemberForms::on_other))]
pub fn member_on(
    alloc: Global,
    c: &Context,
    access: Access,
    object: Code,
) -> Result<Code, AllocError>
    ensures { IfOk result (λ e. code_of e ≡ spec.member_on (context_of c.now) access.node access.is_optional (code_of object) (code_of access.key)) }
{
    match object {
        Code::Super => Ok(super_member_at(c, access.node, access.key)),
        other => generated_member(alloc, c, access, other),
    }
}

/// A member by the codes of its object and its key, which are taken out. Fails on allocation failure alone.
fn member_of_codes(
    alloc: Global,
    c: &Context,
    node: u32,
    object: &mut Code,
    key: &mut Code,
    is_computed: bool,
    is_optional: bool,
) -> Result<Code, AllocError>
    ensures { IfOk result (λ e. code_of e ≡ generated.helper_member (context_of c.now) is_computed (code_of object.old) (code_of key.old) (spec.member_on (context_of c.now) node is_optional (code_of object.old) (spec.key_code is_computed (code_of key.old)))) }
{
    match helper_member(c, is_computed, object, key) {
        Some(helper) => Ok(helper),
        None => {
            let key = key_code(is_computed, mem::replace(key, Code::nothing()));
            let access = Access {
                node,
                is_optional,
                key: Boxed::new(alloc, key)?,
            };
            member_on(alloc, c, access, mem::replace(object, Code::nothing()))
        }
    }
}

/// A member by the codes of its object and its key, if there are two. Fails on allocation failure alone.
#[tactic(auto, using(crate::proofs::MemberForms::not_two))]
fn member_of_two(
    alloc: Global,
    c: &Context,
    node: u32,
    codes: &mut [Code],
    is_computed: bool,
    is_optional: bool,
) -> Result<Code, AllocError>
    ensures { IfOk result (λ e. code_of e ≡ member_of_two (context_of c.now) node is_computed is_optional (codes_of codes.old)) }
{
    match codes {
        [object, key] => member_of_codes(alloc, c, node, object, key, is_computed, is_optional),
        _ => Ok(Code::no_rule()),
    }
}

/// The same, of codes that stand in a list.
fn member_of_list(
    alloc: Global,
    c: &Context,
    node: u32,
    mut codes: List<Code>,
    is_computed: bool,
    is_optional: bool,
) -> Result<Code, AllocError>
    ensures { IfOk result (λ e. code_of e ≡ member_of_two (context_of c.now) node is_computed is_optional (codes_of codes)) }
{
    member_of_two(
        alloc,
        c,
        node,
        codes.as_mut_slice(),
        is_computed,
        is_optional,
    )
}

/// The codes of an object and a key, which are taken out. Fails on allocation failure alone.
fn object_and_key(
    alloc: Global,
    object: &mut Member,
    key: &mut Member,
) -> Result<List<Code>, AllocError>
    ensures { IfOk result (λ es. codes_of es ≡ of.and (spec.the_code (member_of object.old)) (of.and (spec.the_code (member_of key.old)) of.done)) }
{
    let mut codes = List::new(alloc);
    codes.push(take_code(object))?;
    codes.push(take_code(key))?;
    Ok(codes)
}

/// `o.k` and `o[k]`, also of `super`, and what generated forms of these stand for. Fails on allocation failure alone.
pub fn member_code(
    alloc: Global,
    c: &Context,
    node: u32,
    object: &mut Member,
    key: &mut Member,
    is_computed: &Member,
    is_optional: &Member,
) -> Result<Code, AllocError>
    ensures { IfOk result (λ e. code_of e ≡ spec.member_code (context_of c.now) node (members.more (member_of object.old) (members.more (member_of key.old) (members.more (member_of is_computed.now) (members.more (member_of is_optional.now) members.end))))) }
{
    let codes = object_and_key(alloc, object, key)?;
    let is_computed = flag_of(is_computed);
    let is_optional = flag_of(is_optional);
    member_of_list(alloc, c, node, codes, is_computed, is_optional)
}
