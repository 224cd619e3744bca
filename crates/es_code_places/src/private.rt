// Members with private names, and whether an object has one. (ECMA-262, 13.3.2 and 13.10.1.)

ghost use Rattle.std.specs.Prelude.{◌≡◌, IfOk, Some, option_map};
ghost use Rattle.es_codes.specs.CodeView.{code_of};
ghost use Rattle.es_codes.specs.View.{reference_of, test_of};
ghost use Rattle.es_steps.specs.Expressions as spec;
ghost use Rattle.es_steps.specs.GeneratedForms as generated;
ghost use Rattle.es_steps.specs.Members as members;
ghost use Rattle.es_steps.specs.PrivateNames as privates;
ghost use Rattle.es_code_members.specs.MembersView.{member_of};
ghost use Rattle.es_code_reading.specs.Contexts.{context_of};
ghost use Rattle.es_code_places.specs.PrivateKeys.{asked_by, is_super, private_named};

use es_base::name::Name;
use es_code_expressions::key::checked_object;
use es_code_members::member::{Member, flag_of, take_code};
use es_code_reading::context::Context;
use es_code_reading::letters::class_named;
use es_codes::boxed::Boxed;
use es_codes::code::Code;
use es_codes::event::PrivateTest;
use es_codes::name::PrivateReference;
use es_shapes::asked::lowers_fields;
use std::alloc::{AllocError, Global};

/// Whether the private name was generated for the class of what it means.
fn is_made_private(c: &Context, name: &Name, means: PrivateReference) -> bool
    ensures { result ≡ spec.is_made_private (context_of c.now) name.now (reference_of means) }
{
    c.terms
        .ledger
        .is_generated_private(name.as_str(), means.class)
}

// ---- members

/// Whether an object is a name of the class of what a private name means.
fn names_class(means: PrivateReference, object: &Code) -> bool
    ensures { result ≡ spec.names_class (reference_of means) (generated.class_named (code_of object.now)) }
{
    match class_named(object) {
        Some(class) => means.class == class,
        None => false,
    }
}

fn is_on_class(means: PrivateReference, object: &Member) -> bool
    ensures { result ≡ spec.names_class (reference_of means) (generated.class_named (spec.the_code (member_of object.now))) }
{
    match object {
        Member::Code(code) => names_class(means, code),
        _ => false,
    }
}

/// `o.#x`: on a name of its class, a private name that was generated stands for what its element holds. Fails on allocation
/// failure alone.
fn private_on(
    alloc: Global,
    c: &Context,
    node: u32,
    is_optional: bool,
    object: &mut Member,
    name: &Name,
    means: PrivateReference,
) -> Result<Code, AllocError>
    ensures { IfOk result (λ e. code_of e ≡ spec.private_on (context_of c.now) node name.now (Some (reference_of means)) (spec.the_code (member_of object.old)) (spec.checked_object is_optional (spec.the_code (member_of object.old)))) }
{
    if is_made_private(c, name, means) {
        if is_on_class(means, object) {
            Ok(Code::private_value(name.try_clone(alloc)?))
        } else {
            Ok(Code::no_rule())
        }
    } else {
        let object = checked_object(alloc, is_optional, take_code(object))?;
        Ok(Code::private_member(node, means, Boxed::new(alloc, object)?))
    }
}

/// `super`
#[tactic(auto, using(crate::proofs::PrivateForms::a_super, crate::proofs::PrivateForms::no_super))]
fn is_super_code(code: &Code) -> bool
    ensures { result ≡ is_super (code_of code.now) }
{
    matches!(code, Code::Super)
}

fn is_super(object: &Member) -> bool
    ensures { result ≡ is_super (spec.the_code (member_of object.now)) }
{
    match object {
        Member::Code(code) => is_super_code(code),
        _ => false,
    }
}

/// A member with this private name, if a class around declares it; `super` has none. Fails on allocation failure alone.
#[tactic(auto, using(crate::proofs::PrivateForms::on_super, crate::proofs::PrivateForms::on_other, crate::proofs::PrivateForms::no_meaning))]
fn private_named(
    alloc: Global,
    c: &Context,
    node: u32,
    is_optional: bool,
    object: &mut Member,
    name: &Name,
    means: Option<PrivateReference>,
) -> Result<Code, AllocError>
    ensures { IfOk result (λ e. code_of e ≡ private_named (context_of c.now) node is_optional name.now (option_map reference_of means) (spec.the_code (member_of object.old))) }
{
    match means {
        Some(means) => {
            if is_super(object) {
                Ok(Code::no_rule())
            } else {
                private_on(alloc, c, node, is_optional, object, name, means)
            }
        }
        None => Ok(Code::no_rule()),
    }
}

#[tactic(auto, using(crate::proofs::PrivateForms::by_name, crate::proofs::PrivateForms::by_other))]
fn private_field_of(
    alloc: Global,
    c: &Context,
    node: u32,
    is_optional: bool,
    object: &mut Member,
    key: &Code,
) -> Result<Code, AllocError>
    ensures { IfOk result (λ e. code_of e ≡ spec.private_field_of (context_of c.now) node is_optional (spec.the_code (member_of object.old)) (code_of key.now)) }
{
    match key {
        Code::PrivateName {
            spelling,
            means,
            ..
        } => private_named(alloc, c, node, is_optional, object, spelling, *means),
        _ => Ok(Code::no_rule()),
    }
}

/// `o.#x`. Fails on allocation failure alone.
#[tactic(auto, using(crate::proofs::PrivateForms::no_key))]
pub fn private_field_code(
    alloc: Global,
    c: &Context,
    node: u32,
    object: &mut Member,
    key: &Member,
    is_computed: &Member,
    is_optional: &Member,
) -> Result<Code, AllocError>
    ensures { IfOk result (λ e. code_of e ≡ spec.private_field_code (context_of c.now) node (members.more (member_of object.old) (members.more (member_of key.now) (members.more (member_of is_computed.now) (members.more (member_of is_optional.now) members.end))))) }
{
    match key {
        Member::Code(key) => { private_field_of(alloc, c, node, flag_of(is_optional), object, key) }
        _ => Ok(Code::no_rule()),
    }
}

// ---- `#x in o`

fn field_or_brand(means: PrivateReference, key: Option<u32>) -> PrivateTest
    ensures { test_of result ≡ privates.field_test (reference_of means) key }
{
    match key {
        Some(key) => PrivateTest::HasField(key),
        None => PrivateTest::HasBrand(means.class),
    }
}

/// What `#x in o` asks where the member is lowered, or of an instance.
fn lowered_test(means: PrivateReference) -> PrivateTest
    ensures { test_of result ≡ privates.test_of (reference_of means) }
{
    if means.is_static {
        PrivateTest::IsClass(means.class)
    } else if means.is_field {
        field_or_brand(means, means.reads)
    } else {
        PrivateTest::HasBrand(means.class)
    }
}

/// What it asks of a static member that is not lowered.
fn static_test(means: PrivateReference) -> PrivateTest
    ensures { test_of result ≡ spec.static_test (reference_of means) means.reads }
{
    match means.reads {
        Some(key) => PrivateTest::HasField(key),
        None => field_or_brand(means, means.writes),
    }
}

fn test_in(c: &Context, means: PrivateReference) -> PrivateTest
    ensures { test_of result ≡ spec.test_in (context_of c.now) (reference_of means) }
{
    if means.is_static && !lowers_fields(&c.terms.options) {
        static_test(means)
    } else {
        lowered_test(means)
    }
}

/// `#x in o`, where `#x` means this; no lowering asks for a generated element. Fails on allocation failure alone.
fn private_in(
    alloc: Global,
    c: &Context,
    node: u32,
    name: &Name,
    means: Option<PrivateReference>,
    object: &mut Member,
) -> Result<Code, AllocError>
    ensures { IfOk result (λ e. code_of e ≡ asked_by (context_of c.now) node name.now (option_map reference_of means) (spec.the_code (member_of object.old))) }
{
    match means {
        Some(means) => {
            if is_made_private(c, name, means) {
                Ok(Code::no_rule())
            } else {
                let object = Boxed::new(alloc, take_code(object))?;
                Ok(Code::private_in(node, test_in(c, means), object))
            }
        }
        None => Ok(Code::no_rule()),
    }
}

#[tactic(auto, using(crate::proofs::PrivateForms::asked, crate::proofs::PrivateForms::unasked))]
fn private_in_of(
    alloc: Global,
    c: &Context,
    node: u32,
    key: &Code,
    object: &mut Member,
) -> Result<Code, AllocError>
    ensures { IfOk result (λ e. code_of e ≡ spec.private_in_of (context_of c.now) node (code_of key.now) (spec.the_code (member_of object.old))) }
{
    match key {
        Code::PrivateName {
            spelling,
            means,
            ..
        } => private_in(alloc, c, node, spelling, *means, object),
        _ => Ok(Code::no_rule()),
    }
}

/// `#x in o`. Fails on allocation failure alone.
pub fn private_in_code(
    alloc: Global,
    c: &Context,
    node: u32,
    operator: &Member,
    key: &Member,
    object: &mut Member,
) -> Result<Code, AllocError>
    ensures { IfOk result (λ e. code_of e ≡ spec.private_in_code (context_of c.now) node (members.more (member_of operator.now) (members.more (member_of key.now) (members.more (member_of object.old) members.end)))) }
{
    match key {
        Member::Code(key) => private_in_of(alloc, c, node, key, object),
        _ => Ok(Code::no_rule()),
    }
}
