// Private members as helpers read, write and define them. (ECMA-262, 7.3.27 to 7.3.32.)

ghost use Rattle.std.specs.Prelude.{◌≡◌, ◌&&◌, IfOk, cond, option_map};
ghost use Rattle.es_codes.specs.CodeView.{code_of};
ghost use Rattle.es_codes.specs.View.{kind_of};
ghost use Rattle.es_seen_names.specs.PrivateMembers.{private_member_of};
ghost use Rattle.es_steps.specs.Code as of;
ghost use Rattle.es_steps.specs.GeneratedForms as spec;
ghost use Rattle.es_steps.specs.PrivateNames.{reference_of};
ghost use Rattle.es_validity.specs.Reached.{kind_in};
ghost use Rattle.es_code_reading.specs.Contexts.{this_of};
ghost use Rattle.es_code_helpers.specs.Brands.{brand_class, brand_class_of};

use crate::known::known_value;
use crate::moved::{from_call, take_boxed};
use es_base::kind::Kind;
use es_base::ledger::GeneratedKind;
use es_base::list::List;
use es_code_reading::context::This;
use es_code_reading::form::kind_of_name;
use es_code_reading::letters::is_brand;
use es_code_reading::private_name::reference_to;
use es_codes::boxed::Boxed;
use es_codes::code::{Code, Target};
use es_codes::event::Operation;
use es_codes::name::NameKind;
use es_seen_names::private_member::PrivateMember;
use es_validity::privates::PrivateKind;
use std::alloc::{AllocError, Global};

/// `o.#x`, where a generated form means `#x` of an object; no rule, where it means none.
pub fn read_private(node: u32, member: Option<PrivateMember>, object: Boxed<Code>) -> Code
    ensures { code_of result ≡ spec.read_private node (option_map private_member_of member.entry) (code_of object) }
{
    match member {
        Some(member) => Code::private_member(node, reference_to(&member), object),
        None => {
            drop(object);
            Code::no_rule()
        }
    }
}

/// What an assignment gives: the value that is assigned, which is told by the number of the assignment if this is one of the
/// source. Fails on allocation failure alone.
pub fn assigned_value(
    alloc: Global,
    is_new: bool,
    node: u32,
    value: Code,
) -> Result<Code, AllocError>
    ensures { IfOk result (λ e. code_of e ≡ spec.assigned_value is_new node (code_of value)) }
{
    if is_new {
        return Ok(value);
    }
    let mut operands = List::new(alloc);
    operands.push(value)?;
    let operation = Operation::OfKind {
        kind: Kind::AssignmentExpression,
        details: List::new(alloc),
    };
    Ok(Code::operation(node, operation, operands, List::new(alloc)))
}

/// `o.#x = v`, where a generated form means `#x` of an object; no rule, where it means none. Fails on allocation failure alone.
pub fn set_private(
    alloc: Global,
    is_new: bool,
    node: u32,
    member: Option<PrivateMember>,
    object: Boxed<Code>,
    value: Code,
) -> Result<Code, AllocError>
    ensures { IfOk result (λ e. code_of e ≡ spec.set_private is_new node (option_map private_member_of member.entry) (code_of object) (code_of value)) }
{
    match member {
        Some(member) => {
            let right = Boxed::new(alloc, assigned_value(alloc, is_new, node, value)?)?;
            let to = Target::to_private(node, reference_to(&member), object);
            Ok(Code::assign(Boxed::new(alloc, to)?, right))
        }
        None => {
            drop(object);
            drop(value);
            Ok(Code::no_rule())
        }
    }
}

/// Whether a private member is a method.
pub fn is_method_kind(kind: PrivateKind) -> bool
    ensures { result ≡ spec.is_method_kind (kind_in kind) }
{
    matches!(kind, PrivateKind::Method)
}

/// `o.#m`, where a helper asserts that the object has the brand of a private member before its function is used: a method is
/// read, and no other member is. Fails on allocation failure alone.
pub fn read_method(
    alloc: Global,
    node: u32,
    member: &PrivateMember,
    brand: &Code,
    object: &mut Code,
) -> Result<Code, AllocError>
    ensures { IfOk result (λ e. code_of e ≡ cond (spec.is_method_kind (private_member_of member.now).kind && spec.is_brand (private_member_of member.now) (code_of brand.now)) (of.from_call (of.private_member node (reference_of (private_member_of member.now)) (code_of object.old))) of.no_rule) }
{
    if is_method_kind(member.kind) && is_brand(member, brand) {
        let object = take_boxed(alloc, object)?;
        from_call(
            alloc,
            Code::private_member(node, reference_to(member), object),
        )
    } else {
        Ok(Code::no_rule())
    }
}

/// `#x = v`, a private field of a known object that is defined; no rule, where the field or the object is not known.
pub fn initialized_on(
    node: u32,
    member: Option<PrivateMember>,
    object: Option<This>,
    right: Boxed<Code>,
) -> Code
    ensures { code_of result ≡ spec.initialized_on node (option_map private_member_of member.entry) (option_map this_of object) (code_of right) }
{
    match member {
        Some(member) => match object {
            Some(object) => {
                Code::private_initialize(node, member.node, known_value(object), right)
            }
            None => {
                drop(right);
                Code::no_rule()
            }
        },
        None => {
            drop(right);
            Code::no_rule()
        }
    }
}

// ---- brands

fn brand_class_of(kind: &NameKind) -> Option<u32>
    ensures { result ≡ brand_class_of (kind_of kind.now) }
{
    match kind {
        NameKind::Generated(GeneratedKind::Brand(class)) => Some(class.0),
        _ => None,
    }
}

/// The class whose private methods a `WeakSet` brands, by its generated name.
#[tactic(auto, using(crate::proofs::Branded::brand_named, crate::proofs::Branded::brand_unnamed))]
fn brand_class(code: &Code) -> Option<u32>
    ensures { result ≡ brand_class (code_of code.now) }
{
    match kind_of_name(code) {
        Some(kind) => brand_class_of(kind),
        None => None,
    }
}

/// The brand of a class is added to a known object; no rule, where the brand or the object is not known.
#[tactic(auto, using(crate::proofs::Branded::branded, crate::proofs::Branded::unknown, crate::proofs::Branded::unbranded))]
pub fn brand_on(node: u32, brand: &Code, object: Option<This>) -> Code
    ensures { code_of result ≡ spec.brand_on node (code_of brand.now) (option_map this_of object) }
{
    match brand_class(brand) {
        Some(class) => match object {
            Some(object) => Code::add_brand(node, class, known_value(object)),
            None => Code::no_rule(),
        },
        None => Code::no_rule(),
    }
}
