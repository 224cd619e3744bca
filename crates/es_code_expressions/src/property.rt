// The properties of objects. (ECMA-262, 13.2.5.)

ghost use Rattle.std.specs.Prelude.{◌≡◌, ◌++◌, IfOk, OnOk, not, ◌&&◌, ◌||◌, bytes_eq, codes};
ghost use Rattle.es_codes.specs.CodeView.{code_of, codes_of};
ghost use Rattle.es_codes.specs.Constants.{origin_of};
ghost use Rattle.es_codes.specs.View.{details_of};
ghost use Rattle.es_steps.specs.Code as of;
ghost use Rattle.es_steps.specs.Code.{joined};
ghost use Rattle.es_steps.specs.Expressions as spec;
ghost use Rattle.es_steps.specs.Expressions.{the_code};
ghost use Rattle.es_steps.specs.Members as members;
ghost use Rattle.es_code_members.specs.MembersView.{member_of};
ghost use Rattle.es_code_targets.specs.ConstantKeys.{said_by_key};
ghost use Rattle.es_code_targets.specs.PropertyView.{members_of_property};
ghost use Rattle.es_code_expressions.specs.Properties.{value_details, converted_operands};

use es_base::list::List;
use es_base::name::Name;
use es_base::strings::is_word;
use es_code_members::member::{Member, copy_word, flag_of, take_code, word_of};
use es_code_targets::key::add_details_of_key;
use es_code_targets::pattern::PropertyMembers;
use es_codes::boxed::Boxed;
use es_codes::code::Code;
use es_codes::event::Detail;
use es_codes::value::{Constant, Origin, Value};
use std::alloc::{AllocError, Global};

/// Adds what stands in a property behind its key. Fails on allocation failure alone.
fn add_value_details(
    kind: Name,
    is_method: bool,
    details: &mut List<Detail>,
) -> Result<(), AllocError>
    ensures { OnOk result (details_of details.new ≡ details_of details.old ++ value_details kind is_method) }
{
    details.push(Detail::Operand)?;
    details.push(Detail::Spelled(kind))?;
    details.push(Detail::Flag(is_method))
}

/// Whether `__proto__` would set the prototype.
#[tactic(auto, using(es_base::proofs::Ascii::chars_ascii))]
fn sets_prototype(property: &PropertyMembers) -> bool
    ensures { result ≡ (bytes_eq (members.word_of (member_of property.now.kind)) (codes "init") && not (members.flag_of (member_of property.now.is_method) || members.flag_of (member_of property.now.is_shorthand))) }
{
    is_word("init", word_of(&property.kind))
        && !(flag_of(&property.is_method) || flag_of(&property.is_shorthand))
}

fn is_number(origin: &Origin) -> bool
    ensures { result ≡ spec.is_numeric (of.value (origin_of origin.now)) }
{
    matches!(
        origin,
        Origin::ConstantOf(Constant::NumberOf(_)) | Origin::ConstantOf(Constant::BigIntOf(_))
    )
}

#[tactic(auto, using(crate::proofs::NumericKeys::no_number))]
fn is_number_value(value: &Value) -> bool
    ensures { result ≡ spec.is_numeric (of.value value.now) }
{
    match value.origin() {
        Some(origin) => is_number(origin),
        None => false,
    }
}

#[tactic(auto, using(crate::proofs::NumericKeys::numeric_value, crate::proofs::NumericKeys::others_numeric))]
fn is_numeric_code(key: &Code) -> bool
    ensures { result ≡ spec.is_numeric (code_of key.now) }
{
    match key {
        Code::Value { value } => is_number_value(value),
        _ => false,
    }
}

/// Whether a key is a number: `{ 1: v }`.
fn is_numeric(key: &Member) -> bool
    ensures { result ≡ spec.is_numeric (the_code (member_of key.now)) }
{
    match key {
        Member::Code(code) => is_numeric_code(code),
        _ => false,
    }
}

/// Adds the key of a property: to the operands if it is converted where it stands, as `k` in `{ [k]: v }` and `1` in
/// `{ 1: v }`, else what it says to the details. Fails on allocation failure alone.
#[tactic(auto, using(es_code_members::proofs::Chaining::joined_none, es_code_members::proofs::Chaining::joined_one))]
fn add_key_or_conversion(
    alloc: Global,
    key: &mut Member,
    is_operand: bool,
    sets_prototype: bool,
    details: &mut List<Detail>,
    operands: &mut List<Code>,
) -> Result<(), AllocError>
    ensures details { OnOk result (details_of details.new ≡ details_of details.old ++ said_by_key is_operand sets_prototype (the_code (member_of key.old))) }
    ensures operands { OnOk result (codes_of operands.new ≡ joined (codes_of operands.old) (converted_operands is_operand (the_code (member_of key.old)))) }
{
    if is_operand {
        details.push(Detail::Operand)?;
        operands.push(Code::key_of(Boxed::new(alloc, take_code(key))?))
    } else {
        add_details_of_key(alloc, key, sets_prototype, details)
    }
}

/// `k: v` in an object. Fails on allocation failure alone.
#[tactic(auto, using(crate::proofs::PropertyForms::of_property, es_code_members::proofs::Chaining::joined_one, es_code_members::proofs::Chaining::joined_nothing))]
pub fn property_code(alloc: Global, property: &mut PropertyMembers) -> Result<Code, AllocError>
    ensures { IfOk result (λ c. code_of c ≡ spec.property_code (members_of_property property.old)) }
{
    let kind = copy_word(alloc, &property.kind)?;
    let is_method = flag_of(&property.is_method);
    let is_operand = flag_of(&property.is_computed) || is_numeric(&property.key);
    let sets_prototype = sets_prototype(property);
    let mut details = List::new(alloc);
    let mut operands = List::new(alloc);
    add_key_or_conversion(
        alloc,
        &mut property.key,
        is_operand,
        sets_prototype,
        &mut details,
        &mut operands,
    )?;
    add_value_details(kind, is_method, &mut details)?;
    operands.push(take_code(&mut property.value))?;
    Ok(Code::piece(details, operands))
}
