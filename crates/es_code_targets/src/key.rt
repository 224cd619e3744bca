// Keys that are not computed. (ECMA-262, 13.2.5.)

ghost use Rattle.std.specs.Prelude.{◌≡◌, ◌++◌, IfOk, OnOk, bytes_eq, codes, option_map};
ghost use Rattle.es_codes.specs.CodeView.{code_of, codes_of};
ghost use Rattle.es_codes.specs.Constants as constants;
ghost use Rattle.es_codes.specs.Constants.{origin_of};
ghost use Rattle.es_codes.specs.View.{detail_of, details_of};
ghost use Rattle.es_steps.specs.Code.{joined};
ghost use Rattle.es_steps.specs.Expressions.{the_code};
ghost use Rattle.es_code_members.specs.MembersView.{member_of};
ghost use Rattle.es_code_targets.specs.ConstantKeys.{constant_key, constant_in, detail_of_key, details_where, said_by_key, key_operands};

use es_base::list::List;
use es_base::name::Name;
use es_base::strings::is_word;
use es_code_members::member::{Member, take_code};
use es_codes::code::Code;
use es_codes::event::Detail;
use es_codes::value::{Constant, Origin, Value};
use std::alloc::{AllocError, Global};

fn constant_from(alloc: Global, origin: &Origin) -> Result<Option<Constant>, AllocError>
    ensures { IfOk result (λ k. option_map constants.constant_of k ≡ constant_in (origin_of origin.now)) }
{
    match origin {
        Origin::ConstantOf(constant) => Ok(Some(constant.try_clone(alloc)?)),
        _ => Ok(None),
    }
}

/// A copy of the constant that a value is.
#[tactic(auto, using(crate::proofs::KeyDetails::no_constant))]
fn constant_in(alloc: Global, value: &Value) -> Result<Option<Constant>, AllocError>
    ensures { IfOk result (λ k. option_map constants.constant_of k ≡ constant_in value.now) }
{
    match value.origin() {
        Some(origin) => constant_from(alloc, origin),
        None => Ok(None),
    }
}

/// A copy of the constant that a key is. Fails on allocation failure alone.
#[tactic(auto, using(crate::proofs::ConstantForms::of_spelled, crate::proofs::ConstantForms::of_value, crate::proofs::ConstantForms::of_others))]
fn constant_key(alloc: Global, key: &Code) -> Result<Option<Constant>, AllocError>
    ensures { IfOk result (λ k. option_map constants.constant_of k ≡ constant_key (code_of key.now)) }
{
    match key {
        Code::Spelled { spelling } => Ok(Some(Constant::StringOf(spelling.try_clone(alloc)?))),
        Code::Value { value } => constant_in(alloc, value),
        _ => Ok(None),
    }
}

#[tactic(auto, using(es_base::proofs::Ascii::chars_ascii))]
fn is_prototype(name: &Name) -> bool
    ensures { result ≡ bytes_eq name.now (codes "__proto__") }
{
    is_word("__proto__", name.as_str())
}

/// What a key says that is a constant; in an object, `__proto__: v` sets the prototype.
fn key_detail(key: Constant, sets_prototype: bool) -> Detail
    ensures { detail_of result ≡ detail_of_key sets_prototype (constants.constant_of key) }
{
    match key {
        Constant::StringOf(name) => {
            if is_prototype(&name) && sets_prototype {
                Detail::Prototype
            } else {
                Detail::Key(Constant::StringOf(name))
            }
        }
        other => Detail::Key(other),
    }
}

/// Adds what a key says that is not computed. Fails on allocation failure alone.
#[tactic(auto, using(crate::proofs::KeyDetails::details_of_key, crate::proofs::KeyDetails::details_of_none))]
fn add_key_details(
    alloc: Global,
    key: &Code,
    sets_prototype: bool,
    details: &mut List<Detail>,
) -> Result<(), AllocError>
    ensures { OnOk result (details_of details.new ≡ details_of details.old ++ details_where sets_prototype (code_of key.now)) }
{
    match constant_key(alloc, key)? {
        Some(key) => details.push(key_detail(key, sets_prototype)),
        None => Ok(()),
    }
}

/// Adds what a key says that stands at a member and is not computed. Fails on allocation failure alone.
pub fn add_details_of_key(
    alloc: Global,
    key: &Member,
    sets_prototype: bool,
    details: &mut List<Detail>,
) -> Result<(), AllocError>
    ensures { OnOk result (details_of details.new ≡ details_of details.old ++ details_where sets_prototype (the_code (member_of key.now))) }
{
    match key {
        Member::Code(code) => add_key_details(alloc, code, sets_prototype, details),
        _ => Ok(()),
    }
}

/// Adds the key of a property: to the operands if it is computed, as `k` in `{ [k]: v }`, else what it says to the details.
/// Fails on allocation failure alone.
#[tactic(auto, using(es_code_members::proofs::Chaining::joined_none, es_code_members::proofs::Chaining::joined_one))]
pub fn add_key(
    alloc: Global,
    key: &mut Member,
    is_computed: bool,
    sets_prototype: bool,
    details: &mut List<Detail>,
    operands: &mut List<Code>,
) -> Result<(), AllocError>
    ensures details { OnOk result (details_of details.new ≡ details_of details.old ++ said_by_key is_computed sets_prototype (the_code (member_of key.old))) }
    ensures operands { OnOk result (codes_of operands.new ≡ joined (codes_of operands.old) (key_operands is_computed (the_code (member_of key.old)))) }
{
    if is_computed {
        details.push(Detail::Operand)?;
        operands.push(take_code(key))
    } else {
        add_details_of_key(alloc, key, sets_prototype, details)
    }
}
