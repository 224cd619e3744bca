// `({ k: e })[k]`, where `e` gets the name `k`.

ghost use Rattle.std.specs.Prelude.{◌≡◌, IfOk, option_map};
ghost use Rattle.es_codes.specs.CodeView.{code_of};
ghost use Rattle.es_steps.specs.Code as of;
ghost use Rattle.es_steps.specs.GeneratedForms as generated;
ghost use Rattle.es_code_new_literals.specs.Views.{property_of};
ghost use Rattle.es_code_reading.specs.Contexts.{context_of};
ghost use Rattle.es_code_generated_members.specs.Accesses.{accessed};
ghost use Rattle.es_code_generated_members.specs.Kept.{kept_value, named_value};

use crate::access::{Access, from_member};
use es_base::list::List;
use es_code_helpers::moved::from_call;
use es_code_new_literals::property::{Property, is_keyed_by, single_property};
use es_code_reading::context::Context;
use es_codes::code::Code;
use std::alloc::{AllocError, Global};

/// The key and the value in order, of which the value is used. Fails on allocation failure alone.
fn named_value(alloc: Global, property: Property) -> Result<Code, AllocError>
    ensures { IfOk result (λ e. code_of e ≡ named_value (property_of property)) }
{
    let Property { key, value } = property;
    let mut all = List::new(alloc);
    all.push(key.into_inner())?;
    all.push(value.into_inner())?;
    from_member(alloc, from_call(alloc, Code::sequence(all))?)
}

/// The value of the property that is kept; no rule without one. Fails on allocation failure alone.
fn kept_value(alloc: Global, property: Option<Property>) -> Result<Code, AllocError>
    ensures { IfOk result (λ e. code_of e ≡ kept_value (option_map property_of property)) }
{
    match property {
        Some(property) => named_value(alloc, property),
        None => Ok(Code::no_rule()),
    }
}

/// `({ k: e })[k]`, or another member. Fails on allocation failure alone.
pub fn kept_name(
    alloc: Global,
    c: &Context,
    access: Access,
    object: Code,
) -> Result<Code, AllocError>
    ensures { IfOk result (λ e. code_of e ≡ generated.kept_name (code_of access.key) (generated.single_property (context_of c.now) (code_of object)) (accessed access (code_of object))) }
{
    if is_keyed_by(c, &object, access.key.get()) {
        kept_value(alloc, single_property(alloc, c, object)?)
    } else {
        access.on(alloc, object)
    }
}
