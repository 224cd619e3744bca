// The rule of calls of helpers.

ghost use Rattle.std.specs.Prelude.{◌≡◌, IfOk};
ghost use Rattle.es_codes.specs.CodeView.{code_of, codes_of, helper_of};
ghost use Rattle.es_steps.specs.GeneratedForms as spec;
ghost use Rattle.es_code_reading.specs.Contexts.{context_of};

use crate::private_call::{
    brand_asserted, field_get, field_initialized, field_set, methods_initialized, read_only_error,
    write_only_error,
};
use crate::property_call::{function_named, key_made, property_defined, super_read, super_written};
use es_base::list::List;
use es_code_reading::context::Context;
use es_codes::code::{Code, Helper};
use std::alloc::{AllocError, Global};

/// What `babelHelpers.h(a, b)` stands for; where it is a part of another form, itself. Fails on allocation failure alone.
#[tactic(auto, using(crate::proofs::Arguments::no_rule_of_its_own))]
pub fn helper_code(
    alloc: Global,
    c: &Context,
    node: u32,
    helper: Helper,
    arguments: List<Code>,
) -> Result<Code, AllocError>
    ensures { IfOk result (λ e. code_of e ≡ spec.helper_code (context_of c.now) node (helper_of helper) (codes_of arguments)) }
{
    match helper {
        Helper::DefineProperty => property_defined(alloc, node, arguments),
        Helper::ClassPrivateFieldInitSpec => field_initialized(alloc, c, node, arguments),
        Helper::ClassPrivateMethodInitSpec => Ok(methods_initialized(node, arguments)),
        Helper::ClassPrivateFieldGet2 => field_get(alloc, c, node, arguments),
        Helper::ClassPrivateFieldSet2 => field_set(alloc, c, node, arguments),
        Helper::AssertClassBrand => brand_asserted(alloc, c, node, arguments),
        Helper::ReadOnlyError => Ok(read_only_error(node, arguments)),
        Helper::WriteOnlyError => Ok(write_only_error(node, arguments)),
        Helper::SuperPropGet => super_read(alloc, node, arguments),
        Helper::SuperPropSet => super_written(alloc, c, node, arguments),
        Helper::SetFunctionName => function_named(alloc, node, arguments),
        Helper::ToPropertyKey => key_made(alloc, node, arguments),
        Helper::ToSetter
        | Helper::CheckInRHS
        | Helper::ClassPrivateFieldLooseKey
        | Helper::ClassPrivateFieldLooseBase => Ok(Code::helper_call(node, helper, arguments)),
    }
}
