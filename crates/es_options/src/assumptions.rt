// The assumptions that a JSON value holds.

ghost use Rattle.std.specs.Prelude.{◌≡◌};
ghost use Rattle.es_options.specs.Assumptions.{assumption_keys, is_true, flag, are_assumptions, holds_assumptions, assumptions_in, from_value};
ghost use Rattle.es_base.specs.Conforms.{is_among};
ghost use Rattle.serde_json.specs.View.{view, members_view};

use es_base::strings::is_among;
use es_steps::options::CompilerAssumptions;
use serde_json::{Map, Value};
use thiserror::Error;

/// The value is no object of assumptions.
#[derive(Debug, Clone, Copy, PartialEq, Eq, Error)]
#[error("bad assumptions")]
pub struct BadAssumptions;

/// Reading from a JSON value.
pub trait FromValue: Sized {
    /// What the value holds, or that it holds no such thing.
    fn from_value(value: &Value) -> Result<Self, BadAssumptions>;
}

impl FromValue for CompilerAssumptions {
    /// The assumptions of an object whose keys are the names of assumptions in camel case, as
    /// `setPublicClassFields`, and whose values are booleans; those that have no key are false. Fails
    /// exactly where the value is no such object. (Babel's `assumptions`, as oxc reads them.) Allocates
    /// nothing.
    fn from_value(value: &Value) -> Result<CompilerAssumptions, BadAssumptions>
        ensures { result ≡ from_value (view value.now) }
    {
        if holds_assumptions(value) {
            Ok(assumptions_in(value))
        } else {
            Err(BadAssumptions)
        }
    }
}

fn assumptions_in(value: &Value) -> CompilerAssumptions
    ensures { result ≡ assumptions_in (view value.now) }
{
    CompilerAssumptions {
        array_like_is_iterable: flag(value, "arrayLikeIsIterable"),
        constant_reexports: flag(value, "constantReexports"),
        constant_super: flag(value, "constantSuper"),
        enumerable_module_meta: flag(value, "enumerableModuleMeta"),
        ignore_function_length: flag(value, "ignoreFunctionLength"),
        ignore_to_primitive_hint: flag(value, "ignoreToPrimitiveHint"),
        iterable_is_array: flag(value, "iterableIsArray"),
        mutable_template_object: flag(value, "mutableTemplateObject"),
        no_class_calls: flag(value, "noClassCalls"),
        no_document_all: flag(value, "noDocumentAll"),
        no_incomplete_ns_import_detection: flag(value, "noIncompleteNsImportDetection"),
        no_new_arrows: flag(value, "noNewArrows"),
        no_uninitialized_private_field_access: flag(value, "noUninitializedPrivateFieldAccess"),
        object_rest_no_symbols: flag(value, "objectRestNoSymbols"),
        private_fields_as_symbols: flag(value, "privateFieldsAsSymbols"),
        private_fields_as_properties: flag(value, "privateFieldsAsProperties"),
        pure_getters: flag(value, "pureGetters"),
        set_class_methods: flag(value, "setClassMethods"),
        set_computed_properties: flag(value, "setComputedProperties"),
        set_public_class_fields: flag(value, "setPublicClassFields"),
        set_spread_properties: flag(value, "setSpreadProperties"),
        skip_for_of_iterator_closing: flag(value, "skipForOfIteratorClosing"),
        super_is_callable_constructor: flag(value, "superIsCallableConstructor"),
    }
}

/// Whether the value is an object of assumptions.
fn holds_assumptions(value: &Value) -> bool
    ensures { result ≡ holds_assumptions (view value.now) }
{
    match value {
        Value::Object(members) => are_assumptions(members),
        _ => false,
    }
}

/// Whether each key is the name of an assumption, and its value a boolean.
fn are_assumptions(members: &Map<String, Value>) -> bool
    ensures { result ≡ are_assumptions (members_view members.now.entries) }
{
    for (key, value) in members.iter() {
        if !(is_assumption(key.as_str()) && value.as_bool().is_some()) {
            return false;
        }
    }
    true
}

fn is_assumption(key: &str) -> bool
    ensures { result ≡ is_among key.now assumption_keys }
{
    is_among(
        key,
        &[
            "arrayLikeIsIterable",
            "constantReexports",
            "constantSuper",
            "enumerableModuleMeta",
            "ignoreFunctionLength",
            "ignoreToPrimitiveHint",
            "iterableIsArray",
            "mutableTemplateObject",
            "noClassCalls",
            "noDocumentAll",
            "noIncompleteNsImportDetection",
            "noNewArrows",
            "noUninitializedPrivateFieldAccess",
            "objectRestNoSymbols",
            "privateFieldsAsSymbols",
            "privateFieldsAsProperties",
            "pureGetters",
            "setClassMethods",
            "setComputedProperties",
            "setPublicClassFields",
            "setSpreadProperties",
            "skipForOfIteratorClosing",
            "superIsCallableConstructor",
        ],
    )
}

/// The boolean at a key; false where there is none.
fn flag(value: &Value, key: &str) -> bool
    ensures { result ≡ flag key.now (view value.now) }
{
    match value.get(key) {
        Some(found) => is_true(found.as_bool()),
        None => false,
    }
}

fn is_true(boolean: Option<bool>) -> bool
    ensures { result ≡ is_true boolean }
{
    match boolean {
        Some(boolean) => boolean,
        None => false,
    }
}
