// What a lowering is asked to do: the options of oxc_transformer's ES2022 part.

/// Which features of ES2022 are lowered (the crate's `ES2022Options`).
#[derive(Debug, Clone, Copy, Default, PartialEq, Eq)]
pub struct ES2022Options {
    /// Static blocks are lowered.
    pub class_static_block: bool,
    /// Class fields and private members are lowered, where this is there.
    pub class_properties: Option<ClassPropertiesOptions>,
    /// A top-level await is warned of.
    pub top_level_await: bool,
}

/// How class fields are lowered (the crate's `ClassPropertiesOptions`).
#[derive(Debug, Clone, Copy, Default, PartialEq, Eq)]
pub struct ClassPropertiesOptions {
    /// Public fields are set and not defined, and private members are kept as properties.
    pub loose: bool,
}

/// What may be assumed of a program (the crate's `CompilerAssumptions`). Three have an effect here:
/// `no_document_all`, `private_fields_as_properties` and `set_public_class_fields`.
#[derive(Debug, Clone, Copy, Default, PartialEq, Eq)]
pub struct CompilerAssumptions {
    pub array_like_is_iterable: bool,
    pub constant_reexports: bool,
    pub constant_super: bool,
    pub enumerable_module_meta: bool,
    pub ignore_function_length: bool,
    pub ignore_to_primitive_hint: bool,
    pub iterable_is_array: bool,
    pub mutable_template_object: bool,
    pub no_class_calls: bool,
    pub no_document_all: bool,
    pub no_incomplete_ns_import_detection: bool,
    pub no_new_arrows: bool,
    pub no_uninitialized_private_field_access: bool,
    pub object_rest_no_symbols: bool,
    pub private_fields_as_symbols: bool,
    pub private_fields_as_properties: bool,
    pub pure_getters: bool,
    pub set_class_methods: bool,
    pub set_computed_properties: bool,
    pub set_public_class_fields: bool,
    pub set_spread_properties: bool,
    pub skip_for_of_iterator_closing: bool,
    pub super_is_callable_constructor: bool,
}

/// All that a lowering is asked.
#[derive(Debug, Clone, Copy, Default, PartialEq, Eq)]
pub struct Options {
    pub es2022: ES2022Options,
    pub assumptions: CompilerAssumptions,
    /// Fields without an initializer are left out where fields are set.
    pub remove_class_fields_without_initializer: bool,
}
