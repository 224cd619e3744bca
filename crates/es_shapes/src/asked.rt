// What the options ask.

ghost use Rattle.std.specs.Prelude.{◌≡◌};
ghost use Rattle.es_steps.specs.Options.{is_loose, lowers_fields, lowers_blocks, keeps_privates_as_properties, leaves_out_fields, sets_fields};

use es_steps::options::{ClassPropertiesOptions, Options};

/// Whether class fields and private members are lowered.
pub fn lowers_fields(options: &Options) -> bool
    ensures { result ≡ lowers_fields options.now }
{
    options.es2022.class_properties.is_some()
}

/// Whether static blocks are lowered.
pub fn lowers_blocks(options: &Options) -> bool
    ensures { result ≡ lowers_blocks options.now }
{
    options.es2022.class_static_block
}

/// Whether private members are kept as properties.
pub fn keeps_privates_as_properties(options: &Options) -> bool
    ensures { result ≡ keeps_privates_as_properties options.now }
{
    lowers_fields(options)
        && (is_loose(options.es2022.class_properties)
            || options.assumptions.private_fields_as_properties)
}

/// Whether a public field without initializer is left out.
pub fn leaves_out_fields(options: &Options) -> bool
    ensures { result ≡ leaves_out_fields options.now }
{
    sets_fields(options) && options.remove_class_fields_without_initializer
}

/// Whether public fields are set and not defined.
pub fn sets_fields(options: &Options) -> bool
    ensures { result ≡ sets_fields options.now }
{
    lowers_fields(options)
        && (is_loose(options.es2022.class_properties)
            || options.assumptions.set_public_class_fields)
}

fn is_loose(class_properties: Option<ClassPropertiesOptions>) -> bool
    ensures { result ≡ is_loose class_properties }
{
    match class_properties {
        Some(class_properties) => class_properties.loose,
        None => false,
    }
}
