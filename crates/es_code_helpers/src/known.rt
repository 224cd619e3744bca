// What is known of an object, as a value.

ghost use Rattle.std.specs.Prelude.{◌≡◌};
ghost use Rattle.es_code_reading.specs.Contexts.{this_of};

use es_code_reading::context::This;
use es_codes::value::{Origin, Value};

/// The value of `this`, or of a class.
pub fn known_value(this: This) -> Value
    ensures { result ≡ this_of this }
{
    match this {
        This::Of(function) => Value::of(Origin::ThisOf(function)),
        This::Class(class) => Value::of(Origin::ClassOf(class)),
    }
}
