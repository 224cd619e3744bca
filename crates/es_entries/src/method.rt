// Methods of classes.

ghost use Rattle.std.specs.Prelude.{◌≡◌};
ghost use Rattle.es_steps.specs.SameMeanings as same;
ghost use Rattle.es_steps.specs.SameValues.{same_value};
ghost use Rattle.es_entries.specs.Methods.{method_in, methods_in};

use es_base::name::Name;
use es_base::strings::is_word;
use es_by_number::same::{Same, same_list};
use es_codes::value::Value;

/// A method, getter or setter of a class that is not private, with the value of its key (ECMA-262, 15.4.5).
#[derive(Drop)]
pub struct Method {
    pub is_static: bool,
    pub kind: Name,
    pub key: Value,
    pub function: u32,
}

impl Same for Method {
    ghost same = { λ a b. same.same_method (method_in a) (method_in b) };

    fn is_same(&self, other: &Self) -> bool {
        self.is_static == other.is_static
            && is_word(other.kind.as_str(), self.kind.as_str())
            && same_key(&self.key, &other.key)
            && self.function == other.function
    }
}

fn same_key(key: &Value, other: &Value) -> bool
    ensures { result ≡ same_value key.now other.now }
{
    key.is_same(other)
}

/// Whether two lists of methods are the same.
pub fn same_methods(left: &[Method], right: &[Method]) -> bool
    ensures { result ≡ same.same_list same.same_method (methods_in left.now) (methods_in right.now) }
{
    same_list(left, right)
}
