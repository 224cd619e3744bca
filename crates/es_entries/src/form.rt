// What functions are beside their parameters and their bodies.

ghost use Rattle.std.specs.Prelude.{◌≡◌};
ghost use Rattle.es_codes.specs.CodeView.{form_of};
ghost use Rattle.es_steps.specs.SameMeanings as same;

use es_codes::code::FunctionForm;

/// Whether two functions are both arrows or not, both async or not, and both generators or not.
pub fn same_form(left: FunctionForm, right: FunctionForm) -> bool
    ensures { result ≡ same.same_form (form_of left) (form_of right) }
{
    left.is_arrow == right.is_arrow
        && left.is_async == right.is_async
        && left.is_generator == right.is_generator
}
