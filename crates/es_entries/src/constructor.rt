// Constructors of classes, among the elements. (ECMA-262, 15.7.14.)

ghost use Rattle.std.specs.Prelude.{◌≡◌, not};
ghost use Rattle.es_codes.specs.CodeView.{code_of, codes_of, form_of};
ghost use Rattle.es_steps.specs.Entries as spec;
ghost use Rattle.es_entries.specs.Constructors.{constructor_at, constructor_in, form_in, function_in, is_constructor, parameter_codes_in};

use es_base::list::List;
use es_codes::code::{Code, FunctionForm};

/// The constructor that the source of a class has.
#[derive(Clone, Copy)]
pub struct Constructor<'a> {
    pub form: FunctionForm,
    pub parameters: &'a List<Code>,
}

/// The first constructor of the source among the elements of a class.
#[tactic(auto, using(crate::proofs::Written::form_more, crate::proofs::Written::parameters_more, crate::proofs::Written::form_found, crate::proofs::Written::parameters_found))]
pub fn written_constructor(elements: &[Code]) -> Option<Constructor<'_>>
    ensures form { spec.constructor_form (codes_of elements.now) ≡ form_in (constructor_in result) }
    ensures parameters { spec.constructor_parameters (codes_of elements.now) ≡ spec.parameters_of (parameter_codes_in (constructor_in result)) }
{
    for element in elements {
        if let Some(constructor) = constructor_at(element) {
            return Some(constructor);
        }
    }
    None
}

/// The constructor that an element is.
#[tactic(auto, using(es_codes::proofs::Forms::constructor_is, crate::proofs::CodeForms::no_constructor))]
fn constructor_at(element: &Code) -> Option<Constructor<'_>>
    ensures { constructor_in result ≡ constructor_at (code_of element.now) }
{
    match element {
        // constructor() {}
        Code::Constructor { function } => written_function(function.get()),
        _ => None,
    }
}

#[tactic(auto, using(es_codes::proofs::Forms::function_is, crate::proofs::CodeForms::no_function))]
fn written_function(function: &Code) -> Option<Constructor<'_>>
    ensures { constructor_in result ≡ function_in (code_of function.now) }
{
    match function {
        Code::Function {
            form,
            parameters,
            ..
        } => Some(Constructor {
            form: *form,
            parameters,
        }),
        _ => None,
    }
}

/// Whether a constructor is among the elements of a class, of the source or new.
#[tactic(auto, using(crate::proofs::Written::constructor_more))]
pub fn has_constructor(elements: &[Code]) -> bool
    ensures { result ≡ not (spec.no_constructor (codes_of elements.now)) }
{
    for element in elements {
        if is_constructor(element) {
            return true;
        }
    }
    false
}

#[tactic(auto, using(es_codes::proofs::Forms::constructor_is, crate::proofs::CodeForms::not_constructor))]
fn is_constructor(element: &Code) -> bool
    ensures { result ≡ is_constructor (code_of element.now) }
{
    matches!(element, Code::Constructor { .. })
}
