// The constructors among the elements of a class (ECMA-262, 15.7.14).

ghost use Rattle.std.specs.Prelude.{◌≡◌, cond, option_map};
ghost use Rattle.es_codes.specs.CodeView.{code_of, codes_of, target_of};
ghost use Rattle.es_codes.specs.View.{kind_of};
ghost use Rattle.es_steps.specs.Code as of;
ghost use Rattle.es_steps.specs.Entries.{no_constructor};
ghost use Rattle.es_steps.specs.Opening.{all_arguments};
ghost use Rattle.es_code_bodies.specs.Constructing.{constructor_function, constructors_in, constructors_of, is_args, more_functions, one_function};

use es_base::ledger::GeneratedKind;
use es_codes::code::{Code, Target};
use es_codes::name::NameKind;
use es_entries::constructor::has_constructor;

/// The constructors of a class: the function of one that is alone.
#[derive(Clone, Copy)]
pub enum Constructors<'a> {
    Nothing,
    One(&'a Code),
    Several,
}

/// The constructors among the elements of a class.
#[tactic(auto, using(crate::proofs::Found::found_here, crate::proofs::Found::not_here, crate::proofs::Found::nowhere))]
pub fn constructors_in(elements: &[Code]) -> Constructors<'_>
    ensures { constructors_of result ≡ constructors_in (codes_of elements.now) }
{
    for i in 0..elements.len() {
        if let Some(function) = constructor_of(&elements[i]) {
            return alone(function, &elements[i + 1..]);
        }
    }
    Constructors::Nothing
}

/// A constructor, unless there is another behind it.
fn alone<'a>(function: &'a Code, behind: &[Code]) -> Constructors<'a>
    ensures { constructors_of result ≡ cond (no_constructor (codes_of behind.now)) (one_function (code_of function.now)) more_functions }
{
    if has_constructor(behind) {
        Constructors::Several
    } else {
        Constructors::One(function)
    }
}

/// The function of an element that is a constructor.
#[tactic(auto, using(es_codes::proofs::Forms::constructor_is, crate::proofs::CodeForms::not_constructor))]
fn constructor_of(element: &Code) -> Option<&Code>
    ensures { option_map (λ f. code_of f.now) result ≡ constructor_function (code_of element.now) }
{
    match element {
        // constructor() {}
        Code::Constructor { function } => Some(function.get()),
        _ => None,
    }
}

/// Whether the parameters are `..._args` alone, of a generated name.
#[tactic(auto, using(crate::proofs::Found::many_parameters))]
pub fn are_all_arguments(parameters: &[Code]) -> bool
    ensures { result ≡ all_arguments (codes_of parameters.now) }
{
    match parameters {
        [parameter] => is_rest_args(parameter),
        _ => false,
    }
}

/// Whether a parameter is `..._args`.
#[tactic(auto, using(es_codes::proofs::Forms::rest_is, crate::proofs::CodeForms::not_rest))]
fn is_rest_args(parameter: &Code) -> bool
    ensures { result ≡ all_arguments (of.and (code_of parameter.now) of.done) }
{
    match parameter {
        // ..._args
        Code::Rest { to } => is_to_args(to.get()),
        _ => false,
    }
}

/// Whether it is `_args` that is written.
#[tactic(auto, using(crate::proofs::Found::args_named, es_codes::proofs::Forms::to_name_is, es_codes::proofs::Forms::to_member_is, es_codes::proofs::Forms::to_private_is, es_codes::proofs::Forms::to_super_is, es_codes::proofs::Forms::to_setter_is, es_codes::proofs::Forms::to_pattern_is, es_codes::proofs::Forms::to_default_is, es_codes::proofs::Forms::no_target_is))]
fn is_to_args(to: &Target) -> bool
    ensures { result ≡ all_arguments (of.and (of.rest (target_of to.now)) of.done) }
{
    match to {
        Target::ToName { kind, .. } => is_args(kind),
        Target::ToMember { .. } => false,
        Target::ToPrivate { .. } => false,
        Target::ToSuper { .. } => false,
        Target::ToSetter { .. } => false,
        Target::ToPattern { .. } => false,
        Target::ToDefault { .. } => false,
        Target::NoTarget => false,
    }
}

/// Whether a name was generated for all arguments.
fn is_args(kind: &NameKind) -> bool
    ensures { result ≡ is_args (kind_of kind.now) }
{
    match kind {
        NameKind::Generated(kind) => matches!(*kind, GeneratedKind::Args),
        NameKind::Fixed(_) => false,
        NameKind::Changing(_) => false,
        NameKind::MeansClass { .. } => false,
        NameKind::StaticMethod { .. } => false,
    }
}
