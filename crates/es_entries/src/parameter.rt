// Parameters. (ECMA-262, 10.2.11 and 15.1.)

ghost use Rattle.std.specs.Prelude.{◌≡◌, ◌∷◌, [], IfOk};
ghost use Rattle.es_codes.specs.CodeView.{code_of, codes_of, target_of};
ghost use Rattle.es_steps.specs.Code as of;
ghost use Rattle.es_steps.specs.Entries as spec;
ghost use Rattle.es_steps.specs.SameMeanings as same;
ghost use Rattle.es_entries.specs.Parameters.{parameter_in, parameters_in};

use es_base::list::List;
use es_by_number::same::{Same, same_list};
use es_codes::code::{Code, Target};
use std::alloc::{AllocError, Global};

/// A parameter of a function.
#[derive(Debug, Clone, Copy)]
pub enum Parameter {
    Identifier(u32),
    /// An identifier that takes the rest of the arguments.
    RestIdentifier(u32),
    /// What is no identifier, and takes its argument apart by events.
    Pattern,
}

/// The parameters that these codes are, in order. Fails on allocation failure alone.
pub fn parameters_of(alloc: Global, codes: &[Code]) -> Result<List<Parameter>, AllocError>
    ensures { IfOk result (λ ps. parameters_in ps ≡ spec.parameters_of (codes_of codes.now)) }
{
    let mut parameters = List::new(alloc);
    for code in codes {
        parameters.push(parameter_of(code))?;
    }
    Ok(parameters)
}

/// The parameter that a code is.
#[tactic(auto, using(es_codes::proofs::Forms::binding_is, es_codes::proofs::Forms::rest_is, crate::proofs::CodeForms::another_parameter))]
fn parameter_of(code: &Code) -> Parameter
    ensures { spec.parameter_of (code_of code.now) ≡ parameter_in result ∷ [] }
{
    match code {
        // x
        Code::Binding { node, .. } => Parameter::Identifier(*node),
        // ...xs
        Code::Rest { to } => rest_parameter(to.get()),
        _ => Parameter::Pattern,
    }
}

/// The rest of the arguments, as this target takes it.
#[tactic(auto, using(es_codes::proofs::Forms::to_name_is, es_codes::proofs::Forms::to_member_is, es_codes::proofs::Forms::to_private_is, es_codes::proofs::Forms::to_super_is, es_codes::proofs::Forms::to_setter_is, es_codes::proofs::Forms::to_pattern_is, es_codes::proofs::Forms::to_default_is, es_codes::proofs::Forms::no_target_is))]
fn rest_parameter(to: &Target) -> Parameter
    ensures { spec.parameter_of (of.rest (target_of to.now)) ≡ parameter_in result ∷ [] }
{
    match to {
        Target::ToName { node, .. } => Parameter::RestIdentifier(*node),
        Target::ToMember { .. } => Parameter::Pattern,
        Target::ToPrivate { .. } => Parameter::Pattern,
        Target::ToSuper { .. } => Parameter::Pattern,
        Target::ToSetter { .. } => Parameter::Pattern,
        Target::ToPattern { .. } => Parameter::Pattern,
        Target::ToDefault { .. } => Parameter::Pattern,
        Target::NoTarget => Parameter::Pattern,
    }
}

/// Whether all are identifiers, alone or as a rest: else the body has an environment of its own (ECMA-262, 10.2.11).
pub fn all_identifiers(parameters: &[Parameter]) -> bool
    ensures { result ≡ spec.all_identifiers (parameters_in parameters.now) }
{
    for parameter in parameters {
        if matches!(*parameter, Parameter::Pattern) {
            return false;
        }
    }
    true
}

// ---- comparison

impl Same for Parameter {
    ghost same = { λ a b. same.same_parameter (parameter_in a) (parameter_in b) };

    fn is_same(&self, other: &Self) -> bool {
        match *self {
            Parameter::Identifier(binding) => {
                matches!(*other, Parameter::Identifier(b) if binding == b)
            }
            Parameter::RestIdentifier(binding) => {
                matches!(*other, Parameter::RestIdentifier(b) if binding == b)
            }
            Parameter::Pattern => matches!(*other, Parameter::Pattern),
        }
    }
}

/// Whether two lists of parameters are the same.
pub fn same_parameters(left: &[Parameter], right: &[Parameter]) -> bool
    ensures { result ≡ same.same_list same.same_parameter (parameters_in left.now) (parameters_in right.now) }
{
    same_list(left, right)
}
