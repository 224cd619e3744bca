// The generated names that a code gives a value.

ghost use Rattle.std.specs.Prelude.{◌≡◌, ◌++◌, ◌∷◌, [], IfOk, OnOk};
ghost use Rattle.es_codes.specs.CodeView.{code_of, target_of};
ghost use Rattle.es_opening.specs.Assigned.{names_of};
ghost use Rattle.es_opening.specs.Gathered.{added_by, codes_seen};
ghost use Rattle.es_codes.specs.View.{kind_of};
ghost use Rattle.es_steps.specs.Code as of;
ghost use Rattle.es_steps.specs.Evaluation.{private_key};
ghost use Rattle.es_steps.specs.Opening as spec;

use crate::gather::gather;
use es_base::name::Name;
use es_codes::code::{Code, Target};
use es_codes::name::NameKind;
use std::alloc::{AllocError, Global};

/// A generated name that is given a value, or a private element of one.
#[derive(Clone, Copy)]
pub enum Assigned<'a> {
    Name(&'a Name),
    Element(&'a Name),
}

/// The generated names that a code gives a value, in order. Fails on allocation failure alone.
#[tactic(auto, using(crate::proofs::Added::gather_added))]
pub fn assigned_in<'a>(alloc: Global, code: &'a Code) -> Result<Vec<Assigned<'a>>, AllocError>
    ensures { IfOk result (λ names. names_of names.items ≡ spec.assigned_in (code_of code.now)) }
{
    let mut codes = Vec::new(alloc);
    gather(code, &mut codes)?;
    assigned_by_all(alloc, &codes)
}

/// Those that these codes give themselves.
fn assigned_by_all<'a>(alloc: Global, codes: &[&'a Code]) -> Result<Vec<Assigned<'a>>, AllocError>
    ensures { IfOk result (λ names. names_of names.items ≡ added_by spec.assigned_by (codes_seen codes.now)) }
{
    let mut names = Vec::new(alloc);
    for code in codes {
        add_assigned(code, &mut names)?;
    }
    Ok(names)
}

/// Adds those that a code gives itself.
#[tactic(auto, using(es_codes::proofs::Forms::assign_is, es_codes::proofs::Forms::compound_is, es_codes::proofs::Forms::logical_assign_is, es_codes::proofs::Forms::update_is, es_codes::proofs::Forms::call_arrow_is, es_codes::proofs::Forms::generated_element_is, crate::proofs::AssignedForms::others_assign, crate::proofs::AssignedForms::nothing_assigned))]
fn add_assigned<'a>(code: &'a Code, names: &mut Vec<Assigned<'a>>) -> Result<(), AllocError>
    ensures { OnOk result (names_of names.new.items ≡ names_of names.old.items ++ spec.assigned_by (code_of code.now)) }
{
    match code {
        Code::Assign { to, .. } => add_target(to.get(), names),
        Code::Compound { to, .. } => add_target(to.get(), names),
        Code::LogicalAssign { to, .. } => add_target(to.get(), names),
        Code::Update { to, .. } => add_target(to.get(), names),
        Code::CallArrow { parameters, .. } => add_parameters(parameters.as_slice(), names),
        Code::GeneratedElement { spelling, .. } => add_element(spelling, names),
        _ => Ok(()),
    }
}

/// Adds a private element.
fn add_element<'a>(spelling: &'a Name, names: &mut Vec<Assigned<'a>>) -> Result<(), AllocError>
    ensures { OnOk result (names_of names.new.items ≡ names_of names.old.items ++ (private_key spelling.now ∷ [])) }
{
    names.push(Assigned::Element(spelling))?;
    Ok(())
}

/// Adds the name of a target, if it is generated.
#[tactic(auto, using(es_codes::proofs::Forms::to_name_is, crate::proofs::AssignedForms::others_name, crate::proofs::AssignedForms::nothing_assigned))]
fn add_target<'a>(to: &'a Target, names: &mut Vec<Assigned<'a>>) -> Result<(), AllocError>
    ensures { OnOk result (names_of names.new.items ≡ names_of names.old.items ++ spec.target_name (target_of to.now)) }
{
    match to {
        Target::ToName { spelling, kind, .. } => add_generated(spelling, kind, names),
        _ => Ok(()),
    }
}

/// Adds a name, if it is generated.
#[tactic(auto, using(crate::proofs::AssignedForms::nothing_assigned, crate::proofs::AssignedForms::none_generated))]
fn add_generated<'a>(
    spelling: &'a Name,
    kind: &NameKind,
    names: &mut Vec<Assigned<'a>>,
) -> Result<(), AllocError>
    ensures { OnOk result (names_of names.new.items ≡ names_of names.old.items ++ spec.target_name (of.to_name 0 spelling.now (kind_of kind.now))) }
{
    match kind {
        NameKind::Generated(_) => Ok(names.push(Assigned::Name(spelling))?),
        _ => Ok(()),
    }
}

/// Adds the names of parameters.
fn add_parameters<'a>(
    parameters: &'a [Name],
    names: &mut Vec<Assigned<'a>>,
) -> Result<(), AllocError>
    ensures { OnOk result (names_of names.new.items ≡ names_of names.old.items ++ parameters.now) }
{
    for parameter in parameters {
        names.push(Assigned::Name(parameter))?;
    }
    Ok(())
}
