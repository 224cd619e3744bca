// Entries of functions.

ghost use Rattle.std.specs.Prelude.{◌≡◌, ◌++◌, option_map, IfOk, OnOk};
ghost use Rattle.es_codes.specs.CodeView.{code_of, codes_of, form_of};
ghost use Rattle.es_steps.specs.Entries as spec;
ghost use Rattle.es_steps.specs.Opening.{assigned_in, assigned_in_all};
ghost use Rattle.es_code_environments.specs.FlatEntries.{entry_in, flat_entry};
ghost use Rattle.es_code_environments.specs.Results.{Gives, Proceeds};
ghost use Rattle.es_code_environments.specs.Standing.{opens_in};

use crate::assigned::{add_assigned_in, add_assigned_in_all};
use crate::here::Here;
use crate::terms::Terms;
use es_codes::code::{Code, FunctionForm};
use es_entries::entry::{Entry, FunctionEntry};
use es_entries::parameter::parameters_of;
use es_evaluator::fault::Fault;
use std::alloc::{AllocError, Global};

/// Where a function is read: without the temporaries that it gives a value itself. Fails on allocation failure alone.
pub fn function_start(
    alloc: Global,
    here: &Here,
    parameters: &[Code],
    body: &Code,
) -> Result<Here, AllocError>
    ensures { IfOk result (λ h. h ≡ spec.without (assigned_in_all (codes_of parameters.now) ++ assigned_in (code_of body.now)) here.now) }
{
    let mut names = Vec::new(alloc);
    add_assigned_in_all(alloc, parameters, &mut names)?;
    add_assigned_in(alloc, body, &mut names)?;
    here.without(alloc, names.as_slice())
}

/// Where the body of a new function is read. Fails on allocation failure alone.
pub fn body_start(alloc: Global, here: &Here, body: &Code) -> Result<Here, Fault>
    ensures start { IfOk result (λ h. h ≡ spec.without (assigned_in (code_of body.now)) here.now) }
    ensures err { Proceeds result }
{
    let mut names = Vec::new(alloc);
    add_assigned_in(alloc, body, &mut names)?;
    Ok(here.without(alloc, names.as_slice())?)
}

/// The entry of a function that is read here.
pub fn function_entry(
    terms: &Terms<'_>,
    start: &mut Here,
    form: FunctionForm,
    own_name: Option<u32>,
    parameters: &[Code],
    body: &Code,
) -> Result<Entry, Fault>
    ensures entry { Gives entry_in result (option_map flat_entry (spec.function_entry (form_of form) own_name (spec.parameters_of (codes_of parameters.now)) (spec.listed (spec.ev_body (opens_in terms.now) 0 terms.now.late.now (codes_of parameters.now) (code_of body.now) start.old)))) }
    ensures here { start.new ≡ start.old }
{
    let body = start.list_of_body(terms, parameters, body)?;
    let parameters = parameters_of(terms.among.alloc, parameters)?;
    Ok(Entry::Function(FunctionEntry {
        form,
        own_name,
        parameters,
        body,
    }))
}
