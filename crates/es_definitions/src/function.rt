// What a generated name defines that is given a function.

ghost use Rattle.std.specs.Prelude.{◌≡◌, ◌++◌, ◌∷◌, [], OnOk, map, cond, true, false};
ghost use Rattle.es_codes.specs.CodeView.{code_of, codes_of, form_of};
ghost use Rattle.es_code_rules.specs.Elsewhere.{definition_of};
ghost use Rattle.es_steps.specs.Opening as spec;
ghost use Rattle.es_steps.specs.Code.{and, done, initializers, sequence};
ghost use Rattle.es_steps.specs.GeneratedForms.{is_plain, opened_body};
ghost use Rattle.es_definitions.specs.Functions.{defined_as};

use crate::body::{behind_super, closure_body, initialized_body, opened_body};
use es_base::ledger::GeneratedKind;
use es_base::list::List;
use es_base::name::Name;
use es_code_bodies::constructing::is_plain;
use es_code_bodies::constructors::are_all_arguments;
use es_code_rules::definition::Definition;
use es_codes::code::{Code, FunctionForm};
use std::alloc::{AllocError, Global};

/// Adds what a name defines that was generated like this and is given this.
#[tactic(auto, using(es_codes::proofs::Forms::new_function_is, crate::proofs::Defining::others_given, crate::proofs::Defining::nothing_defined))]
pub fn add_given(
    alloc: Global,
    name: &Name,
    kind: GeneratedKind,
    function: &Code,
    definitions: &mut List<Definition>,
) -> Result<(), AllocError>
    ensures { OnOk result (map definition_of definitions.new ≡ map definition_of definitions.old ++ defined_as name.now kind (code_of function.now)) }
{
    match function {
        // function () {}
        Code::NewFunction {
            form,
            parameters,
            body,
            ..
        } => {
            let function = Function {
                form: *form,
                parameters: parameters.as_slice(),
                body: body.get(),
            };
            add_function(alloc, name, kind, function, definitions)
        }
        _ => Ok(()),
    }
}

/// A new function.
#[derive(Clone, Copy)]
struct Function<'a> {
    form: FunctionForm,
    parameters: &'a [Code],
    body: &'a Code,
}

/// Adds what a name defines that was generated like this and is given this function.
#[tactic(auto, using(crate::proofs::Defining::others_generated, crate::proofs::Defining::nothing_defined))]
fn add_function(
    alloc: Global,
    name: &Name,
    kind: GeneratedKind,
    function: Function,
    definitions: &mut List<Definition>,
) -> Result<(), AllocError>
    ensures { OnOk result (map definition_of definitions.new ≡ map definition_of definitions.old ++ spec.function_definition name.now kind (form_of function.entry.form) (codes_of function.entry.parameters.now) (code_of function.entry.body.now)) }
{
    match kind {
        GeneratedKind::SuperFn(class) => add_super(alloc, name, class.0, function, definitions),
        GeneratedKind::Closure => add_closure(alloc, name, function, definitions),
        _ => Ok(()),
    }
}

/// Adds the function that stands for `super(..)` of a class.
#[tactic(auto, using(crate::proofs::Defining::nothing_defined))]
fn add_super(
    alloc: Global,
    name: &Name,
    class: u32,
    function: Function,
    definitions: &mut List<Definition>,
) -> Result<(), AllocError>
    ensures { OnOk result (map definition_of definitions.new ≡ map definition_of definitions.old ++ cond (is_plain (form_of function.entry.form)) (spec.super_definition name.now class (form_of function.entry.form).is_arrow (codes_of function.entry.parameters.now) (code_of function.entry.body.now)) []) }
{
    if !is_plain(function.form) {
        return Ok(());
    }
    if function.form.is_arrow {
        add_super_arrow(alloc, name, class, function, definitions)
    } else {
        add_called(alloc, name, class, function, definitions)
    }
}

/// `_super = (..._args) => (super(..._args), this)`
#[tactic(auto, using(crate::proofs::Defining::nothing_defined))]
fn add_super_arrow(
    alloc: Global,
    name: &Name,
    class: u32,
    function: Function,
    definitions: &mut List<Definition>,
) -> Result<(), AllocError>
    ensures { OnOk result (map definition_of definitions.new ≡ map definition_of definitions.old ++ spec.super_definition name.now class true (codes_of function.entry.parameters.now) (code_of function.entry.body.now)) }
{
    if !are_all_arguments(function.parameters) {
        return Ok(());
    }
    let name = name.try_clone(alloc)?;
    let body = opened_body(alloc, function.body)?;
    let body = behind_super(class, body);
    definitions.push(Definition::OfName { name, body })
}

/// `_super = function () { .. return this; }`, which is called with what `super(..)` gave.
#[tactic(auto, using(crate::proofs::Defining::nothing_defined))]
fn add_called(
    alloc: Global,
    name: &Name,
    class: u32,
    function: Function,
    definitions: &mut List<Definition>,
) -> Result<(), AllocError>
    ensures { OnOk result (map definition_of definitions.new ≡ map definition_of definitions.old ++ spec.super_definition name.now class false (codes_of function.entry.parameters.now) (code_of function.entry.body.now)) }
{
    match function.parameters {
        [] => push_called(alloc, name, class, function.body, definitions),
        [_, ..] => Ok(()),
    }
}

fn push_called(
    alloc: Global,
    name: &Name,
    class: u32,
    body: &Code,
    definitions: &mut List<Definition>,
) -> Result<(), AllocError>
    ensures { OnOk result (map definition_of definitions.new ≡ map definition_of definitions.old ++ spec.of_called name.now (sequence (and (initializers class) (and (opened_body (code_of body.now)) done))) ∷ []) }
{
    let name = name.try_clone(alloc)?;
    let body = initialized_body(alloc, class, body)?;
    definitions.push(Definition::OfCalled { name, body })
}

/// `_closure = () => { .. }`
fn add_closure(
    alloc: Global,
    name: &Name,
    function: Function,
    definitions: &mut List<Definition>,
) -> Result<(), AllocError>
    ensures { OnOk result (map definition_of definitions.new ≡ map definition_of definitions.old ++ spec.of_name name.now (spec.closure_body (form_of function.entry.form) (codes_of function.entry.parameters.now) (code_of function.entry.body.now)) ∷ []) }
{
    let name = name.try_clone(alloc)?;
    let body = closure_body(alloc, function.form, function.parameters, function.body)?;
    definitions.push(Definition::OfName { name, body })
}
