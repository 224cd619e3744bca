// The definitions in a code.

ghost use Rattle.std.specs.Prelude.{◌≡◌, ◌++◌, ◌∷◌, [], IfOk, OnOk, map};
ghost use Rattle.es_codes.specs.CodeView.{code_of, codes_of};
ghost use Rattle.es_code_rules.specs.Elsewhere.{definition_of};
ghost use Rattle.es_opening.specs.Gathered.{added_by, codes_seen};
ghost use Rattle.es_steps.specs.Opening as spec;

use crate::function::add_given;
use es_base::list::List;
use es_code_copies::copy::copy_codes;
use es_code_rules::definition::Definition;
use es_codes::code::Code;
use es_opening::gather::gather;
use std::alloc::{AllocError, Global};

/// What the codes in a code define, in order: the elements of each class, and the bodies of functions that generated names are
/// given and that are evaluated where such a name is called. Fails on allocation failure alone.
#[tactic(auto, using(es_opening::proofs::Added::gather_added))]
pub fn definitions(alloc: Global, code: &Code) -> Result<List<Definition>, AllocError>
    ensures { IfOk result (λ ds. map definition_of ds ≡ spec.definitions (code_of code.now)) }
{
    let mut codes = Vec::new(alloc);
    gather(code, &mut codes)?;
    defined_by_all(alloc, &codes)
}

/// What these codes define themselves.
fn defined_by_all(alloc: Global, codes: &[&Code]) -> Result<List<Definition>, AllocError>
    ensures { IfOk result (λ ds. map definition_of ds ≡ added_by spec.defined_by (codes_seen codes.now)) }
{
    let mut definitions = List::new(alloc);
    for code in codes {
        add_defined(alloc, code, &mut definitions)?;
    }
    Ok(definitions)
}

/// Adds what a code defines itself.
#[tactic(auto, using(es_codes::proofs::Forms::class_code_is, es_codes::proofs::Forms::give_function_is, crate::proofs::Defining::function_given, crate::proofs::Defining::others_define, crate::proofs::Defining::nothing_defined))]
fn add_defined(
    alloc: Global,
    code: &Code,
    definitions: &mut List<Definition>,
) -> Result<(), AllocError>
    ensures { OnOk result (map definition_of definitions.new ≡ map definition_of definitions.old ++ spec.defined_by (code_of code.now)) }
{
    match code {
        // class {}
        Code::Class { node, elements, .. } => add_class(
            alloc,
            *node,
            elements.as_slice(),
            definitions,
        ),
        // _f = function () {}
        Code::GiveFunction {
            spelling,
            kind,
            function,
            ..
        } => add_given(alloc, spelling, *kind, function.get(), definitions),
        _ => Ok(()),
    }
}

/// Adds the elements of a class.
fn add_class(
    alloc: Global,
    class: u32,
    elements: &[Code],
    definitions: &mut List<Definition>,
) -> Result<(), AllocError>
    ensures { OnOk result (map definition_of definitions.new ≡ map definition_of definitions.old ++ spec.of_class class (codes_of elements.now) ∷ []) }
{
    let elements = copy_codes(alloc, elements)?;
    definitions.push(Definition::OfClass { class, elements })
}
