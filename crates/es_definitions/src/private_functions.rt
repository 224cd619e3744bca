// The functions of private methods, getters and setters.

ghost use Rattle.std.specs.Prelude.{◌≡◌, ◌++◌, ◌∷◌, [], IfOk, OnOk};
ghost use Rattle.es_by_number.specs.Numbered.{pairs};
ghost use Rattle.es_codes.specs.CodeView.{code_of};
ghost use Rattle.es_opening.specs.Gathered.{added_by, codes_seen};
ghost use Rattle.es_steps.specs.Meaning as spec;
ghost use Rattle.es_definitions.specs.Functions.{private_function_as};

use es_base::ledger::GeneratedKind;
use es_by_number::numbered::Numbered;
use es_codes::code::Code;
use es_opening::gather::gather;
use std::alloc::{AllocError, Global};

/// The functions of the private methods, getters and setters in a code, in order, by the numbers of their keys. Fails on
/// allocation failure alone.
#[tactic(auto, using(es_opening::proofs::Added::gather_added))]
pub fn private_functions(alloc: Global, code: &Code) -> Result<Vec<Numbered<u32>>, AllocError>
    ensures { IfOk result (λ fs. pairs fs.items ≡ spec.private_functions (code_of code.now)) }
{
    let mut codes = Vec::new(alloc);
    gather(code, &mut codes)?;
    private_functions_of_all(alloc, &codes)
}

fn private_functions_of_all(
    alloc: Global,
    codes: &[&Code],
) -> Result<Vec<Numbered<u32>>, AllocError>
    ensures { IfOk result (λ fs. pairs fs.items ≡ added_by spec.private_function_by (codes_seen codes.now)) }
{
    let mut functions = Vec::new(alloc);
    for code in codes {
        add_private_function(code, &mut functions)?;
    }
    Ok(functions)
}

/// Adds the function of a private method, getter or setter, if a code is one.
#[tactic(auto, using(es_codes::proofs::Forms::private_method_is, es_codes::proofs::Forms::give_function_is, crate::proofs::PrivateFunctions::function_given, crate::proofs::PrivateFunctions::other_code, crate::proofs::PrivateFunctions::nothing_found))]
fn add_private_function(code: &Code, functions: &mut Vec<Numbered<u32>>) -> Result<(), AllocError>
    ensures { OnOk result (pairs functions.new.items ≡ pairs functions.old.items ++ spec.private_function_by (code_of code.now)) }
{
    match code {
        // #m() {}
        Code::PrivateMethod { key, function, .. } => add_function(*key, function.get(), functions),
        // _m = function () {}
        Code::GiveFunction { kind, function, .. } => add_given(*kind, function.get(), functions),
        _ => Ok(()),
    }
}

/// Adds what a name is given that was generated like this, if it is the function of a private member.
#[tactic(auto, using(crate::proofs::PrivateFunctions::other_kind, crate::proofs::PrivateFunctions::nothing_found))]
fn add_given(
    kind: GeneratedKind,
    function: &Code,
    functions: &mut Vec<Numbered<u32>>,
) -> Result<(), AllocError>
    ensures { OnOk result (pairs functions.new.items ≡ pairs functions.old.items ++ private_function_as kind (code_of function.now)) }
{
    match kind {
        GeneratedKind::Method(key) => add_function(key.0, function, functions),
        _ => Ok(()),
    }
}

/// Adds a function under the number of a key.
#[tactic(auto, using(es_codes::proofs::Forms::function_is, crate::proofs::PrivateFunctions::no_function, crate::proofs::PrivateFunctions::nothing_found))]
fn add_function(
    key: u32,
    function: &Code,
    functions: &mut Vec<Numbered<u32>>,
) -> Result<(), AllocError>
    ensures { OnOk result (pairs functions.new.items ≡ pairs functions.old.items ++ spec.function_of key (code_of function.now)) }
{
    match function {
        // function () {}
        Code::Function { node, .. } => push(key, *node, functions),
        _ => Ok(()),
    }
}

fn push(key: u32, function: u32, functions: &mut Vec<Numbered<u32>>) -> Result<(), AllocError>
    ensures { OnOk result (pairs functions.new.items ≡ pairs functions.old.items ++ (key, function) ∷ []) }
{
    functions.push(Numbered {
        number: key,
        value: function,
    })?;
    Ok(())
}
