// The temporaries that codes give a value.

ghost use Rattle.std.specs.Prelude.{◌≡◌, ◌++◌, IfOk, OnOk};
ghost use Rattle.es_codes.specs.CodeView.{code_of, codes_of};
ghost use Rattle.es_opening.specs.Assigned.{name_of, names_of};
ghost use Rattle.es_steps.specs.Evaluation.{private_key};
ghost use Rattle.es_steps.specs.Opening as spec;

use es_base::name::Name;
use es_codes::code::Code;
use es_opening::assigned::{Assigned, assigned_in};
use std::alloc::{AllocError, Global};

/// Adds the names of the temporaries that these codes give a value. Fails on allocation failure alone.
pub fn add_assigned_in_all(
    alloc: Global,
    codes: &[Code],
    names: &mut Vec<Name>,
) -> Result<(), AllocError>
    ensures { OnOk result (names.new.items ≡ names.old.items ++ spec.assigned_in_all (codes_of codes.now)) }
{
    for code in codes {
        add_assigned_in(alloc, code, names)?;
    }
    Ok(())
}

/// Adds the names of the temporaries that a code gives a value. Fails on allocation failure alone.
pub fn add_assigned_in(alloc: Global, code: &Code, names: &mut Vec<Name>) -> Result<(), AllocError>
    ensures { OnOk result (names.new.items ≡ names.old.items ++ spec.assigned_in (code_of code.now)) }
{
    let assigned = assigned_in(alloc, code)?;
    add_names(alloc, assigned.as_slice(), names)
}

fn add_names(
    alloc: Global,
    assigned: &[Assigned<'_>],
    names: &mut Vec<Name>,
) -> Result<(), AllocError>
    ensures { OnOk result (names.new.items ≡ names.old.items ++ names_of assigned.now) }
{
    for name in assigned {
        names.push(name_of(alloc, *name)?)?;
    }
    Ok(())
}

/// The name that an environment has it by. Fails on allocation failure alone.
fn name_of(alloc: Global, assigned: Assigned<'_>) -> Result<Name, AllocError>
    ensures { IfOk result (λ name. name ≡ name_of assigned.entry) }
{
    match assigned {
        Assigned::Name(name) => name.try_clone(alloc),
        Assigned::Element(spelling) => private_key(alloc, spelling),
    }
}

/// The name under which a generated private element stands: `#x`. Fails on allocation failure alone.
fn private_key(alloc: Global, spelling: &Name) -> Result<Name, AllocError>
    ensures { IfOk result (λ n. n ≡ private_key spelling.now) }
{
    let mut string = String::from_str(alloc, "#")?;
    string.push_str(spelling.as_str())?;
    Name::new(alloc, string.as_str())
}
