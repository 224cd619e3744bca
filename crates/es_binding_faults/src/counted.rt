// The declarations that count in a scope.

ghost use Rattle.std.specs.Prelude.{◌≡◌, ◌++◌, OnOk};
ghost use Rattle.es_node.specs.View.{parts_of};
ghost use Rattle.es_steps.specs.Scopes as spec;
ghost use Rattle.es_validity.specs.Facts.{counted};
ghost use Rattle.es_binding_faults.specs.Named.{named, plain};
ghost use Rattle.es_binding_faults.specs.ScopeForms.{scope_of};

use crate::bound::Declared;
use crate::hoisted::{Hoist, add_bound_at, add_hoisted_parts};
use crate::scopes::{ScopeForm, add_body_at, add_hoisted_at, add_scope_names};
use es_node::node::Part;
use std::alloc::AllocError;

/// Adds the declarations that count in a scope of this form: those of its own, and each `var` in it. Fails on allocation failure
/// alone.
pub fn add_counted<'a>(
    form: ScopeForm,
    parts: &'a [Part],
    names: &mut Vec<Declared<'a>>,
) -> Result<(), AllocError>
    ensures { OnOk result (named names.new.items ≡ named names.old.items ++ plain (counted (scope_of form) 0 (parts_of parts.now))) }
{
    match form {
        ScopeForm::Block => add_body_at(parts, 0, names),
        ScopeForm::Loop => add_loop(parts, names),
        ScopeForm::Switch => add_body_at(parts, 1, names),
        ScopeForm::Catch => add_catch(parts, names),
        _ => add_scope_names(form, parts, names),
    }
}

/// Adds the names in the head of a loop, and each `var` in it. Fails on allocation failure alone.
fn add_loop<'a>(parts: &'a [Part], names: &mut Vec<Declared<'a>>) -> Result<(), AllocError>
    ensures { OnOk result (named names.new.items ≡ named names.old.items ++ plain (counted spec.loop_scope 0 (parts_of parts.now))) }
{
    add_hoisted_at(Hoist::Lexical, parts, 0, names)?;
    add_hoisted_parts(Hoist::Var, parts, names)
}

/// Adds the names in the head of a `catch`, and each `var` in it. Fails on allocation failure alone.
fn add_catch<'a>(parts: &'a [Part], names: &mut Vec<Declared<'a>>) -> Result<(), AllocError>
    ensures { OnOk result (named names.new.items ≡ named names.old.items ++ plain (counted spec.catch_scope 0 (parts_of parts.now))) }
{
    add_bound_at(parts, 0, names)?;
    add_hoisted_at(Hoist::Var, parts, 1, names)
}
