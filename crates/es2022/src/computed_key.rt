// Computed keys of fields and methods, which are evaluated in front of their class.

use crate::builders::{create_assignment, create_reference};
use crate::class_details::ClassDetails;
use crate::names::Naming;
use crate::state::State;
use es_base::kind::Kind;
use es_base::ledger::GeneratedKind;
use es_duplicates::computed_key::key_needs_temp_var;
use es_node::node::Node;
use es_tree::class::{MethodDefinition, PropertyDefinition};
use program_names::suggest::suggest;
use std::alloc::AllocError;

/// A key that is read where a field is defined, and how it is given to a temporary, if it is.
#[derive(Drop)]
pub struct HeldKey {
    pub key: Node,
    pub assignment: Option<Node>,
}

/// `_k` for a key `k`, with `_k = k` and `let _k;`, if it is to be evaluated once with its class; else the key.
pub fn create_computed_key_temp_var_if_required(
    state: &mut State,
    names: &mut Naming,
    key: Node,
) -> Result<HeldKey, AllocError> {
    if !key_needs_temp_var(&key, names.scoping) {
        return Ok(HeldKey {
            key,
            assignment: None,
        });
    }
    let base = suggest(state.alloc, &key)?;
    let name = names.generate(base.as_str(), GeneratedKind::Temp)?;
    state.insert_let(&name)?;
    Ok(HeldKey {
        key: create_reference(state.alloc, &name)?,
        assignment: Some(create_assignment(state.alloc, &name, key)?),
    })
}

/// `[f()]() {}` becomes `[_f]() {}`, with `_f = f()` in front of the class.
pub fn substitute_temp_var_for_method_computed_key(
    state: &mut State,
    names: &mut Naming,
    details: &mut ClassDetails,
    method: MethodDefinition,
) -> Result<MethodDefinition, AllocError> {
    let mut method = method;
    if !method.computed {
        return Ok(method);
    }
    let held = create_computed_key_temp_var_if_required(state, names, method.key)?;
    method.key = held.key;
    if let Some(assignment) = held.assignment {
        details.before.push(assignment)?;
    }
    Ok(method)
}

/// `[f()];`, which is left out, becomes `f()` in front of the class.
pub fn extract_computed_key(
    names: &Naming,
    details: &mut ClassDetails,
    field: PropertyDefinition,
) -> Result<(), AllocError> {
    if field.computed && key_needs_temp_var(&field.key, names.scoping) {
        details.before.push(field.key)?;
    }
    Ok(())
}

/// The key of an instance field, which is `_f = f()` since the class was entered, goes in front of the class; and so does that of
/// one that is left out.
pub fn extract_instance_prop_computed_key(
    names: &Naming,
    details: &mut ClassDetails,
    field: PropertyDefinition,
) -> Result<(), AllocError> {
    if field.computed && field.key.kind() == Kind::AssignmentExpression {
        return details.before.push(field.key);
    }
    extract_computed_key(names, details, field)
}
