// Public fields as what defines or sets them.

use crate::builders::{create_helper_call, create_null, create_reference, create_string};
use crate::class_details::ClassDetails;
use crate::computed_key::{create_computed_key_temp_var_if_required, extract_computed_key};
use crate::names::Naming;
use crate::state::State;
use crate::static_block_and_prop_init::{replace_new_target, transform_static_initializer};
use es_base::kind::Kind;
use es_base::list::List;
use es_base::literal::LiteralValue;
use es_base::operator::AssignmentOperator;
use es_builders::builders::create_void_0;
use es_node::node::Node;
use es_tree::class::PropertyDefinition;
use es_tree::expression::{
    make_assignment_expression, make_member_expression, make_this_expression,
};
use es_tree::identifier::{IdentifierName, IdentifierNameRef, make_identifier_name};
use es_tree::literal::LiteralRef;
use std::alloc::{AllocError, Global};

/// `k = v;` adds `babelHelpers.defineProperty(this, "k", v)`, or `this.k = v` where fields are set, to the initializers. The
/// field stays, with a key that is evaluated in front of the class, if there is one.
pub fn convert_instance_property(
    state: &mut State,
    names: &mut Naming,
    field: PropertyDefinition,
    inits: &mut List<Node>,
) -> Result<PropertyDefinition, AllocError> {
    let mut field = field;
    if field.value.is_none() && state.settings.removes_empty_fields() {
        return Ok(field);
    }
    let value = match field.value.take() {
        Some(value) => replace_new_target(state.alloc, value)?,
        None => create_void_0(state.alloc)?,
    };
    let this = make_this_expression(state.alloc)?;
    let Init { init, assignment } = create_init(
        state,
        names,
        this,
        field.key,
        field.computed,
        value,
        false,
    )?;
    inits.push(init)?;
    match assignment {
        Some(assignment) => field.key = assignment,
        None => {
            field.key = create_null(state.alloc)?;
            field.computed = false;
        }
    }
    Ok(field)
}

/// `static k = v;` becomes `babelHelpers.defineProperty(C, "k", v)`, or `C.k = v` where fields are set, behind the class.
pub fn convert_static_property(
    state: &mut State,
    names: &mut Naming,
    details: &mut ClassDetails,
    field: PropertyDefinition,
) -> Result<(), AllocError> {
    let mut field = field;
    if field.value.is_none() && state.settings.removes_empty_fields() {
        return extract_computed_key(names, details, field);
    }
    let value = match field.value.take() {
        Some(value) => transform_static_initializer(state, names, details, value)?,
        None => create_void_0(state.alloc)?,
    };
    let class = create_class_reference(state.alloc, details)?;
    let Init { init, assignment } = create_init(
        state,
        names,
        class,
        field.key,
        field.computed,
        value,
        true,
    )?;
    if let Some(assignment) = assignment {
        details.before.push(assignment)?;
    }
    details.after.push(init)
}

/// The class, where its static fields are defined: the name of a declaration, and else the temporary.
fn create_class_reference(alloc: Global, details: &ClassDetails) -> Result<Node, AllocError> {
    match (&details.head.name, &details.temp) {
        (Some(name), _) if details.head.is_declaration => create_reference(alloc, name),
        (_, Some(temp)) => create_reference(alloc, temp),
        _ => create_null(alloc),
    }
}

/// What defines or sets a field, and how its key is given to a temporary, if it is.
#[derive(Drop)]
struct Init {
    init: Node,
    assignment: Option<Node>,
}

fn create_init(
    state: &mut State,
    names: &mut Naming,
    object: Node,
    key: Node,
    computed: bool,
    value: Node,
    is_static: bool,
) -> Result<Init, AllocError> {
    if state.settings.set_public_class_fields && !(is_static && is_built_in(&key, computed)) {
        create_set(state, names, object, key, computed, value)
    } else {
        create_define(state, names, object, key, computed, value)
    }
}

/// Whether a static field has a property of functions in its way, which cannot be set: `name` or `length`.
fn is_built_in(key: &Node, computed: bool) -> bool {
    if computed {
        return false;
    }
    match key.kind() {
        Kind::IdentifierName => is_name_or_length(IdentifierNameRef::from_node(key).name.as_str()),
        Kind::Literal => match LiteralRef::from_node(key).value {
            LiteralValue::String { value, .. } => is_name_or_length(value.as_str()),
            _ => false,
        },
        _ => false,
    }
}

fn is_name_or_length(name: &str) -> bool {
    name == "name" || name == "length"
}

/// `babelHelpers.defineProperty(object, key, value)`
fn create_define(
    state: &mut State,
    names: &mut Naming,
    object: Node,
    key: Node,
    computed: bool,
    value: Node,
) -> Result<Init, AllocError> {
    let (key, assignment) = define_key(state, names, key, computed)?;
    let arguments = List::from_vec(vec![in state.alloc; object, key, value]?);
    Ok(Init {
        init: create_helper_call(state.alloc, "defineProperty", arguments)?,
        assignment,
    })
}

/// `"k"` for the key `k`, and else the key.
fn define_key(
    state: &mut State,
    names: &mut Naming,
    key: Node,
    computed: bool,
) -> Result<(Node, Option<Node>), AllocError> {
    match key.kind() {
        Kind::IdentifierName if !computed => {
            let name = IdentifierName::from_node(key).name;
            Ok((create_string(state.alloc, name)?, None))
        }
        _ => {
            let held = create_computed_key_temp_var_if_required(state, names, key)?;
            Ok((held.key, held.assignment))
        }
    }
}

/// `object.k = value`, or `object[key] = value`
fn create_set(
    state: &mut State,
    names: &mut Naming,
    object: Node,
    key: Node,
    computed: bool,
    value: Node,
) -> Result<Init, AllocError> {
    let (target, assignment) = match key.kind() {
        Kind::IdentifierName if !computed => {
            // a key that was a name gives its number up
            let name = IdentifierName::from_node(key).name;
            let property = make_identifier_name(state.alloc, name)?;
            (
                make_member_expression(state.alloc, object, property, false, false)?,
                None,
            )
        }
        _ => {
            let held = create_computed_key_temp_var_if_required(state, names, key)?;
            (
                make_member_expression(state.alloc, object, held.key, true, false)?,
                held.assignment,
            )
        }
    };
    Ok(Init {
        init: make_assignment_expression(state.alloc, AssignmentOperator::Assign, target, value)?,
        assignment,
    })
}
