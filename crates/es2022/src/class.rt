// Classes, as the walk enters and leaves them.

use crate::builders::{create_assignment, create_binding, create_reference, create_statement};
use crate::class_details::{ClassDetails, ClassHead};
use crate::computed_key::{
    extract_instance_prop_computed_key, substitute_temp_var_for_method_computed_key,
};
use crate::constructor::{calls_super_in_parameters, insert_instance_inits};
use crate::names::Naming;
use crate::outside_super::{
    begin_outside_super, convert_outside_property, end_outside_super, wrap_super_calls,
};
use crate::prop_decl::{convert_instance_property, convert_static_property};
use crate::state::State;
use crate::static_block_and_prop_init::convert_static_block;
use crate::utils::{append, exprs_into_stmts};
use es_base::ids::NodeId;
use es_base::kind::Kind;
use es_base::list::List;
use es_base::name::Name;
use es_node::node::Node;
use es_tree::class::{
    ClassBody, ClassDeclaration, ClassExpression, MethodDefinition, MethodDefinitionRef,
    PropertyDefinition, PropertyDefinitionRef, StaticBlock,
};
use es_tree::expression::make_sequence_expression;
use std::alloc::{AllocError, Global};

// ---- entering

/// Enters a class: what it has is counted, and the initializers of its instance fields go into its constructor, while their
/// keys stay where they are: `class C { [f()] = 1; }` becomes `class C { constructor() { .. } [_f = f()]; }`.
pub fn enter_class(state: &mut State, names: &mut Naming, class: Node) -> Result<Node, AllocError> {
    let alloc = state.alloc;
    match class.kind() {
        Kind::ClassDeclaration => {
            let mut class = ClassDeclaration::from_node(class);
            let (id, heritage) = (class.id.as_ref(), class.super_class.as_ref());
            let head = ClassHead::new(alloc, class.node_id, true, id, heritage)?;
            class.body = enter_body(state, names, head, class.body)?;
            Ok(class.into_node())
        }
        Kind::ClassExpression => {
            let mut class = ClassExpression::from_node(class);
            let (id, heritage) = (class.id.as_ref(), class.super_class.as_ref());
            let head = ClassHead::new(alloc, class.node_id, false, id, heritage)?;
            class.body = enter_body(state, names, head, class.body)?;
            Ok(class.into_node())
        }
        _ => Ok(class),
    }
}

/// What of a class is lowered.
#[derive(Debug, Clone, Copy)]
struct Census {
    instance_fields: bool,
    /// Instance fields that are not left out.
    instance_inits: bool,
    static_fields: bool,
    static_blocks: bool,
}

/// Counts the elements of a class. Private ones are in the way.
fn census_of(state: &mut State, elements: &[Node]) -> Census {
    let mut census = Census {
        instance_fields: false,
        instance_inits: false,
        static_fields: false,
        static_blocks: false,
    };
    for element in elements {
        match element.kind() {
            Kind::PropertyDefinition => {
                let field = PropertyDefinitionRef::from_node(element);
                decline_private(state, field.key);
                if field.is_static {
                    census.static_fields = true;
                } else {
                    census.instance_fields = true;
                    if field.value.is_some() || !state.settings.removes_empty_fields() {
                        census.instance_inits = true;
                    }
                }
            }
            Kind::MethodDefinition => {
                decline_private(state, MethodDefinitionRef::from_node(element).key);
            }
            Kind::StaticBlock if state.settings.transform_static_blocks => {
                census.static_blocks = true;
            }
            _ => {}
        }
    }
    census
}

/// A private name is in the way.
fn decline_private(state: &mut State, key: &Node) {
    if key.kind() == Kind::PrivateIdentifier {
        state.decline(key.node_id());
    }
}

fn enter_body(
    state: &mut State,
    names: &mut Naming,
    head: ClassHead,
    body: Node,
) -> Result<Node, AllocError> {
    match body.kind() {
        Kind::ClassBody => {
            let mut body = ClassBody::from_node(body);
            body.body = enter_elements(state, names, head, body.body)?;
            Ok(body.into_node())
        }
        _ => Ok(body),
    }
}

fn enter_elements(
    state: &mut State,
    names: &mut Naming,
    head: ClassHead,
    elements: List<Node>,
) -> Result<List<Node>, AllocError> {
    let census = census_of(state, elements.as_slice());
    let mut details = class_details_of(state, names, head, census)?;
    let (number, has_super_class) = (details.head.number, details.head.has_super_class);
    let has_outside_super = has_super_class
        && census.instance_inits
        && calls_super_in_parameters(elements.as_slice());
    details.has_outside_super = has_outside_super;
    state.classes.push(details)?;
    if !census.instance_fields || has_outside_super {
        return Ok(elements);
    }
    let mut inits = List::new(state.alloc);
    let mut kept = List::new(state.alloc);
    for element in elements.into_vec() {
        kept.push(enter_element(state, names, element, &mut inits)?)?;
    }
    if inits.is_empty() {
        return Ok(kept);
    }
    insert_instance_inits(names, number, has_super_class, kept, inits)
}

/// An element as the walk enters its class; the initializer of an instance field is added to the others.
fn enter_element(
    state: &mut State,
    names: &mut Naming,
    element: Node,
    inits: &mut List<Node>,
) -> Result<Node, AllocError> {
    match element.kind() {
        Kind::PropertyDefinition => {
            let field = PropertyDefinition::from_node(element);
            if field.is_static {
                return Ok(field.into_node());
            }
            Ok(convert_instance_property(state, names, field, inits)?.into_node())
        }
        _ => Ok(element),
    }
}

/// What is known of a class as it is entered. An expression with static fields, or a declaration without a name, has a
/// temporary.
fn class_details_of(
    state: &mut State,
    names: &mut Naming,
    head: ClassHead,
    census: Census,
) -> Result<ClassDetails, AllocError> {
    let needs_temp = census.static_fields && (!head.is_declaration || head.name.is_none());
    let temp = temp_of(state, names, &head, needs_temp)?;
    Ok(ClassDetails {
        is_transform_required: census.instance_fields
            || census.static_fields
            || census.static_blocks,
        is_in_strict_list: false,
        has_outside_super: false,
        outside_super: None,
        temp_is_declared: needs_temp,
        head,
        temp,
        before: List::new(state.alloc),
        after: List::new(state.alloc),
    })
}

/// The temporary of a class, if it needs one; that of an expression is declared.
fn temp_of(
    state: &mut State,
    names: &mut Naming,
    head: &ClassHead,
    is_needed: bool,
) -> Result<Option<Name>, AllocError> {
    if !is_needed {
        return Ok(None);
    }
    let temp = names.create_class_temp(head)?;
    if !head.is_declaration {
        state.insert_var(&temp)?;
    }
    Ok(Some(temp))
}

// ---- leaving

/// Leaves a class, which stands in a list of statements in strict code or not: its fields go, and the blocks that are lowered; static
/// fields and blocks go behind it, keys in front of it.
pub fn exit_class(
    state: &mut State,
    names: &mut Naming,
    class: Node,
    is_in_strict_list: bool,
) -> Result<Node, AllocError> {
    let Some(mut details) = innermost(state) else {
        return Ok(class);
    };
    details.is_in_strict_list = is_in_strict_list;
    if !details.is_transform_required {
        return Ok(class);
    }
    match class.kind() {
        Kind::ClassDeclaration => {
            exit_declaration(state, names, details, ClassDeclaration::from_node(class))
        }
        Kind::ClassExpression => {
            exit_expression(state, names, details, ClassExpression::from_node(class))
        }
        _ => Ok(class),
    }
}

/// The innermost class, which the walk leaves.
fn innermost(state: &mut State) -> Option<ClassDetails> {
    let last = state.classes.len().checked_sub(1)?;
    Some(state.classes.remove(last))
}

/// `class C { static x = this; }` becomes `var _C; class C {} _C = C; babelHelpers.defineProperty(C, "x", _C);`
fn exit_declaration(
    state: &mut State,
    names: &mut Naming,
    details: ClassDetails,
    class: ClassDeclaration,
) -> Result<Node, AllocError> {
    let mut details = details;
    let mut class = class;
    class.body = exit_body(state, names, &mut details, class.body)?;
    let mut after = List::new(state.alloc);
    if let Some(temp) = &details.temp {
        match &details.head.name {
            Some(name) => {
                state.insert_var(temp)?;
                let value = create_reference(state.alloc, name)?;
                let assignment = create_assignment(state.alloc, temp, value)?;
                after.push(create_statement(state.alloc, assignment)?)?;
            }
            None => class.id = Some(create_binding(state.alloc, temp)?),
        }
    }
    append(&mut after, exprs_into_stmts(state.alloc, details.after)?)?;
    state.insertions.before = exprs_into_stmts(state.alloc, details.before)?;
    state.insertions.after = after;
    Ok(class.into_node())
}

/// `class { static x = 1; }` becomes `(_Class = class {}, babelHelpers.defineProperty(_Class, "x", 1), _Class)`.
fn exit_expression(
    state: &mut State,
    names: &mut Naming,
    details: ClassDetails,
    class: ClassExpression,
) -> Result<Node, AllocError> {
    let mut details = details;
    let mut class = class;
    class.body = exit_body(state, names, &mut details, class.body)?;
    let ClassDetails {
        temp,
        temp_is_declared,
        before,
        after,
        ..
    } = details;
    match temp {
        Some(temp) => {
            if !temp_is_declared {
                state.insert_var(&temp)?;
            }
            held_in_sequence(state.alloc, &temp, before, class.into_node(), after)
        }
        None => in_sequence(state.alloc, before, after, class.into_node()),
    }
}

/// `(before, _C = class {}, after, _C)`
fn held_in_sequence(
    alloc: Global,
    temp: &Name,
    before: List<Node>,
    class: Node,
    after: List<Node>,
) -> Result<Node, AllocError> {
    let assignment = create_assignment(alloc, temp, class)?;
    if before.is_empty() && after.is_empty() {
        return Ok(assignment);
    }
    let mut expressions = before;
    expressions.push(assignment)?;
    append(&mut expressions, after)?;
    expressions.push(create_reference(alloc, temp)?)?;
    make_sequence_expression(alloc, expressions)
}

/// `(before, after, class {})`
fn in_sequence(
    alloc: Global,
    before: List<Node>,
    after: List<Node>,
    class: Node,
) -> Result<Node, AllocError> {
    if before.is_empty() && after.is_empty() {
        return Ok(class);
    }
    let mut expressions = before;
    append(&mut expressions, after)?;
    expressions.push(class)?;
    make_sequence_expression(alloc, expressions)
}

fn exit_body(
    state: &mut State,
    names: &mut Naming,
    details: &mut ClassDetails,
    body: Node,
) -> Result<Node, AllocError> {
    match body.kind() {
        Kind::ClassBody => {
            let mut body = ClassBody::from_node(body);
            body.body = exit_elements(state, names, details, body.body)?;
            Ok(body.into_node())
        }
        _ => Ok(body),
    }
}

fn exit_elements(
    state: &mut State,
    names: &mut Naming,
    details: &mut ClassDetails,
    elements: List<Node>,
) -> Result<List<Node>, AllocError> {
    begin_outside_super(names, details)?;
    let mut kept = List::new(state.alloc);
    for element in elements.into_vec() {
        if let Some(element) = exit_element(state, names, details, element)? {
            kept.push(element)?;
        }
    }
    end_outside_super(state, details)?;
    Ok(kept)
}

/// What stays of an element.
fn exit_element(
    state: &mut State,
    names: &mut Naming,
    details: &mut ClassDetails,
    element: Node,
) -> Result<Option<Node>, AllocError> {
    match element.kind() {
        Kind::PropertyDefinition => {
            exit_field(
                state,
                names,
                details,
                PropertyDefinition::from_node(element),
            )?;
            Ok(None)
        }
        Kind::StaticBlock if state.settings.transform_static_blocks => {
            convert_static_block(state, names, details, StaticBlock::from_node(element))?;
            Ok(None)
        }
        Kind::MethodDefinition => {
            let method = MethodDefinition::from_node(element);
            let method = substitute_temp_var_for_method_computed_key(
                state, names, details, method,
            )?;
            let method = wrap_super_calls(state.alloc, details, method)?;
            Ok(Some(method.into_node()))
        }
        _ => Ok(Some(element)),
    }
}

fn exit_field(
    state: &mut State,
    names: &mut Naming,
    details: &mut ClassDetails,
    field: PropertyDefinition,
) -> Result<(), AllocError> {
    if field.is_static {
        return convert_static_property(state, names, details, field);
    }
    let field = convert_outside_property(state, names, details, field)?;
    extract_instance_prop_computed_key(names, details, field)
}
