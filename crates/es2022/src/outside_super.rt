// What stands for `super(..)` outside of a class whose constructor calls `super` in its parameters: a function that gets the
// initializers of instance fields (oxc_transformer, `create_super_function_outside_constructor`).
//
//   class C extends P { x = 1; constructor(a = super()) {} }
//
// becomes
//
//   let _super = function() { "use strict"; babelHelpers.defineProperty(this, "x", 1); return this; };
//   class C extends P { constructor(a = _super.call(super())) {} }

use crate::builders::{create_assignment, create_declarator, create_string};
use crate::class_details::{ClassDetails, OutsideSuper};
use crate::constructor::SuperRewriter;
use crate::names::Naming;
use crate::prop_decl::convert_instance_property;
use crate::rewrite::rewrite_part;
use crate::state::State;
use crate::static_block_and_prop_init::transform_outside_initializer;
use crate::utils::{append, exprs_into_stmts};
use es_base::kind::Kind;
use es_base::ledger::GeneratedKind;
use es_base::list::List;
use es_base::name::Name;
use es_base::operator::MethodDefinitionKind;
use es_node::node::Node;
use es_tree::class::{MethodDefinition, PropertyDefinition};
use es_tree::expression::make_this_expression;
use es_tree::function::{FunctionExpression, make_function_expression};
use es_tree::statement::{make_block_statement, make_expression_statement, make_return_statement};
use std::alloc::{AllocError, Global};

/// Draws the name of the function, as a class that needs it is left.
pub fn begin_outside_super(
    names: &mut Naming,
    details: &mut ClassDetails,
) -> Result<(), AllocError> {
    if details.has_outside_super {
        let kind = GeneratedKind::SuperFn(details.head.number);
        details.outside_super = Some(OutsideSuper {
            name: names.generate("super", kind)?,
            inits: List::new(names.alloc),
        });
    }
    Ok(())
}

/// An instance field as its class is left: where there is such a function, what defines the field goes into that.
pub fn convert_outside_property(
    state: &mut State,
    names: &mut Naming,
    details: &mut ClassDetails,
    field: PropertyDefinition,
) -> Result<PropertyDefinition, AllocError> {
    let Some(mut outside) = details.outside_super.take() else {
        return Ok(field);
    };
    let mut inits = List::new(state.alloc);
    let field = convert_instance_property(state, names, field, &mut inits)?;
    for init in inits.into_vec() {
        let init = transform_outside_initializer(names, details, init)?;
        outside.inits.push(init)?;
    }
    details.outside_super = Some(outside);
    Ok(field)
}

/// A method as its class is left: where there is such a function, `super(..)` of a constructor becomes `_super.call(super(..))`.
pub fn wrap_super_calls(
    alloc: Global,
    details: &ClassDetails,
    method: MethodDefinition,
) -> Result<MethodDefinition, AllocError> {
    let mut method = method;
    if let Some(outside) = &details.outside_super {
        if method.kind == MethodDefinitionKind::Constructor {
            method.value = wrap_in_function(alloc, &outside.name, method.value)?;
        }
    }
    Ok(method)
}

fn wrap_in_function(alloc: Global, name: &Name, function: Node) -> Result<Node, AllocError> {
    match function.kind() {
        Kind::FunctionExpression => {
            let mut function = FunctionExpression::from_node(function);
            let mut rewriter = SuperRewriter {
                alloc,
                name: name.try_clone(alloc)?,
                is_outside: true,
            };
            for param in function.params.as_mut_slice() {
                rewrite_part(&mut rewriter, param)?;
            }
            rewrite_part(&mut rewriter, &mut function.body)?;
            Ok(function.into_node())
        }
        _ => Ok(function),
    }
}

/// The function, as all initializers are known: `let _super = function() { .. };` in front of a declaration, and for an expression
/// `let _super;` and `_super = function() { .. }`. It is declared behind the temporaries of keys, which it reads.
pub fn end_outside_super(state: &mut State, details: &mut ClassDetails) -> Result<(), AllocError> {
    let Some(outside) = details.outside_super.take() else {
        return Ok(());
    };
    let alloc = state.alloc;
    let OutsideSuper { name, inits } = outside;
    let function = create_super_function(alloc, inits, details.is_in_strict_list)?;
    let init = if details.head.is_declaration {
        Some(function)
    } else {
        let assignment = create_assignment(alloc, &name, function)?;
        details.before.insert(0, assignment)?;
        None
    };
    let declarator = create_declarator(alloc, &name, init)?;
    state.insertions.lets.push(declarator)
}

/// `function() { "use strict"; inits; return this; }`, with the directive where the code around is not strict.
fn create_super_function(
    alloc: Global,
    inits: List<Node>,
    is_in_strict_list: bool,
) -> Result<Node, AllocError> {
    let mut statements = List::new(alloc);
    if !is_in_strict_list {
        statements.push(create_use_strict(alloc)?)?;
    }
    append(&mut statements, exprs_into_stmts(alloc, inits)?)?;
    let this = make_this_expression(alloc)?;
    statements.push(make_return_statement(alloc, Some(this))?)?;
    let body = make_block_statement(alloc, statements)?;
    make_function_expression(alloc, None, List::new(alloc), body, false, false)
}

// "use strict";
fn create_use_strict(alloc: Global) -> Result<Node, AllocError> {
    let directive = Name::from_ascii(alloc, "use strict")?;
    let string = create_string(alloc, directive.try_clone(alloc)?)?;
    make_expression_statement(alloc, string, Some(directive))
}
