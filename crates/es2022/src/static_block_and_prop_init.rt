// Initializers of static fields and static blocks, which go behind their class.

use crate::builders::create_reference_at;
use crate::class_details::ClassDetails;
use crate::names::Naming;
use crate::rewrite::{Rewriter, rewrite_expression, rewrite_statements};
use crate::state::State;
use crate::super_converter::{
    WriteTemps, convert_super_member, convert_super_write, declare_key_temp, declare_update_temps,
    finish_super_call, is_super_call, is_super_member, is_super_write,
};
use es_base::ids::{NodeId, SymbolId};
use es_base::kind::Kind;
use es_base::list::List;
use es_base::literal::LiteralValue;
use es_base::name::Name;
use es_base::operator::UnaryOperator;
use es_builders::builders::create_void_0;
use es_node::node::Node;
use es_tree::class::StaticBlock;
use es_tree::expression::{MetaPropertyRef, UnaryExpressionRef, make_call_expression};
use es_tree::function::make_arrow_function_expression;
use es_tree::identifier::{IdentifierNameRef, IdentifierReferenceRef};
use es_tree::literal::make_literal;
use es_tree::statement::{ExpressionStatement, make_block_statement};
use std::alloc::{AllocError, Global};

/// The initializer of a static field, as it stands behind the class: `this` and the name of the class are the temporary of the
/// class, `new.target` is `void 0` (ECMA-262, 15.7.10), and `super` is what reads, calls and writes by the temporary.
pub fn transform_static_initializer(
    state: &mut State,
    names: &mut Naming,
    details: &mut ClassDetails,
    value: Node,
) -> Result<Node, AllocError> {
    let mut value = value;
    let symbol = details.head.symbol;
    let mut constants = ConstantRewriter {
        alloc: state.alloc,
        is_static: true,
    };
    rewrite_expression(&mut constants, &mut value)?;
    rewrite_expression(
        &mut ThisRewriter::new(state, &mut *names, &mut *details),
        &mut value,
    )?;
    if let Some(symbol) = symbol {
        rewrite_expression(
            &mut NameRewriter {
                names,
                details,
                symbol,
            },
            &mut value,
        )?;
    }
    Ok(value)
}

/// `static { f(); }` becomes `f()` behind the class, and `static { f(); g(); }` becomes `(() => { f(); g(); })()`.
pub fn convert_static_block(
    state: &mut State,
    names: &mut Naming,
    details: &mut ClassDetails,
    block: StaticBlock,
) -> Result<(), AllocError> {
    let mut statements = block.body;
    let symbol = details.head.symbol;
    let mut constants = ConstantRewriter {
        alloc: state.alloc,
        is_static: true,
    };
    rewrite_statements(&mut constants, &mut statements)?;
    rewrite_statements(
        &mut ThisRewriter::new(state, &mut *names, &mut *details),
        &mut statements,
    )?;
    if let Some(symbol) = symbol {
        rewrite_statements(
            &mut NameRewriter {
                names: &mut *names,
                details: &mut *details,
                symbol,
            },
            &mut statements,
        )?;
    }
    let is_declaration = details.head.is_declaration;
    let expression = in_expression(names.alloc, statements, is_declaration)?;
    details.after.push(expression)
}

/// An expression that does what these statements do. One statement that is an expression stands for itself; behind a declaration
/// it stays a statement.
fn in_expression(
    alloc: Global,
    statements: List<Node>,
    is_declaration: bool,
) -> Result<Node, AllocError> {
    let mut statements = statements;
    if statements.len() == 1 {
        let only = statements.remove(0);
        if only.kind() == Kind::ExpressionStatement {
            if is_declaration {
                return Ok(only);
            }
            return Ok(ExpressionStatement::from_node(only).expression);
        }
        statements.push(only)?;
    }
    // (() => { statements })()
    let body = make_block_statement(alloc, statements)?;
    let arrow = make_arrow_function_expression(alloc, List::new(alloc), body, false)?;
    make_call_expression(alloc, arrow, List::new(alloc), false)
}

/// The initializer of an instance field, where `new.target` is `void 0`.
pub fn replace_new_target(alloc: Global, value: Node) -> Result<Node, AllocError> {
    let mut value = value;
    let mut rewriter = ConstantRewriter {
        alloc,
        is_static: false,
    };
    rewrite_expression(&mut rewriter, &mut value)?;
    Ok(value)
}

/// What defines an instance field outside of its class expression, where the name of the class is its temporary.
pub fn transform_outside_initializer(
    names: &mut Naming,
    details: &mut ClassDetails,
    init: Node,
) -> Result<Node, AllocError> {
    let mut init = init;
    if details.head.is_declaration {
        return Ok(init);
    }
    if let Some(symbol) = details.head.symbol {
        rewrite_expression(
            &mut NameRewriter {
                names,
                details,
                symbol,
            },
            &mut init,
        )?;
    }
    Ok(init)
}

/// The temporary of a class, which is made where it is first needed (oxc_transformer, `get_or_init_static_binding`).
fn class_temp(names: &mut Naming, details: &mut ClassDetails) -> Result<Name, AllocError> {
    if let Some(temp) = &details.temp {
        return temp.try_clone(names.alloc);
    }
    let temp = names.create_class_temp(&details.head)?;
    let copy = temp.try_clone(names.alloc)?;
    details.temp = Some(temp);
    Ok(copy)
}

/// Whether `this`, `super(..)` and `new.target` mean below a node what they mean there.
pub fn has_outer_this(node: &Node) -> bool {
    !matches!(
        node.kind(),
        Kind::FunctionDeclaration
            | Kind::FunctionExpression
            | Kind::PropertyDefinition
            | Kind::StaticBlock
    )
}

// new.target
fn is_new_target(node: &Node) -> bool {
    match node.kind() {
        Kind::MetaProperty => {
            let meta = MetaPropertyRef::from_node(node).meta;
            meta.kind() == Kind::IdentifierName
                && IdentifierNameRef::from_node(meta).name.as_str() == "new"
        }
        _ => false,
    }
}

// delete this
fn is_delete_this(node: &Node) -> bool {
    match node.kind() {
        Kind::UnaryExpression => {
            let unary = UnaryExpressionRef::from_node(node);
            unary.operator == UnaryOperator::Delete && unary.argument.kind() == Kind::ThisExpression
        }
        _ => false,
    }
}

/// `new.target` becomes `void 0` and, in static code, `delete this` becomes `true` (ECMA-262, 13.5.1.2).
#[derive(Drop)]
struct ConstantRewriter {
    alloc: Global,
    is_static: bool,
}

impl Rewriter for ConstantRewriter {
    fn goes_into(&mut self, node: &Node) -> Result<bool, AllocError> {
        Ok(has_outer_this(node))
    }

    fn rewrite_expression(&mut self, node: &mut Node) -> Result<(), AllocError> {
        if is_new_target(node) {
            *node = create_void_0(self.alloc)?;
        } else if self.is_static && is_delete_this(node) {
            *node = make_literal(self.alloc, LiteralValue::Boolean(true))?;
        }
        Ok(())
    }

    fn rewrite_reference(&mut self, _node: &mut Node) -> Result<(), AllocError> {
        Ok(())
    }

    fn rewrite_binding(&mut self, _node: &mut Node) -> Result<(), AllocError> {
        Ok(())
    }
}

/// `this` becomes the temporary of the class, and `super` what reads, calls and writes by the temporary.
#[derive(Drop)]
struct ThisRewriter<'a, 'b> {
    state: &'a mut State,
    names: &'a mut Naming<'b>,
    details: &'a mut ClassDetails,
    /// The numbers of the calls of members of `super`.
    super_calls: List<NodeId>,
    /// The temporaries of the writes of members of `super` around, the innermost last.
    super_writes: List<WriteTemps>,
}

impl<'a, 'b> ThisRewriter<'a, 'b> {
    fn new(
        state: &'a mut State,
        names: &'a mut Naming<'b>,
        details: &'a mut ClassDetails,
    ) -> ThisRewriter<'a, 'b> {
        let alloc = state.alloc;
        ThisRewriter {
            state,
            names,
            details,
            super_calls: List::new(alloc),
            super_writes: List::new(alloc),
        }
    }

    /// Draws the temporaries of `super.k`, `super.k(a)`, `super.k = v` and `super.k++`, where the node is one of them.
    fn enter_super(&mut self, node: &Node) -> Result<(), AllocError> {
        if is_super_call(node) {
            self.super_calls.push(node.node_id())
        } else if is_super_member(node) {
            drop(class_temp(self.names, self.details)?);
            Ok(())
        } else if is_super_write(node) {
            let key = declare_key_temp(self.state, self.names, node)?;
            drop(class_temp(self.names, self.details)?);
            let update = declare_update_temps(self.state, self.names, node)?;
            self.super_writes.push(WriteTemps { key, update })
        } else {
            Ok(())
        }
    }

    /// Converts these.
    fn rewrite_super(&mut self, node: &mut Node) -> Result<(), AllocError> {
        let alloc = self.state.alloc;
        if is_super_member(node) {
            let temp = class_temp(self.names, self.details)?;
            return convert_super_member(alloc, &temp, node);
        }
        if is_super_write(node) {
            let temp = class_temp(self.names, self.details)?;
            if let Some(temps) = self.innermost_write() {
                return convert_super_write(alloc, &temp, temps, node);
            }
        }
        if self.super_calls.as_slice().contains(&node.node_id()) {
            return finish_super_call(alloc, node);
        }
        Ok(())
    }

    /// The temporaries of the innermost write around, which is left.
    fn innermost_write(&mut self) -> Option<WriteTemps> {
        let last = self.super_writes.len().checked_sub(1)?;
        Some(self.super_writes.remove(last))
    }
}

impl Rewriter for ThisRewriter<'_, '_> {
    fn goes_into(&mut self, node: &Node) -> Result<bool, AllocError> {
        if !has_outer_this(node) {
            return Ok(false);
        }
        self.enter_super(node)?;
        Ok(true)
    }

    fn rewrite_expression(&mut self, node: &mut Node) -> Result<(), AllocError> {
        if node.kind() == Kind::ThisExpression {
            let temp = class_temp(self.names, self.details)?;
            *node = create_reference_at(self.state.alloc, &temp, node)?;
            return Ok(());
        }
        self.rewrite_super(node)
    }

    fn rewrite_reference(&mut self, _node: &mut Node) -> Result<(), AllocError> {
        Ok(())
    }

    fn rewrite_binding(&mut self, _node: &mut Node) -> Result<(), AllocError> {
        Ok(())
    }
}

/// The name of the class becomes its temporary, in functions too.
#[derive(Drop)]
struct NameRewriter<'a, 'b> {
    names: &'a mut Naming<'b>,
    details: &'a mut ClassDetails,
    symbol: SymbolId,
}

impl Rewriter for NameRewriter<'_, '_> {
    fn goes_into(&mut self, _node: &Node) -> Result<bool, AllocError> {
        Ok(true)
    }

    fn rewrite_expression(&mut self, _node: &mut Node) -> Result<(), AllocError> {
        Ok(())
    }

    fn rewrite_reference(&mut self, node: &mut Node) -> Result<(), AllocError> {
        if node.kind() != Kind::IdentifierReference {
            return Ok(());
        }
        let reference = IdentifierReferenceRef::from_node(node).reference_id;
        if self.names.means(reference, self.symbol) {
            let temp = class_temp(self.names, self.details)?;
            *node = create_reference_at(self.names.alloc, &temp, node)?;
        }
        Ok(())
    }

    fn rewrite_binding(&mut self, _node: &mut Node) -> Result<(), AllocError> {
        Ok(())
    }
}
