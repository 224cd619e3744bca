// Changes of the nodes of a tree, one by one.

ghost use Rattle.std.specs.Prelude.{ℕ, Bool};
ghost use Rattle.es_base.specs.Tree.{Tree};

use es_base::ids::{NodeId, ScopeId, Span};
use es_base::list::List;
use es_node::node::Node;
use es_visit::roles::Role;
use es_visit::visit_mut::{VisitMut, walk_node_mut, walk_nodes_mut};
use std::alloc::AllocError;

/// What changes nodes.
pub trait Rewriter {
    /// Whether the nodes below this expression, function, class, field or static block are changed, and itself behind them.
    fn goes_into(&mut self, node: &Node) -> Result<bool, AllocError>;

    /// Changes a node that stands as an expression.
    fn rewrite_expression(&mut self, node: &mut Node) -> Result<(), AllocError>;

    /// Changes an identifier that is read or written.
    fn rewrite_reference(&mut self, node: &mut Node) -> Result<(), AllocError>;

    /// Changes an identifier that declares.
    fn rewrite_binding(&mut self, node: &mut Node) -> Result<(), AllocError>;
}

/// Changes an expression and what is below it. Fails as the rewriter does.
pub fn rewrite_expression<R: Rewriter>(
    rewriter: &mut R,
    expression: &mut Node,
) -> Result<(), AllocError> {
    let mut rewriting = Rewriting { rewriter };
    walk_node_mut(&mut rewriting, Role::Expression, expression)
}

/// Changes what is in a parameter or the body of a function.
pub fn rewrite_part<R: Rewriter>(rewriter: &mut R, part: &mut Node) -> Result<(), AllocError> {
    let mut rewriting = Rewriting { rewriter };
    walk_node_mut(&mut rewriting, Role::Other, part)
}

/// Changes what is in statements.
pub fn rewrite_statements<R: Rewriter>(
    rewriter: &mut R,
    statements: &mut List<Node>,
) -> Result<(), AllocError> {
    let mut rewriting = Rewriting { rewriter };
    walk_nodes_mut(&mut rewriting, Role::Statement, statements)
}

/// The node with the number and the span of what it stands for.
pub fn with_number(node: Node, number: NodeId, span: Option<Span>) -> Node {
    let kind = node.kind();
    let mut contents = node.into_contents();
    contents.node_id = number;
    contents.span = span;
    Node::new(kind, contents)
}

/// A rewriter as a visitor.
#[derive(Drop)]
struct Rewriting<'a, R> {
    rewriter: &'a mut R,
}

impl<R: Rewriter> VisitMut for Rewriting<'_, R> {
    ghost enters = { λ hook s t goes e. Unit {0} };

    ghost leaves = { λ hook s t e u. Unit {0} };

    ghost scope_enters = { λ scope s e. Unit {0} };

    ghost scope_leaves = { λ s e. Unit {0} };

    ghost ready = { λ s. Unit {0} };

    ghost enter_ready = { λ hook s e t goes h r. tt };

    ghost leave_ready = { λ hook s e t u h r. tt };

    ghost scope_enter_ready = { λ scope s e h r. tt };

    ghost scope_leave_ready = { λ s e h r. tt };

    fn enter_statement(&mut self, _node: &Node) -> Result<bool, AllocError> {
        Ok(true)
    }

    fn visit_statement(&mut self, _node: &mut Node) -> Result<(), AllocError> {
        Ok(())
    }

    fn enter_expression(&mut self, node: &Node) -> Result<bool, AllocError> {
        self.rewriter.goes_into(node)
    }

    fn visit_expression(&mut self, node: &mut Node) -> Result<(), AllocError> {
        self.rewriter.rewrite_expression(node)
    }

    fn enter_class(&mut self, node: &Node) -> Result<bool, AllocError> {
        self.rewriter.goes_into(node)
    }

    fn visit_class(&mut self, _node: &mut Node) -> Result<(), AllocError> {
        Ok(())
    }

    fn enter_function(&mut self, node: &Node) -> Result<bool, AllocError> {
        self.rewriter.goes_into(node)
    }

    fn visit_function(&mut self, _node: &mut Node) -> Result<(), AllocError> {
        Ok(())
    }

    fn enter_arrow(&mut self, node: &Node) -> Result<bool, AllocError> {
        self.rewriter.goes_into(node)
    }

    fn visit_arrow(&mut self, _node: &mut Node) -> Result<(), AllocError> {
        Ok(())
    }

    fn enter_call(&mut self, _node: &Node) -> Result<bool, AllocError> {
        Ok(true)
    }

    fn visit_call(&mut self, _node: &mut Node) -> Result<(), AllocError> {
        Ok(())
    }

    fn enter_property_definition(&mut self, node: &Node) -> Result<bool, AllocError> {
        self.rewriter.goes_into(node)
    }

    fn visit_property_definition(&mut self, _node: &mut Node) -> Result<(), AllocError> {
        Ok(())
    }

    fn enter_static_block(&mut self, node: &Node) -> Result<bool, AllocError> {
        self.rewriter.goes_into(node)
    }

    fn visit_static_block(&mut self, _node: &mut Node) -> Result<(), AllocError> {
        Ok(())
    }

    fn enter_identifier_reference(&mut self, _node: &Node) -> Result<bool, AllocError> {
        Ok(true)
    }

    fn visit_identifier_reference(&mut self, node: &mut Node) -> Result<(), AllocError> {
        self.rewriter.rewrite_reference(node)
    }

    fn enter_binding_identifier(&mut self, _node: &Node) -> Result<bool, AllocError> {
        Ok(true)
    }

    fn visit_binding_identifier(&mut self, node: &mut Node) -> Result<(), AllocError> {
        self.rewriter.rewrite_binding(node)
    }

    fn enter_scope(&mut self, _scope: ScopeId) -> Result<(), AllocError> {
        Ok(())
    }

    fn leave_scope(&mut self) {}
}
