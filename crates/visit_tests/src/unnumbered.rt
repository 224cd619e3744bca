// References without their numbers, outside functions.

ghost use Rattle.std.specs.Prelude.{◌≡◌, [], ◌∷◌, ◌++◌, false, fold, IfOk, OnOk};
ghost use Rattle.es_base.specs.Preorder.{number_of};
ghost use Rattle.es_visit.specs.Changed.{changed};
ghost use Rattle.es_visit.specs.Meetings.{entered, meetings};
ghost use Rattle.visit_tests.specs.Unnumbered.{and_function, change, outside_functions, without_number};

use es_base::ids::{NodeId, ScopeId};
use es_node::node::Node;
use es_visit::roles::Role;
use es_visit::visit_mut::{VisitMut, walk_node_mut};
use std::alloc::{AllocError, Global};

#[derive(Drop)]
struct Unnumberer {
    functions: Vec<u32>,
}

impl Unnumberer {
    /// Keeps the number of a function, and stays out of it.
    fn stay_out(&mut self, function: &Node) -> Result<bool, AllocError>
        ensures answer { IfOk result (λ goes. goes ≡ false) }
        ensures kept { OnOk result (self.new.functions.items ≡ self.old.functions.items ++ number_of function.now ∷ []) }
    {
        self.functions.push(function.node_id().0)?;
        Ok(false)
    }
}

impl VisitMut for Unnumberer {
    ghost enters = { λ hook s t goes e. (goes ≡ outside_functions hook t) × (e.functions.items ≡ and_function s.functions.items (entered hook t)) };

    ghost leaves = { λ hook s t e u. (u ≡ change hook t) × (e.functions.items ≡ s.functions.items) };

    ghost scope_enters = { λ scope s e. e.functions.items ≡ s.functions.items };

    ghost scope_leaves = { λ s e. e.functions.items ≡ s.functions.items };

    ghost ready = { λ s. Unit {0} };

    ghost enter_ready = { λ hook s e t goes h r. tt };

    ghost leave_ready = { λ hook s e t u h r. tt };

    ghost scope_enter_ready = { λ scope s e h r. tt };

    ghost scope_leave_ready = { λ s e h r. tt };

    fn enter_statement(&mut self, _node: &Node) -> Result<bool, AllocError> {
        Ok(true)
    }

    fn visit_statement(&mut self, _node: &mut Node) -> Result<(), AllocError> {
        Ok(())
    }

    fn enter_expression(&mut self, _node: &Node) -> Result<bool, AllocError> {
        Ok(true)
    }

    fn visit_expression(&mut self, _node: &mut Node) -> Result<(), AllocError> {
        Ok(())
    }

    fn enter_class(&mut self, _node: &Node) -> Result<bool, AllocError> {
        Ok(true)
    }

    fn visit_class(&mut self, _node: &mut Node) -> Result<(), AllocError> {
        Ok(())
    }

    fn enter_function(&mut self, node: &Node) -> Result<bool, AllocError> {
        self.stay_out(node)
    }

    fn visit_function(&mut self, _node: &mut Node) -> Result<(), AllocError> {
        Ok(())
    }

    fn enter_arrow(&mut self, node: &Node) -> Result<bool, AllocError> {
        self.stay_out(node)
    }

    fn visit_arrow(&mut self, _node: &mut Node) -> Result<(), AllocError> {
        Ok(())
    }

    fn enter_call(&mut self, _node: &Node) -> Result<bool, AllocError> {
        Ok(true)
    }

    fn visit_call(&mut self, _node: &mut Node) -> Result<(), AllocError> {
        Ok(())
    }

    fn enter_property_definition(&mut self, _node: &Node) -> Result<bool, AllocError> {
        Ok(true)
    }

    fn visit_property_definition(&mut self, _node: &mut Node) -> Result<(), AllocError> {
        Ok(())
    }

    fn enter_static_block(&mut self, _node: &Node) -> Result<bool, AllocError> {
        Ok(true)
    }

    fn visit_static_block(&mut self, _node: &mut Node) -> Result<(), AllocError> {
        Ok(())
    }

    fn enter_identifier_reference(&mut self, _node: &Node) -> Result<bool, AllocError> {
        Ok(true)
    }

    fn visit_identifier_reference(&mut self, node: &mut Node) -> Result<(), AllocError> {
        unnumber(node);
        Ok(())
    }

    fn enter_binding_identifier(&mut self, _node: &Node) -> Result<bool, AllocError> {
        Ok(true)
    }

    fn visit_binding_identifier(&mut self, _node: &mut Node) -> Result<(), AllocError> {
        Ok(())
    }

    fn enter_scope(&mut self, _scope: ScopeId) -> Result<(), AllocError> {
        Ok(())
    }

    fn leave_scope(&mut self) {}
}

/// Takes a node's number from it.
fn unnumber(node: &mut Node)
    ensures { node.new ≡ without_number node.old }
{
    let taken = node.take();
    let kind = taken.kind();
    let mut contents = taken.into_contents();
    contents.node_id = NodeId::DUMMY;
    *node = Node::new(kind, contents);
}

/// Takes their numbers from the references outside functions and arrows, and answers the numbers of these
/// functions and arrows, in the order in which they are met. Fails on allocation failure alone.
pub fn unnumber_references(
    alloc: Global,
    role: Role,
    tree: &mut Node,
) -> Result<Vec<u32>, AllocError>
    ensures tree { OnOk result (tree.new ≡ changed outside_functions change role tree.old) }
    ensures functions { IfOk result (λ numbers. numbers.items ≡ fold and_function [] (meetings outside_functions role tree.old)) }
{
    let mut visitor = Unnumberer {
        functions: Vec::new(alloc),
    };
    walk_node_mut(&mut visitor, role, tree)?;
    let Unnumberer { functions } = visitor;
    Ok(functions)
}
