// The numbers of all classes of a tree.

ghost use Rattle.std.specs.Prelude.{◌≡◌, [], ◌++◌, false, IfOk};
ghost use Rattle.es_visit.specs.Reading.{everywhere, reading};
ghost use Rattle.visit_tests.specs.Found.{classes};

use es_node::node::Node;
use es_visit::roles::Role;
use es_visit::visit::{Visit, walk_node};
use std::alloc::{AllocError, Global};

#[derive(Drop)]
struct Collector {
    numbers: Vec<u32>,
    has_failed: bool,
}

impl Visit for Collector {
    ghost goes = { everywhere };

    ghost leads = { λ s es e. e.has_failed ≡ false → (s.has_failed ≡ false) × (e.numbers.items ≡ s.numbers.items ++ classes es) };

    fn visit_expression(&mut self, _node: &Node) -> bool {
        true
    }

    fn visit_class(&mut self, node: &Node) -> bool {
        if self.numbers.push(node.node_id().0).is_err() {
            self.has_failed = true;
        }
        true
    }

    fn visit_function(&mut self, _node: &Node) -> bool {
        true
    }

    fn visit_arrow(&mut self, _node: &Node) -> bool {
        true
    }

    fn visit_identifier_reference(&mut self, _node: &Node) -> bool {
        true
    }

    fn visit_await(&mut self, _node: &Node) -> bool {
        true
    }

    fn visit_yield(&mut self, _node: &Node) -> bool {
        true
    }
}

/// The numbers of the classes of the tree, in preorder. Fails on allocation failure alone.
pub fn classes(alloc: Global, role: Role, tree: &Node) -> Result<Vec<u32>, AllocError>
    ensures { IfOk result (λ numbers. numbers.items ≡ classes (reading everywhere role tree.now [])) }
{
    let mut visitor = Collector {
        numbers: Vec::new(alloc),
        has_failed: false,
    };
    walk_node(&mut visitor, role, tree);
    let Collector {
        numbers,
        has_failed,
    } = visitor;
    if has_failed {
        Err(AllocError)
    } else {
        Ok(numbers)
    }
}
