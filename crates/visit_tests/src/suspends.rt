// Whether a tree has an `await` or a `yield` outside its functions.

ghost use Rattle.std.specs.Prelude.{◌≡◌, [], ◌||◌};
ghost use Rattle.es_visit.specs.Reading.{reading};
ghost use Rattle.visit_tests.specs.Found.{outside_functions, suspends};

use es_node::node::Node;
use es_visit::roles::Role;
use es_visit::visit::{Visit, walk_node};

#[derive(Drop)]
struct Finder {
    found: bool,
}

impl Visit for Finder {
    ghost goes = { outside_functions };

    ghost leads = { λ s es e. e.found ≡ (s.found || suspends es) };

    fn visit_expression(&mut self, _node: &Node) -> bool {
        true
    }

    fn visit_class(&mut self, _node: &Node) -> bool {
        true
    }

    fn visit_function(&mut self, _node: &Node) -> bool {
        false
    }

    fn visit_arrow(&mut self, _node: &Node) -> bool {
        false
    }

    fn visit_identifier_reference(&mut self, _node: &Node) -> bool {
        true
    }

    fn visit_await(&mut self, _node: &Node) -> bool {
        self.found = true;
        true
    }

    fn visit_yield(&mut self, _node: &Node) -> bool {
        self.found = true;
        true
    }
}

/// Whether the tree has an `await` or a `yield` outside its functions and arrows. Allocates nothing.
pub fn suspends(role: Role, tree: &Node) -> bool
    ensures { result ≡ suspends (reading outside_functions role tree.now []) }
{
    let mut visitor = Finder { found: false };
    walk_node(&mut visitor, role, tree);
    visitor.found
}
