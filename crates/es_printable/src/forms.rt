// Forms of nodes that no source text has.

ghost use Rattle.std.specs.Prelude.{◌≡◌};
ghost use Rattle.es_node.specs.View.{kind_of, parts_in};
ghost use Rattle.es_steps.specs.Printable as spec;

use crate::bodies::is_bad_statement;
use crate::chains::is_bad_expression;
use crate::elements::is_bad_element;
use crate::modules::is_bad_declaration;
use es_node::node::Node;

/// Whether the node is of a form that no source text has.
#[tactic(auto, using(crate::proofs::FormGroups::by_group))]
pub fn is_bad_form(node: &Node) -> bool
    ensures { result ≡ spec.is_bad_form (kind_of node.now) (parts_in node.now) }
{
    is_bad_statement(node)
        || (is_bad_expression(node) || (is_bad_element(node) || is_bad_declaration(node)))
}
