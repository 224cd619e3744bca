// Lists of statements.

ghost use Rattle.std.specs.Prelude.{◌≡◌, ◌&&◌, not};
ghost use Rattle.es_base.specs.Tree.{trees};
ghost use Rattle.es_node.specs.View.{kind_of, parts_in};
ghost use Rattle.es_steps.specs.KeptNodes as kept;

use crate::classes::has_lowered_class;
use es_base::kind::Kind;
use es_base::table::{Place, fits};
use es_node::node::Node;
use es_steps::options::Options;
use es_tree::class::StaticBlockRef;
use es_tree::program::ProgramRef;
use es_tree::statement::{BlockStatementRef, SwitchCaseRef};

/// The statements that stand in a list of the node.
#[tactic(auto, using(crate::proofs::Nodes::no_list))]
pub fn statement_list(node: &Node) -> &[Node]
    ensures { trees result.now ≡ kept.statement_list (kind_of node.now) (parts_in node.now) }
{
    match node.kind() {
        Kind::Program => ProgramRef::from_node(node, &[]).body,
        // { }
        Kind::BlockStatement => BlockStatementRef::from_node(node).body,
        // static { }
        Kind::StaticBlock => StaticBlockRef::from_node(node).body,
        // case x:
        Kind::SwitchCase => SwitchCaseRef::from_node(node).consequent,
        _ => &[],
    }
}

/// Whether the node is a statement that is no lowered class and holds none.
#[tactic(auto, using(crate::proofs::Nodes::free_node))]
pub fn is_free_statement(options: &Options, node: &Node) -> bool
    ensures { result ≡ kept.is_free_statement options.now node.now }
{
    fits(Place::Statement, node.kind()) && !has_lowered_class(options, node)
}
