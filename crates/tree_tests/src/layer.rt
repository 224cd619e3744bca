// The script `a;`, made by the typed layer, walked and changed.

ghost use Rattle.std.specs.Prelude.{◌≡◌, IfOk};
ghost use Rattle.es_base.specs.Numbered.{unnumbered};
ghost use Rattle.es_base.specs.Preorder.{nodes, news};

use es_base::ids::NodeId;
use es_base::kind::Kind;
use es_base::list::List;
use es_base::name::Name;
use es_base::operator::SourceType;
use es_base::table::Place;
use es_node::node::Node;
use es_tree::identifier::{IdentifierReferenceRef, make_identifier_reference};
use es_tree::program::make_program;
use es_tree::statement::{ExpressionStatement, make_expression_statement};
use std::alloc::{AllocError, Global};
use std::test::Fail;

/// `a;`
fn statement(alloc: Global) -> Result<Node, AllocError>
    ensures count { IfOk result (λ t. nodes t ≡ 2) }
    ensures news { IfOk result (λ t. news unnumbered t ≡ 2) }
{
    let a = make_identifier_reference(alloc, Name::new(alloc, "a")?)?;
    make_expression_statement(alloc, a, None)
}

/// The script `a;`.
fn script(alloc: Global) -> Result<Node, AllocError>
    ensures { IfOk result (λ t. nodes t ≡ 3) }
{
    let mut body = List::new(alloc);
    body.push(statement(alloc)?)?;
    make_program(alloc, SourceType::Script, body)
}

/// The name that a statement `a;` reads, and its number; nothing for other nodes.
fn read_by(statement: Node) -> Option<NodeId> {
    match statement.kind() {
        Kind::ExpressionStatement => {
            let statement = ExpressionStatement::from_node(statement);
            match statement.expression.kind() {
                Kind::IdentifierReference => {
                    let a = IdentifierReferenceRef::from_node(&statement.expression);
                    if a.name.as_str() == "a" {
                        Some(a.node_id)
                    } else {
                        None
                    }
                }
                _ => None,
            }
        }
        _ => None,
    }
}

#[test]
fn a_script_is_made_and_numbered(rt: HostRuntime) -> Result<(), Fail> {
    let alloc = rt.alloc();
    let mut program = script(alloc)?;
    assert_eq!(rt; program.nodes(), 3);
    assert!(rt; program.conforms(Place::Program) && !program.conforms(Place::Statement));
    assert_eq!(rt; program.node_id(), NodeId::DUMMY);
    program.number();
    assert_eq!(rt; program.node_id(), NodeId(0));

    let mut statement = statement(alloc)?;
    assert_eq!(rt; statement.number_unnumbered(7), 9);
    assert_eq!(rt; statement.node_id(), NodeId(7));
    let copy = statement.clone_tree(alloc)?;
    assert_eq!(rt; read_by(copy), Some(NodeId(8)));
    let taken = statement.take();
    assert_eq!(rt; statement.kind(), Kind::EmptyStatement);
    assert_eq!(rt; read_by(taken), Some(NodeId(8)));
    Ok(())
}
