// The examples of README.md, as they stand there.

ghost use Rattle.std.specs.Prelude.{◌≡◌};
ghost use Rattle.es_base.specs.declared.kind.Kind.{Kind};
ghost use Rattle.es_node.specs.View.{kind_of};

use es_base::ids::NodeId;
use es_base::kind::Kind;
use es_base::list::List;
use es_base::literal::LiteralValue;
use es_base::name::Name;
use es_base::operator::AssignmentOperator;
use es_base::table::Place;
use es_json::read::read_program;
use es_json::write::write_program;
use es_node::node::Node;
use es_reading::count::is_countable;
use es_tree::class::{
    ClassBody, ClassDeclaration, make_class_body, make_class_declaration, make_static_block,
};
use es_tree::expression::{
    make_assignment_expression, make_member_expression, make_this_expression,
};
use es_tree::identifier::{make_binding_identifier, make_identifier_name};
use es_tree::literal::make_literal;
use es_tree::statement::make_expression_statement;
use serde_json::Value;
use std::alloc::{AllocError, Global};
use std::test::Fail;

/// Reads a program and writes it again; nothing where the text is no program.
fn rewritten(alloc: Global, text: &str) -> Option<String> {
    let value = Value::from_str(alloc, text).ok()?;
    if is_countable(&value) {
        let program = read_program(alloc, &value).ok()?;
        let (node, _foreign) = program.into_node();
        write_program(alloc, &node).ok()?.to_string(alloc).ok()
    } else {
        None
    }
}

/// `this.x = 0;`
fn assignment(alloc: Global) -> Result<Node, AllocError> {
    let x = make_identifier_name(alloc, Name::new(alloc, "x")?)?;
    let target = make_member_expression(alloc, make_this_expression(alloc)?, x, false, false)?;
    let raw = Name::new(alloc, "0")?;
    let zero = make_literal(alloc, LiteralValue::Number { raw })?;
    let assignment = make_assignment_expression(alloc, AssignmentOperator::Assign, target, zero)?;
    make_expression_statement(alloc, assignment, None)
}

/// Adds a static block to a class.
fn with_static_block(alloc: Global, class: Node) -> Result<Node, AllocError> {
    match class.kind() {
        Kind::ClassDeclaration => {
            let mut class = ClassDeclaration::from_node(class);
            class.body = with_block(alloc, class.body)?;
            Ok(class.into_node())
        }
        _ => Ok(class),
    }
}

fn with_block(alloc: Global, body: Node) -> Result<Node, AllocError> {
    match body.kind() {
        Kind::ClassBody => {
            let mut body = ClassBody::from_node(body);
            let block = make_static_block(alloc, List::new(alloc))?;
            body.body.push(block)?;
            Ok(body.into_node())
        }
        _ => Ok(body),
    }
}

/// `class C {}`
fn class(alloc: Global) -> Result<Node, AllocError> {
    let id = make_binding_identifier(alloc, Name::new(alloc, "C")?)?;
    let body = make_class_body(alloc, List::new(alloc))?;
    make_class_declaration(alloc, Some(id), None, body)
}

#[test]
fn examples_run(rt: HostRuntime) -> Result<(), Fail> {
    let alloc = rt.alloc();
    let text = r#"{"type":"Program","sourceType":"script","body":[]}"#;
    let written = rewritten(alloc, text).ok_or("not a tree")?;
    assert_eq!(rt;
        written.as_str(),
        r#"{"body":[],"node":0,"sourceType":"script","type":"Program"}"#
    );

    let statement = assignment(alloc)?;
    assert!(rt; statement.conforms(Place::Statement));
    assert_eq!(rt; statement.node_id(), NodeId::DUMMY);

    let class = with_static_block(alloc, class(alloc)?)?;
    assert!(rt; class.conforms(Place::Statement));
    Ok(())
}
