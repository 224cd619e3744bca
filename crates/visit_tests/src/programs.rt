// Visitors on programs.

use crate::unnumbered::unnumber_references;
use es_json::read::read_numbered;
use es_json::write::write_program;
use es_node::node::Node;
use es_reading::count::is_countable;
use es_visit::roles::Role;
use serde_json::Value;
use std::alloc::Global;
use std::test::Fail;

/// The program that a text is, with the numbers that stand there.
fn read(alloc: Global, text: &str) -> Result<Node, Fail> {
    let value = Value::from_str(alloc, text)?;
    if !is_countable(&value) {
        return Err(Fail::new("too many values"));
    }
    let (program, _foreign) = read_numbered(alloc, &value)?.into_node();
    Ok(program)
}

/// The text of a program.
fn write(alloc: Global, program: &Node) -> Result<String, Fail> {
    Ok(write_program(alloc, program)?.to_string(alloc)?)
}

// f(x, () => y); function g() { z; } w;
#[test]
fn references_outside_functions_lose_their_numbers(rt: HostRuntime) -> Result<(), Fail> {
    let alloc = rt.alloc();
    let source =
        r#"{"type":"Program","node":0,"sourceType":"script","body":[{"type":"ExpressionStatement","node":1,"expression":{"type":"CallExpression","node":2,"callee":{"type":"Identifier","node":3,"name":"f"},"arguments":[{"type":"Identifier","node":4,"name":"x"},{"type":"ArrowFunctionExpression","node":5,"params":[],"expression":true,"async":false,"body":{"type":"Identifier","node":6,"name":"y"}}],"optional":false}},{"type":"FunctionDeclaration","node":7,"id":{"type":"Identifier","node":8,"name":"g"},"params":[],"body":{"type":"BlockStatement","node":9,"body":[{"type":"ExpressionStatement","node":10,"expression":{"type":"Identifier","node":11,"name":"z"}}]},"async":false,"generator":false},{"type":"ExpressionStatement","node":12,"expression":{"type":"Identifier","node":13,"name":"w"}}]}"#;
    let wanted =
        r#"{"type":"Program","node":0,"sourceType":"script","body":[{"type":"ExpressionStatement","node":1,"expression":{"type":"CallExpression","node":2,"callee":{"type":"Identifier","node":4294967295,"name":"f"},"arguments":[{"type":"Identifier","node":4294967295,"name":"x"},{"type":"ArrowFunctionExpression","node":5,"params":[],"expression":true,"async":false,"body":{"type":"Identifier","node":6,"name":"y"}}],"optional":false}},{"type":"FunctionDeclaration","node":7,"id":{"type":"Identifier","node":8,"name":"g"},"params":[],"body":{"type":"BlockStatement","node":9,"body":[{"type":"ExpressionStatement","node":10,"expression":{"type":"Identifier","node":11,"name":"z"}}]},"async":false,"generator":false},{"type":"ExpressionStatement","node":12,"expression":{"type":"Identifier","node":4294967295,"name":"w"}}]}"#;
    let mut program = read(alloc, source)?;
    let functions = unnumber_references(alloc, Role::Other, &mut program)?;
    assert!(rt; functions.as_slice() == [5, 7].as_slice());
    let found = write(alloc, &program)?;
    let wanted = write(alloc, &read(alloc, wanted)?)?;
    assert!(rt; found.as_str() == wanted.as_str(), "{found}");
    Ok(())
}
