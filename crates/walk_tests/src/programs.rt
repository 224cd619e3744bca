// The transforms, on programs; what the first two give is numbered anew.

ghost use Rattle.std.specs.Prelude.{◌≤◌, IfOk};
ghost use Rattle.es_base.specs.Preorder.{nodes};

use crate::calls::called_hooks;
use crate::hoist::hoist_this;
use crate::power::lower_powers;
use crate::references::refer_to_this;
use crate::warnings::warn_of_awaits;
use es_base::ids::ReferenceId;
use es_json::read::read_program;
use es_json::write::write_program;
use es_node::node::Node;
use es_reading::count::is_countable;
use es_scopes::scoping::Scoping;
use serde_json::Value;
use std::alloc::Global;
use std::test::Fail;

/// The program that a text is, if it is one of at most a hundred nodes.
fn read(alloc: Global, text: &str) -> Result<Node, Fail>
    ensures { IfOk result (λ program. nodes program ≤ 100) }
{
    let value = Value::from_str(alloc, text)?;
    if !is_countable(&value) {
        return Err(Fail::new("too many values"));
    }
    let (program, _foreign) = read_program(alloc, &value)?.into_node();
    if program.has_at_most(100) {
        Ok(program)
    } else {
        Err(Fail::new("too many nodes"))
    }
}

/// The text of a program.
fn write(alloc: Global, program: &Node) -> Result<String, Fail> {
    Ok(write_program(alloc, program)?.to_string(alloc)?)
}

// x ** y ** z;
// Math.pow(x, Math.pow(y, z));
#[test]
fn powers_become_calls(rt: HostRuntime) -> Result<(), Fail> {
    let alloc = rt.alloc();
    let source =
        r#"{"type":"Program","sourceType":"script","body":[{"type":"ExpressionStatement","expression":{"type":"BinaryExpression","operator":"**","left":{"type":"Identifier","name":"x"},"right":{"type":"BinaryExpression","operator":"**","left":{"type":"Identifier","name":"y"},"right":{"type":"Identifier","name":"z"}}}}]}"#;
    let wanted =
        r#"{"type":"Program","sourceType":"script","body":[{"type":"ExpressionStatement","expression":{"type":"CallExpression","callee":{"type":"MemberExpression","object":{"type":"Identifier","name":"Math"},"property":{"type":"Identifier","name":"pow"},"computed":false,"optional":false},"arguments":[{"type":"Identifier","name":"x"},{"type":"CallExpression","callee":{"type":"MemberExpression","object":{"type":"Identifier","name":"Math"},"property":{"type":"Identifier","name":"pow"},"computed":false,"optional":false},"arguments":[{"type":"Identifier","name":"y"},{"type":"Identifier","name":"z"}],"optional":false}],"optional":false}}]}"#;
    let mut program = read(alloc, source)?;
    lower_powers(alloc, &mut program)?;
    program.number();
    let found = write(alloc, &program)?;
    let wanted = write(alloc, &read(alloc, wanted)?)?;
    assert!(rt; found.as_str() == wanted.as_str(), "{found}");
    Ok(())
}

// 'use strict'; f(this); { this; }
// 'use strict'; var _this; f(_this); { var _this; _this; }
#[test]
fn names_of_this_are_declared(rt: HostRuntime) -> Result<(), Fail> {
    let alloc = rt.alloc();
    let source =
        r#"{"type":"Program","sourceType":"script","body":[{"type":"ExpressionStatement","expression":{"type":"Literal","value":"use strict"},"directive":"use strict"},{"type":"ExpressionStatement","expression":{"type":"CallExpression","callee":{"type":"Identifier","name":"f"},"arguments":[{"type":"ThisExpression"}],"optional":false}},{"type":"BlockStatement","body":[{"type":"ExpressionStatement","expression":{"type":"ThisExpression"}}]}]}"#;
    let wanted =
        r#"{"type":"Program","sourceType":"script","body":[{"type":"ExpressionStatement","expression":{"type":"Literal","value":"use strict"},"directive":"use strict"},{"type":"VariableDeclaration","kind":"var","declarations":[{"type":"VariableDeclarator","id":{"type":"Identifier","name":"_this"},"init":null}]},{"type":"ExpressionStatement","expression":{"type":"CallExpression","callee":{"type":"Identifier","name":"f"},"arguments":[{"type":"Identifier","name":"_this"}],"optional":false}},{"type":"BlockStatement","body":[{"type":"VariableDeclaration","kind":"var","declarations":[{"type":"VariableDeclarator","id":{"type":"Identifier","name":"_this"},"init":null}]},{"type":"ExpressionStatement","expression":{"type":"Identifier","name":"_this"}}]}]}"#;
    let mut program = read(alloc, source)?;
    hoist_this(alloc, &mut program)?;
    program.number();
    let found = write(alloc, &program)?;
    let wanted = write(alloc, &read(alloc, wanted)?)?;
    assert!(rt; found.as_str() == wanted.as_str(), "{found}");
    Ok(())
}

// class C { x = await y; static { a.b = 1; } }
#[test]
fn hooks_are_called_by_role_and_kind(rt: HostRuntime) -> Result<(), Fail> {
    let alloc = rt.alloc();
    let source =
        r#"{"type":"Program","sourceType":"script","body":[{"type":"ClassDeclaration","id":{"type":"Identifier","name":"C"},"superClass":null,"body":{"type":"ClassBody","body":[{"type":"PropertyDefinition","key":{"type":"Identifier","name":"x"},"value":{"type":"AwaitExpression","argument":{"type":"Identifier","name":"y"}},"computed":false,"static":false},{"type":"StaticBlock","body":[{"type":"ExpressionStatement","expression":{"type":"AssignmentExpression","operator":"=","left":{"type":"MemberExpression","object":{"type":"Identifier","name":"a"},"property":{"type":"Identifier","name":"b"},"computed":false,"optional":false},"right":{"type":"Literal","value":null,"raw":"1"}}}]}]}}]}"#;
    let wanted =
        "enter_statement 1\nenter_class_body 3\nenter_property_definition 4\nenter_expression 6\nenter_await_expression 6\nenter_expression 7\nexit_expression 7\nexit_expression 6\nexit_property_definition 4\nenter_static_block 8\nenter_statement 9\nenter_expression 10\nenter_assignment_target 11\nenter_expression 12\nexit_expression 12\nenter_expression 14\nexit_expression 14\nexit_expression 10\nexit_static_block 8\nexit_class 1\nexit_program 0\n";
    let mut program = read(alloc, source)?;
    let found = called_hooks(alloc, &mut program)?;
    assert!(rt; found.as_str() == wanted, "{found}");
    Ok(())
}

// await await x;
#[test]
fn awaits_are_warned_of(rt: HostRuntime) -> Result<(), Fail> {
    let alloc = rt.alloc();
    let source =
        r#"{"type":"Program","sourceType":"module","body":[{"type":"ExpressionStatement","expression":{"type":"AwaitExpression","argument":{"type":"AwaitExpression","argument":{"type":"Identifier","name":"x"}}}}]}"#;
    let mut program = read(alloc, source)?;
    let (_scoping, found) = warn_of_awaits(alloc, &mut program, Scoping::new(alloc))?;
    let mut text = String::new(alloc);
    for warning in found.as_slice() {
        write!(text, "{} ", warning.node.0)?;
    }
    assert!(rt; text.as_str() == "2 3 ", "{text}");
    Ok(())
}

// f(this); { this; }
#[test]
fn references_are_made(rt: HostRuntime) -> Result<(), Fail> {
    let alloc = rt.alloc();
    let source =
        r#"{"type":"Program","sourceType":"script","body":[{"type":"ExpressionStatement","expression":{"type":"CallExpression","callee":{"type":"Identifier","name":"f"},"arguments":[{"type":"ThisExpression"}],"optional":false}},{"type":"BlockStatement","body":[{"type":"ExpressionStatement","expression":{"type":"ThisExpression"}}]}]}"#;
    let mut program = read(alloc, source)?;
    let scoping = refer_to_this(alloc, &mut program, Scoping::new(alloc))?;
    assert!(rt; scoping.has_reference(ReferenceId(1)) && !scoping.has_reference(ReferenceId(2)));
    Ok(())
}
