// Assumptions that are read from JSON; the warnings and the shapes of programs. Each program is the tree that acorn
// makes of the JavaScript above it.

use es_json::read::read_program;
use es_node::node::Node;
use es_options::assumptions::{BadAssumptions, FromValue};
use es_outside::outside::outside_shapes;
use es_reading::count::is_countable;
use es_shapes::warnings::warnings;
use es_steps::options::{ClassPropertiesOptions, CompilerAssumptions, ES2022Options, Options};
use serde_json::Value;
use std::alloc::{AllocError, Global};
use std::test::Fail;

/// What the JSON text says of the assumptions; refused as well where it is no JSON.
fn assumptions(alloc: Global, text: &str) -> Result<CompilerAssumptions, BadAssumptions> {
    match Value::from_str(alloc, text) {
        Ok(value) => CompilerAssumptions::from_value(&value),
        Err(_) => Err(BadAssumptions),
    }
}

#[test]
fn assumptions_are_read(rt: HostRuntime) -> Result<(), Fail> {
    let none = CompilerAssumptions::default();
    let set = CompilerAssumptions {
        set_public_class_fields: true,
        ..none
    };
    let no_document = CompilerAssumptions {
        no_document_all: true,
        ..none
    };
    let cases = [
        (r#"{"setPublicClassFields":true}"#, Ok(set)),
        (
            r#"{"setPublicClassFields":false,"noDocumentAll":true}"#,
            Ok(no_document),
        ),
        (
            r#"{"setPublicClassFields":false,"setPublicClassFields":true}"#,
            Ok(set),
        ),
        (
            r#"{"setPublicClassFields":true,"setPublicClassFields":false}"#,
            Ok(none),
        ),
        ("{}", Ok(none)),
        (r#"{"setPublicClassFields":1}"#, Err(BadAssumptions)),
        (r#"{"foo":true}"#, Err(BadAssumptions)),
        (r#"{"set_public_class_fields":true}"#, Err(BadAssumptions)),
        ("[]", Err(BadAssumptions)),
        ("true", Err(BadAssumptions)),
    ];
    for (text, expected) in cases {
        assert_eq!(rt; assumptions(rt.alloc(), text), expected);
    }
    Ok(())
}

/// The tree of a program; nothing where the text is no program.
fn program(alloc: Global, text: &str) -> Option<Node> {
    let value = Value::from_str(alloc, text).ok()?;
    if is_countable(&value) {
        let (node, _foreign) = read_program(alloc, &value).ok()?.into_node();
        Some(node)
    } else {
        None
    }
}

/// The numbers of the shapes of a program, with class properties on; nothing where the text is no program.
fn shapes(alloc: Global, text: &str) -> Result<String, AllocError> {
    let options = Options {
        es2022: ES2022Options {
            class_properties: Some(ClassPropertiesOptions { loose: false }),
            ..ES2022Options::default()
        },
        ..Options::default()
    };
    let mut numbers = String::new(alloc);
    if let Some(program) = program(alloc, text) {
        for shape in &outside_shapes(alloc, &program, &options)? {
            let number = shape.number();
            numbers.push_str(format!(in alloc; "{number}")?.as_str())?;
        }
    }
    Ok(numbers)
}

#[test]
fn shapes_are_found(rt: HostRuntime) -> Result<(), Fail> {
    let cases = [
        // class A extends p() { [k()] = 1; }
        (
            r#"{"type":"Program","body":[{"type":"ClassDeclaration","id":{"type":"Identifier","name":"A"},"superClass":{"type":"CallExpression","callee":{"type":"Identifier","name":"p"},"arguments":[],"optional":false},"body":{"type":"ClassBody","body":[{"type":"PropertyDefinition","static":false,"computed":true,"key":{"type":"CallExpression","callee":{"type":"Identifier","name":"k"},"arguments":[],"optional":false},"value":{"type":"Literal","value":1,"raw":"1"}}]}}],"sourceType":"script"}"#,
            "1",
        ),
        // class A { x = 1; constructor(y = g()) {} }
        (
            r#"{"type":"Program","body":[{"type":"ClassDeclaration","id":{"type":"Identifier","name":"A"},"superClass":null,"body":{"type":"ClassBody","body":[{"type":"PropertyDefinition","static":false,"computed":false,"key":{"type":"Identifier","name":"x"},"value":{"type":"Literal","value":1,"raw":"1"}},{"type":"MethodDefinition","static":false,"computed":false,"key":{"type":"Identifier","name":"constructor"},"kind":"constructor","value":{"type":"FunctionExpression","id":null,"expression":false,"generator":false,"async":false,"params":[{"type":"AssignmentPattern","left":{"type":"Identifier","name":"y"},"right":{"type":"CallExpression","callee":{"type":"Identifier","name":"g"},"arguments":[],"optional":false}}],"body":{"type":"BlockStatement","body":[]}}}]}}],"sourceType":"script"}"#,
            "2",
        ),
        // class A { x = 1; constructor(y, ...z) {} }
        (
            r#"{"type":"Program","body":[{"type":"ClassDeclaration","id":{"type":"Identifier","name":"A"},"superClass":null,"body":{"type":"ClassBody","body":[{"type":"PropertyDefinition","static":false,"computed":false,"key":{"type":"Identifier","name":"x"},"value":{"type":"Literal","value":1,"raw":"1"}},{"type":"MethodDefinition","static":false,"computed":false,"key":{"type":"Identifier","name":"constructor"},"kind":"constructor","value":{"type":"FunctionExpression","id":null,"expression":false,"generator":false,"async":false,"params":[{"type":"Identifier","name":"y"},{"type":"RestElement","argument":{"type":"Identifier","name":"z"}}],"body":{"type":"BlockStatement","body":[]}}}]}}],"sourceType":"script"}"#,
            "",
        ),
        // class A extends B { x = 1; constructor(y = g()) {} }
        (
            r#"{"type":"Program","body":[{"type":"ClassDeclaration","id":{"type":"Identifier","name":"A"},"superClass":{"type":"Identifier","name":"B"},"body":{"type":"ClassBody","body":[{"type":"PropertyDefinition","static":false,"computed":false,"key":{"type":"Identifier","name":"x"},"value":{"type":"Literal","value":1,"raw":"1"}},{"type":"MethodDefinition","static":false,"computed":false,"key":{"type":"Identifier","name":"constructor"},"kind":"constructor","value":{"type":"FunctionExpression","id":null,"expression":false,"generator":false,"async":false,"params":[{"type":"AssignmentPattern","left":{"type":"Identifier","name":"y"},"right":{"type":"CallExpression","callee":{"type":"Identifier","name":"g"},"arguments":[],"optional":false}}],"body":{"type":"BlockStatement","body":[]}}}]}}],"sourceType":"script"}"#,
            "",
        ),
        // class A { static x = 1; constructor(y = g()) {} }
        (
            r#"{"type":"Program","body":[{"type":"ClassDeclaration","id":{"type":"Identifier","name":"A"},"superClass":null,"body":{"type":"ClassBody","body":[{"type":"PropertyDefinition","static":true,"computed":false,"key":{"type":"Identifier","name":"x"},"value":{"type":"Literal","value":1,"raw":"1"}},{"type":"MethodDefinition","static":false,"computed":false,"key":{"type":"Identifier","name":"constructor"},"kind":"constructor","value":{"type":"FunctionExpression","id":null,"expression":false,"generator":false,"async":false,"params":[{"type":"AssignmentPattern","left":{"type":"Identifier","name":"y"},"right":{"type":"CallExpression","callee":{"type":"Identifier","name":"g"},"arguments":[],"optional":false}}],"body":{"type":"BlockStatement","body":[]}}}]}}],"sourceType":"script"}"#,
            "",
        ),
        // class C { static a = 1; static { f(); } }
        (
            r#"{"type":"Program","body":[{"type":"ClassDeclaration","id":{"type":"Identifier","name":"C"},"superClass":null,"body":{"type":"ClassBody","body":[{"type":"PropertyDefinition","static":true,"computed":false,"key":{"type":"Identifier","name":"a"},"value":{"type":"Literal","value":1,"raw":"1"}},{"type":"StaticBlock","body":[{"type":"ExpressionStatement","expression":{"type":"CallExpression","callee":{"type":"Identifier","name":"f"},"arguments":[],"optional":false}}]}]}}],"sourceType":"script"}"#,
            "3",
        ),
        // class C { a = 1; static { f(); } }
        (
            r#"{"type":"Program","body":[{"type":"ClassDeclaration","id":{"type":"Identifier","name":"C"},"superClass":null,"body":{"type":"ClassBody","body":[{"type":"PropertyDefinition","static":false,"computed":false,"key":{"type":"Identifier","name":"a"},"value":{"type":"Literal","value":1,"raw":"1"}},{"type":"StaticBlock","body":[{"type":"ExpressionStatement","expression":{"type":"CallExpression","callee":{"type":"Identifier","name":"f"},"arguments":[],"optional":false}}]}]}}],"sourceType":"script"}"#,
            "",
        ),
        // class C { #a; static { f(); } }
        (
            r#"{"type":"Program","body":[{"type":"ClassDeclaration","id":{"type":"Identifier","name":"C"},"superClass":null,"body":{"type":"ClassBody","body":[{"type":"PropertyDefinition","static":false,"computed":false,"key":{"type":"PrivateIdentifier","name":"a"},"value":null},{"type":"StaticBlock","body":[{"type":"ExpressionStatement","expression":{"type":"CallExpression","callee":{"type":"Identifier","name":"f"},"arguments":[],"optional":false}}]}]}}],"sourceType":"script"}"#,
            "3",
        ),
        // class A { #x; m(o) { o = o.n; o.#x += 1; return o?.#x; } }
        (
            r#"{"type":"Program","body":[{"type":"ClassDeclaration","id":{"type":"Identifier","name":"A"},"superClass":null,"body":{"type":"ClassBody","body":[{"type":"PropertyDefinition","static":false,"computed":false,"key":{"type":"PrivateIdentifier","name":"x"},"value":null},{"type":"MethodDefinition","static":false,"computed":false,"key":{"type":"Identifier","name":"m"},"kind":"method","value":{"type":"FunctionExpression","id":null,"expression":false,"generator":false,"async":false,"params":[{"type":"Identifier","name":"o"}],"body":{"type":"BlockStatement","body":[{"type":"ExpressionStatement","expression":{"type":"AssignmentExpression","operator":"=","left":{"type":"Identifier","name":"o"},"right":{"type":"MemberExpression","object":{"type":"Identifier","name":"o"},"property":{"type":"Identifier","name":"n"},"computed":false,"optional":false}}},{"type":"ExpressionStatement","expression":{"type":"AssignmentExpression","operator":"+=","left":{"type":"MemberExpression","object":{"type":"Identifier","name":"o"},"property":{"type":"PrivateIdentifier","name":"x"},"computed":false,"optional":false},"right":{"type":"Literal","value":1,"raw":"1"}}},{"type":"ReturnStatement","argument":{"type":"ChainExpression","expression":{"type":"MemberExpression","object":{"type":"Identifier","name":"o"},"property":{"type":"PrivateIdentifier","name":"x"},"computed":false,"optional":true}}}]}}}]}}],"sourceType":"script"}"#,
            "48",
        ),
        // class A { #x; m(o) { o.#x += 1; return o.#x; } }
        (
            r#"{"type":"Program","body":[{"type":"ClassDeclaration","id":{"type":"Identifier","name":"A"},"superClass":null,"body":{"type":"ClassBody","body":[{"type":"PropertyDefinition","static":false,"computed":false,"key":{"type":"PrivateIdentifier","name":"x"},"value":null},{"type":"MethodDefinition","static":false,"computed":false,"key":{"type":"Identifier","name":"m"},"kind":"method","value":{"type":"FunctionExpression","id":null,"expression":false,"generator":false,"async":false,"params":[{"type":"Identifier","name":"o"}],"body":{"type":"BlockStatement","body":[{"type":"ExpressionStatement","expression":{"type":"AssignmentExpression","operator":"+=","left":{"type":"MemberExpression","object":{"type":"Identifier","name":"o"},"property":{"type":"PrivateIdentifier","name":"x"},"computed":false,"optional":false},"right":{"type":"Literal","value":1,"raw":"1"}}},{"type":"ReturnStatement","argument":{"type":"MemberExpression","object":{"type":"Identifier","name":"o"},"property":{"type":"PrivateIdentifier","name":"x"},"computed":false,"optional":false}}]}}}]}}],"sourceType":"script"}"#,
            "",
        ),
        // var k = "a"; class C { [k] = 1; } { function k() {} }
        (
            r#"{"type":"Program","body":[{"type":"VariableDeclaration","declarations":[{"type":"VariableDeclarator","id":{"type":"Identifier","name":"k"},"init":{"type":"Literal","value":"a","raw":"\"a\""}}],"kind":"var"},{"type":"ClassDeclaration","id":{"type":"Identifier","name":"C"},"superClass":null,"body":{"type":"ClassBody","body":[{"type":"PropertyDefinition","static":false,"computed":true,"key":{"type":"Identifier","name":"k"},"value":{"type":"Literal","value":1,"raw":"1"}}]}},{"type":"BlockStatement","body":[{"type":"FunctionDeclaration","id":{"type":"Identifier","name":"k"},"expression":false,"generator":false,"async":false,"params":[],"body":{"type":"BlockStatement","body":[]}}]}],"sourceType":"script"}"#,
            "4",
        ),
        // var k = "a"; class C { [k] = 1; } { function j() {} }
        (
            r#"{"type":"Program","body":[{"type":"VariableDeclaration","declarations":[{"type":"VariableDeclarator","id":{"type":"Identifier","name":"k"},"init":{"type":"Literal","value":"a","raw":"\"a\""}}],"kind":"var"},{"type":"ClassDeclaration","id":{"type":"Identifier","name":"C"},"superClass":null,"body":{"type":"ClassBody","body":[{"type":"PropertyDefinition","static":false,"computed":true,"key":{"type":"Identifier","name":"k"},"value":{"type":"Literal","value":1,"raw":"1"}}]}},{"type":"BlockStatement","body":[{"type":"FunctionDeclaration","id":{"type":"Identifier","name":"j"},"expression":false,"generator":false,"async":false,"params":[],"body":{"type":"BlockStatement","body":[]}}]}],"sourceType":"script"}"#,
            "",
        ),
        // try { f(); } catch (k) { class C { [k] = 1; } var k = 2; }
        (
            r#"{"type":"Program","body":[{"type":"TryStatement","block":{"type":"BlockStatement","body":[{"type":"ExpressionStatement","expression":{"type":"CallExpression","callee":{"type":"Identifier","name":"f"},"arguments":[],"optional":false}}]},"handler":{"type":"CatchClause","param":{"type":"Identifier","name":"k"},"body":{"type":"BlockStatement","body":[{"type":"ClassDeclaration","id":{"type":"Identifier","name":"C"},"superClass":null,"body":{"type":"ClassBody","body":[{"type":"PropertyDefinition","static":false,"computed":true,"key":{"type":"Identifier","name":"k"},"value":{"type":"Literal","value":1,"raw":"1"}}]}},{"type":"VariableDeclaration","declarations":[{"type":"VariableDeclarator","id":{"type":"Identifier","name":"k"},"init":{"type":"Literal","value":2,"raw":"2"}}],"kind":"var"}]}},"finalizer":null}],"sourceType":"script"}"#,
            "4",
        ),
        // try { f(); } catch (k) { class C { [k] = 1; } var j = 2; }
        (
            r#"{"type":"Program","body":[{"type":"TryStatement","block":{"type":"BlockStatement","body":[{"type":"ExpressionStatement","expression":{"type":"CallExpression","callee":{"type":"Identifier","name":"f"},"arguments":[],"optional":false}}]},"handler":{"type":"CatchClause","param":{"type":"Identifier","name":"k"},"body":{"type":"BlockStatement","body":[{"type":"ClassDeclaration","id":{"type":"Identifier","name":"C"},"superClass":null,"body":{"type":"ClassBody","body":[{"type":"PropertyDefinition","static":false,"computed":true,"key":{"type":"Identifier","name":"k"},"value":{"type":"Literal","value":1,"raw":"1"}}]}},{"type":"VariableDeclaration","declarations":[{"type":"VariableDeclarator","id":{"type":"Identifier","name":"j"},"init":{"type":"Literal","value":2,"raw":"2"}}],"kind":"var"}]}},"finalizer":null}],"sourceType":"script"}"#,
            "",
        ),
        // class A { #m() {} w(o) { [o.#m] = [1]; } }
        (
            r#"{"type":"Program","body":[{"type":"ClassDeclaration","id":{"type":"Identifier","name":"A"},"superClass":null,"body":{"type":"ClassBody","body":[{"type":"MethodDefinition","static":false,"computed":false,"key":{"type":"PrivateIdentifier","name":"m"},"kind":"method","value":{"type":"FunctionExpression","id":null,"expression":false,"generator":false,"async":false,"params":[],"body":{"type":"BlockStatement","body":[]}}},{"type":"MethodDefinition","static":false,"computed":false,"key":{"type":"Identifier","name":"w"},"kind":"method","value":{"type":"FunctionExpression","id":null,"expression":false,"generator":false,"async":false,"params":[{"type":"Identifier","name":"o"}],"body":{"type":"BlockStatement","body":[{"type":"ExpressionStatement","expression":{"type":"AssignmentExpression","operator":"=","left":{"type":"ArrayPattern","elements":[{"type":"MemberExpression","object":{"type":"Identifier","name":"o"},"property":{"type":"PrivateIdentifier","name":"m"},"computed":false,"optional":false}]},"right":{"type":"ArrayExpression","elements":[{"type":"Literal","value":1,"raw":"1"}]}}}]}}}]}}],"sourceType":"script"}"#,
            "5",
        ),
        // class A { #m; w(o) { [o.#m] = [1]; } }
        (
            r#"{"type":"Program","body":[{"type":"ClassDeclaration","id":{"type":"Identifier","name":"A"},"superClass":null,"body":{"type":"ClassBody","body":[{"type":"PropertyDefinition","static":false,"computed":false,"key":{"type":"PrivateIdentifier","name":"m"},"value":null},{"type":"MethodDefinition","static":false,"computed":false,"key":{"type":"Identifier","name":"w"},"kind":"method","value":{"type":"FunctionExpression","id":null,"expression":false,"generator":false,"async":false,"params":[{"type":"Identifier","name":"o"}],"body":{"type":"BlockStatement","body":[{"type":"ExpressionStatement","expression":{"type":"AssignmentExpression","operator":"=","left":{"type":"ArrayPattern","elements":[{"type":"MemberExpression","object":{"type":"Identifier","name":"o"},"property":{"type":"PrivateIdentifier","name":"m"},"computed":false,"optional":false}]},"right":{"type":"ArrayExpression","elements":[{"type":"Literal","value":1,"raw":"1"}]}}}]}}}]}}],"sourceType":"script"}"#,
            "",
        ),
        // class A { get #m() {} w(o) { for (o.#m of [1]); } }
        (
            r#"{"type":"Program","body":[{"type":"ClassDeclaration","id":{"type":"Identifier","name":"A"},"superClass":null,"body":{"type":"ClassBody","body":[{"type":"MethodDefinition","static":false,"computed":false,"key":{"type":"PrivateIdentifier","name":"m"},"kind":"get","value":{"type":"FunctionExpression","id":null,"expression":false,"generator":false,"async":false,"params":[],"body":{"type":"BlockStatement","body":[]}}},{"type":"MethodDefinition","static":false,"computed":false,"key":{"type":"Identifier","name":"w"},"kind":"method","value":{"type":"FunctionExpression","id":null,"expression":false,"generator":false,"async":false,"params":[{"type":"Identifier","name":"o"}],"body":{"type":"BlockStatement","body":[{"type":"ForOfStatement","await":false,"left":{"type":"MemberExpression","object":{"type":"Identifier","name":"o"},"property":{"type":"PrivateIdentifier","name":"m"},"computed":false,"optional":false},"right":{"type":"ArrayExpression","elements":[{"type":"Literal","value":1,"raw":"1"}]},"body":{"type":"EmptyStatement"}}]}}}]}}],"sourceType":"script"}"#,
            "5",
        ),
        // class A { #m() {} w(o) { return class { #m; w(o) { ({ k: o.#m } = o); } }; } }
        (
            r#"{"type":"Program","body":[{"type":"ClassDeclaration","id":{"type":"Identifier","name":"A"},"superClass":null,"body":{"type":"ClassBody","body":[{"type":"MethodDefinition","static":false,"computed":false,"key":{"type":"PrivateIdentifier","name":"m"},"kind":"method","value":{"type":"FunctionExpression","id":null,"expression":false,"generator":false,"async":false,"params":[],"body":{"type":"BlockStatement","body":[]}}},{"type":"MethodDefinition","static":false,"computed":false,"key":{"type":"Identifier","name":"w"},"kind":"method","value":{"type":"FunctionExpression","id":null,"expression":false,"generator":false,"async":false,"params":[{"type":"Identifier","name":"o"}],"body":{"type":"BlockStatement","body":[{"type":"ReturnStatement","argument":{"type":"ClassExpression","id":null,"superClass":null,"body":{"type":"ClassBody","body":[{"type":"PropertyDefinition","static":false,"computed":false,"key":{"type":"PrivateIdentifier","name":"m"},"value":null},{"type":"MethodDefinition","static":false,"computed":false,"key":{"type":"Identifier","name":"w"},"kind":"method","value":{"type":"FunctionExpression","id":null,"expression":false,"generator":false,"async":false,"params":[{"type":"Identifier","name":"o"}],"body":{"type":"BlockStatement","body":[{"type":"ExpressionStatement","expression":{"type":"AssignmentExpression","operator":"=","left":{"type":"ObjectPattern","properties":[{"type":"Property","method":false,"shorthand":false,"computed":false,"key":{"type":"Identifier","name":"k"},"value":{"type":"MemberExpression","object":{"type":"Identifier","name":"o"},"property":{"type":"PrivateIdentifier","name":"m"},"computed":false,"optional":false},"kind":"init"}]},"right":{"type":"Identifier","name":"o"}}}]}}}]}}}]}}}]}}],"sourceType":"script"}"#,
            "",
        ),
        // class C { x = 1; } C = 0;
        (
            r#"{"type":"Program","body":[{"type":"ClassDeclaration","id":{"type":"Identifier","name":"C"},"superClass":null,"body":{"type":"ClassBody","body":[{"type":"PropertyDefinition","static":false,"computed":false,"key":{"type":"Identifier","name":"x"},"value":{"type":"Literal","value":1,"raw":"1"}}]}},{"type":"ExpressionStatement","expression":{"type":"AssignmentExpression","operator":"=","left":{"type":"Identifier","name":"C"},"right":{"type":"Literal","value":0,"raw":"0"}}}],"sourceType":"script"}"#,
            "6",
        ),
        // class C { x = 1; } let D = C;
        (
            r#"{"type":"Program","body":[{"type":"ClassDeclaration","id":{"type":"Identifier","name":"C"},"superClass":null,"body":{"type":"ClassBody","body":[{"type":"PropertyDefinition","static":false,"computed":false,"key":{"type":"Identifier","name":"x"},"value":{"type":"Literal","value":1,"raw":"1"}}]}},{"type":"VariableDeclaration","declarations":[{"type":"VariableDeclarator","id":{"type":"Identifier","name":"D"},"init":{"type":"Identifier","name":"C"}}],"kind":"let"}],"sourceType":"script"}"#,
            "",
        ),
        // class C { x = 1; } function f(C) { C = 0; }
        (
            r#"{"type":"Program","body":[{"type":"ClassDeclaration","id":{"type":"Identifier","name":"C"},"superClass":null,"body":{"type":"ClassBody","body":[{"type":"PropertyDefinition","static":false,"computed":false,"key":{"type":"Identifier","name":"x"},"value":{"type":"Literal","value":1,"raw":"1"}}]}},{"type":"FunctionDeclaration","id":{"type":"Identifier","name":"f"},"expression":false,"generator":false,"async":false,"params":[{"type":"Identifier","name":"C"}],"body":{"type":"BlockStatement","body":[{"type":"ExpressionStatement","expression":{"type":"AssignmentExpression","operator":"=","left":{"type":"Identifier","name":"C"},"right":{"type":"Literal","value":0,"raw":"0"}}}]}}],"sourceType":"script"}"#,
            "",
        ),
        // class C { [C.k] = 1; }
        (
            r#"{"type":"Program","body":[{"type":"ClassDeclaration","id":{"type":"Identifier","name":"C"},"superClass":null,"body":{"type":"ClassBody","body":[{"type":"PropertyDefinition","static":false,"computed":true,"key":{"type":"MemberExpression","object":{"type":"Identifier","name":"C"},"property":{"type":"Identifier","name":"k"},"computed":false,"optional":false},"value":{"type":"Literal","value":1,"raw":"1"}}]}}],"sourceType":"script"}"#,
            "7",
        ),
        // let k = 1; class C { [k] = C.k; }
        (
            r#"{"type":"Program","body":[{"type":"VariableDeclaration","declarations":[{"type":"VariableDeclarator","id":{"type":"Identifier","name":"k"},"init":{"type":"Literal","value":1,"raw":"1"}}],"kind":"let"},{"type":"ClassDeclaration","id":{"type":"Identifier","name":"C"},"superClass":null,"body":{"type":"ClassBody","body":[{"type":"PropertyDefinition","static":false,"computed":true,"key":{"type":"Identifier","name":"k"},"value":{"type":"MemberExpression","object":{"type":"Identifier","name":"C"},"property":{"type":"Identifier","name":"k"},"computed":false,"optional":false}}]}}],"sourceType":"script"}"#,
            "",
        ),
        // class C { [(() => C.k)()] = 1; }
        (
            r#"{"type":"Program","body":[{"type":"ClassDeclaration","id":{"type":"Identifier","name":"C"},"superClass":null,"body":{"type":"ClassBody","body":[{"type":"PropertyDefinition","static":false,"computed":true,"key":{"type":"CallExpression","callee":{"type":"ArrowFunctionExpression","id":null,"expression":true,"generator":false,"async":false,"params":[],"body":{"type":"MemberExpression","object":{"type":"Identifier","name":"C"},"property":{"type":"Identifier","name":"k"},"computed":false,"optional":false}},"arguments":[],"optional":false},"value":{"type":"Literal","value":1,"raw":"1"}}]}}],"sourceType":"script"}"#,
            "",
        ),
        // class A { #x; m(o) { return o?.p.#x; } }
        (
            r#"{"type":"Program","body":[{"type":"ClassDeclaration","id":{"type":"Identifier","name":"A"},"superClass":null,"body":{"type":"ClassBody","body":[{"type":"PropertyDefinition","static":false,"computed":false,"key":{"type":"PrivateIdentifier","name":"x"},"value":null},{"type":"MethodDefinition","static":false,"computed":false,"key":{"type":"Identifier","name":"m"},"kind":"method","value":{"type":"FunctionExpression","id":null,"expression":false,"generator":false,"async":false,"params":[{"type":"Identifier","name":"o"}],"body":{"type":"BlockStatement","body":[{"type":"ReturnStatement","argument":{"type":"ChainExpression","expression":{"type":"MemberExpression","object":{"type":"MemberExpression","object":{"type":"Identifier","name":"o"},"property":{"type":"Identifier","name":"p"},"computed":false,"optional":true},"property":{"type":"PrivateIdentifier","name":"x"},"computed":false,"optional":false}}}]}}}]}}],"sourceType":"script"}"#,
            "8",
        ),
        // class A { #x; m(o) { return o.#x?.p; } }
        (
            r#"{"type":"Program","body":[{"type":"ClassDeclaration","id":{"type":"Identifier","name":"A"},"superClass":null,"body":{"type":"ClassBody","body":[{"type":"PropertyDefinition","static":false,"computed":false,"key":{"type":"PrivateIdentifier","name":"x"},"value":null},{"type":"MethodDefinition","static":false,"computed":false,"key":{"type":"Identifier","name":"m"},"kind":"method","value":{"type":"FunctionExpression","id":null,"expression":false,"generator":false,"async":false,"params":[{"type":"Identifier","name":"o"}],"body":{"type":"BlockStatement","body":[{"type":"ReturnStatement","argument":{"type":"ChainExpression","expression":{"type":"MemberExpression","object":{"type":"MemberExpression","object":{"type":"Identifier","name":"o"},"property":{"type":"PrivateIdentifier","name":"x"},"computed":false,"optional":false},"property":{"type":"Identifier","name":"p"},"computed":false,"optional":true}}}]}}}]}}],"sourceType":"script"}"#,
            "",
        ),
        // class A { #x; m(o) { return (o?.p).#x; } }
        (
            r#"{"type":"Program","body":[{"type":"ClassDeclaration","id":{"type":"Identifier","name":"A"},"superClass":null,"body":{"type":"ClassBody","body":[{"type":"PropertyDefinition","static":false,"computed":false,"key":{"type":"PrivateIdentifier","name":"x"},"value":null},{"type":"MethodDefinition","static":false,"computed":false,"key":{"type":"Identifier","name":"m"},"kind":"method","value":{"type":"FunctionExpression","id":null,"expression":false,"generator":false,"async":false,"params":[{"type":"Identifier","name":"o"}],"body":{"type":"BlockStatement","body":[{"type":"ReturnStatement","argument":{"type":"MemberExpression","object":{"type":"ChainExpression","expression":{"type":"MemberExpression","object":{"type":"Identifier","name":"o"},"property":{"type":"Identifier","name":"p"},"computed":false,"optional":true}},"property":{"type":"PrivateIdentifier","name":"x"},"computed":false,"optional":false}}]}}}]}}],"sourceType":"script"}"#,
            "",
        ),
    ];
    for (text, expected) in cases {
        assert_eq!(rt; shapes(rt.alloc(), text)?.as_str(), expected);
    }
    Ok(())
}

/// A heritage has events or not.
#[test]
fn heritages_are_told_apart(rt: HostRuntime) -> Result<(), Fail> {
    let cases = [
        // class P {} class A extends P { [k()] = 1; }
        (
            r#"{"type":"Program","body":[{"type":"ClassDeclaration","id":{"type":"Identifier","name":"P"},"superClass":null,"body":{"type":"ClassBody","body":[]}},{"type":"ClassDeclaration","id":{"type":"Identifier","name":"A"},"superClass":{"type":"Identifier","name":"P"},"body":{"type":"ClassBody","body":[{"type":"PropertyDefinition","static":false,"computed":true,"key":{"type":"CallExpression","callee":{"type":"Identifier","name":"k"},"arguments":[],"optional":false},"value":{"type":"Literal","value":1,"raw":"1"}}]}}],"sourceType":"script"}"#,
            "",
        ),
        // class A extends P { [k()] = 1; }
        (
            r#"{"type":"Program","body":[{"type":"ClassDeclaration","id":{"type":"Identifier","name":"A"},"superClass":{"type":"Identifier","name":"P"},"body":{"type":"ClassBody","body":[{"type":"PropertyDefinition","static":false,"computed":true,"key":{"type":"CallExpression","callee":{"type":"Identifier","name":"k"},"arguments":[],"optional":false},"value":{"type":"Literal","value":1,"raw":"1"}}]}}],"sourceType":"script"}"#,
            "1",
        ),
        // class A extends P { k = 1; }
        (
            r#"{"type":"Program","body":[{"type":"ClassDeclaration","id":{"type":"Identifier","name":"A"},"superClass":{"type":"Identifier","name":"P"},"body":{"type":"ClassBody","body":[{"type":"PropertyDefinition","static":false,"computed":false,"key":{"type":"Identifier","name":"k"},"value":{"type":"Literal","value":1,"raw":"1"}}]}}],"sourceType":"script"}"#,
            "",
        ),
        // class A extends (class { static { f(); } }) { [k()] = 1; }
        (
            r#"{"type":"Program","body":[{"type":"ClassDeclaration","id":{"type":"Identifier","name":"A"},"superClass":{"type":"ClassExpression","id":null,"superClass":null,"body":{"type":"ClassBody","body":[{"type":"StaticBlock","body":[{"type":"ExpressionStatement","expression":{"type":"CallExpression","callee":{"type":"Identifier","name":"f"},"arguments":[],"optional":false}}]}]}},"body":{"type":"ClassBody","body":[{"type":"PropertyDefinition","static":false,"computed":true,"key":{"type":"CallExpression","callee":{"type":"Identifier","name":"k"},"arguments":[],"optional":false},"value":{"type":"Literal","value":1,"raw":"1"}}]}}],"sourceType":"script"}"#,
            "1",
        ),
        // class A extends (class { #x = f(); }) { [k()] = 1; }
        (
            r#"{"type":"Program","body":[{"type":"ClassDeclaration","id":{"type":"Identifier","name":"A"},"superClass":{"type":"ClassExpression","id":null,"superClass":null,"body":{"type":"ClassBody","body":[{"type":"PropertyDefinition","static":false,"computed":false,"key":{"type":"PrivateIdentifier","name":"x"},"value":{"type":"CallExpression","callee":{"type":"Identifier","name":"f"},"arguments":[],"optional":false}}]}},"body":{"type":"ClassBody","body":[{"type":"PropertyDefinition","static":false,"computed":true,"key":{"type":"CallExpression","callee":{"type":"Identifier","name":"k"},"arguments":[],"optional":false},"value":{"type":"Literal","value":1,"raw":"1"}}]}}],"sourceType":"script"}"#,
            "",
        ),
        // function f() { return class extends arguments { [k()] = 1; }; }
        (
            r#"{"type":"Program","body":[{"type":"FunctionDeclaration","id":{"type":"Identifier","name":"f"},"expression":false,"generator":false,"async":false,"params":[],"body":{"type":"BlockStatement","body":[{"type":"ReturnStatement","argument":{"type":"ClassExpression","id":null,"superClass":{"type":"Identifier","name":"arguments"},"body":{"type":"ClassBody","body":[{"type":"PropertyDefinition","static":false,"computed":true,"key":{"type":"CallExpression","callee":{"type":"Identifier","name":"k"},"arguments":[],"optional":false},"value":{"type":"Literal","value":1,"raw":"1"}}]}}}]}}],"sourceType":"script"}"#,
            "",
        ),
        // class B { m() { return class extends B { [k()] = 1; }; } } B = 0;
        (
            r#"{"type":"Program","body":[{"type":"ClassDeclaration","id":{"type":"Identifier","name":"B"},"superClass":null,"body":{"type":"ClassBody","body":[{"type":"MethodDefinition","static":false,"computed":false,"key":{"type":"Identifier","name":"m"},"kind":"method","value":{"type":"FunctionExpression","id":null,"expression":false,"generator":false,"async":false,"params":[],"body":{"type":"BlockStatement","body":[{"type":"ReturnStatement","argument":{"type":"ClassExpression","id":null,"superClass":{"type":"Identifier","name":"B"},"body":{"type":"ClassBody","body":[{"type":"PropertyDefinition","static":false,"computed":true,"key":{"type":"CallExpression","callee":{"type":"Identifier","name":"k"},"arguments":[],"optional":false},"value":{"type":"Literal","value":1,"raw":"1"}}]}}}]}}}]}},{"type":"ExpressionStatement","expression":{"type":"AssignmentExpression","operator":"=","left":{"type":"Identifier","name":"B"},"right":{"type":"Literal","value":0,"raw":"0"}}}],"sourceType":"script"}"#,
            "",
        ),
    ];
    for (text, expected) in cases {
        assert_eq!(rt; shapes(rt.alloc(), text)?.as_str(), expected);
    }
    Ok(())
}

/// The numbers of the nodes of a program that are warned of, with the option on; none where the text is no
/// program.
fn warned(alloc: Global, text: &str) -> Result<Vec<u32>, AllocError> {
    let options = Options {
        es2022: ES2022Options {
            top_level_await: true,
            ..ES2022Options::default()
        },
        ..Options::default()
    };
    let mut numbers = Vec::new(alloc);
    if let Some(program) = program(alloc, text) {
        for warning in &warnings(alloc, &program, &options)? {
            numbers.push(warning.node.0)?;
        }
    }
    Ok(numbers)
}

#[test]
fn top_level_awaits_are_warned_of(rt: HostRuntime) -> Result<(), Fail> {
    let cases = [
        // await f(); async () => { await g(); };
        (
            r#"{"type":"Program","body":[{"type":"ExpressionStatement","expression":{"type":"AwaitExpression","argument":{"type":"CallExpression","callee":{"type":"Identifier","name":"f"},"arguments":[],"optional":false}}},{"type":"ExpressionStatement","expression":{"type":"ArrowFunctionExpression","id":null,"expression":false,"generator":false,"async":true,"params":[],"body":{"type":"BlockStatement","body":[{"type":"ExpressionStatement","expression":{"type":"AwaitExpression","argument":{"type":"CallExpression","callee":{"type":"Identifier","name":"g"},"arguments":[],"optional":false}}}]}}}],"sourceType":"module"}"#,
            [2],
        ),
        // if (a) { await b; } async function f() { await c; } class D { static { f(); } x = async () => await g; }
        (
            r#"{"type":"Program","body":[{"type":"IfStatement","test":{"type":"Identifier","name":"a"},"consequent":{"type":"BlockStatement","body":[{"type":"ExpressionStatement","expression":{"type":"AwaitExpression","argument":{"type":"Identifier","name":"b"}}}]},"alternate":null},{"type":"FunctionDeclaration","id":{"type":"Identifier","name":"f"},"expression":false,"generator":false,"async":true,"params":[],"body":{"type":"BlockStatement","body":[{"type":"ExpressionStatement","expression":{"type":"AwaitExpression","argument":{"type":"Identifier","name":"c"}}}]}},{"type":"ClassDeclaration","id":{"type":"Identifier","name":"D"},"superClass":null,"body":{"type":"ClassBody","body":[{"type":"StaticBlock","body":[{"type":"ExpressionStatement","expression":{"type":"CallExpression","callee":{"type":"Identifier","name":"f"},"arguments":[],"optional":false}}]},{"type":"PropertyDefinition","static":false,"computed":false,"key":{"type":"Identifier","name":"x"},"value":{"type":"ArrowFunctionExpression","id":null,"expression":true,"generator":false,"async":true,"params":[],"body":{"type":"AwaitExpression","argument":{"type":"Identifier","name":"g"}}}}]}}],"sourceType":"module"}"#,
            [5],
        ),
    ];
    for (text, expected) in cases {
        assert_eq!(rt; warned(rt.alloc(), text)?.as_slice(), expected.as_slice());
    }
    Ok(())
}
