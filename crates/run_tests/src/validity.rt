// Which programs are refused: for each rule a program that breaks it and one beside it that does not, as parsers of ESTree give
// them or, where these refuse them, put together by hand. The numbers are counted by hand.

use crate::runs::{LOWER, NONE, ends_so, status_of};
use std::test::Fail;

const LOOSE: &str = "--class-properties\n--loose\n";

const AS_PROPERTIES: &str = r#"--class-properties
--assume
{"privateFieldsAsProperties":true}
"#;

const BLOCKS: &str = "--class-properties\n--static-block\n";

const BLOCKS_ALONE: &str = "--static-block\n";

/// A program.
struct Case {
    text: &'static str,
    arguments: &'static str,
    /// The line of its refusal; none where it is written.
    line: &'static str,
}

/// Constructors of classes, and keys that are as theirs.
fn constructors() -> &'static [Case] {
    &[
        // class C { constructor() {} constructor() {} }
        Case {
            text: r#"{"type":"Program","body":[{"type":"ClassDeclaration","id":{"type":"Identifier","name":"C"},"superClass":null,"body":{"type":"ClassBody","body":[{"type":"MethodDefinition","static":false,"computed":false,"key":{"type":"Identifier","name":"constructor"},"kind":"constructor","value":{"type":"FunctionExpression","id":null,"generator":false,"async":false,"params":[],"body":{"type":"BlockStatement","body":[]}}},{"type":"MethodDefinition","static":false,"computed":false,"key":{"type":"Identifier","name":"constructor"},"kind":"constructor","value":{"type":"FunctionExpression","id":null,"generator":false,"async":false,"params":[],"body":{"type":"BlockStatement","body":[]}}}]}}],"sourceType":"script"}"#,
            arguments: NONE,
            line: "refused: BadTree TwoConstructors at 8\n",
        },
        // class C { constructor() {} static constructor() {} }
        Case {
            text: r#"{"type":"Program","body":[{"type":"ClassDeclaration","id":{"type":"Identifier","name":"C"},"superClass":null,"body":{"type":"ClassBody","body":[{"type":"MethodDefinition","static":false,"computed":false,"key":{"type":"Identifier","name":"constructor"},"kind":"constructor","value":{"type":"FunctionExpression","id":null,"generator":false,"async":false,"params":[],"body":{"type":"BlockStatement","body":[]}}},{"type":"MethodDefinition","static":true,"computed":false,"key":{"type":"Identifier","name":"constructor"},"kind":"method","value":{"type":"FunctionExpression","id":null,"generator":false,"async":false,"params":[],"body":{"type":"BlockStatement","body":[]}}}]}}],"sourceType":"script"}"#,
            arguments: NONE,
            line: "",
        },
        // class C { get constructor() {} }
        Case {
            text: r#"{"type":"Program","body":[{"type":"ClassDeclaration","id":{"type":"Identifier","name":"C"},"superClass":null,"body":{"type":"ClassBody","body":[{"type":"MethodDefinition","static":false,"computed":false,"key":{"type":"Identifier","name":"constructor"},"kind":"get","value":{"type":"FunctionExpression","id":null,"generator":false,"async":false,"params":[],"body":{"type":"BlockStatement","body":[]}}}]}}],"sourceType":"script"}"#,
            arguments: NONE,
            line: "refused: BadTree ConstructorForm at 4\n",
        },
        // class C { static get constructor() {} }
        Case {
            text: r#"{"type":"Program","body":[{"type":"ClassDeclaration","id":{"type":"Identifier","name":"C"},"superClass":null,"body":{"type":"ClassBody","body":[{"type":"MethodDefinition","static":true,"computed":false,"key":{"type":"Identifier","name":"constructor"},"kind":"get","value":{"type":"FunctionExpression","id":null,"generator":false,"async":false,"params":[],"body":{"type":"BlockStatement","body":[]}}}]}}],"sourceType":"script"}"#,
            arguments: NONE,
            line: "",
        },
        // class C { constructor; }
        Case {
            text: r#"{"type":"Program","body":[{"type":"ClassDeclaration","id":{"type":"Identifier","name":"C"},"superClass":null,"body":{"type":"ClassBody","body":[{"type":"PropertyDefinition","static":false,"computed":false,"key":{"type":"Identifier","name":"constructor"},"value":null}]}}],"sourceType":"script"}"#,
            arguments: NONE,
            line: "refused: BadTree ConstructorForm at 4\n",
        },
        // class C { ["constructor"]; }
        Case {
            text: r#"{"type":"Program","body":[{"type":"ClassDeclaration","id":{"type":"Identifier","name":"C"},"superClass":null,"body":{"type":"ClassBody","body":[{"type":"PropertyDefinition","static":false,"computed":true,"key":{"type":"Literal","value":"constructor","raw":"\"constructor\""},"value":null}]}}],"sourceType":"script"}"#,
            arguments: NONE,
            line: "",
        },
        // class C { static "prototype"() {} }
        Case {
            text: r#"{"type":"Program","body":[{"type":"ClassDeclaration","id":{"type":"Identifier","name":"C"},"superClass":null,"body":{"type":"ClassBody","body":[{"type":"MethodDefinition","static":true,"computed":false,"key":{"type":"Literal","value":"prototype","raw":"\"prototype\""},"kind":"method","value":{"type":"FunctionExpression","id":null,"generator":false,"async":false,"params":[],"body":{"type":"BlockStatement","body":[]}}}]}}],"sourceType":"script"}"#,
            arguments: NONE,
            line: "refused: BadTree ConstructorForm at 4\n",
        },
        // class C { "prototype"() {} }
        Case {
            text: r#"{"type":"Program","body":[{"type":"ClassDeclaration","id":{"type":"Identifier","name":"C"},"superClass":null,"body":{"type":"ClassBody","body":[{"type":"MethodDefinition","static":false,"computed":false,"key":{"type":"Literal","value":"prototype","raw":"\"prototype\""},"kind":"method","value":{"type":"FunctionExpression","id":null,"generator":false,"async":false,"params":[],"body":{"type":"BlockStatement","body":[]}}}]}}],"sourceType":"script"}"#,
            arguments: NONE,
            line: "",
        },
        // class C { #constructor; }
        Case {
            text: r#"{"type":"Program","body":[{"type":"ClassDeclaration","id":{"type":"Identifier","name":"C"},"superClass":null,"body":{"type":"ClassBody","body":[{"type":"PropertyDefinition","static":false,"computed":false,"key":{"type":"PrivateIdentifier","name":"constructor"},"value":null}]}}],"sourceType":"script"}"#,
            arguments: NONE,
            line: "refused: BadTree PrivateConstructor at 5\n",
        },
        // class C { #constructors; }
        Case {
            text: r#"{"type":"Program","body":[{"type":"ClassDeclaration","id":{"type":"Identifier","name":"C"},"superClass":null,"body":{"type":"ClassBody","body":[{"type":"PropertyDefinition","static":false,"computed":false,"key":{"type":"PrivateIdentifier","name":"constructors"},"value":null}]}}],"sourceType":"script"}"#,
            arguments: NONE,
            line: "",
        },
    ]
}

/// `super`, and `delete` of private members.
fn supers_and_deletes() -> &'static [Case] {
    &[
        // class C { constructor() { super(); } }
        Case {
            text: r#"{"type":"Program","body":[{"type":"ClassDeclaration","id":{"type":"Identifier","name":"C"},"superClass":null,"body":{"type":"ClassBody","body":[{"type":"MethodDefinition","static":false,"computed":false,"key":{"type":"Identifier","name":"constructor"},"kind":"constructor","value":{"type":"FunctionExpression","id":null,"generator":false,"async":false,"params":[],"body":{"type":"BlockStatement","body":[{"type":"ExpressionStatement","expression":{"type":"CallExpression","callee":{"type":"Super"},"arguments":[],"optional":false}}]}}}]}}],"sourceType":"script"}"#,
            arguments: NONE,
            line: "refused: BadTree SuperCall at 9\n",
        },
        // class C extends P { constructor() { () => super(); } }
        Case {
            text: r#"{"type":"Program","body":[{"type":"ClassDeclaration","id":{"type":"Identifier","name":"C"},"superClass":{"type":"Identifier","name":"P"},"body":{"type":"ClassBody","body":[{"type":"MethodDefinition","static":false,"computed":false,"key":{"type":"Identifier","name":"constructor"},"kind":"constructor","value":{"type":"FunctionExpression","id":null,"generator":false,"async":false,"params":[],"body":{"type":"BlockStatement","body":[{"type":"ExpressionStatement","expression":{"type":"ArrowFunctionExpression","async":false,"params":[],"body":{"type":"CallExpression","callee":{"type":"Super"},"arguments":[],"optional":false}}}]}}}]}}],"sourceType":"script"}"#,
            arguments: NONE,
            line: "",
        },
        // function f() { super.x; }
        Case {
            text: r#"{"type":"Program","body":[{"type":"FunctionDeclaration","id":{"type":"Identifier","name":"f"},"generator":false,"async":false,"params":[],"body":{"type":"BlockStatement","body":[{"type":"ExpressionStatement","expression":{"type":"MemberExpression","object":{"type":"Super"},"property":{"type":"Identifier","name":"x"},"computed":false,"optional":false}}]}}],"sourceType":"script"}"#,
            arguments: NONE,
            line: "refused: BadTree SuperMember at 5\n",
        },
        // ({ f() { super.x; } });
        Case {
            text: r#"{"type":"Program","body":[{"type":"ExpressionStatement","expression":{"type":"ObjectExpression","properties":[{"type":"Property","method":true,"shorthand":false,"computed":false,"key":{"type":"Identifier","name":"f"},"kind":"init","value":{"type":"FunctionExpression","id":null,"generator":false,"async":false,"params":[],"body":{"type":"BlockStatement","body":[{"type":"ExpressionStatement","expression":{"type":"MemberExpression","object":{"type":"Super"},"property":{"type":"Identifier","name":"x"},"computed":false,"optional":false}}]}}}]}}],"sourceType":"script"}"#,
            arguments: NONE,
            line: "",
        },
        // class C extends P { #x; m() { super.#x; } }
        Case {
            text: r#"{"type":"Program","body":[{"type":"ClassDeclaration","id":{"type":"Identifier","name":"C"},"superClass":{"type":"Identifier","name":"P"},"body":{"type":"ClassBody","body":[{"type":"PropertyDefinition","static":false,"computed":false,"key":{"type":"PrivateIdentifier","name":"x"},"value":null},{"type":"MethodDefinition","static":false,"computed":false,"key":{"type":"Identifier","name":"m"},"kind":"method","value":{"type":"FunctionExpression","id":null,"generator":false,"async":false,"params":[],"body":{"type":"BlockStatement","body":[{"type":"ExpressionStatement","expression":{"type":"MemberExpression","object":{"type":"Super"},"property":{"type":"PrivateIdentifier","name":"x"},"computed":false,"optional":false}}]}}}]}}],"sourceType":"script"}"#,
            arguments: NONE,
            line: "refused: BadTree SuperPrivate at 12\n",
        },
        // class C extends P { #x; m() { this.#x; } }
        Case {
            text: r#"{"type":"Program","body":[{"type":"ClassDeclaration","id":{"type":"Identifier","name":"C"},"superClass":{"type":"Identifier","name":"P"},"body":{"type":"ClassBody","body":[{"type":"PropertyDefinition","static":false,"computed":false,"key":{"type":"PrivateIdentifier","name":"x"},"value":null},{"type":"MethodDefinition","static":false,"computed":false,"key":{"type":"Identifier","name":"m"},"kind":"method","value":{"type":"FunctionExpression","id":null,"generator":false,"async":false,"params":[],"body":{"type":"BlockStatement","body":[{"type":"ExpressionStatement","expression":{"type":"MemberExpression","object":{"type":"ThisExpression"},"property":{"type":"PrivateIdentifier","name":"x"},"computed":false,"optional":false}}]}}}]}}],"sourceType":"script"}"#,
            arguments: NONE,
            line: "",
        },
        // class C { #x; m() { delete this.#x; } }
        Case {
            text: r#"{"type":"Program","body":[{"type":"ClassDeclaration","id":{"type":"Identifier","name":"C"},"superClass":null,"body":{"type":"ClassBody","body":[{"type":"PropertyDefinition","static":false,"computed":false,"key":{"type":"PrivateIdentifier","name":"x"},"value":null},{"type":"MethodDefinition","static":false,"computed":false,"key":{"type":"Identifier","name":"m"},"kind":"method","value":{"type":"FunctionExpression","id":null,"generator":false,"async":false,"params":[],"body":{"type":"BlockStatement","body":[{"type":"ExpressionStatement","expression":{"type":"UnaryExpression","operator":"delete","prefix":true,"argument":{"type":"MemberExpression","object":{"type":"ThisExpression"},"property":{"type":"PrivateIdentifier","name":"x"},"computed":false,"optional":false}}}]}}}]}}],"sourceType":"script"}"#,
            arguments: NONE,
            line: "refused: BadTree DeletePrivate at 11\n",
        },
        // class C { #x; m() { delete this?.a.#x; } }
        Case {
            text: r#"{"type":"Program","body":[{"type":"ClassDeclaration","id":{"type":"Identifier","name":"C"},"superClass":null,"body":{"type":"ClassBody","body":[{"type":"PropertyDefinition","static":false,"computed":false,"key":{"type":"PrivateIdentifier","name":"x"},"value":null},{"type":"MethodDefinition","static":false,"computed":false,"key":{"type":"Identifier","name":"m"},"kind":"method","value":{"type":"FunctionExpression","id":null,"generator":false,"async":false,"params":[],"body":{"type":"BlockStatement","body":[{"type":"ExpressionStatement","expression":{"type":"UnaryExpression","operator":"delete","prefix":true,"argument":{"type":"ChainExpression","expression":{"type":"MemberExpression","object":{"type":"MemberExpression","object":{"type":"ThisExpression"},"property":{"type":"Identifier","name":"a"},"computed":false,"optional":true},"property":{"type":"PrivateIdentifier","name":"x"},"computed":false,"optional":false}}}}]}}}]}}],"sourceType":"script"}"#,
            arguments: NONE,
            line: "refused: BadTree DeletePrivate at 11\n",
        },
        // class C { #x; m() { delete this.#x.a; } }
        Case {
            text: r#"{"type":"Program","body":[{"type":"ClassDeclaration","id":{"type":"Identifier","name":"C"},"superClass":null,"body":{"type":"ClassBody","body":[{"type":"PropertyDefinition","static":false,"computed":false,"key":{"type":"PrivateIdentifier","name":"x"},"value":null},{"type":"MethodDefinition","static":false,"computed":false,"key":{"type":"Identifier","name":"m"},"kind":"method","value":{"type":"FunctionExpression","id":null,"generator":false,"async":false,"params":[],"body":{"type":"BlockStatement","body":[{"type":"ExpressionStatement","expression":{"type":"UnaryExpression","operator":"delete","prefix":true,"argument":{"type":"MemberExpression","object":{"type":"MemberExpression","object":{"type":"ThisExpression"},"property":{"type":"PrivateIdentifier","name":"x"},"computed":false,"optional":false},"property":{"type":"Identifier","name":"a"},"computed":false,"optional":false}}}]}}}]}}],"sourceType":"script"}"#,
            arguments: NONE,
            line: "",
        },
    ]
}

/// `break`, `continue` and `return`.
fn jumps() -> &'static [Case] {
    &[
        // break;
        Case {
            text: r#"{"type":"Program","body":[{"type":"BreakStatement","label":null}],"sourceType":"script"}"#,
            arguments: NONE,
            line: "refused: BadTree StrayJump at 1\n",
        },
        // while (a) break;
        Case {
            text: r#"{"type":"Program","body":[{"type":"WhileStatement","test":{"type":"Identifier","name":"a"},"body":{"type":"BreakStatement","label":null}}],"sourceType":"script"}"#,
            arguments: NONE,
            line: "",
        },
        // a: { while (b) continue a; }
        Case {
            text: r#"{"type":"Program","body":[{"type":"LabeledStatement","body":{"type":"BlockStatement","body":[{"type":"WhileStatement","test":{"type":"Identifier","name":"b"},"body":{"type":"ContinueStatement","label":{"type":"Identifier","name":"a"}}}]},"label":{"type":"Identifier","name":"a"}}],"sourceType":"script"}"#,
            arguments: NONE,
            line: "refused: BadTree StrayJump at 6\n",
        },
        // a: while (b) continue a;
        Case {
            text: r#"{"type":"Program","body":[{"type":"LabeledStatement","body":{"type":"WhileStatement","test":{"type":"Identifier","name":"b"},"body":{"type":"ContinueStatement","label":{"type":"Identifier","name":"a"}}},"label":{"type":"Identifier","name":"a"}}],"sourceType":"script"}"#,
            arguments: NONE,
            line: "",
        },
        // a: while (b) { class C { static { break a; } } }
        Case {
            text: r#"{"type":"Program","body":[{"type":"LabeledStatement","body":{"type":"WhileStatement","test":{"type":"Identifier","name":"b"},"body":{"type":"BlockStatement","body":[{"type":"ClassDeclaration","id":{"type":"Identifier","name":"C"},"superClass":null,"body":{"type":"ClassBody","body":[{"type":"StaticBlock","body":[{"type":"BreakStatement","label":{"type":"Identifier","name":"a"}}]}]}}]}},"label":{"type":"Identifier","name":"a"}}],"sourceType":"script"}"#,
            arguments: NONE,
            line: "refused: BadTree StrayJump at 10\n",
        },
        // return;
        Case {
            text: r#"{"type":"Program","body":[{"type":"ReturnStatement","argument":null}],"sourceType":"script"}"#,
            arguments: NONE,
            line: "refused: BadTree StrayJump at 1\n",
        },
        // () => { return; };
        Case {
            text: r#"{"type":"Program","body":[{"type":"ExpressionStatement","expression":{"type":"ArrowFunctionExpression","async":false,"params":[],"body":{"type":"BlockStatement","body":[{"type":"ReturnStatement","argument":null}]}}}],"sourceType":"script"}"#,
            arguments: NONE,
            line: "",
        },
    ]
}

/// `arguments`, `await` and `yield`.
fn arguments_and_suspensions() -> &'static [Case] {
    &[
        // class C { x = () => arguments; }
        Case {
            text: r#"{"type":"Program","body":[{"type":"ClassDeclaration","id":{"type":"Identifier","name":"C"},"superClass":null,"body":{"type":"ClassBody","body":[{"type":"PropertyDefinition","static":false,"computed":false,"key":{"type":"Identifier","name":"x"},"value":{"type":"ArrowFunctionExpression","async":false,"params":[],"body":{"type":"Identifier","name":"arguments"}}}]}}],"sourceType":"script"}"#,
            arguments: NONE,
            line: "refused: BadTree OwnArguments at 7\n",
        },
        // class C { x = function () { arguments; }; }
        Case {
            text: r#"{"type":"Program","body":[{"type":"ClassDeclaration","id":{"type":"Identifier","name":"C"},"superClass":null,"body":{"type":"ClassBody","body":[{"type":"PropertyDefinition","static":false,"computed":false,"key":{"type":"Identifier","name":"x"},"value":{"type":"FunctionExpression","id":null,"generator":false,"async":false,"params":[],"body":{"type":"BlockStatement","body":[{"type":"ExpressionStatement","expression":{"type":"Identifier","name":"arguments"}}]}}}]}}],"sourceType":"script"}"#,
            arguments: NONE,
            line: "",
        },
        // function f() { await x; }
        Case {
            text: r#"{"type":"Program","body":[{"type":"FunctionDeclaration","id":{"type":"Identifier","name":"f"},"generator":false,"async":false,"params":[],"body":{"type":"BlockStatement","body":[{"type":"ExpressionStatement","expression":{"type":"AwaitExpression","argument":{"type":"Identifier","name":"x"}}}]}}],"sourceType":"script"}"#,
            arguments: NONE,
            line: "refused: BadTree AwaitYield at 5\n",
        },
        // async function f() { class C { [await x] = 1; } }
        Case {
            text: r#"{"type":"Program","body":[{"type":"FunctionDeclaration","id":{"type":"Identifier","name":"f"},"generator":false,"async":true,"params":[],"body":{"type":"BlockStatement","body":[{"type":"ClassDeclaration","id":{"type":"Identifier","name":"C"},"superClass":null,"body":{"type":"ClassBody","body":[{"type":"PropertyDefinition","static":false,"computed":true,"key":{"type":"AwaitExpression","argument":{"type":"Identifier","name":"x"}},"value":{"type":"Literal","value":1,"raw":"1"}}]}}]}}],"sourceType":"script"}"#,
            arguments: NONE,
            line: "",
        },
        // async function f() { class C { x = await y; } }
        Case {
            text: r#"{"type":"Program","body":[{"type":"FunctionDeclaration","id":{"type":"Identifier","name":"f"},"generator":false,"async":true,"params":[],"body":{"type":"BlockStatement","body":[{"type":"ClassDeclaration","id":{"type":"Identifier","name":"C"},"superClass":null,"body":{"type":"ClassBody","body":[{"type":"PropertyDefinition","static":false,"computed":false,"key":{"type":"Identifier","name":"x"},"value":{"type":"AwaitExpression","argument":{"type":"Identifier","name":"y"}}}]}}]}}],"sourceType":"script"}"#,
            arguments: NONE,
            line: "refused: BadTree AwaitYield at 9\n",
        },
        // function* f() { () => { yield; }; }
        Case {
            text: r#"{"type":"Program","body":[{"type":"FunctionDeclaration","id":{"type":"Identifier","name":"f"},"generator":true,"async":false,"params":[],"body":{"type":"BlockStatement","body":[{"type":"ExpressionStatement","expression":{"type":"ArrowFunctionExpression","async":false,"params":[],"body":{"type":"BlockStatement","body":[{"type":"ExpressionStatement","expression":{"type":"YieldExpression","delegate":false,"argument":null}}]}}}]}}],"sourceType":"script"}"#,
            arguments: NONE,
            line: "refused: BadTree AwaitYield at 8\n",
        },
        // function* f() { yield; }
        Case {
            text: r#"{"type":"Program","body":[{"type":"FunctionDeclaration","id":{"type":"Identifier","name":"f"},"generator":true,"async":false,"params":[],"body":{"type":"BlockStatement","body":[{"type":"ExpressionStatement","expression":{"type":"YieldExpression","delegate":false,"argument":null}}]}}],"sourceType":"script"}"#,
            arguments: NONE,
            line: "",
        },
        // await x;
        Case {
            text: r#"{"type":"Program","body":[{"type":"ExpressionStatement","expression":{"type":"AwaitExpression","argument":{"type":"Identifier","name":"x"}}}],"sourceType":"script"}"#,
            arguments: NONE,
            line: "refused: BadTree AwaitYield at 2\n",
        },
        // await x;
        Case {
            text: r#"{"type":"Program","body":[{"type":"ExpressionStatement","expression":{"type":"AwaitExpression","argument":{"type":"Identifier","name":"x"}}}],"sourceType":"module"}"#,
            arguments: NONE,
            line: "",
        },
    ]
}

/// Declarations without a name, chains, and where declarations stand.
fn forms() -> &'static [Case] {
    &[
        // class {}
        Case {
            text: r#"{"type":"Program","body":[{"type":"ClassDeclaration","id":null,"superClass":null,"body":{"type":"ClassBody","body":[]}}],"sourceType":"module"}"#,
            arguments: NONE,
            line: "refused: BadTree NoName at 1\n",
        },
        // export default class {}
        Case {
            text: r#"{"type":"Program","body":[{"type":"ExportDefaultDeclaration","declaration":{"type":"ClassDeclaration","id":null,"superClass":null,"body":{"type":"ClassBody","body":[]}}}],"sourceType":"module"}"#,
            arguments: NONE,
            line: "",
        },
        // a?.b; (outside a chain)
        Case {
            text: r#"{"type":"Program","body":[{"type":"ExpressionStatement","expression":{"type":"MemberExpression","object":{"type":"Identifier","name":"a"},"property":{"type":"Identifier","name":"b"},"computed":false,"optional":true}}],"sourceType":"script"}"#,
            arguments: NONE,
            line: "refused: BadTree ChainForm at 2\n",
        },
        // a.b; (in a chain)
        Case {
            text: r#"{"type":"Program","body":[{"type":"ExpressionStatement","expression":{"type":"ChainExpression","expression":{"type":"MemberExpression","object":{"type":"Identifier","name":"a"},"property":{"type":"Identifier","name":"b"},"computed":false,"optional":false}}}],"sourceType":"script"}"#,
            arguments: NONE,
            line: "refused: BadTree ChainForm at 2\n",
        },
        // a?.b.c(d?.e);
        Case {
            text: r#"{"type":"Program","body":[{"type":"ExpressionStatement","expression":{"type":"ChainExpression","expression":{"type":"CallExpression","callee":{"type":"MemberExpression","object":{"type":"MemberExpression","object":{"type":"Identifier","name":"a"},"property":{"type":"Identifier","name":"b"},"computed":false,"optional":true},"property":{"type":"Identifier","name":"c"},"computed":false,"optional":false},"arguments":[{"type":"ChainExpression","expression":{"type":"MemberExpression","object":{"type":"Identifier","name":"d"},"property":{"type":"Identifier","name":"e"},"computed":false,"optional":true}}],"optional":false}}}],"sourceType":"script"}"#,
            arguments: NONE,
            line: "",
        },
        // if (a) let b;
        Case {
            text: r#"{"type":"Program","body":[{"type":"IfStatement","test":{"type":"Identifier","name":"a"},"consequent":{"type":"VariableDeclaration","declarations":[{"type":"VariableDeclarator","id":{"type":"Identifier","name":"b"},"init":null}],"kind":"let"},"alternate":null}],"sourceType":"script"}"#,
            arguments: NONE,
            line: "refused: BadTree DeclarationPlace at 3\n",
        },
        // if (a) var b;
        Case {
            text: r#"{"type":"Program","body":[{"type":"IfStatement","test":{"type":"Identifier","name":"a"},"consequent":{"type":"VariableDeclaration","declarations":[{"type":"VariableDeclarator","id":{"type":"Identifier","name":"b"},"init":null}],"kind":"var"},"alternate":null}],"sourceType":"script"}"#,
            arguments: NONE,
            line: "",
        },
        // a: class C {}
        Case {
            text: r#"{"type":"Program","body":[{"type":"LabeledStatement","body":{"type":"ClassDeclaration","id":{"type":"Identifier","name":"C"},"superClass":null,"body":{"type":"ClassBody","body":[]}},"label":{"type":"Identifier","name":"a"}}],"sourceType":"script"}"#,
            arguments: NONE,
            line: "refused: BadTree DeclarationPlace at 3\n",
        },
        // { export {}; }
        Case {
            text: r#"{"type":"Program","body":[{"type":"BlockStatement","body":[{"type":"ExportNamedDeclaration","declaration":null,"specifiers":[],"source":null}]}],"sourceType":"module"}"#,
            arguments: NONE,
            line: "refused: BadTree ModuleItem at 2\n",
        },
        // export {};
        Case {
            text: r#"{"type":"Program","body":[{"type":"ExportNamedDeclaration","declaration":null,"specifiers":[],"source":null}],"sourceType":"module"}"#,
            arguments: NONE,
            line: "",
        },
        // import "a";
        Case {
            text: r#"{"type":"Program","body":[{"type":"ImportDeclaration","specifiers":[],"source":{"type":"Literal","value":"a","raw":"\"a\""}}],"sourceType":"script"}"#,
            arguments: NONE,
            line: "refused: BadTree ModuleItem at 1\n",
        },
        // class C { #x; #x; }
        Case {
            text: r#"{"type":"Program","body":[{"type":"ClassDeclaration","id":{"type":"Identifier","name":"C"},"superClass":null,"body":{"type":"ClassBody","body":[{"type":"PropertyDefinition","static":false,"computed":false,"key":{"type":"PrivateIdentifier","name":"x"},"value":null},{"type":"PropertyDefinition","static":false,"computed":false,"key":{"type":"PrivateIdentifier","name":"x"},"value":null}]}}],"sourceType":"script"}"#,
            arguments: NONE,
            line: "refused: DuplicatePrivate at 7\n",
        },
    ]
}

/// Private names: declared twice, or not at all.
fn private_names() -> &'static [Case] {
    &[
        // class C { get #x() {} set #x(a) {} }
        Case {
            text: r#"{"type":"Program","body":[{"type":"ClassDeclaration","id":{"type":"Identifier","name":"C"},"superClass":null,"body":{"type":"ClassBody","body":[{"type":"MethodDefinition","static":false,"computed":false,"key":{"type":"PrivateIdentifier","name":"x"},"kind":"get","value":{"type":"FunctionExpression","id":null,"generator":false,"async":false,"params":[],"body":{"type":"BlockStatement","body":[]}}},{"type":"MethodDefinition","static":false,"computed":false,"key":{"type":"PrivateIdentifier","name":"x"},"kind":"set","value":{"type":"FunctionExpression","id":null,"generator":false,"async":false,"params":[{"type":"Identifier","name":"a"}],"body":{"type":"BlockStatement","body":[]}}}]}}],"sourceType":"script"}"#,
            arguments: NONE,
            line: "",
        },
        // class C { get #x() {} static set #x(a) {} }
        Case {
            text: r#"{"type":"Program","body":[{"type":"ClassDeclaration","id":{"type":"Identifier","name":"C"},"superClass":null,"body":{"type":"ClassBody","body":[{"type":"MethodDefinition","static":false,"computed":false,"key":{"type":"PrivateIdentifier","name":"x"},"kind":"get","value":{"type":"FunctionExpression","id":null,"generator":false,"async":false,"params":[],"body":{"type":"BlockStatement","body":[]}}},{"type":"MethodDefinition","static":true,"computed":false,"key":{"type":"PrivateIdentifier","name":"x"},"kind":"set","value":{"type":"FunctionExpression","id":null,"generator":false,"async":false,"params":[{"type":"Identifier","name":"a"}],"body":{"type":"BlockStatement","body":[]}}}]}}],"sourceType":"script"}"#,
            arguments: NONE,
            line: "refused: DuplicatePrivate at 9\n",
        },
        // class C { get #x() {} set #x(a) {} get #x() {} }
        Case {
            text: r#"{"type":"Program","body":[{"type":"ClassDeclaration","id":{"type":"Identifier","name":"C"},"superClass":null,"body":{"type":"ClassBody","body":[{"type":"MethodDefinition","static":false,"computed":false,"key":{"type":"PrivateIdentifier","name":"x"},"kind":"get","value":{"type":"FunctionExpression","id":null,"generator":false,"async":false,"params":[],"body":{"type":"BlockStatement","body":[]}}},{"type":"MethodDefinition","static":false,"computed":false,"key":{"type":"PrivateIdentifier","name":"x"},"kind":"set","value":{"type":"FunctionExpression","id":null,"generator":false,"async":false,"params":[{"type":"Identifier","name":"a"}],"body":{"type":"BlockStatement","body":[]}}},{"type":"MethodDefinition","static":false,"computed":false,"key":{"type":"PrivateIdentifier","name":"x"},"kind":"get","value":{"type":"FunctionExpression","id":null,"generator":false,"async":false,"params":[],"body":{"type":"BlockStatement","body":[]}}}]}}],"sourceType":"script"}"#,
            arguments: NONE,
            line: "refused: DuplicatePrivate at 14\n",
        },
        // class C { #x() {} m() { class D { #x; } } }
        Case {
            text: r#"{"type":"Program","body":[{"type":"ClassDeclaration","id":{"type":"Identifier","name":"C"},"superClass":null,"body":{"type":"ClassBody","body":[{"type":"MethodDefinition","static":false,"computed":false,"key":{"type":"PrivateIdentifier","name":"x"},"kind":"method","value":{"type":"FunctionExpression","id":null,"generator":false,"async":false,"params":[],"body":{"type":"BlockStatement","body":[]}}},{"type":"MethodDefinition","static":false,"computed":false,"key":{"type":"Identifier","name":"m"},"kind":"method","value":{"type":"FunctionExpression","id":null,"generator":false,"async":false,"params":[],"body":{"type":"BlockStatement","body":[{"type":"ClassDeclaration","id":{"type":"Identifier","name":"D"},"superClass":null,"body":{"type":"ClassBody","body":[{"type":"PropertyDefinition","static":false,"computed":false,"key":{"type":"PrivateIdentifier","name":"x"},"value":null}]}}]}}}]}}],"sourceType":"script"}"#,
            arguments: NONE,
            line: "",
        },
        // class C { m() { return this.#y; } }
        Case {
            text: r#"{"type":"Program","body":[{"type":"ClassDeclaration","id":{"type":"Identifier","name":"C"},"superClass":null,"body":{"type":"ClassBody","body":[{"type":"MethodDefinition","static":false,"computed":false,"key":{"type":"Identifier","name":"m"},"kind":"method","value":{"type":"FunctionExpression","id":null,"generator":false,"async":false,"params":[],"body":{"type":"BlockStatement","body":[{"type":"ReturnStatement","argument":{"type":"MemberExpression","object":{"type":"ThisExpression"},"property":{"type":"PrivateIdentifier","name":"y"},"computed":false,"optional":false}}]}}}]}}],"sourceType":"script"}"#,
            arguments: NONE,
            line: "refused: UndeclaredPrivate at 11\n",
        },
        // class C { m() { return this.#y; } #y; }
        Case {
            text: r#"{"type":"Program","body":[{"type":"ClassDeclaration","id":{"type":"Identifier","name":"C"},"superClass":null,"body":{"type":"ClassBody","body":[{"type":"MethodDefinition","static":false,"computed":false,"key":{"type":"Identifier","name":"m"},"kind":"method","value":{"type":"FunctionExpression","id":null,"generator":false,"async":false,"params":[],"body":{"type":"BlockStatement","body":[{"type":"ReturnStatement","argument":{"type":"MemberExpression","object":{"type":"ThisExpression"},"property":{"type":"PrivateIdentifier","name":"y"},"computed":false,"optional":false}}]}}},{"type":"PropertyDefinition","static":false,"computed":false,"key":{"type":"PrivateIdentifier","name":"y"},"value":null}]}}],"sourceType":"script"}"#,
            arguments: NONE,
            line: "",
        },
        // class C { #x; m() { class D extends this.#x { #y; } } }
        Case {
            text: r#"{"type":"Program","body":[{"type":"ClassDeclaration","id":{"type":"Identifier","name":"C"},"superClass":null,"body":{"type":"ClassBody","body":[{"type":"PropertyDefinition","static":false,"computed":false,"key":{"type":"PrivateIdentifier","name":"x"},"value":null},{"type":"MethodDefinition","static":false,"computed":false,"key":{"type":"Identifier","name":"m"},"kind":"method","value":{"type":"FunctionExpression","id":null,"generator":false,"async":false,"params":[],"body":{"type":"BlockStatement","body":[{"type":"ClassDeclaration","id":{"type":"Identifier","name":"D"},"superClass":{"type":"MemberExpression","object":{"type":"ThisExpression"},"property":{"type":"PrivateIdentifier","name":"x"},"computed":false,"optional":false},"body":{"type":"ClassBody","body":[{"type":"PropertyDefinition","static":false,"computed":false,"key":{"type":"PrivateIdentifier","name":"y"},"value":null}]}}]}}}]}}],"sourceType":"script"}"#,
            arguments: NONE,
            line: "",
        },
        // class C { m() { class D extends this.#y { #y; } } }
        Case {
            text: r#"{"type":"Program","body":[{"type":"ClassDeclaration","id":{"type":"Identifier","name":"C"},"superClass":null,"body":{"type":"ClassBody","body":[{"type":"MethodDefinition","static":false,"computed":false,"key":{"type":"Identifier","name":"m"},"kind":"method","value":{"type":"FunctionExpression","id":null,"generator":false,"async":false,"params":[],"body":{"type":"BlockStatement","body":[{"type":"ClassDeclaration","id":{"type":"Identifier","name":"D"},"superClass":{"type":"MemberExpression","object":{"type":"ThisExpression"},"property":{"type":"PrivateIdentifier","name":"y"},"computed":false,"optional":false},"body":{"type":"ClassBody","body":[{"type":"PropertyDefinition","static":false,"computed":false,"key":{"type":"PrivateIdentifier","name":"y"},"value":null}]}}]}}}]}}],"sourceType":"script"}"#,
            arguments: NONE,
            line: "refused: UndeclaredPrivate at 12\n",
        },
        // class C { static { this.#x; } m() { class D { #x; } } }
        Case {
            text: r#"{"type":"Program","body":[{"type":"ClassDeclaration","id":{"type":"Identifier","name":"C"},"superClass":null,"body":{"type":"ClassBody","body":[{"type":"StaticBlock","body":[{"type":"ExpressionStatement","expression":{"type":"MemberExpression","object":{"type":"ThisExpression"},"property":{"type":"PrivateIdentifier","name":"x"},"computed":false,"optional":false}}]},{"type":"MethodDefinition","static":false,"computed":false,"key":{"type":"Identifier","name":"m"},"kind":"method","value":{"type":"FunctionExpression","id":null,"generator":false,"async":false,"params":[],"body":{"type":"BlockStatement","body":[{"type":"ClassDeclaration","id":{"type":"Identifier","name":"D"},"superClass":null,"body":{"type":"ClassBody","body":[{"type":"PropertyDefinition","static":false,"computed":false,"key":{"type":"PrivateIdentifier","name":"x"},"value":null}]}}]}}}]}}],"sourceType":"script"}"#,
            arguments: NONE,
            line: "refused: UndeclaredPrivate at 8\n",
        },
        // class C { [this.#x]; #x; }
        Case {
            text: r#"{"type":"Program","body":[{"type":"ClassDeclaration","id":{"type":"Identifier","name":"C"},"superClass":null,"body":{"type":"ClassBody","body":[{"type":"PropertyDefinition","static":false,"computed":true,"key":{"type":"MemberExpression","object":{"type":"ThisExpression"},"property":{"type":"PrivateIdentifier","name":"x"},"computed":false,"optional":false},"value":null},{"type":"PropertyDefinition","static":false,"computed":false,"key":{"type":"PrivateIdentifier","name":"x"},"value":null}]}}],"sourceType":"script"}"#,
            arguments: NONE,
            line: "",
        },
        // class C { static m(o) { #x in o; } }
        Case {
            text: r#"{"type":"Program","body":[{"type":"ClassDeclaration","id":{"type":"Identifier","name":"C"},"superClass":null,"body":{"type":"ClassBody","body":[{"type":"MethodDefinition","static":true,"computed":false,"key":{"type":"Identifier","name":"m"},"kind":"method","value":{"type":"FunctionExpression","id":null,"generator":false,"async":false,"params":[{"type":"Identifier","name":"o"}],"body":{"type":"BlockStatement","body":[{"type":"ExpressionStatement","expression":{"type":"BinaryExpression","left":{"type":"PrivateIdentifier","name":"x"},"operator":"in","right":{"type":"Identifier","name":"o"}}}]}}}]}}],"sourceType":"script"}"#,
            arguments: NONE,
            line: "refused: UndeclaredPrivate at 11\n",
        },
        // with (a) {}
        Case {
            text: r#"{"type":"Program","body":[{"type":"WithStatement","object":{"type":"Identifier","name":"a"},"body":{"type":"BlockStatement","body":[]}}],"sourceType":"script"}"#,
            arguments: NONE,
            line: "refused: Unsupported With at 1\n",
        },
    ]
}

/// `with`, and names that lowered programs use.
fn names_left_out() -> &'static [Case] {
    &[
        // function f(WeakMap) {}
        Case {
            text: r#"{"type":"Program","body":[{"type":"FunctionDeclaration","id":{"type":"Identifier","name":"f"},"generator":false,"async":false,"params":[{"type":"Identifier","name":"WeakMap"}],"body":{"type":"BlockStatement","body":[]}}],"sourceType":"script"}"#,
            arguments: NONE,
            line: "refused: Unsupported HelperName at 3\n",
        },
        // [Object] = a;
        Case {
            text: r#"{"type":"Program","body":[{"type":"ExpressionStatement","expression":{"type":"AssignmentExpression","operator":"=","left":{"type":"ArrayPattern","elements":[{"type":"Identifier","name":"Object"}]},"right":{"type":"Identifier","name":"a"}}}],"sourceType":"script"}"#,
            arguments: NONE,
            line: "refused: Unsupported HelperName at 4\n",
        },
        // new WeakMap(Object.a);
        Case {
            text: r#"{"type":"Program","body":[{"type":"ExpressionStatement","expression":{"type":"NewExpression","callee":{"type":"Identifier","name":"WeakMap"},"arguments":[{"type":"MemberExpression","object":{"type":"Identifier","name":"Object"},"property":{"type":"Identifier","name":"a"},"computed":false,"optional":false}]}}],"sourceType":"script"}"#,
            arguments: NONE,
            line: "",
        },
        // class C { #m() {} }
        Case {
            text: r#"{"type":"Program","body":[{"type":"ClassDeclaration","id":{"type":"Identifier","name":"C"},"superClass":null,"body":{"type":"ClassBody","body":[{"type":"MethodDefinition","static":false,"computed":false,"key":{"type":"PrivateIdentifier","name":"m"},"kind":"method","value":{"type":"FunctionExpression","id":null,"generator":false,"async":false,"params":[],"body":{"type":"BlockStatement","body":[]}}}]}}],"sourceType":"script"}"#,
            arguments: LOWER,
            line: "refused: NotYet at 5\n",
        },
        // class C { #x; m(o) { #x in o; } }
        Case {
            text: r#"{"type":"Program","body":[{"type":"ClassDeclaration","id":{"type":"Identifier","name":"C"},"superClass":null,"body":{"type":"ClassBody","body":[{"type":"PropertyDefinition","static":false,"computed":false,"key":{"type":"PrivateIdentifier","name":"x"},"value":null},{"type":"MethodDefinition","static":false,"computed":false,"key":{"type":"Identifier","name":"m"},"kind":"method","value":{"type":"FunctionExpression","id":null,"generator":false,"async":false,"params":[{"type":"Identifier","name":"o"}],"body":{"type":"BlockStatement","body":[{"type":"ExpressionStatement","expression":{"type":"BinaryExpression","left":{"type":"PrivateIdentifier","name":"x"},"operator":"in","right":{"type":"Identifier","name":"o"}}}]}}}]}}],"sourceType":"script"}"#,
            arguments: LOWER,
            line: "refused: NotYet at 5\n",
        },
        // class C { static x = delete super.y; }
        Case {
            text: r#"{"type":"Program","body":[{"type":"ClassDeclaration","id":{"type":"Identifier","name":"C"},"superClass":null,"body":{"type":"ClassBody","body":[{"type":"PropertyDefinition","static":true,"computed":false,"key":{"type":"Identifier","name":"x"},"value":{"type":"UnaryExpression","operator":"delete","prefix":true,"argument":{"type":"MemberExpression","object":{"type":"Super"},"property":{"type":"Identifier","name":"y"},"computed":false,"optional":false}}}]}}],"sourceType":"script"}"#,
            arguments: LOWER,
            line: "refused: Unsupported SuperForm at 6\n",
        },
    ]
}

/// Forms of `super` that are not lowered.
fn supers_left_out() -> &'static [Case] {
    &[
        // class C { x = delete super.y; }
        Case {
            text: r#"{"type":"Program","body":[{"type":"ClassDeclaration","id":{"type":"Identifier","name":"C"},"superClass":null,"body":{"type":"ClassBody","body":[{"type":"PropertyDefinition","static":false,"computed":false,"key":{"type":"Identifier","name":"x"},"value":{"type":"UnaryExpression","operator":"delete","prefix":true,"argument":{"type":"MemberExpression","object":{"type":"Super"},"property":{"type":"Identifier","name":"y"},"computed":false,"optional":false}}}]}}],"sourceType":"script"}"#,
            arguments: LOWER,
            line: "",
        },
        // class C { #m() { [super.x] = y; } }
        Case {
            text: r#"{"type":"Program","body":[{"type":"ClassDeclaration","id":{"type":"Identifier","name":"C"},"superClass":null,"body":{"type":"ClassBody","body":[{"type":"MethodDefinition","static":false,"computed":false,"key":{"type":"PrivateIdentifier","name":"m"},"kind":"method","value":{"type":"FunctionExpression","id":null,"generator":false,"async":false,"params":[],"body":{"type":"BlockStatement","body":[{"type":"ExpressionStatement","expression":{"type":"AssignmentExpression","operator":"=","left":{"type":"ArrayPattern","elements":[{"type":"MemberExpression","object":{"type":"Super"},"property":{"type":"Identifier","name":"x"},"computed":false,"optional":false}]},"right":{"type":"Identifier","name":"y"}}}]}}}]}}],"sourceType":"script"}"#,
            arguments: LOWER,
            line: "refused: Unsupported SuperForm at 11\n",
        },
        // class C { m() { [super.x] = y; } }
        Case {
            text: r#"{"type":"Program","body":[{"type":"ClassDeclaration","id":{"type":"Identifier","name":"C"},"superClass":null,"body":{"type":"ClassBody","body":[{"type":"MethodDefinition","static":false,"computed":false,"key":{"type":"Identifier","name":"m"},"kind":"method","value":{"type":"FunctionExpression","id":null,"generator":false,"async":false,"params":[],"body":{"type":"BlockStatement","body":[{"type":"ExpressionStatement","expression":{"type":"AssignmentExpression","operator":"=","left":{"type":"ArrayPattern","elements":[{"type":"MemberExpression","object":{"type":"Super"},"property":{"type":"Identifier","name":"x"},"computed":false,"optional":false}]},"right":{"type":"Identifier","name":"y"}}}]}}}]}}],"sourceType":"script"}"#,
            arguments: LOWER,
            line: "",
        },
        // class C { static { super.x`a`; } }
        Case {
            text: r#"{"type":"Program","body":[{"type":"ClassDeclaration","id":{"type":"Identifier","name":"C"},"superClass":null,"body":{"type":"ClassBody","body":[{"type":"StaticBlock","body":[{"type":"ExpressionStatement","expression":{"type":"TaggedTemplateExpression","tag":{"type":"MemberExpression","object":{"type":"Super"},"property":{"type":"Identifier","name":"x"},"computed":false,"optional":false},"quasi":{"type":"TemplateLiteral","expressions":[],"quasis":[{"type":"TemplateElement","value":{"raw":"a","cooked":"a"},"tail":true}]}}}]}]}}],"sourceType":"script"}"#,
            arguments: LOWER,
            line: "",
        },
        // class C extends P { x = super.y; constructor(a = super()) {} }
        Case {
            text: r#"{"type":"Program","body":[{"type":"ClassDeclaration","id":{"type":"Identifier","name":"C"},"superClass":{"type":"Identifier","name":"P"},"body":{"type":"ClassBody","body":[{"type":"PropertyDefinition","static":false,"computed":false,"key":{"type":"Identifier","name":"x"},"value":{"type":"MemberExpression","object":{"type":"Super"},"property":{"type":"Identifier","name":"y"},"computed":false,"optional":false}},{"type":"MethodDefinition","static":false,"computed":false,"key":{"type":"Identifier","name":"constructor"},"kind":"constructor","value":{"type":"FunctionExpression","id":null,"generator":false,"async":false,"params":[{"type":"AssignmentPattern","left":{"type":"Identifier","name":"a"},"right":{"type":"CallExpression","callee":{"type":"Super"},"arguments":[],"optional":false}}],"body":{"type":"BlockStatement","body":[]}}}]}}],"sourceType":"script"}"#,
            arguments: LOWER,
            line: "refused: Unsupported SuperInInitializer at 7\n",
        },
        // class C extends P { x = super.y; constructor(a = super()) {} }
        Case {
            text: r#"{"type":"Program","body":[{"type":"ClassDeclaration","id":{"type":"Identifier","name":"C"},"superClass":{"type":"Identifier","name":"P"},"body":{"type":"ClassBody","body":[{"type":"PropertyDefinition","static":false,"computed":false,"key":{"type":"Identifier","name":"x"},"value":{"type":"MemberExpression","object":{"type":"Super"},"property":{"type":"Identifier","name":"y"},"computed":false,"optional":false}},{"type":"MethodDefinition","static":false,"computed":false,"key":{"type":"Identifier","name":"constructor"},"kind":"constructor","value":{"type":"FunctionExpression","id":null,"generator":false,"async":false,"params":[{"type":"AssignmentPattern","left":{"type":"Identifier","name":"a"},"right":{"type":"CallExpression","callee":{"type":"Super"},"arguments":[],"optional":false}}],"body":{"type":"BlockStatement","body":[]}}}]}}],"sourceType":"script"}"#,
            arguments: NONE,
            line: "",
        },
        // class C extends P { static x = super.y; constructor(a = super()) {} }
        Case {
            text: r#"{"type":"Program","body":[{"type":"ClassDeclaration","id":{"type":"Identifier","name":"C"},"superClass":{"type":"Identifier","name":"P"},"body":{"type":"ClassBody","body":[{"type":"PropertyDefinition","static":true,"computed":false,"key":{"type":"Identifier","name":"x"},"value":{"type":"MemberExpression","object":{"type":"Super"},"property":{"type":"Identifier","name":"y"},"computed":false,"optional":false}},{"type":"MethodDefinition","static":false,"computed":false,"key":{"type":"Identifier","name":"constructor"},"kind":"constructor","value":{"type":"FunctionExpression","id":null,"generator":false,"async":false,"params":[{"type":"AssignmentPattern","left":{"type":"Identifier","name":"a"},"right":{"type":"CallExpression","callee":{"type":"Super"},"arguments":[],"optional":false}}],"body":{"type":"BlockStatement","body":[]}}}]}}],"sourceType":"script"}"#,
            arguments: LOWER,
            line: "",
        },
        // with (a) return;
        Case {
            text: r#"{"type":"Program","body":[{"type":"WithStatement","object":{"type":"Identifier","name":"a"},"body":{"type":"ReturnStatement","argument":null}}],"sourceType":"script"}"#,
            arguments: NONE,
            line: "refused: Unsupported With at 1\n",
        },
    ]
}

/// Programs with two faults.
fn first_faults() -> &'static [Case] {
    &[
        // class C { constructor() {} get constructor() {} }
        Case {
            text: r#"{"type":"Program","body":[{"type":"ClassDeclaration","id":{"type":"Identifier","name":"C"},"superClass":null,"body":{"type":"ClassBody","body":[{"type":"MethodDefinition","static":false,"computed":false,"key":{"type":"Identifier","name":"constructor"},"kind":"constructor","value":{"type":"FunctionExpression","id":null,"generator":false,"async":false,"params":[],"body":{"type":"BlockStatement","body":[]}}},{"type":"MethodDefinition","static":false,"computed":false,"key":{"type":"Identifier","name":"constructor"},"kind":"get","value":{"type":"FunctionExpression","id":null,"generator":false,"async":false,"params":[],"body":{"type":"BlockStatement","body":[]}}}]}}],"sourceType":"script"}"#,
            arguments: NONE,
            line: "refused: BadTree ConstructorForm at 8\n",
        },
        // super.WeakMap = await x;
        Case {
            text: r#"{"type":"Program","body":[{"type":"ExpressionStatement","expression":{"type":"AssignmentExpression","operator":"=","left":{"type":"MemberExpression","object":{"type":"Super"},"property":{"type":"Identifier","name":"WeakMap"},"computed":false,"optional":false},"right":{"type":"AwaitExpression","argument":{"type":"Identifier","name":"x"}}}}],"sourceType":"script"}"#,
            arguments: NONE,
            line: "refused: BadTree SuperMember at 3\n",
        },
        // let a; var a;
        Case {
            text: r#"{"type":"Program","body":[{"type":"VariableDeclaration","declarations":[{"type":"VariableDeclarator","id":{"type":"Identifier","name":"a"},"init":null}],"kind":"let"},{"type":"VariableDeclaration","declarations":[{"type":"VariableDeclarator","id":{"type":"Identifier","name":"a"},"init":null}],"kind":"var"}],"sourceType":"script"}"#,
            arguments: NONE,
            line: "refused: BadTree RepeatedName at 6\n",
        },
    ]
}

/// Names that are declared twice.
fn repeated_names() -> &'static [Case] {
    &[
        // let a; { let a; }
        Case {
            text: r#"{"type":"Program","body":[{"type":"VariableDeclaration","declarations":[{"type":"VariableDeclarator","id":{"type":"Identifier","name":"a"},"init":null}],"kind":"let"},{"type":"BlockStatement","body":[{"type":"VariableDeclaration","declarations":[{"type":"VariableDeclarator","id":{"type":"Identifier","name":"a"},"init":null}],"kind":"let"}]}],"sourceType":"script"}"#,
            arguments: NONE,
            line: "",
        },
        // let a; { var a; }
        Case {
            text: r#"{"type":"Program","body":[{"type":"VariableDeclaration","declarations":[{"type":"VariableDeclarator","id":{"type":"Identifier","name":"a"},"init":null}],"kind":"let"},{"type":"BlockStatement","body":[{"type":"VariableDeclaration","declarations":[{"type":"VariableDeclarator","id":{"type":"Identifier","name":"a"},"init":null}],"kind":"var"}]}],"sourceType":"script"}"#,
            arguments: NONE,
            line: "refused: BadTree RepeatedName at 7\n",
        },
        // { var a; let a; }
        Case {
            text: r#"{"type":"Program","body":[{"type":"BlockStatement","body":[{"type":"VariableDeclaration","declarations":[{"type":"VariableDeclarator","id":{"type":"Identifier","name":"a"},"init":null}],"kind":"var"},{"type":"VariableDeclaration","declarations":[{"type":"VariableDeclarator","id":{"type":"Identifier","name":"a"},"init":null}],"kind":"let"}]}],"sourceType":"script"}"#,
            arguments: NONE,
            line: "refused: BadTree RepeatedName at 7\n",
        },
        // let a; function f() { var a; }
        Case {
            text: r#"{"type":"Program","body":[{"type":"VariableDeclaration","declarations":[{"type":"VariableDeclarator","id":{"type":"Identifier","name":"a"},"init":null}],"kind":"let"},{"type":"FunctionDeclaration","id":{"type":"Identifier","name":"f"},"expression":false,"generator":false,"async":false,"params":[],"body":{"type":"BlockStatement","body":[{"type":"VariableDeclaration","declarations":[{"type":"VariableDeclarator","id":{"type":"Identifier","name":"a"},"init":null}],"kind":"var"}]}}],"sourceType":"script"}"#,
            arguments: NONE,
            line: "",
        },
        // function f(a) { let a; }
        Case {
            text: r#"{"type":"Program","body":[{"type":"FunctionDeclaration","id":{"type":"Identifier","name":"f"},"expression":false,"generator":false,"async":false,"params":[{"type":"Identifier","name":"a"}],"body":{"type":"BlockStatement","body":[{"type":"VariableDeclaration","declarations":[{"type":"VariableDeclarator","id":{"type":"Identifier","name":"a"},"init":null}],"kind":"let"}]}}],"sourceType":"script"}"#,
            arguments: NONE,
            line: "refused: BadTree RepeatedName at 7\n",
        },
        // function f(a) { var a; }
        Case {
            text: r#"{"type":"Program","body":[{"type":"FunctionDeclaration","id":{"type":"Identifier","name":"f"},"expression":false,"generator":false,"async":false,"params":[{"type":"Identifier","name":"a"}],"body":{"type":"BlockStatement","body":[{"type":"VariableDeclaration","declarations":[{"type":"VariableDeclarator","id":{"type":"Identifier","name":"a"},"init":null}],"kind":"var"}]}}],"sourceType":"script"}"#,
            arguments: NONE,
            line: "",
        },
        // class f {} function f() {}
        Case {
            text: r#"{"type":"Program","body":[{"type":"ClassDeclaration","id":{"type":"Identifier","name":"f"},"superClass":null,"body":{"type":"ClassBody","body":[]}},{"type":"FunctionDeclaration","id":{"type":"Identifier","name":"f"},"expression":false,"generator":false,"async":false,"params":[],"body":{"type":"BlockStatement","body":[]}}],"sourceType":"script"}"#,
            arguments: NONE,
            line: "refused: BadTree RepeatedName at 5\n",
        },
        // function f() {} function f() {} var f;
        Case {
            text: r#"{"type":"Program","body":[{"type":"FunctionDeclaration","id":{"type":"Identifier","name":"f"},"expression":false,"generator":false,"async":false,"params":[],"body":{"type":"BlockStatement","body":[]}},{"type":"FunctionDeclaration","id":{"type":"Identifier","name":"f"},"expression":false,"generator":false,"async":false,"params":[],"body":{"type":"BlockStatement","body":[]}},{"type":"VariableDeclaration","declarations":[{"type":"VariableDeclarator","id":{"type":"Identifier","name":"f"},"init":null}],"kind":"var"}],"sourceType":"script"}"#,
            arguments: NONE,
            line: "",
        },
        // let f; if (a) function f() {}
        Case {
            text: r#"{"type":"Program","body":[{"type":"VariableDeclaration","declarations":[{"type":"VariableDeclarator","id":{"type":"Identifier","name":"f"},"init":null}],"kind":"let"},{"type":"IfStatement","test":{"type":"Identifier","name":"a"},"consequent":{"type":"FunctionDeclaration","id":{"type":"Identifier","name":"f"},"expression":false,"generator":false,"async":false,"params":[],"body":{"type":"BlockStatement","body":[]}},"alternate":null}],"sourceType":"script"}"#,
            arguments: NONE,
            line: "",
        },
    ]
}

/// The same, in loops, switches, imports, patterns, functions and static blocks.
fn repeated_names_in_scopes() -> &'static [Case] {
    &[
        // for (let a;;) { var a; }
        Case {
            text: r#"{"type":"Program","body":[{"type":"ForStatement","init":{"type":"VariableDeclaration","declarations":[{"type":"VariableDeclarator","id":{"type":"Identifier","name":"a"},"init":null}],"kind":"let"},"test":null,"update":null,"body":{"type":"BlockStatement","body":[{"type":"VariableDeclaration","declarations":[{"type":"VariableDeclarator","id":{"type":"Identifier","name":"a"},"init":null}],"kind":"var"}]}}],"sourceType":"script"}"#,
            arguments: NONE,
            line: "refused: BadTree RepeatedName at 8\n",
        },
        // for (let a;;) { let a; }
        Case {
            text: r#"{"type":"Program","body":[{"type":"ForStatement","init":{"type":"VariableDeclaration","declarations":[{"type":"VariableDeclarator","id":{"type":"Identifier","name":"a"},"init":null}],"kind":"let"},"test":null,"update":null,"body":{"type":"BlockStatement","body":[{"type":"VariableDeclaration","declarations":[{"type":"VariableDeclarator","id":{"type":"Identifier","name":"a"},"init":null}],"kind":"let"}]}}],"sourceType":"script"}"#,
            arguments: NONE,
            line: "",
        },
        // switch (a) { case 1: let b; case 2: let b; }
        Case {
            text: r#"{"type":"Program","body":[{"type":"SwitchStatement","discriminant":{"type":"Identifier","name":"a"},"cases":[{"type":"SwitchCase","consequent":[{"type":"VariableDeclaration","declarations":[{"type":"VariableDeclarator","id":{"type":"Identifier","name":"b"},"init":null}],"kind":"let"}],"test":{"type":"Literal","value":1,"raw":"1"}},{"type":"SwitchCase","consequent":[{"type":"VariableDeclaration","declarations":[{"type":"VariableDeclarator","id":{"type":"Identifier","name":"b"},"init":null}],"kind":"let"}],"test":{"type":"Literal","value":2,"raw":"2"}}]}],"sourceType":"script"}"#,
            arguments: NONE,
            line: "refused: BadTree RepeatedName at 12\n",
        },
        // import a from "x"; let a;
        Case {
            text: r#"{"type":"Program","body":[{"type":"ImportDeclaration","specifiers":[{"type":"ImportDefaultSpecifier","local":{"type":"Identifier","name":"a"}}],"source":{"type":"Literal","value":"x","raw":"\"x\""}},{"type":"VariableDeclaration","declarations":[{"type":"VariableDeclarator","id":{"type":"Identifier","name":"a"},"init":null}],"kind":"let"}],"sourceType":"module"}"#,
            arguments: NONE,
            line: "refused: BadTree RepeatedName at 7\n",
        },
        // const [a, { a }] = b;
        Case {
            text: r#"{"type":"Program","body":[{"type":"VariableDeclaration","declarations":[{"type":"VariableDeclarator","id":{"type":"ArrayPattern","elements":[{"type":"Identifier","name":"a"},{"type":"ObjectPattern","properties":[{"type":"Property","method":false,"shorthand":false,"computed":false,"key":{"type":"Identifier","name":"a"},"value":{"type":"Identifier","name":"a"},"kind":"init"}]}]},"init":{"type":"Identifier","name":"b"}}],"kind":"const"}],"sourceType":"script"}"#,
            arguments: NONE,
            line: "refused: BadTree RepeatedName at 8\n",
        },
        // (function a() { let a; });
        Case {
            text: r#"{"type":"Program","body":[{"type":"ExpressionStatement","expression":{"type":"FunctionExpression","id":{"type":"Identifier","name":"a"},"expression":false,"generator":false,"async":false,"params":[],"body":{"type":"BlockStatement","body":[{"type":"VariableDeclaration","declarations":[{"type":"VariableDeclarator","id":{"type":"Identifier","name":"a"},"init":null}],"kind":"let"}]}}}],"sourceType":"script"}"#,
            arguments: NONE,
            line: "",
        },
        // class C { static { var a; let a; } }
        Case {
            text: r#"{"type":"Program","body":[{"type":"ClassDeclaration","id":{"type":"Identifier","name":"C"},"superClass":null,"body":{"type":"ClassBody","body":[{"type":"StaticBlock","body":[{"type":"VariableDeclaration","declarations":[{"type":"VariableDeclarator","id":{"type":"Identifier","name":"a"},"init":null}],"kind":"var"},{"type":"VariableDeclaration","declarations":[{"type":"VariableDeclarator","id":{"type":"Identifier","name":"a"},"init":null}],"kind":"let"}]}]}}],"sourceType":"script"}"#,
            arguments: NONE,
            line: "refused: BadTree RepeatedName at 10\n",
        },
        // eval(a);
        Case {
            text: r#"{"type":"Program","body":[{"type":"ExpressionStatement","expression":{"type":"CallExpression","callee":{"type":"Identifier","name":"eval"},"arguments":[{"type":"Identifier","name":"a"}],"optional":false}}],"sourceType":"script"}"#,
            arguments: NONE,
            line: "refused: Unsupported Eval at 2\n",
        },
    ]
}

/// Calls of `eval`.
fn evals() -> &'static [Case] {
    &[
        // (0, eval)(a);
        Case {
            text: r#"{"type":"Program","body":[{"type":"ExpressionStatement","expression":{"type":"CallExpression","callee":{"type":"SequenceExpression","expressions":[{"type":"Literal","value":0,"raw":"0"},{"type":"Identifier","name":"eval"}]},"arguments":[{"type":"Identifier","name":"a"}],"optional":false}}],"sourceType":"script"}"#,
            arguments: NONE,
            line: "",
        },
        // function f(eval) { eval(a); }
        Case {
            text: r#"{"type":"Program","body":[{"type":"FunctionDeclaration","id":{"type":"Identifier","name":"f"},"expression":false,"generator":false,"async":false,"params":[{"type":"Identifier","name":"eval"}],"body":{"type":"BlockStatement","body":[{"type":"ExpressionStatement","expression":{"type":"CallExpression","callee":{"type":"Identifier","name":"eval"},"arguments":[{"type":"Identifier","name":"a"}],"optional":false}}]}}],"sourceType":"script"}"#,
            arguments: NONE,
            line: "",
        },
        // function f() { eval(a); var eval; }
        Case {
            text: r#"{"type":"Program","body":[{"type":"FunctionDeclaration","id":{"type":"Identifier","name":"f"},"expression":false,"generator":false,"async":false,"params":[],"body":{"type":"BlockStatement","body":[{"type":"ExpressionStatement","expression":{"type":"CallExpression","callee":{"type":"Identifier","name":"eval"},"arguments":[{"type":"Identifier","name":"a"}],"optional":false}},{"type":"VariableDeclaration","declarations":[{"type":"VariableDeclarator","id":{"type":"Identifier","name":"eval"},"init":null}],"kind":"var"}]}}],"sourceType":"script"}"#,
            arguments: NONE,
            line: "",
        },
        // function f(a = eval(b)) { var eval; }
        Case {
            text: r#"{"type":"Program","body":[{"type":"FunctionDeclaration","id":{"type":"Identifier","name":"f"},"expression":false,"generator":false,"async":false,"params":[{"type":"AssignmentPattern","left":{"type":"Identifier","name":"a"},"right":{"type":"CallExpression","callee":{"type":"Identifier","name":"eval"},"arguments":[{"type":"Identifier","name":"b"}],"optional":false}}],"body":{"type":"BlockStatement","body":[{"type":"VariableDeclaration","declarations":[{"type":"VariableDeclarator","id":{"type":"Identifier","name":"eval"},"init":null}],"kind":"var"}]}}],"sourceType":"script"}"#,
            arguments: NONE,
            line: "refused: Unsupported Eval at 5\n",
        },
        // { let eval; } eval(a);
        Case {
            text: r#"{"type":"Program","body":[{"type":"BlockStatement","body":[{"type":"VariableDeclaration","declarations":[{"type":"VariableDeclarator","id":{"type":"Identifier","name":"eval"},"init":null}],"kind":"let"}]},{"type":"ExpressionStatement","expression":{"type":"CallExpression","callee":{"type":"Identifier","name":"eval"},"arguments":[{"type":"Identifier","name":"a"}],"optional":false}}],"sourceType":"script"}"#,
            arguments: NONE,
            line: "refused: Unsupported Eval at 6\n",
        },
        // { let eval; eval(a); }
        Case {
            text: r#"{"type":"Program","body":[{"type":"BlockStatement","body":[{"type":"VariableDeclaration","declarations":[{"type":"VariableDeclarator","id":{"type":"Identifier","name":"eval"},"init":null}],"kind":"let"},{"type":"ExpressionStatement","expression":{"type":"CallExpression","callee":{"type":"Identifier","name":"eval"},"arguments":[{"type":"Identifier","name":"a"}],"optional":false}}]}],"sourceType":"script"}"#,
            arguments: NONE,
            line: "",
        },
        // let a; var a; eval(b);
        Case {
            text: r#"{"type":"Program","body":[{"type":"VariableDeclaration","declarations":[{"type":"VariableDeclarator","id":{"type":"Identifier","name":"a"},"init":null}],"kind":"let"},{"type":"VariableDeclaration","declarations":[{"type":"VariableDeclarator","id":{"type":"Identifier","name":"a"},"init":null}],"kind":"var"},{"type":"ExpressionStatement","expression":{"type":"CallExpression","callee":{"type":"Identifier","name":"eval"},"arguments":[{"type":"Identifier","name":"b"}],"optional":false}}],"sourceType":"script"}"#,
            arguments: NONE,
            line: "refused: BadTree RepeatedName at 6\n",
        },
        // eval(b); let a; var a;
        Case {
            text: r#"{"type":"Program","body":[{"type":"ExpressionStatement","expression":{"type":"CallExpression","callee":{"type":"Identifier","name":"eval"},"arguments":[{"type":"Identifier","name":"b"}],"optional":false}},{"type":"VariableDeclaration","declarations":[{"type":"VariableDeclarator","id":{"type":"Identifier","name":"a"},"init":null}],"kind":"let"},{"type":"VariableDeclaration","declarations":[{"type":"VariableDeclarator","id":{"type":"Identifier","name":"a"},"init":null}],"kind":"var"}],"sourceType":"script"}"#,
            arguments: NONE,
            line: "refused: Unsupported Eval at 2\n",
        },
        // <a/>;
        Case {
            text: r#"{"type":"Program","sourceType":"script","body":[{"type":"ExpressionStatement","expression":{"type":"JSXElement"}}]}"#,
            arguments: NONE,
            line: "refused: Unsupported Foreign at 2\n",
        },
    ]
}

/// Foreign nodes, and what is not lowered yet.
fn left_to_come() -> &'static [Case] {
    &[
        // class C { @a x }
        Case {
            text: r#"{"type":"Program","body":[{"type":"ClassDeclaration","id":{"type":"Identifier","name":"C"},"superClass":null,"body":{"type":"ClassBody","body":[{"type":"PropertyDefinition","static":false,"computed":false,"key":{"type":"Identifier","name":"x"},"value":null,"decorators":[{"type":"Decorator","expression":{"type":"Identifier","name":"a"}}]}]}}],"sourceType":"script"}"#,
            arguments: LOWER,
            line: "refused: Unsupported Foreign at 4\n",
        },
        // class C extends D { x; }
        Case {
            text: r#"{"type":"Program","body":[{"type":"ClassDeclaration","id":{"type":"Identifier","name":"C"},"superClass":{"type":"Identifier","name":"D"},"body":{"type":"ClassBody","body":[{"type":"PropertyDefinition","static":false,"computed":false,"key":{"type":"Identifier","name":"x"},"value":null}]}}],"sourceType":"script"}"#,
            arguments: LOWER,
            line: "",
        },
        // class C extends D { #x; }
        Case {
            text: r#"{"type":"Program","body":[{"type":"ClassDeclaration","id":{"type":"Identifier","name":"C"},"superClass":{"type":"Identifier","name":"D"},"body":{"type":"ClassBody","body":[{"type":"PropertyDefinition","static":false,"computed":false,"key":{"type":"PrivateIdentifier","name":"x"},"value":null}]}}],"sourceType":"script"}"#,
            arguments: LOWER,
            line: "refused: NotYet at 6\n",
        },
        // class C extends D { #x; }
        Case {
            text: r#"{"type":"Program","body":[{"type":"ClassDeclaration","id":{"type":"Identifier","name":"C"},"superClass":{"type":"Identifier","name":"D"},"body":{"type":"ClassBody","body":[{"type":"PropertyDefinition","static":false,"computed":false,"key":{"type":"PrivateIdentifier","name":"x"},"value":null}]}}],"sourceType":"script"}"#,
            arguments: NONE,
            line: "",
        },
        // class C extends D {} a;
        Case {
            text: r#"{"type":"Program","body":[{"type":"ClassDeclaration","id":{"type":"Identifier","name":"C"},"superClass":{"type":"Identifier","name":"D"},"body":{"type":"ClassBody","body":[]}},{"type":"ExpressionStatement","expression":{"type":"Identifier","name":"a"}}],"sourceType":"script"}"#,
            arguments: LOWER,
            line: "",
        },
        // class C { x = 1; }
        Case {
            text: r#"{"type":"Program","body":[{"type":"ClassDeclaration","id":{"type":"Identifier","name":"C"},"superClass":null,"body":{"type":"ClassBody","body":[{"type":"PropertyDefinition","static":false,"computed":false,"key":{"type":"Identifier","name":"x"},"value":{"type":"Literal","value":1,"raw":"1"}}]}}],"sourceType":"script"}"#,
            arguments: LOWER,
            line: "",
        },
        // class C { x = 1; }
        Case {
            text: r#"{"type":"Program","body":[{"type":"ClassDeclaration","id":{"type":"Identifier","name":"C"},"superClass":null,"body":{"type":"ClassBody","body":[{"type":"PropertyDefinition","static":false,"computed":false,"key":{"type":"Identifier","name":"x"},"value":{"type":"Literal","value":1,"raw":"1"}}]}}],"sourceType":"module"}"#,
            arguments: LOWER,
            line: "",
        },
        // a; class C { x = 1; }
        Case {
            text: r#"{"type":"Program","body":[{"type":"ExpressionStatement","expression":{"type":"Identifier","name":"a"}},{"type":"ClassDeclaration","id":{"type":"Identifier","name":"C"},"superClass":null,"body":{"type":"ClassBody","body":[{"type":"PropertyDefinition","static":false,"computed":false,"key":{"type":"Identifier","name":"x"},"value":{"type":"Literal","value":1,"raw":"1"}}]}}],"sourceType":"script"}"#,
            arguments: LOWER,
            line: "",
        },
    ]
}

/// Private methods and `#x in o` where private members are kept as properties.
fn loose_privates() -> &'static [Case] {
    &[
        // class C { #m() {} }
        Case {
            text: r#"{"type":"Program","body":[{"type":"ClassDeclaration","id":{"type":"Identifier","name":"C"},"superClass":null,"body":{"type":"ClassBody","body":[{"type":"MethodDefinition","static":false,"computed":false,"key":{"type":"PrivateIdentifier","name":"m"},"kind":"method","value":{"type":"FunctionExpression","id":null,"expression":false,"generator":false,"async":false,"params":[],"body":{"type":"BlockStatement","body":[]}}}]}}],"sourceType":"script"}"#,
            arguments: LOOSE,
            line: "refused: Unsupported LooseMethod at 4\n",
        },
        // class C { #m() {} }
        Case {
            text: r#"{"type":"Program","body":[{"type":"ClassDeclaration","id":{"type":"Identifier","name":"C"},"superClass":null,"body":{"type":"ClassBody","body":[{"type":"MethodDefinition","static":false,"computed":false,"key":{"type":"PrivateIdentifier","name":"m"},"kind":"method","value":{"type":"FunctionExpression","id":null,"expression":false,"generator":false,"async":false,"params":[],"body":{"type":"BlockStatement","body":[]}}}]}}],"sourceType":"script"}"#,
            arguments: AS_PROPERTIES,
            line: "refused: Unsupported LooseMethod at 4\n",
        },
        // class C { #m() {} }
        Case {
            text: r#"{"type":"Program","body":[{"type":"ClassDeclaration","id":{"type":"Identifier","name":"C"},"superClass":null,"body":{"type":"ClassBody","body":[{"type":"MethodDefinition","static":false,"computed":false,"key":{"type":"PrivateIdentifier","name":"m"},"kind":"method","value":{"type":"FunctionExpression","id":null,"expression":false,"generator":false,"async":false,"params":[],"body":{"type":"BlockStatement","body":[]}}}]}}],"sourceType":"script"}"#,
            arguments: LOWER,
            line: "refused: NotYet at 5\n",
        },
        // class C { #m = 1; }
        Case {
            text: r#"{"type":"Program","body":[{"type":"ClassDeclaration","id":{"type":"Identifier","name":"C"},"superClass":null,"body":{"type":"ClassBody","body":[{"type":"PropertyDefinition","static":false,"computed":false,"key":{"type":"PrivateIdentifier","name":"m"},"value":{"type":"Literal","value":1,"raw":"1"}}]}}],"sourceType":"script"}"#,
            arguments: LOOSE,
            line: "refused: NotYet at 5\n",
        },
        // class C { m() {} }
        Case {
            text: r#"{"type":"Program","body":[{"type":"ClassDeclaration","id":{"type":"Identifier","name":"C"},"superClass":null,"body":{"type":"ClassBody","body":[{"type":"MethodDefinition","static":false,"computed":false,"key":{"type":"Identifier","name":"m"},"kind":"method","value":{"type":"FunctionExpression","id":null,"expression":false,"generator":false,"async":false,"params":[],"body":{"type":"BlockStatement","body":[]}}}]}}],"sourceType":"script"}"#,
            arguments: LOOSE,
            line: "",
        },
        // class C { #x; h(o) { return #x in o; } }
        Case {
            text: r#"{"type":"Program","body":[{"type":"ClassDeclaration","id":{"type":"Identifier","name":"C"},"superClass":null,"body":{"type":"ClassBody","body":[{"type":"PropertyDefinition","static":false,"computed":false,"key":{"type":"PrivateIdentifier","name":"x"},"value":null},{"type":"MethodDefinition","static":false,"computed":false,"key":{"type":"Identifier","name":"h"},"kind":"method","value":{"type":"FunctionExpression","id":null,"expression":false,"generator":false,"async":false,"params":[{"type":"Identifier","name":"o"}],"body":{"type":"BlockStatement","body":[{"type":"ReturnStatement","argument":{"type":"BinaryExpression","left":{"type":"PrivateIdentifier","name":"x"},"operator":"in","right":{"type":"Identifier","name":"o"}}}]}}}]}}],"sourceType":"script"}"#,
            arguments: LOOSE,
            line: "refused: Unsupported LooseIn at 12\n",
        },
        // class C { #x; h(o) { return #x in o; } }
        Case {
            text: r#"{"type":"Program","body":[{"type":"ClassDeclaration","id":{"type":"Identifier","name":"C"},"superClass":null,"body":{"type":"ClassBody","body":[{"type":"PropertyDefinition","static":false,"computed":false,"key":{"type":"PrivateIdentifier","name":"x"},"value":null},{"type":"MethodDefinition","static":false,"computed":false,"key":{"type":"Identifier","name":"h"},"kind":"method","value":{"type":"FunctionExpression","id":null,"expression":false,"generator":false,"async":false,"params":[{"type":"Identifier","name":"o"}],"body":{"type":"BlockStatement","body":[{"type":"ReturnStatement","argument":{"type":"BinaryExpression","left":{"type":"PrivateIdentifier","name":"x"},"operator":"in","right":{"type":"Identifier","name":"o"}}}]}}}]}}],"sourceType":"script"}"#,
            arguments: AS_PROPERTIES,
            line: "refused: Unsupported LooseIn at 12\n",
        },
        // class C { #x; h(o) { return #x in o; } }
        Case {
            text: r#"{"type":"Program","body":[{"type":"ClassDeclaration","id":{"type":"Identifier","name":"C"},"superClass":null,"body":{"type":"ClassBody","body":[{"type":"PropertyDefinition","static":false,"computed":false,"key":{"type":"PrivateIdentifier","name":"x"},"value":null},{"type":"MethodDefinition","static":false,"computed":false,"key":{"type":"Identifier","name":"h"},"kind":"method","value":{"type":"FunctionExpression","id":null,"expression":false,"generator":false,"async":false,"params":[{"type":"Identifier","name":"o"}],"body":{"type":"BlockStatement","body":[{"type":"ReturnStatement","argument":{"type":"BinaryExpression","left":{"type":"PrivateIdentifier","name":"x"},"operator":"in","right":{"type":"Identifier","name":"o"}}}]}}}]}}],"sourceType":"script"}"#,
            arguments: LOWER,
            line: "refused: NotYet at 5\n",
        },
        // class C { h(o) { return x in o; } }
        Case {
            text: r#"{"type":"Program","body":[{"type":"ClassDeclaration","id":{"type":"Identifier","name":"C"},"superClass":null,"body":{"type":"ClassBody","body":[{"type":"MethodDefinition","static":false,"computed":false,"key":{"type":"Identifier","name":"h"},"kind":"method","value":{"type":"FunctionExpression","id":null,"expression":false,"generator":false,"async":false,"params":[{"type":"Identifier","name":"o"}],"body":{"type":"BlockStatement","body":[{"type":"ReturnStatement","argument":{"type":"BinaryExpression","left":{"type":"Identifier","name":"x"},"operator":"in","right":{"type":"Identifier","name":"o"}}}]}}}]}}],"sourceType":"script"}"#,
            arguments: LOOSE,
            line: "",
        },
        // class C { h(o) { return x in o; } #x; }
        Case {
            text: r#"{"type":"Program","body":[{"type":"ClassDeclaration","id":{"type":"Identifier","name":"C"},"superClass":null,"body":{"type":"ClassBody","body":[{"type":"MethodDefinition","static":false,"computed":false,"key":{"type":"Identifier","name":"h"},"kind":"method","value":{"type":"FunctionExpression","id":null,"expression":false,"generator":false,"async":false,"params":[{"type":"Identifier","name":"o"}],"body":{"type":"BlockStatement","body":[{"type":"ReturnStatement","argument":{"type":"BinaryExpression","left":{"type":"Identifier","name":"x"},"operator":"in","right":{"type":"Identifier","name":"o"}}}]}}},{"type":"PropertyDefinition","static":false,"computed":false,"key":{"type":"PrivateIdentifier","name":"x"},"value":null}]}}],"sourceType":"script"}"#,
            arguments: LOOSE,
            line: "refused: NotYet at 14\n",
        },
    ]
}

/// Members of `super` in static blocks.
fn supers_in_blocks() -> &'static [Case] {
    &[
        // class C extends P { static { [super.x] = y; } }
        Case {
            text: r#"{"type":"Program","body":[{"type":"ClassDeclaration","id":{"type":"Identifier","name":"C"},"superClass":{"type":"Identifier","name":"P"},"body":{"type":"ClassBody","body":[{"type":"StaticBlock","body":[{"type":"ExpressionStatement","expression":{"type":"AssignmentExpression","operator":"=","left":{"type":"ArrayPattern","elements":[{"type":"MemberExpression","object":{"type":"Super"},"property":{"type":"Identifier","name":"x"},"computed":false,"optional":false}]},"right":{"type":"Identifier","name":"y"}}}]}]}}],"sourceType":"script"}"#,
            arguments: BLOCKS,
            line: "refused: Unsupported SuperForm at 9\n",
        },
        // class C extends P { static { [super.x] = y; } }
        Case {
            text: r#"{"type":"Program","body":[{"type":"ClassDeclaration","id":{"type":"Identifier","name":"C"},"superClass":{"type":"Identifier","name":"P"},"body":{"type":"ClassBody","body":[{"type":"StaticBlock","body":[{"type":"ExpressionStatement","expression":{"type":"AssignmentExpression","operator":"=","left":{"type":"ArrayPattern","elements":[{"type":"MemberExpression","object":{"type":"Super"},"property":{"type":"Identifier","name":"x"},"computed":false,"optional":false}]},"right":{"type":"Identifier","name":"y"}}}]}]}}],"sourceType":"script"}"#,
            arguments: LOWER,
            line: "",
        },
        // class C extends P { static { [super.x] = y; } }
        Case {
            text: r#"{"type":"Program","body":[{"type":"ClassDeclaration","id":{"type":"Identifier","name":"C"},"superClass":{"type":"Identifier","name":"P"},"body":{"type":"ClassBody","body":[{"type":"StaticBlock","body":[{"type":"ExpressionStatement","expression":{"type":"AssignmentExpression","operator":"=","left":{"type":"ArrayPattern","elements":[{"type":"MemberExpression","object":{"type":"Super"},"property":{"type":"Identifier","name":"x"},"computed":false,"optional":false}]},"right":{"type":"Identifier","name":"y"}}}]}]}}],"sourceType":"script"}"#,
            arguments: BLOCKS_ALONE,
            line: "refused: NotYet at 5\n",
        },
        // class C extends P { static { y = super.x; } }
        Case {
            text: r#"{"type":"Program","body":[{"type":"ClassDeclaration","id":{"type":"Identifier","name":"C"},"superClass":{"type":"Identifier","name":"P"},"body":{"type":"ClassBody","body":[{"type":"StaticBlock","body":[{"type":"ExpressionStatement","expression":{"type":"AssignmentExpression","operator":"=","left":{"type":"Identifier","name":"y"},"right":{"type":"MemberExpression","object":{"type":"Super"},"property":{"type":"Identifier","name":"x"},"computed":false,"optional":false}}}]}]}}],"sourceType":"script"}"#,
            arguments: BLOCKS,
            line: "",
        },
        // class C extends P { static { y = super.x; } }
        Case {
            text: r#"{"type":"Program","body":[{"type":"ClassDeclaration","id":{"type":"Identifier","name":"C"},"superClass":{"type":"Identifier","name":"P"},"body":{"type":"ClassBody","body":[{"type":"StaticBlock","body":[{"type":"ExpressionStatement","expression":{"type":"AssignmentExpression","operator":"=","left":{"type":"Identifier","name":"y"},"right":{"type":"MemberExpression","object":{"type":"Super"},"property":{"type":"Identifier","name":"x"},"computed":false,"optional":false}}}]}]}}],"sourceType":"script"}"#,
            arguments: LOWER,
            line: "",
        },
    ]
}

#[test]
fn each_rule(rt: HostRuntime) -> Result<(), Fail> {
    let alloc = rt.alloc();
    for cases in [
        constructors(),
        supers_and_deletes(),
        jumps(),
        arguments_and_suspensions(),
        forms(),
        private_names(),
        names_left_out(),
        supers_left_out(),
        loose_privates(),
        supers_in_blocks(),
        first_faults(),
        repeated_names(),
        repeated_names_in_scopes(),
        evals(),
        left_to_come(),
    ] {
        for case in cases {
            if case.line.is_empty() {
                assert!(rt;
                    status_of(alloc, case.arguments, case.text)? == 0,
                    "of {}",
                    case.text
                );
            } else {
                assert!(rt;
                    ends_so(alloc, case.arguments, case.text, 1, case.line)?,
                    "of {}",
                    case.text
                );
            }
        }
    }
    Ok(())
}
