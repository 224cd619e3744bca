// Programs as JSON text, as a parser of ESTree gives them, and what is written of them, written out by hand: the new
// nodes have the numbers from that of the nodes of the source on, in preorder.

/// The script without statements.
pub fn empty() -> &'static str {
    r#"{"type":"Program","sourceType":"script","body":[]}"#
}

/// The same script with many members that are dropped, in falling order of their keys, with a `type` that gives way to a
/// later one, and with escapes.
pub fn empty_of_many_members() -> &'static str {
    r#"{"z9":9,"z8":8,"z7":7,"z6":6,"z5":5,"z4":4,"z3":3,"z2":2,"z1":1,"z0":0,"type":"None","y9":null,"y8":null,"y7":null,"y6":null,"y5":null,"y4":null,"y3":null,"y2":null,"y1":null,"y0":null,"t\u0079pe":"Pro\u0067ram","sourceType":"script","body":[]}"#
}

pub fn empty_written() -> &'static str {
    r#"{"body":[],"generated":[],"node":0,"outside":[],"sourceType":"script","type":"Program","warnings":[]}
"#
}

/// `class C {}`.
pub fn no_field() -> &'static str {
    r#"{"type":"Program","body":[{"type":"ClassDeclaration","id":{"type":"Identifier","name":"C"},"superClass":null,"body":{"type":"ClassBody","body":[]}}],"sourceType":"script"}"#
}

pub fn no_field_written() -> &'static str {
    r#"{"body":[{"body":{"body":[],"node":3,"type":"ClassBody"},"id":{"name":"C","node":2,"type":"Identifier"},"node":1,"superClass":null,"type":"ClassDeclaration"}],"generated":[],"node":0,"outside":[],"sourceType":"script","type":"Program","warnings":[]}
"#
}

/// The same, but that the class's name has the number of its body.
pub fn no_field_misnumbered() -> &'static str {
    r#"{"body":[{"body":{"body":[],"node":3,"type":"ClassBody"},"id":{"name":"C","node":3,"type":"Identifier"},"node":1,"superClass":null,"type":"ClassDeclaration"}],"generated":[],"node":0,"outside":[],"sourceType":"script","type":"Program","warnings":[]}
"#
}

/// `export class D extends C {}`.
pub fn derived() -> &'static str {
    r#"{"type":"Program","body":[{"type":"ExportNamedDeclaration","declaration":{"type":"ClassDeclaration","id":{"type":"Identifier","name":"D"},"superClass":{"type":"Identifier","name":"C"},"body":{"type":"ClassBody","body":[]}},"specifiers":[],"source":null}],"sourceType":"module"}"#
}

pub fn derived_written() -> &'static str {
    r#"{"body":[{"declaration":{"body":{"body":[],"node":5,"type":"ClassBody"},"id":{"name":"D","node":3,"type":"Identifier"},"node":2,"superClass":{"name":"C","node":4,"type":"Identifier"},"type":"ClassDeclaration"},"node":1,"source":null,"specifiers":[],"type":"ExportNamedDeclaration"}],"generated":[],"node":0,"outside":[],"sourceType":"module","type":"Program","warnings":[]}
"#
}

/// `class C { x = 1 }`.
pub fn one_field() -> &'static str {
    r#"{"type":"Program","body":[{"type":"ClassDeclaration","id":{"type":"Identifier","name":"C"},"superClass":null,"body":{"type":"ClassBody","body":[{"type":"PropertyDefinition","static":false,"computed":false,"key":{"type":"Identifier","name":"x"},"value":{"type":"Literal","value":1,"raw":"1"}}]}}],"sourceType":"script"}"#
}

/// The same class, with the numbers of its nodes.
pub fn one_field_kept() -> &'static str {
    r#"{"body":[{"body":{"body":[{"computed":false,"key":{"name":"x","node":5,"type":"Identifier"},"node":4,"static":false,"type":"PropertyDefinition","value":{"node":6,"raw":"1","type":"Literal","value":null}}],"node":3,"type":"ClassBody"},"id":{"name":"C","node":2,"type":"Identifier"},"node":1,"superClass":null,"type":"ClassDeclaration"}],"generated":[],"node":0,"outside":[],"sourceType":"script","type":"Program","warnings":[]}
"#
}

/// `class C { constructor() { babelHelpers.defineProperty(this, "x", 1); } }`, of 1010 bytes.
pub fn one_field_lowered() -> &'static str {
    r#"{"body":[{"body":{"body":[{"computed":false,"key":{"name":"constructor","node":8,"type":"Identifier"},"kind":"constructor","node":7,"static":false,"type":"MethodDefinition","value":{"async":false,"body":{"body":[{"expression":{"arguments":[{"node":16,"type":"ThisExpression"},{"node":17,"type":"Literal","value":"x"},{"node":6,"raw":"1","type":"Literal","value":null}],"callee":{"computed":false,"node":13,"object":{"name":"babelHelpers","node":14,"type":"Identifier"},"optional":false,"property":{"name":"defineProperty","node":15,"type":"Identifier"},"type":"MemberExpression"},"node":12,"optional":false,"type":"CallExpression"},"node":11,"type":"ExpressionStatement"}],"node":10,"type":"BlockStatement"},"generator":false,"id":null,"node":9,"params":[],"type":"FunctionExpression"}}],"node":3,"type":"ClassBody"},"id":{"name":"C","node":2,"type":"Identifier"},"node":1,"superClass":null,"type":"ClassDeclaration"}],"generated":[],"node":0,"outside":[],"sourceType":"script","type":"Program","warnings":[]}
"#
}

/// `class C { constructor() { this.x = 1; } }`.
pub fn one_field_set() -> &'static str {
    r#"{"body":[{"body":{"body":[{"computed":false,"key":{"name":"constructor","node":8,"type":"Identifier"},"kind":"constructor","node":7,"static":false,"type":"MethodDefinition","value":{"async":false,"body":{"body":[{"expression":{"left":{"computed":false,"node":13,"object":{"node":14,"type":"ThisExpression"},"optional":false,"property":{"name":"x","node":15,"type":"Identifier"},"type":"MemberExpression"},"node":12,"operator":"=","right":{"node":6,"raw":"1","type":"Literal","value":null},"type":"AssignmentExpression"},"node":11,"type":"ExpressionStatement"}],"node":10,"type":"BlockStatement"},"generator":false,"id":null,"node":9,"params":[],"type":"FunctionExpression"}}],"node":3,"type":"ClassBody"},"id":{"name":"C","node":2,"type":"Identifier"},"node":1,"superClass":null,"type":"ClassDeclaration"}],"generated":[],"node":0,"outside":[],"sourceType":"script","type":"Program","warnings":[]}
"#
}

/// `class C { x; y = z }`.
pub fn two_fields() -> &'static str {
    r#"{"type":"Program","body":[{"type":"ClassDeclaration","id":{"type":"Identifier","name":"C"},"superClass":null,"body":{"type":"ClassBody","body":[{"type":"PropertyDefinition","static":false,"computed":false,"key":{"type":"Identifier","name":"x"},"value":null},{"type":"PropertyDefinition","static":false,"computed":false,"key":{"type":"Identifier","name":"y"},"value":{"type":"Identifier","name":"z"}}]}}],"sourceType":"script"}"#
}

/// `class C { constructor() { babelHelpers.defineProperty(this, "x", void 0); .. this, "y", z); } }`.
pub fn two_fields_lowered() -> &'static str {
    r#"{"body":[{"body":{"body":[{"computed":false,"key":{"name":"constructor","node":10,"type":"Identifier"},"kind":"constructor","node":9,"static":false,"type":"MethodDefinition","value":{"async":false,"body":{"body":[{"expression":{"arguments":[{"node":18,"type":"ThisExpression"},{"node":19,"type":"Literal","value":"x"},{"argument":{"node":21,"raw":"0","type":"Literal","value":null},"node":20,"operator":"void","prefix":true,"type":"UnaryExpression"}],"callee":{"computed":false,"node":15,"object":{"name":"babelHelpers","node":16,"type":"Identifier"},"optional":false,"property":{"name":"defineProperty","node":17,"type":"Identifier"},"type":"MemberExpression"},"node":14,"optional":false,"type":"CallExpression"},"node":13,"type":"ExpressionStatement"},{"expression":{"arguments":[{"node":27,"type":"ThisExpression"},{"node":28,"type":"Literal","value":"y"},{"name":"z","node":8,"type":"Identifier"}],"callee":{"computed":false,"node":24,"object":{"name":"babelHelpers","node":25,"type":"Identifier"},"optional":false,"property":{"name":"defineProperty","node":26,"type":"Identifier"},"type":"MemberExpression"},"node":23,"optional":false,"type":"CallExpression"},"node":22,"type":"ExpressionStatement"}],"node":12,"type":"BlockStatement"},"generator":false,"id":null,"node":11,"params":[],"type":"FunctionExpression"}}],"node":3,"type":"ClassBody"},"id":{"name":"C","node":2,"type":"Identifier"},"node":1,"superClass":null,"type":"ClassDeclaration"}],"generated":[],"node":0,"outside":[],"sourceType":"script","type":"Program","warnings":[]}
"#
}

/// `class C { x = 1 } class D { y = 'a' }`, with its places.
pub fn two_classes() -> &'static str {
    r#"{"type":"Program","start":0,"end":37,"body":[{"type":"ClassDeclaration","start":0,"end":17,"id":{"type":"Identifier","start":6,"end":7,"name":"C"},"superClass":null,"body":{"type":"ClassBody","start":8,"end":17,"body":[{"type":"PropertyDefinition","start":10,"end":15,"static":false,"computed":false,"key":{"type":"Identifier","start":10,"end":11,"name":"x"},"value":{"type":"Literal","start":14,"end":15,"value":1,"raw":"1"}}]}},{"type":"ClassDeclaration","start":18,"end":37,"id":{"type":"Identifier","start":24,"end":25,"name":"D"},"superClass":null,"body":{"type":"ClassBody","start":26,"end":37,"body":[{"type":"PropertyDefinition","start":28,"end":35,"static":false,"computed":false,"key":{"type":"Identifier","start":28,"end":29,"name":"y"},"value":{"type":"Literal","start":32,"end":35,"value":"a","raw":"'a'"}}]}}],"sourceType":"script"}"#
}

/// Each class with its constructor; the new nodes have no place in the source.
pub fn two_classes_lowered() -> &'static str {
    r#"{"body":[{"body":{"body":[{"computed":false,"key":{"name":"constructor","node":14,"type":"Identifier"},"kind":"constructor","node":13,"static":false,"type":"MethodDefinition","value":{"async":false,"body":{"body":[{"expression":{"arguments":[{"node":22,"type":"ThisExpression"},{"node":23,"type":"Literal","value":"x"},{"end":15,"node":6,"raw":"1","start":14,"type":"Literal","value":null}],"callee":{"computed":false,"node":19,"object":{"name":"babelHelpers","node":20,"type":"Identifier"},"optional":false,"property":{"name":"defineProperty","node":21,"type":"Identifier"},"type":"MemberExpression"},"node":18,"optional":false,"type":"CallExpression"},"node":17,"type":"ExpressionStatement"}],"node":16,"type":"BlockStatement"},"generator":false,"id":null,"node":15,"params":[],"type":"FunctionExpression"}}],"end":17,"node":3,"start":8,"type":"ClassBody"},"end":17,"id":{"end":7,"name":"C","node":2,"start":6,"type":"Identifier"},"node":1,"start":0,"superClass":null,"type":"ClassDeclaration"},{"body":{"body":[{"computed":false,"key":{"name":"constructor","node":25,"type":"Identifier"},"kind":"constructor","node":24,"static":false,"type":"MethodDefinition","value":{"async":false,"body":{"body":[{"expression":{"arguments":[{"node":33,"type":"ThisExpression"},{"node":34,"type":"Literal","value":"y"},{"end":35,"node":12,"raw":"'a'","start":32,"type":"Literal","value":"a"}],"callee":{"computed":false,"node":30,"object":{"name":"babelHelpers","node":31,"type":"Identifier"},"optional":false,"property":{"name":"defineProperty","node":32,"type":"Identifier"},"type":"MemberExpression"},"node":29,"optional":false,"type":"CallExpression"},"node":28,"type":"ExpressionStatement"}],"node":27,"type":"BlockStatement"},"generator":false,"id":null,"node":26,"params":[],"type":"FunctionExpression"}}],"end":37,"node":9,"start":26,"type":"ClassBody"},"end":37,"id":{"end":25,"name":"D","node":8,"start":24,"type":"Identifier"},"node":7,"start":18,"superClass":null,"type":"ClassDeclaration"}],"end":37,"generated":[],"node":0,"outside":[],"sourceType":"script","start":0,"type":"Program","warnings":[]}
"#
}

/// The module `await a; for await (const x of y) {}`.
pub fn awaits() -> &'static str {
    r#"{"type":"Program","body":[{"type":"ExpressionStatement","expression":{"type":"AwaitExpression","argument":{"type":"Identifier","name":"a"}}},{"type":"ForOfStatement","await":true,"left":{"type":"VariableDeclaration","declarations":[{"type":"VariableDeclarator","id":{"type":"Identifier","name":"x"},"init":null}],"kind":"const"},"right":{"type":"Identifier","name":"y"},"body":{"type":"BlockStatement","body":[]}}],"sourceType":"module"}"#
}

pub fn awaits_written() -> &'static str {
    r#"{"body":[{"expression":{"argument":{"name":"a","node":3,"type":"Identifier"},"node":2,"type":"AwaitExpression"},"node":1,"type":"ExpressionStatement"},{"await":true,"body":{"body":[],"node":9,"type":"BlockStatement"},"left":{"declarations":[{"id":{"name":"x","node":7,"type":"Identifier"},"init":null,"node":6,"type":"VariableDeclarator"}],"kind":"const","node":5,"type":"VariableDeclaration"},"node":4,"right":{"name":"y","node":8,"type":"Identifier"},"type":"ForOfStatement"}],"generated":[],"node":0,"outside":[],"sourceType":"module","type":"Program","warnings":[]}
"#
}

/// The first await alone is warned of: the loop is no await expression.
pub fn awaits_warned() -> &'static str {
    r#"{"body":[{"expression":{"argument":{"name":"a","node":3,"type":"Identifier"},"node":2,"type":"AwaitExpression"},"node":1,"type":"ExpressionStatement"},{"await":true,"body":{"body":[],"node":9,"type":"BlockStatement"},"left":{"declarations":[{"id":{"name":"x","node":7,"type":"Identifier"},"init":null,"node":6,"type":"VariableDeclarator"}],"kind":"const","node":5,"type":"VariableDeclaration"},"node":4,"right":{"name":"y","node":8,"type":"Identifier"},"type":"ForOfStatement"}],"generated":[],"node":0,"outside":[],"sourceType":"module","type":"Program","warnings":[{"message":"Top-level await is not available in the configured target environment.","node":2}]}
"#
}

/// The module `await a; [async () => await b, await c];`, of whose awaits two have places in the source.
pub fn two_awaits() -> &'static str {
    r#"{"type":"Program","body":[{"type":"ExpressionStatement","expression":{"type":"AwaitExpression","start":0,"end":7,"argument":{"type":"Identifier","name":"a"}}},{"type":"ExpressionStatement","expression":{"type":"ArrayExpression","elements":[{"type":"ArrowFunctionExpression","id":null,"expression":true,"generator":false,"async":true,"params":[],"body":{"type":"AwaitExpression","argument":{"type":"Identifier","name":"b"}}},{"type":"AwaitExpression","start":29,"end":36,"argument":{"type":"Identifier","name":"c"}}]}}],"sourceType":"module"}"#
}

/// That of the arrow is not warned of.
pub fn two_awaits_warned() -> &'static str {
    r#"{"body":[{"expression":{"argument":{"name":"a","node":3,"type":"Identifier"},"end":7,"node":2,"start":0,"type":"AwaitExpression"},"node":1,"type":"ExpressionStatement"},{"expression":{"elements":[{"async":true,"body":{"argument":{"name":"b","node":8,"type":"Identifier"},"node":7,"type":"AwaitExpression"},"expression":true,"node":6,"params":[],"type":"ArrowFunctionExpression"},{"argument":{"name":"c","node":10,"type":"Identifier"},"end":36,"node":9,"start":29,"type":"AwaitExpression"}],"node":5,"type":"ArrayExpression"},"node":4,"type":"ExpressionStatement"}],"generated":[],"node":0,"outside":[],"sourceType":"module","type":"Program","warnings":[{"end":7,"message":"Top-level await is not available in the configured target environment.","node":2,"start":0},{"end":36,"message":"Top-level await is not available in the configured target environment.","node":9,"start":29}]}
"#
}
