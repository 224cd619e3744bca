// Programs as JSON text, as a parser of ESTree gives them, and what they may be lowered to, rightly and wrongly.

/// `class C { static x = C }`.
pub fn own_name() -> &'static str {
    r#"{"body":[{"body":{"body":[{"computed":false,"key":{"name":"x","type":"Identifier"},"static":true,"type":"PropertyDefinition","value":{"name":"C","type":"Identifier"}}],"type":"ClassBody"},"id":{"name":"C","type":"Identifier"},"superClass":null,"type":"ClassDeclaration"}],"sourceType":"script","type":"Program"}"#
}

/// `var _C; class C {} _C = C; babelHelpers.defineProperty(C, "x", _C);`.
pub fn own_name_lowered() -> &'static str {
    r#"{"body":[{"declarations":[{"id":{"name":"_C","node":9,"type":"Identifier"},"init":null,"node":8,"type":"VariableDeclarator"}],"kind":"var","node":7,"type":"VariableDeclaration"},{"body":{"body":[],"node":3,"type":"ClassBody"},"id":{"name":"C","node":2,"type":"Identifier"},"node":1,"superClass":null,"type":"ClassDeclaration"},{"expression":{"left":{"name":"_C","node":12,"type":"Identifier"},"node":11,"operator":"=","right":{"name":"C","node":13,"type":"Identifier"},"type":"AssignmentExpression"},"node":10,"type":"ExpressionStatement"},{"expression":{"arguments":[{"name":"C","node":19,"type":"Identifier"},{"node":20,"type":"Literal","value":"x"},{"name":"_C","node":6,"type":"Identifier"}],"callee":{"computed":false,"node":16,"object":{"name":"babelHelpers","node":17,"type":"Identifier"},"optional":false,"property":{"name":"defineProperty","node":18,"type":"Identifier"},"type":"MemberExpression"},"node":15,"optional":false,"type":"CallExpression"},"node":14,"type":"ExpressionStatement"}],"generated":[{"class":1,"kind":"class","name":"_C"}],"node":0,"outside":[],"sourceType":"script","type":"Program","warnings":[]}
"#
}

/// The source as it is.
pub fn own_name_kept() -> &'static str {
    r#"{"body":[{"body":{"body":[{"computed":false,"key":{"name":"x","node":5,"type":"Identifier"},"node":4,"static":true,"type":"PropertyDefinition","value":{"name":"C","node":6,"type":"Identifier"}}],"node":3,"type":"ClassBody"},"id":{"name":"C","node":2,"type":"Identifier"},"node":1,"superClass":null,"type":"ClassDeclaration"}],"node":0,"sourceType":"script","type":"Program","generated":[]}"#
}

/// The field is dropped.
pub fn own_name_dropped() -> &'static str {
    r#"{"body":[{"declarations":[{"id":{"name":"_C","node":9,"type":"Identifier"},"init":null,"node":8,"type":"VariableDeclarator"}],"kind":"var","node":7,"type":"VariableDeclaration"},{"body":{"body":[],"node":3,"type":"ClassBody"},"id":{"name":"C","node":2,"type":"Identifier"},"node":1,"superClass":null,"type":"ClassDeclaration"},{"expression":{"left":{"name":"_C","node":12,"type":"Identifier"},"node":11,"operator":"=","right":{"name":"C","node":13,"type":"Identifier"},"type":"AssignmentExpression"},"node":10,"type":"ExpressionStatement"}],"generated":[{"class":1,"kind":"class","name":"_C"}],"node":0,"outside":[],"sourceType":"script","type":"Program","warnings":[]}"#
}

/// The field is defined in front of the write to the temporary.
pub fn own_name_exchanged() -> &'static str {
    r#"{"body":[{"declarations":[{"id":{"name":"_C","node":9,"type":"Identifier"},"init":null,"node":8,"type":"VariableDeclarator"}],"kind":"var","node":7,"type":"VariableDeclaration"},{"body":{"body":[],"node":3,"type":"ClassBody"},"id":{"name":"C","node":2,"type":"Identifier"},"node":1,"superClass":null,"type":"ClassDeclaration"},{"expression":{"arguments":[{"name":"C","node":15,"type":"Identifier"},{"node":16,"type":"Literal","value":"x"},{"name":"_C","node":6,"type":"Identifier"}],"callee":{"computed":false,"node":12,"object":{"name":"babelHelpers","node":13,"type":"Identifier"},"optional":false,"property":{"name":"defineProperty","node":14,"type":"Identifier"},"type":"MemberExpression"},"node":11,"optional":false,"type":"CallExpression"},"node":10,"type":"ExpressionStatement"},{"expression":{"left":{"name":"_C","node":19,"type":"Identifier"},"node":18,"operator":"=","right":{"name":"C","node":20,"type":"Identifier"},"type":"AssignmentExpression"},"node":17,"type":"ExpressionStatement"}],"generated":[{"class":1,"kind":"class","name":"_C"}],"node":0,"outside":[],"sourceType":"script","type":"Program","warnings":[]}"#
}

/// The temporary has no declaration.
pub fn own_name_undeclared() -> &'static str {
    r#"{"body":[{"body":{"body":[],"node":3,"type":"ClassBody"},"id":{"name":"C","node":2,"type":"Identifier"},"node":1,"superClass":null,"type":"ClassDeclaration"},{"expression":{"left":{"name":"_C","node":9,"type":"Identifier"},"node":8,"operator":"=","right":{"name":"C","node":10,"type":"Identifier"},"type":"AssignmentExpression"},"node":7,"type":"ExpressionStatement"},{"expression":{"arguments":[{"name":"C","node":16,"type":"Identifier"},{"node":17,"type":"Literal","value":"x"},{"name":"_C","node":6,"type":"Identifier"}],"callee":{"computed":false,"node":13,"object":{"name":"babelHelpers","node":14,"type":"Identifier"},"optional":false,"property":{"name":"defineProperty","node":15,"type":"Identifier"},"type":"MemberExpression"},"node":12,"optional":false,"type":"CallExpression"},"node":11,"type":"ExpressionStatement"}],"generated":[{"class":1,"kind":"class","name":"_C"}],"node":0,"outside":[],"sourceType":"script","type":"Program","warnings":[]}"#
}

/// `class C { static x = _C }`, where nothing declares `_C`.
pub fn other_name() -> &'static str {
    r#"{"body":[{"body":{"body":[{"computed":false,"key":{"name":"x","type":"Identifier"},"static":true,"type":"PropertyDefinition","value":{"name":"_C","type":"Identifier"}}],"type":"ClassBody"},"id":{"name":"C","type":"Identifier"},"superClass":null,"type":"ClassDeclaration"}],"sourceType":"script","type":"Program"}"#
}

/// `class C {} babelHelpers.defineProperty(C, "x", _C);`.
pub fn other_name_lowered() -> &'static str {
    r#"{"body":[{"body":{"body":[],"node":3,"type":"ClassBody"},"id":{"name":"C","node":2,"type":"Identifier"},"node":1,"superClass":null,"type":"ClassDeclaration"},{"expression":{"arguments":[{"name":"C","node":12,"type":"Identifier"},{"node":13,"type":"Literal","value":"x"},{"name":"_C","node":6,"type":"Identifier"}],"callee":{"computed":false,"node":9,"object":{"name":"babelHelpers","node":10,"type":"Identifier"},"optional":false,"property":{"name":"defineProperty","node":11,"type":"Identifier"},"type":"MemberExpression"},"node":8,"optional":false,"type":"CallExpression"},"node":7,"type":"ExpressionStatement"}],"generated":[],"node":0,"outside":[],"sourceType":"script","type":"Program","warnings":[]}
"#
}

/// A temporary is declared that the name then means.
pub fn other_name_captured() -> &'static str {
    r#"{"body":[{"declarations":[{"id":{"name":"_C","node":9,"type":"Identifier"},"init":null,"node":8,"type":"VariableDeclarator"}],"kind":"var","node":7,"type":"VariableDeclaration"},{"body":{"body":[],"node":3,"type":"ClassBody"},"id":{"name":"C","node":2,"type":"Identifier"},"node":1,"superClass":null,"type":"ClassDeclaration"},{"expression":{"arguments":[{"name":"C","node":15,"type":"Identifier"},{"node":16,"type":"Literal","value":"x"},{"name":"_C","node":6,"type":"Identifier"}],"callee":{"computed":false,"node":12,"object":{"name":"babelHelpers","node":13,"type":"Identifier"},"optional":false,"property":{"name":"defineProperty","node":14,"type":"Identifier"},"type":"MemberExpression"},"node":11,"optional":false,"type":"CallExpression"},"node":10,"type":"ExpressionStatement"}],"generated":[{"kind":"temp","name":"_C"}],"node":0,"outside":[],"sourceType":"script","type":"Program","warnings":[]}"#
}

/// `let D = class extends p() { static { a(); } };`, whose heritage may come behind the block: a shape.
pub fn heritage() -> &'static str {
    r#"{"body":[{"declarations":[{"id":{"name":"D","type":"Identifier"},"init":{"body":{"body":[{"body":[{"expression":{"arguments":[],"callee":{"name":"a","type":"Identifier"},"optional":false,"type":"CallExpression"},"type":"ExpressionStatement"}],"type":"StaticBlock"}],"type":"ClassBody"},"id":null,"superClass":{"arguments":[],"callee":{"name":"p","type":"Identifier"},"optional":false,"type":"CallExpression"},"type":"ClassExpression"},"type":"VariableDeclarator"}],"kind":"let","type":"VariableDeclaration"}],"sourceType":"script","type":"Program"}"#
}

/// `let D = (a(), class extends p() {});`.
pub fn heritage_lowered() -> &'static str {
    r#"{"body":[{"declarations":[{"id":{"name":"D","node":3,"type":"Identifier"},"init":{"expressions":[{"arguments":[],"callee":{"name":"a","node":11,"type":"Identifier"},"node":10,"optional":false,"type":"CallExpression"},{"body":{"body":[],"node":7,"type":"ClassBody"},"id":null,"node":4,"superClass":{"arguments":[],"callee":{"name":"p","node":6,"type":"Identifier"},"node":5,"optional":false,"type":"CallExpression"},"type":"ClassExpression"}],"node":12,"type":"SequenceExpression"},"node":2,"type":"VariableDeclarator"}],"kind":"let","node":1,"type":"VariableDeclaration"}],"generated":[],"node":0,"outside":[1],"sourceType":"script","type":"Program","warnings":[]}
"#
}
