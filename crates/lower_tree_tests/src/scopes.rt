// The scopes of a lowered tree.

ghost use Rattle.std.specs.Prelude.{◌+◌, ◌<◌, ◌^◌};
ghost use Rattle.borrowed_json.specs.View.{view};
ghost use Rattle.es_reading.specs.Told.{values};

use borrowed_json::parse::parse;
use borrowed_json::value::Value;
use es_base::ids::ScopeId;
use es_reading::numbers::Numbers;
use es_reading::tree::read_tree;
use es_scopes::scoping::Scoping;
use es_steps::options::{ClassPropertiesOptions, ES2022Options, Options};
use json::Scratch;
use lower_tree::tree::{LoweredTree, lower_tree};
use std::alloc::{AllocError, Global};
use std::test::Fail;

/// Texts have fewer bytes than this.
const MANY_BYTES: usize = 1 << 26;

/// `class C { static a = () => 1; }`
const STATIC_ARROW: &str =
    r#"{"type":"Program","sourceType":"script","body":[{"type":"ClassDeclaration","id":{"type":"Identifier","name":"C"},"superClass":null,"body":{"type":"ClassBody","body":[{"type":"PropertyDefinition","static":true,"computed":false,"key":{"type":"Identifier","name":"a"},"value":{"type":"ArrowFunctionExpression","params":[],"expression":true,"async":false,"body":{"type":"Literal","value":1,"raw":"1"}}}]}}]}"#;

/// What the program that a text is, is lowered to.
fn lowered(alloc: Global, options: &Options, text: &[u8]) -> Result<LoweredTree, Fail> {
    if text.len() >= MANY_BYTES {
        return Err(Fail::new("a long text"));
    }
    let mut scratch = Scratch::new(alloc);
    let Ok(value) = parse(alloc, text, &mut scratch) else {
        return Err(Fail::new("no JSON"));
    };
    lowered_value(alloc, options, &value)
}

/// What the program that a value is, is lowered to.
fn lowered_value(alloc: Global, options: &Options, value: &Value<'_>) -> Result<LoweredTree, Fail>
    requires { values (view value.now) + 1 < 2 ^ 32 }
{
    let Ok((program, foreign)) = read_tree(alloc, value, Numbers::Preorder) else {
        return Err(Fail::new("no program"));
    };
    match lower_tree(alloc, options, program, foreign.as_slice()) {
        Ok(tree) => Ok(tree),
        Err(_) => Err(Fail::new("not lowered")),
    }
}

/// The scopes of a table, each with the one around.
fn scopes(alloc: Global, scoping: &Scoping) -> Result<String, AllocError> {
    let mut text = String::new(alloc);
    for i in 0..16u32 {
        let scope = ScopeId(i);
        if scoping.has_scope(scope) {
            match scoping.scope_parent_id(scope) {
                Some(around) => write!(text, "{i} in {}\n", around.0)?,
                None => write!(text, "{i}\n")?,
            }
        }
    }
    Ok(text)
}

// class C {}
// babelHelpers.defineProperty(C, "a", () => 1);
#[test]
fn a_moved_function_is_below_the_scope_where_it_stands(rt: HostRuntime) -> Result<(), Fail> {
    let alloc = rt.alloc();
    let options = Options {
        es2022: ES2022Options {
            class_properties: Some(ClassPropertiesOptions { loose: false }),
            ..ES2022Options::default()
        },
        ..Options::default()
    };
    let tree = lowered(alloc, &options, STATIC_ARROW.as_bytes())?;
    let found = scopes(alloc, &tree.scoping)?;
    assert!(rt; found.as_str() == "0\n1 in 0\n2 in 0\n", "{found}");
    assert!(rt; tree.warnings.is_empty() && tree.shapes.is_empty());
    Ok(())
}
