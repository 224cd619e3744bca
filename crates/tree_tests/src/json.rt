// JSON both ways: each refusal with the number of its node, and programs that are read, written, and read again to the
// same text.

ghost use Rattle.std.specs.Prelude.{◌+◌, ◌<◌, ◌^◌};
ghost use Rattle.es_reading.specs.Told.{values};
ghost use Rattle.serde_json.specs.View.{view};

use crate::programs::{acorn_written, all_kinds, from_acorn, programs, with_foreign};
use es_base::ids::NodeId;
use es_base::ledger::{GeneratedKind, Ledger, LedgerEntry};
use es_base::list::List;
use es_base::name::Name;
use es_base::shape::Shape;
use es_json::read::{read_numbered, read_program};
use es_json::write::{write_lowered, write_program};
use es_reading::count::is_countable;
use es_reading::fault::ReadError;
use serde_json::Value;
use std::alloc::{AllocError, Global};
use std::test::Fail;

/// How a text is read, and what is written of it.
#[derive(Clone, Copy)]
enum Way {
    /// With numbers in preorder.
    Numbered,
    /// With the numbers of the members `node`.
    Given,
    /// As a lowered program, with a generated name and a shape.
    Lowered,
}

/// The text of a program as a lowered one, with a generated name and a shape.
fn lowered_text(alloc: Global, value: &Value) -> Result<String, ReadError>
    requires { values (view value.now) + 1 < 2 ^ 32 }
{
    let (program, _foreign) = read_program(alloc, value)?.into_node();
    let mut entries = List::new(alloc);
    let name = Name::new(alloc, "_C")?;
    let kind = GeneratedKind::ClassTemp(NodeId(1));
    entries.push(LedgerEntry { name, kind })?;
    let lowered = write_lowered(alloc, &program, &Ledger { entries }, &[], &[Shape::S2])?;
    Ok(lowered.to_string(alloc)?)
}

/// What is written of the program that a value is.
fn rewritten(alloc: Global, value: &Value, way: Way) -> Result<String, ReadError>
    requires { values (view value.now) + 1 < 2 ^ 32 }
{
    let program = match way {
        Way::Numbered => read_program(alloc, value)?,
        Way::Given => read_numbered(alloc, value)?,
        Way::Lowered => return lowered_text(alloc, value),
    };
    let (program, _foreign) = program.into_node();
    Ok(write_program(alloc, &program)?.to_string(alloc)?)
}

/// What is written of the program that a text is, or the refusal.
fn written(alloc: Global, text: &str, way: Way) -> Result<String, AllocError> {
    let Ok(value) = Value::from_str(alloc, text) else {
        return String::from_str(alloc, "no JSON");
    };
    if !is_countable(&value) {
        return String::from_str(alloc, "too many values");
    }
    match rewritten(alloc, &value, way) {
        Ok(text) => Ok(text),
        Err(error) => error.to_string(alloc),
    }
}

#[test]
fn refusals_have_their_cause_and_their_node(rt: HostRuntime) -> Result<(), Fail> {
    let alloc = rt.alloc();
    let cases = [
        (
            r#"{"type":"Program","sourceType":"script","body":[3]}"#,
            "not a tree: NotANode at 1",
        ),
        (
            r#"{"type":"Program","sourceType":"script","body":[{"type":"EmptyStatement"},null]}"#,
            "not a tree: NotANode at 2",
        ),
        (
            r#"{"type":"Program","sourceType":"script","body":[{"type":"ParenthesizedExpression"}]}"#,
            "not a tree: UnknownKind at 1",
        ),
        (
            r#"{"type":"Program","sourceType":"script","body":[{"type":""}]}"#,
            "not a tree: UnknownKind at 1",
        ),
        (
            r#"{"type":"Program","sourceType":"script","body":[{"type":"emptyStatement"}]}"#,
            "not a tree: UnknownKind at 1",
        ),
        (
            r#"{"type":"Program","sourceType":"script","body":[{"type":"Identifier","name":"a"}]}"#,
            "not a tree: WrongPlace at 1",
        ),
        // an optional member is assigned to: a?.b = 1
        (
            r#"{"type":"Program","sourceType":"script","body":[{"type":"ExpressionStatement","expression":{"type":"AssignmentExpression","operator":"=","left":{"type":"MemberExpression","object":{"type":"Identifier","name":"a"},"property":{"type":"Identifier","name":"b"},"computed":false,"optional":true},"right":{"type":"ThisExpression"}}}]}"#,
            "not a tree: WrongPlace at 3",
        ),
        // a pattern is assigned by another operator: [] += 1
        (
            r#"{"type":"Program","sourceType":"script","body":[{"type":"ExpressionStatement","expression":{"type":"AssignmentExpression","operator":"+=","left":{"type":"ArrayPattern","elements":[]},"right":{"type":"ThisExpression"}}}]}"#,
            "not a tree: WrongPlace at 3",
        ),
        // a rest that is not the last: let [...a, b] = this
        (
            r#"{"type":"Program","sourceType":"script","body":[{"type":"VariableDeclaration","kind":"let","declarations":[{"type":"VariableDeclarator","id":{"type":"ArrayPattern","elements":[{"type":"RestElement","argument":{"type":"Identifier","name":"a"}},{"type":"Identifier","name":"b"}]},"init":{"type":"ThisExpression"}}]}]}"#,
            "not a tree: WrongPlace at 4",
        ),
        // a key that is a regular expression
        (
            r#"{"type":"Program","sourceType":"script","body":[{"type":"ClassDeclaration","id":null,"body":{"type":"ClassBody","body":[{"type":"PropertyDefinition","key":{"type":"Literal","value":{},"regex":{"pattern":"a","flags":""}}}]}}]}"#,
            "not a tree: WrongPlace at 4",
        ),
        // a foreign node where only a block may stand
        (
            r#"{"type":"Program","sourceType":"script","body":[{"type":"TryStatement","block":{"type":"TSBlock"}}]}"#,
            "not a tree: WrongPlace at 2",
        ),
        (
            r#"{"type":"Program","sourceType":"script","body":[{"type":"EmptyStatement","range":[0,1.5]}]}"#,
            "not a tree: float at 1",
        ),
        (
            r#"{"type":"Program","sourceType":"script","body":[{"type":"ExpressionStatement","expression":{"type":"Literal","value":1.5,"raw":"1.5"}}]}"#,
            "not a tree: float at 2",
        ),
        (
            r#"{"type":"Program","sourceType":"script","body":[{"type":"TSEnumDeclaration","body":[{"x":1e3}]}]}"#,
            "not a tree: float at 1",
        ),
        // before a bad member, behind a wrong place
        (
            r#"{"type":"Program","sourceType":"script","body":[{"type":"ReturnStatement","argument":null,"x":0.5},{"type":"ThrowStatement"}]}"#,
            "not a tree: float at 1",
        ),
        (
            r#"{"type":"Program","sourceType":"script","body":[{"type":"ThisExpression","x":0.5}]}"#,
            "not a tree: WrongPlace at 1",
        ),
        (
            r#"{"type":"Program","sourceType":"script","body":[{"type":"ReturnStatement","argument":{"type":"Identifier"}}]}"#,
            "not a tree: BadMember at 2",
        ),
        (
            r#"{"type":"Program","sourceType":"script","body":[{"type":"ReturnStatement","argument":{"type":"Identifier","name":""}}]}"#,
            "not a tree: BadMember at 2",
        ),
        (
            r#"{"type":"Program","sourceType":"script","body":[{"type":"ThrowStatement"}]}"#,
            "not a tree: BadMember at 1",
        ),
        (
            r#"{"type":"Program","sourceType":"script","body":[{"type":"ReturnStatement","argument":{"type":"UnaryExpression","operator":"?","argument":{"type":"ThisExpression"}}}]}"#,
            "not a tree: BadMember at 2",
        ),
        (
            r#"{"type":"Program","sourceType":"script","body":[{"type":"ReturnStatement","argument":{"type":"SequenceExpression","expressions":[]}}]}"#,
            "not a tree: BadMember at 2",
        ),
        (
            r#"{"type":"Program","sourceType":"script","body":[{"type":"ReturnStatement","argument":{"type":"TemplateLiteral","quasis":[],"expressions":[]}}]}"#,
            "not a tree: BadMember at 2",
        ),
        (
            r#"{"type":"Program","sourceType":"script","body":[{"type":"ReturnStatement","argument":{"type":"Literal","value":-1}}]}"#,
            "not a tree: BadMember at 2",
        ),
        // a fault of a child comes behind those of its parent, and before those of a later child
        (
            r#"{"type":"Program","sourceType":"script","body":[{"type":"WithStatement","object":1}]}"#,
            "not a tree: BadMember at 1",
        ),
        (
            r#"{"type":"Program","sourceType":"script","body":[{"type":"WithStatement","object":1,"body":{"type":"ThisExpression"}}]}"#,
            "not a tree: NotANode at 2",
        ),
        (
            r#"{"type":"Program","sourceType":"script","body":[{"type":"ThisExpression","type":"EmptyStatement"},1]}"#,
            "not a tree: NotANode at 2",
        ),
        (r#"1"#, "not a tree: NotANode at 0"),
        (r#"null"#, "not a tree: NotANode at 0"),
        (r#""a""#, "not a tree: NotANode at 0"),
        (r#"[]"#, "not a tree: NotANode at 0"),
        (r#"{}"#, "not a tree: NotANode at 0"),
        (r#"{"type":1}"#, "not a tree: NotANode at 0"),
        (
            r#"{"type":"Program","sourceType":"script","body":1}"#,
            "not a tree: BadMember at 0",
        ),
        (
            r#"{"type":"Program","sourceType":"commonjs","body":[]}"#,
            "not a tree: BadMember at 0",
        ),
        // of a key that is repeated the last value stands
        (
            r#"{"type":"Program","sourceType":"script","body":[{"type":"ThisExpression","type":"EmptyStatement"},1]}"#,
            "not a tree: NotANode at 2",
        ),
    ];
    for (text, refusal) in cases {
        assert_eq!(rt;
            written(alloc, text, Way::Numbered)?.as_str(),
            refusal,
            "of {text}"
        );
    }
    // numbers that are given: one is missing, one is no u32
    let cases = [
        (
            r#"{"type":"Program","node":7,"sourceType":"module","body":[{"type":"EmptyStatement","node":4294967296}]}"#,
            "not a tree: BadMember at 1",
        ),
        (
            r#"{"type":"Program","sourceType":"module","body":[]}"#,
            "not a tree: BadMember at 0",
        ),
        (
            r#"{"type":"Program","node":7,"sourceType":"module","body":[{"type":"EmptyStatement","node":5}]}"#,
            r#"{"body":[{"node":5,"type":"EmptyStatement"}],"node":7,"sourceType":"module","type":"Program"}"#,
        ),
    ];
    for (text, answer) in cases {
        assert_eq!(rt;
            written(alloc, text, Way::Given)?.as_str(),
            answer,
            "of {text}"
        );
    }
    Ok(())
}

/// Whether what is written of a text is read and written again as the same text, and so is what is written
/// of it as a lowered program.
fn comes_back(alloc: Global, text: &str) -> Result<bool, AllocError> {
    let once = written(alloc, text, Way::Numbered)?;
    let twice = written(alloc, once.as_str(), Way::Given)?;
    let lowered = written(alloc, text, Way::Lowered)?;
    let of_lowered = written(alloc, lowered.as_str(), Way::Given)?;
    Ok(once.as_str().starts_with("{") && once == twice && once == of_lowered)
}

#[test]
fn programs_come_back(rt: HostRuntime) -> Result<(), Fail> {
    let alloc = rt.alloc();
    for text in programs() {
        assert!(rt; comes_back(alloc, text)?, "of {text}");
    }
    for text in all_kinds() {
        assert!(rt; comes_back(alloc, text)?, "of {text}");
    }
    assert!(rt; comes_back(alloc, with_foreign())?);
    let empty = r#"{"type":"Program","sourceType":"script","body":[]}"#;
    assert_eq!(rt;
        written(alloc, empty, Way::Lowered)?.as_str(),
        r#"{"body":[],"generated":[{"class":1,"kind":"class","name":"_C"}],"node":0,"outside":[2],"sourceType":"script","type":"Program","warnings":[]}"#
    );
    assert_eq!(rt;
        written(alloc, from_acorn(), Way::Numbered)?.as_str(),
        acorn_written()
    );
    Ok(())
}
