// The names that expressions suggest for generated names.

ghost use Rattle.std.specs.Prelude.{◌≡◌, IfOk, OnOk, fold, take};
ghost use Rattle.std.specs.Str.{chars};
ghost use Rattle.std.specs.String.{string_bytes};
ghost use Rattle.program_names.specs.Suggested.{name_parts, or_ref, suggested, with_part};

use es_base::kind::Kind;
use es_base::name::Name;
use es_expression::expression::{
    AssignmentExpressionRef, CallExpressionRef, ChainExpressionRef, MemberExpressionRef,
    NewExpressionRef, PrivateFieldRef,
};
use es_expression::identifier::{IdentifierNameRef, IdentifierReferenceRef, PrivateIdentifierRef};
use es_node::node::Node;
use std::alloc::{AllocError, Global};

/// What a generated name for the value of this expression begins from: `a$b` for `a.b()`, `this` for `this`, `ref`
/// for `1`; at most 20 characters. Fails on allocation failure alone.
pub fn suggest(alloc: Global, expression: &Node) -> Result<Name, AllocError>
    ensures { IfOk result (λ name. name ≡ suggested expression.now) }
{
    let mut parts = String::new(alloc);
    add_parts(expression, &mut parts)?;
    let name = first_characters(alloc, parts.as_str())?;
    or_ref(alloc, name.as_str())
}

/// Adds the parts of the name of an expression, with `$` between: those of `a.b[c].#d(e)` are `a`, `b`, `c` and `d`.
/// Fails on allocation failure alone.
#[tactic(auto, using(crate::proofs::Names::no_parts, es_node::proofs::Below::nodes_in))]
fn add_parts(node: &Node, name: &mut String) -> Result<(), AllocError>
    ensures { OnOk result (chars (string_bytes name.new) ≡ fold with_part (chars (string_bytes name.old)) (name_parts node.now)) }
{
    match node.kind() {
        // a
        Kind::IdentifierReference => {
            add_part(IdentifierReferenceRef::from_node(node).name.as_str(), name)
        }
        // the `b` of a.b
        Kind::IdentifierName => add_part(IdentifierNameRef::from_node(node).name.as_str(), name),
        // the `#b` of a.#b
        Kind::PrivateIdentifier => {
            add_part(PrivateIdentifierRef::from_node(node).name.as_str(), name)
        }
        Kind::ThisExpression => add_part("this", name),
        Kind::Super => add_part("super", name),
        // a.b, a[b]
        Kind::MemberExpression => {
            let member = MemberExpressionRef::from_node(node);
            add_parts(member.object, name)?;
            add_parts(member.property, name)
        }
        // a.#b
        Kind::PrivateField => {
            let member = PrivateFieldRef::from_node(node);
            add_parts(member.object, name)?;
            add_parts(member.property, name)
        }
        // a(b)
        Kind::CallExpression => add_parts(CallExpressionRef::from_node(node).callee, name),
        // new a(b)
        Kind::NewExpression => add_parts(NewExpressionRef::from_node(node).callee, name),
        // a?.b
        Kind::ChainExpression => add_parts(ChainExpressionRef::from_node(node).expression, name),
        // a = b
        Kind::AssignmentExpression => add_parts(
            AssignmentExpressionRef::from_node(node).left,
            name,
        ),
        _ => Ok(()),
    }
}

/// Adds a part, behind a `$` if there are others. Fails on allocation failure alone.
fn add_part(part: &str, name: &mut String) -> Result<(), AllocError>
    ensures { OnOk result (chars (string_bytes name.new) ≡ with_part (chars (string_bytes name.old)) (chars part.now)) }
{
    if name.as_str().is_empty() {
        name.push_str(part)?;
        Ok(())
    } else {
        name.push('$')?;
        name.push_str(part)?;
        Ok(())
    }
}

/// The first 20 characters, or all. Fails on allocation failure alone.
fn first_characters(alloc: Global, string: &str) -> Result<String, AllocError>
    ensures { IfOk result (λ s. chars (string_bytes s) ≡ take 20 (chars string.now)) }
{
    let mut first = String::new(alloc);
    let mut count: usize = 0;
    for c in string.chars() {
        if count == 20 {
            return Ok(first);
        }
        first.push(c)?;
        count += 1;
    }
    Ok(first)
}

/// The string; nothing gives `ref`. Fails on allocation failure alone.
fn or_ref(alloc: Global, string: &str) -> Result<Name, AllocError>
    ensures { IfOk result (λ name. name ≡ or_ref (chars string.now)) }
{
    if string.is_empty() {
        Name::from_ascii(alloc, "ref")
    } else {
        Name::new(alloc, string)
    }
}
