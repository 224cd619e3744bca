// Whether the number of a node tells its value.

ghost use Rattle.std.specs.Prelude.{◌≡◌};
ghost use Rattle.std.specs.Str.{chars};
ghost use Rattle.es_base.specs.Tree.{child, trees};
ghost use Rattle.es_lowered.specs.HelperCalls as spec;
ghost use Rattle.es_node.specs.View.{kind_of, parts_in};

use crate::helper::{is_any_helper, is_helper};
use crate::spelled::is_generated_name;
use crate::terms::CallTerms;
use es_base::kind::Kind;
use es_base::ledger::{GeneratedKind, LedgerEntry};
use es_base::strings::is_word;
use es_generated::ledger::Ledger;
use es_generated::numbers::is_new;
use es_generated::spellings::is_private_entry;
use es_node::node::Node;
use es_owed_initialized::spelling::spelling;
use es_seen_names::parts::string_at;
use es_shapes::walk::is_any_function;
use es_tree::expression::{
    AssignmentExpressionRef, CallExpressionRef, MemberExpressionRef, PrivateFieldRef,
};
use es_validity::names::name_of;

/// Whether the number of a node tells its value: an event has that number, or it is one of a literal, a function or a class. A
/// name is told by its name, or by one of a class; a private element that was generated has the value that it was given.
#[tactic(auto, using(crate::proofs::TellingNodes::silent_this, crate::proofs::TellingNodes::silent_meta, crate::proofs::TellingNodes::silent_sequence, crate::proofs::TellingNodes::telling_name, crate::proofs::TellingNodes::telling_other))]
pub fn tells(terms: &CallTerms, node: &Node) -> bool
    ensures { result ≡ spec.tells terms.now.first terms.now.ledger.now (kind_of node.now) (parts_in node.now) }
{
    match node.kind() {
        // this, new.target, (a, b)
        Kind::ThisExpression | Kind::MetaProperty | Kind::SequenceExpression => false,
        // a = b
        Kind::AssignmentExpression => {
            !is_generated_name(terms.ledger, AssignmentExpressionRef::from_node(node).left)
        }
        // o.#x
        Kind::PrivateField => {
            !is_private_name(
                terms.ledger.entries(),
                name_of(PrivateFieldRef::from_node(node).property),
            )
        }
        // f(a)
        Kind::CallExpression => {
            let call = CallExpressionRef::from_node(node);
            call_tells(terms, call.callee, call.arguments)
        }
        // ({ k: e })[k]
        Kind::MemberExpression => {
            !is_new_object(terms, MemberExpressionRef::from_node(node).object)
        }
        // a
        Kind::IdentifierReference => {
            !is_renamed(terms.ledger.generated_as(string_at(node.parts(), 0)))
        }
        _ => true,
    }
}

/// Whether a name of this kind is generated, and not that of a class.
fn is_renamed(generated: Option<GeneratedKind>) -> bool
    ensures { result ≡ spec.is_renamed generated }
{
    match generated {
        None => false,
        Some(GeneratedKind::ClassTemp(_)) => false,
        Some(_) => true,
    }
}

/// Whether a private name of this spelling was generated.
#[tactic(auto, using(crate::proofs::TellingNodes::private_entry))]
fn is_private_name(ledger: &[LedgerEntry], name: &str) -> bool
    ensures { result ≡ spec.is_private_name ledger.now (chars name.now) }
{
    for entry in ledger {
        if is_private_entry(entry.kind) && is_word(entry.name.as_str(), name) {
            return true;
        }
    }
    false
}

#[tactic(auto, using(crate::proofs::TellingNodes::new_object, crate::proofs::TellingNodes::no_object))]
fn is_new_object(terms: &CallTerms, node: &Node) -> bool
    ensures { result ≡ spec.is_new_object terms.now.first terms.now.ledger.now (child node.now) }
{
    match node.kind() {
        // {}
        Kind::ObjectExpression => is_new(terms.first, node.node_id().0),
        _ => false,
    }
}

// ---- calls

/// Whether a call of this is one of a helper that reads or writes a member, or of what is none.
fn call_tells(terms: &CallTerms, callee: &Node, arguments: &[Node]) -> bool
    ensures { result ≡ spec.call_tells terms.now.first terms.now.ledger.now (child callee.now) (trees arguments.now) }
{
    if is_any_helper(terms.first, callee) {
        is_member_helper(terms, callee)
    } else {
        !(is_silent_callee(terms, callee) || is_loose_definition(terms, arguments))
    }
}

fn is_member_helper(terms: &CallTerms, callee: &Node) -> bool
    ensures { result ≡ spec.is_member_helper terms.now.first terms.now.ledger.now (child callee.now) }
{
    (is_helper(terms.first, "classPrivateFieldGet2", callee)
        || is_helper(terms.first, "superPropGet", callee))
        || (is_helper(terms.first, "classPrivateFieldSet2", callee)
            || is_helper(terms.first, "superPropSet", callee))
}

/// Whether the node is `super`, a generated name, or a new function that is called where it stands.
#[tactic(auto, using(crate::proofs::TellingNodes::silent_super, crate::proofs::TellingNodes::silent_name, crate::proofs::TellingNodes::silent_other))]
fn is_silent_callee(terms: &CallTerms, callee: &Node) -> bool
    ensures { result ≡ spec.is_silent_callee terms.now.first terms.now.ledger.now (child callee.now) }
{
    match callee.kind() {
        // super()
        Kind::Super => true,
        // _f()
        Kind::IdentifierReference => terms.ledger.is_generated(string_at(callee.parts(), 0)),
        // (() => e)()
        kind => is_new(terms.first, callee.node_id().0) && is_any_function(kind),
    }
}

/// Whether these are the arguments of a definition of a member that is kept as a property.
fn is_loose_definition(terms: &CallTerms, arguments: &[Node]) -> bool
    ensures { result ≡ spec.is_loose_definition terms.now.first terms.now.ledger.now (trees arguments.now) }
{
    match arguments {
        // Object.defineProperty(o, L, { writable: true, value: v })
        [_, key, ..] => is_loose_key(terms.ledger.generated_as(spelling(key))),
        _ => false,
    }
}

fn is_loose_key(generated: Option<GeneratedKind>) -> bool
    ensures { result ≡ spec.is_loose_key generated }
{
    matches!(generated, Some(GeneratedKind::LooseKey(_)))
}
