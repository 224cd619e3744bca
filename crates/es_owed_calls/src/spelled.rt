// What generated names are spelled.

ghost use Rattle.std.specs.Prelude.{◌≡◌, ◌++◌, ◌∷◌, [], cond, OnOk};
ghost use Rattle.std.specs.Str.{chars};
ghost use Rattle.es_base.specs.Tree.{child};
ghost use Rattle.es_lowered.specs.HelperCalls as spec;
ghost use Rattle.es_steps.specs.Context as context;
ghost use Rattle.es_owed_calls.specs.Strings.{if_string, strings};

use crate::terms::CallTerms;
use es_base::kind::Kind;
use es_base::strings::is_among;
use es_generated::ledger::Ledger;
use es_node::node::Node;
use es_seen_names::parts::string_at;
use std::alloc::AllocError;

/// Whether the node is a generated name.
#[tactic(auto, using(crate::proofs::SpelledNodes::generated_node, crate::proofs::SpelledNodes::not_generated))]
pub fn is_generated_name(ledger: &Ledger, node: &Node) -> bool
    ensures { result ≡ spec.is_generated_name ledger.now (child node.now) }
{
    match node.kind() {
        // _key
        Kind::IdentifierReference => ledger.is_generated(string_at(node.parts(), 0)),
        _ => false,
    }
}

/// The generated name that the node is, if it is one.
#[tactic(auto, using(crate::proofs::SpelledNodes::spelling_node, crate::proofs::SpelledNodes::no_spelling))]
pub fn generated_spelling<'a>(terms: &CallTerms, node: &'a Node) -> Option<&'a str>
    ensures { if_string result ≡ spec.generated_spelling terms.now.first terms.now.ledger.now (child node.now) }
{
    match node.kind() {
        // _key
        Kind::IdentifierReference => if_generated(terms.ledger, string_at(node.parts(), 0)),
        _ => None,
    }
}

fn if_generated<'a>(ledger: &Ledger, name: &'a str) -> Option<&'a str>
    ensures { if_string result ≡ cond (context.is_generated (chars name.now) ledger.now) (chars name.now ∷ []) [] }
{
    if ledger.is_generated(name) {
        Some(name)
    } else {
        None
    }
}

/// Whether there is a name, and it is among these.
pub fn is_one_among(name: Option<&str>, names: &[&str]) -> bool
    ensures { result ≡ spec.is_one_among (if_string name.entry) (strings names.now) }
{
    match name {
        Some(name) => is_among(name, names),
        None => false,
    }
}

/// Adds the name, if there is one. Fails on allocation failure alone.
pub fn add_name<'a>(name: Option<&'a str>, names: &mut Vec<&'a str>) -> Result<(), AllocError>
    ensures { OnOk result (strings names.new.items ≡ strings names.old.items ++ if_string name.entry) }
{
    if let Some(name) = name {
        names.push(name)?;
    }
    Ok(())
}
