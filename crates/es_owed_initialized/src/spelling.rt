// What identifiers are spelled.

ghost use Rattle.std.specs.Prelude.{◌≡◌, option_map};
ghost use Rattle.std.specs.Str.{chars};
ghost use Rattle.es_base.specs.Tree.{child, nullable};
ghost use Rattle.es_node.specs.View.{parts_of};
ghost use Rattle.es_lowered.specs.Definitions as definitions;
ghost use Rattle.es_steps.specs.Parts.{at};

use es_base::kind::Kind;
use es_binding_faults::hoisted::part_at;
use es_node::node::{Node, Part};
use es_seen_names::parts::string_at;

/// The name of an identifier; else nothing.
#[tactic(auto, using(crate::proofs::Spellings::spelled_reference, crate::proofs::Spellings::spelled_binding, crate::proofs::Spellings::no_spelling, es_seen_names::proofs::Strings::no_characters))]
pub fn spelling(node: &Node) -> &str
    ensures { chars result.now ≡ definitions.spelling (child node.now) }
{
    match node.kind() {
        Kind::IdentifierReference => string_at(node.parts(), 0),
        Kind::BindingIdentifier => string_at(node.parts(), 0),
        _ => "",
    }
}

/// The name of an identifier; nothing where none stands.
#[tactic(auto, using(es_seen_names::proofs::Strings::no_characters))]
pub fn spelling_of(node: Option<&Node>) -> &str
    ensures { chars result.now ≡ definitions.spelling (nullable (option_map (λ x. x.now) node.entry)) }
{
    match node {
        Some(node) => spelling(node),
        None => "",
    }
}

/// The name of the identifier at this place; nothing where none stands.
#[tactic(auto, using(es_seen_names::proofs::Strings::no_characters))]
pub fn spelling_at(parts: &[Part], i: usize) -> &str
    ensures { chars result.now ≡ definitions.spelling (at i (parts_of parts.now)) }
{
    match part_at(parts, i) {
        Some(Part::Child(node)) => spelling(node),
        _ => "",
    }
}
