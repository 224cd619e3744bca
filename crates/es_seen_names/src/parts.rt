// The members of a node by their places.

ghost use Rattle.std.specs.Prelude.{◌≡◌, [], MatchOption};
ghost use Rattle.std.specs.Str.{chars};
ghost use Rattle.es_base.specs.Tree.{end, nullable_trees, trees};
ghost use Rattle.es_node.specs.View.{part_of, parts_of};
ghost use Rattle.es_steps.specs.Context.{name_in};
ghost use Rattle.es_steps.specs.Parts as spec;
ghost use Rattle.es_steps.specs.Parts.{at, block_items, is_present, is_true, items};
ghost use Rattle.es_seen_names.specs.Items.{items_of};

use es_base::word::word_str;
use es_binding_faults::hoisted::part_at;
use es_node::node::{Node, Part};

/// The items of a list.
#[derive(Clone, Copy)]
pub enum Items<'a> {
    /// None, where no list stands.
    None,
    Nodes(&'a [Node]),
    Holes(&'a [Option<Node>]),
}

/// The string that a part is; else nothing.
#[tactic(auto, using(es_base::proofs::Spelling::chars_of_word, crate::proofs::Strings::no_characters))]
fn string_of(part: &Part) -> &str
    ensures { chars result.now ≡ spec.string_of (part_of part.now) }
{
    match part {
        Part::String(name) => name.as_str(),
        Part::Word(word) => word_str(*word),
        _ => "",
    }
}

/// The string at this place.
#[tactic(auto, using(crate::proofs::Strings::no_characters))]
pub fn string_at(parts: &[Part], i: usize) -> &str
    ensures { chars result.now ≡ spec.string_of (at i (parts_of parts.now)) }
{
    match part_at(parts, i) {
        Some(part) => string_of(part),
        None => "",
    }
}

/// The name of the node at this place.
#[tactic(auto, using(crate::proofs::Strings::no_characters, crate::proofs::Strings::named_node))]
pub fn name_at(parts: &[Part], i: usize) -> &str
    ensures { chars result.now ≡ name_in (at i (parts_of parts.now)) }
{
    match part_at(parts, i) {
        Some(Part::Child(node)) => string_at(node.parts(), 0),
        _ => "",
    }
}

/// Whether the boolean at this place is true.
pub fn is_true_at(parts: &[Part], i: usize) -> bool
    ensures { result ≡ is_true (at i (parts_of parts.now)) }
{
    match part_at(parts, i) {
        Some(Part::Boolean(value)) => *value,
        _ => false,
    }
}

/// Whether something stands at this place.
pub fn is_present_at(parts: &[Part], i: usize) -> bool
    ensures { result ≡ is_present (at i (parts_of parts.now)) }
{
    match part_at(parts, i) {
        Some(Part::Absent) => false,
        Some(_) => true,
        None => false,
    }
}

/// The items of the list at this place.
pub fn items_at(parts: &[Part], i: usize) -> Items<'_>
    ensures { items_of result ≡ items (at i (parts_of parts.now)) }
{
    match part_at(parts, i) {
        Some(Part::List(nodes)) => Items::Nodes(nodes.as_slice()),
        Some(Part::Holes(nodes)) => Items::Holes(nodes.as_slice()),
        _ => Items::None,
    }
}

/// The items of the block at this place.
pub fn block_items_at(parts: &[Part], i: usize) -> Items<'_>
    ensures { items_of result ≡ block_items (at i (parts_of parts.now)) }
{
    match part_at(parts, i) {
        Some(Part::Child(node)) => items_at(node.parts(), 0),
        _ => Items::None,
    }
}
