// Names of nodes.

ghost use Rattle.std.specs.Prelude.{◌≡◌};
ghost use Rattle.std.specs.Str.{chars};
ghost use Rattle.es_base.specs.Tree.{child};
ghost use Rattle.es_node.specs.View.{part_of};
ghost use Rattle.es_steps.specs.Parts.{string_of};
ghost use Rattle.es_steps.specs.Printable.{name_of_part};

use es_base::word::word_str;
use es_node::node::{Node, Part};

/// The string that is the first member of a node; the empty string where it has no such member.
#[tactic(auto, using(crate::proofs::Strings::name_in, crate::proofs::Strings::no_string_chars))]
pub fn name_of(node: &Node) -> &str
    ensures { chars result.now ≡ name_of_part (child node.now) }
{
    match node.parts() {
        [first, ..] => string_of(first),
        [] => "",
    }
}

/// The string at a member; the empty string where no string stands there.
#[tactic(auto, using(es_base::proofs::Spelling::chars_of_word, crate::proofs::Strings::no_string_chars))]
fn string_of(part: &Part) -> &str
    ensures { chars result.now ≡ string_of (part_of part.now) }
{
    match part {
        Part::String(name) => name.as_str(),
        Part::Word(word) => word_str(*word),
        _ => "",
    }
}
