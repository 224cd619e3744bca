// Lists of events with their values.

ghost use Rattle.std.specs.Prelude.{◌≡◌, ◌↔◌, IsTrue};
ghost use Rattle.es_steps.specs.Entries as spec;
ghost use Rattle.es_entries.specs.Lists.{IsListed};

use es_base::list::List;
use es_codes::event::Token;
use es_codes::same::same_lists;
use es_codes::value::Value;

/// A list of events, as its tokens, and its value.
#[derive(Drop)]
pub struct Listed {
    pub tokens: List<Token>,
    pub value: Value,
}

/// Whether two lists have the same events and the same value.
#[tactic(auto, using(crate::proofs::Listing::both_same))]
pub fn same_listed(left: &Listed, right: &Listed) -> bool
    ensures { (l k : spec.Listed) → IsListed left.now l → IsListed right.now k → IsTrue result ↔ (l ≡ k) }
{
    same_lists(left.tokens.as_slice(), right.tokens.as_slice()) && left.value.is_same(&right.value)
}
