// The law of what a lowered program owes: a function that does nothing.

ghost use Rattle.es_lowered.specs.Law.{ClausesLaw};

/// Giving the new nodes of a program their numbers anew, in preorder, keeps what it owes, and numbers it, if no number stands
/// twice and the source and the generated names tell of no new node.
pub fn renumbering_keeps_what_is_owed()
    ensures { ClausesLaw }
{}
