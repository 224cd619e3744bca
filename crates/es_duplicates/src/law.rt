// Laws of what is written again: functions that do nothing.

ghost use Rattle.es_duplicates.specs.Law.{KeyLaw, LiteralLaw, MutatedLaw, TemplateLaw};

/// A literal that is no regular expression, and a template of one string, have no event and the same value wherever
/// they are written. (`es_common` has the laws of `this`, of names that do not vary, and of temporaries.)
pub fn constants_are_the_same_again()
    ensures literal { LiteralLaw }
    ensures template { TemplateLaw }
{}

/// A symbol is mutated as the scope table says.
pub fn mutated_symbols_are_those_of_the_table()
    ensures { MutatedLaw }
{}

/// A key that is no name needs a temporary where the definitions of meaning say so.
pub fn keys_need_temporaries_as_their_meaning_says()
    ensures { KeyLaw }
{}
