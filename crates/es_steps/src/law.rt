// The laws of meanings: functions that do nothing.

ghost use Rattle.es_steps.specs.Law.{DifferenceLaw, SemanticIdsLaw, SourceSemanticIdsLaw, PrivateSemanticIdsLaw, RenumberingLaw, FirstFormLaw, DefineLaw};

/// Meanings that are found to differ are not equal.
pub fn different_meanings_are_not_equal()
    ensures { DifferenceLaw }
{}

/// Semantic ids are no part of a meaning, nor of that of a source, nor of the private members and of what
/// private names mean.
pub fn semantic_ids_mean_nothing()
    ensures meaning { SemanticIdsLaw }
    ensures source { SourceSemanticIdsLaw }
    ensures private_names { PrivateSemanticIdsLaw }
{}

/// Giving the new nodes of a program their numbers anew, in preorder, keeps its meaning, if no
/// number stands twice and no number of a new node stands in the meaning or in its terms.
pub fn renumbering_keeps_meaning()
    ensures { RenumberingLaw }
{}

/// A program of the first form has a meaning, under all options.
pub fn first_form_has_meaning()
    ensures { FirstFormLaw }
{}

/// A call of the helper `defineProperty` has the list of its key, that of its value, and the definition, and its value is its
/// result.
pub fn define_property_is_key_value_define()
    ensures { DefineLaw }
{}
