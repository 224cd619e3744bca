// The law of the tests by which meanings are compared: a function that does nothing.

ghost use Rattle.std.specs.Prelude.{◌≡◌, ℕ, List, true, nat_eq, bytes_eq};
ghost use Rattle.es_sameness.specs.Law.{Finds};
ghost use Rattle.es_steps.specs.SameMeanings as same;
ghost use Rattle.es_steps.specs.SameValues.{same_value};

/// What these tests find the same is one: values, the parts of entries, and the lists of a meaning that no evaluation makes. (That
/// what is one is found the same is `different_meanings_are_not_equal` of `es_steps`.)
pub fn what_is_found_the_same_is_one()
    ensures values { Finds same_value }
    ensures forms { Finds same.same_form }
    ensures parameters { Finds (same.same_list same.same_parameter) }
    ensures methods { Finds (same.same_list same.same_method) }
    ensures members { Finds (same.same_list (same.same_numbered same.same_member)) }
    ensures numbers { Finds (same.same_list (same.same_numbered nat_eq)) }
    ensures declarations { Finds (same.same_list (same.same_numbered same.same_declaration)) }
    ensures strings { Finds (same.same_list (same.same_numbered bytes_eq)) }
    ensures links { Finds (same.same_list same.same_link) }
    ensures exports { Finds (same.same_list same.same_export) }
{}
