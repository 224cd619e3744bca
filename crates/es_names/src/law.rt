// Laws of generated names: what is given in some programs, as the definitions compute it.

ghost use Rattle.std.specs.Prelude.{◌≡◌, [], ◌∷◌, codes};
ghost use Rattle.es_names.specs.Candidates.{base_of, first_free};
ghost use Rattle.es_names.specs.Rows.{given};

/// Where a program spells `x` and `_x`, the base `x` gives `_x2` and then `_x1` gives `_x3`; the base `12`
/// gives `_temp`; of `__a_1` the base is `a_`.
pub fn names_given()
    ensures first { first_free (codes "x" ∷ codes "_x" ∷ []) (base_of (codes "x")) ≡ codes "_x2" }
    ensures second { first_free (codes "x" ∷ codes "_x" ∷ codes "_x2" ∷ []) (base_of (codes "_x1")) ≡ codes "_x3" }
    ensures digits { first_free (codes "x" ∷ codes "_x" ∷ []) (base_of (codes "12")) ≡ codes "_temp" }
    ensures base { base_of (codes "__a_1") ≡ codes "a_" }
{}

/// The keys that are made in turn beside reserved ones (oxc_transformer, the tests of `Keys`).
pub fn keys_given()
    ensures none { given 12 [] ≡ codes "_" ∷ codes "_2" ∷ codes "_3" ∷ codes "_4" ∷ codes "_5" ∷ codes "_6"
        ∷ codes "_7" ∷ codes "_8" ∷ codes "_9" ∷ codes "_10" ∷ codes "_11" ∷ codes "_12" ∷ [] }
    ensures others { given 3 (codes "a" ∷ codes "foo" ∷ codes "__" ∷ codes "_0" ∷ codes "_1" ∷ codes "_a"
        ∷ codes "_foo" ∷ codes "_2foo" ∷ []) ≡ codes "_" ∷ codes "_2" ∷ codes "_3" ∷ [] }
    ensures underscore { given 3 (codes "_" ∷ []) ≡ codes "_2" ∷ codes "_3" ∷ codes "_4" ∷ [] }
    ensures between { given 9 (codes "_2" ∷ codes "_4" ∷ codes "_11" ∷ []) ≡ codes "_" ∷ codes "_3" ∷ codes "_5"
        ∷ codes "_6" ∷ codes "_7" ∷ codes "_8" ∷ codes "_9" ∷ codes "_10" ∷ codes "_12" ∷ [] }
    ensures unordered { given 10 (codes "_5" ∷ codes "_4" ∷ codes "_12" ∷ codes "_13" ∷ []) ≡ codes "_" ∷ codes "_2"
        ∷ codes "_3" ∷ codes "_6" ∷ codes "_7" ∷ codes "_8" ∷ codes "_9" ∷ codes "_10" ∷ codes "_11" ∷ codes "_14" ∷ [] }
    ensures with_underscore { given 3 (codes "_2" ∷ codes "_4" ∷ codes "_" ∷ []) ≡ codes "_3" ∷ codes "_5"
        ∷ codes "_6" ∷ [] }
    ensures unordered_with_underscore { given 3 (codes "_5" ∷ codes "_4" ∷ codes "_" ∷ []) ≡ codes "_2" ∷ codes "_3"
        ∷ codes "_6" ∷ [] }
{}
