// Names and other strings.

ghost use Rattle.std.specs.Prelude.{◌≡◌, IfOk, Some, refl, bytes_eq, true};
ghost use Rattle.std.proofs.Common.{rules};
ghost use Rattle.std.specs.Str.{chars, encode_utf8_all};
ghost use Rattle.std.specs.Ordering.{nat_cmp};
ghost use Rattle.std.specs.Hash as fed;
ghost use Rattle.std.specs.Cmp.{on_equiv, on_total, on_po, on_per, partial_equiv_from_equiv};
ghost use Rattle.std.specs.Cmp.Lexicographic.{slice_cmp, nat_list_eq_equiv, nat_list_cmp_total, texts_ties, texts_po};
ghost use Rattle.std.specs.Cmp.Rules.{hashing};

use std::alloc::{AllocError, Global};
use std::cmp::Ordering;
use std::hash::{Hash, Hasher};
use std::marker::Model;

/// A string, which contracts see as the list of its characters.
///
/// Names are equal where their characters are, and are ordered by the bytes of their UTF-8, which is
/// the order of their characters.
#[derive(Drop)]
pub struct Name {
    string: String,
}

impl Model for Name {
    ghost use Rattle.std.specs.Prelude.{ℕ, List};
    ghost use Rattle.std.specs.Str.{chars};
    ghost use Rattle.std.specs.String.{string_bytes};

    ghost Value = { List ℕ };

    ghost view = { λ n. chars (string_bytes n.string) };
}

impl Name {
    ghost use Rattle.es_base.specs.Ascii.{is_ascii};

    /// The name of these characters. Fails on allocation failure alone.
    pub fn new(alloc: Global, string: &str) -> Result<Name, AllocError>
        ensures { IfOk result (λ n. n ≡ chars string.now) }
    {
        Ok(Name {
            string: String::from_str(alloc, string)?,
        })
    }

    /// The name of an ASCII string, whose bytes are its characters. Fails on allocation failure alone.
    #[tactic(auto, using(crate::proofs::Ascii::chars_ascii))]
    pub fn from_ascii(alloc: Global, string: &str) -> Result<Name, AllocError>
        requires { is_ascii string.now ≡ true }
        ensures { IfOk result (λ n. n ≡ string.now) }
    {
        Name::new(alloc, string)
    }

    /// The characters, as string.
    pub fn as_str(&self) -> &str
        ensures { chars result.now ≡ self.now }
    {
        self.string.as_str()
    }

    /// An equal name. Fails on allocation failure alone.
    pub fn try_clone(&self, alloc: Global) -> Result<Name, AllocError>
        ensures { IfOk result (λ n. n ≡ self.now) }
    {
        Name::new(alloc, self.string.as_str())
    }
}

impl PartialEq for Name {
    ghost eq = { λ x y. bytes_eq (encode_utf8_all x) (encode_utf8_all y) };

    ghost laws = { on_per encode_utf8_all (partial_equiv_from_equiv nat_list_eq_equiv) };

    fn eq(&self, other: &Self) -> bool {
        self.string.as_str() == other.string.as_str()
    }
}

impl Eq for Name {
    ghost laws = { on_equiv encode_utf8_all nat_list_eq_equiv };
}

impl PartialOrd for Name {
    ghost partial_cmp = { λ x y. Some (slice_cmp nat_cmp (encode_utf8_all x) (encode_utf8_all y)) };

    ghost laws = { on_po encode_utf8_all texts_po };

    fn partial_cmp(&self, other: &Self) -> Option<Ordering> {
        Some(self.cmp(other))
    }
}

impl Ord for Name {
    ghost cmp = { λ x y. slice_cmp nat_cmp (encode_utf8_all x) (encode_utf8_all y) };

    ghost total = { on_total encode_utf8_all nat_list_cmp_total };

    ghost matches_partial_cmp = { λ x y. refl };

    ghost matches_eq = { λ x y. texts_ties (encode_utf8_all x) (encode_utf8_all y) };

    fn cmp(&self, other: &Self) -> Ordering {
        self.string.as_str().cmp(other.string.as_str())
    }
}

impl Hash for Name {
    ghost hash_input = { λ x. fed.str (encode_utf8_all x) };

    ghost respects_eq = { Prim.search (hashing, rules) };

    fn hash<H: Hasher>(&self, state: &mut H) {
        self.string.as_str().hash(state);
    }
}
