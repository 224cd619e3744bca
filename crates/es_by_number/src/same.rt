// Comparison, item by item.

ghost use Rattle.std.specs.Prelude.{◌≡◌, Bool, ◌&&◌, bytes_eq, nat_eq};
ghost use Rattle.std.specs.Str.{chars};
ghost use Rattle.es_steps.specs.SameMeanings as spec;
ghost use Rattle.es_by_number.specs.Numbered.{pairs};

use crate::numbered::Numbered;
use es_base::strings::is_word;

/// What definitions compare by a test of their own.
pub trait Same {
    ghost same: { Self → Self → Bool };

    /// Whether both are the same.
    fn is_same(&self, other: &Self) -> bool
        ensures { result ≡ same self.now other.now };
}

impl Same for u32 {
    ghost same = { nat_eq };

    fn is_same(&self, other: &u32) -> bool {
        *self == *other
    }
}

impl Same for &str {
    ghost same = { λ a b. bytes_eq (chars a.now) (chars b.now) };

    fn is_same(&self, other: &&str) -> bool {
        is_word(*other, *self)
    }
}

/// Whether two lists are the same.
#[tactic(auto, using(crate::proofs::Sameness::other_length))]
pub fn same_list<T: Same>(left: &[T], right: &[T]) -> bool
    ensures { result ≡ spec.same_list T.same left.now right.now }
{
    if left.len() != right.len() {
        return false;
    }
    for (i, item) in left.iter().enumerate() {
        if !item.is_same(&right[i]) {
            return false;
        }
    }
    true
}

/// Whether two lists have the same numbers with the same values.
pub fn same_numbered<T: Same>(left: &[Numbered<T>], right: &[Numbered<T>]) -> bool
    ensures { result ≡ spec.same_list (spec.same_numbered T.same) (pairs left.now) (pairs right.now) }
{
    same_list(left, right)
}

impl<T: Same> Same for Numbered<T> {
    ghost same = { λ a b. nat_eq a.number b.number && T.same a.value b.value };

    fn is_same(&self, other: &Numbered<T>) -> bool {
        self.number == other.number && self.value.is_same(&other.value)
    }
}
