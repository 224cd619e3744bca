// The places around the node at hand, one after the other.

ghost use Rattle.std.specs.Prelude.{◌≡◌, reverse};
ghost use Rattle.std.specs.Iterator.{YieldsFirstRef, item_count};

use crate::ancestor::Ancestor;
use std::marker::Model;

/// Places around a node, the innermost first, seen as the list of those that are left.
#[derive(Drop)]
pub struct Ancestors<'a> {
    /// The outermost first.
    path: &'a [Ancestor],
    /// How many of them are left.
    left: usize,
}

impl<'a> Model for Ancestors<'a> {
    ghost use Rattle.std.specs.Prelude.{List, ◌≤◌, length, reverse, take};
    ghost use Rattle.es_ctx.specs.declared.ancestor.Ancestor.{Ancestor};

    ghost Value = { List Ancestor };

    ghost view = { λ it. reverse (take it.left it.path.now) };

    ghost invariant = { λ it. it.left ≤ length it.path.now };
}

impl<'a> Ancestors<'a> {
    /// Of all these, which stand outermost first.
    #[tactic(auto, using(crate::proofs::Around::all_left))]
    pub(crate) fn new(path: &'a [Ancestor]) -> Ancestors<'a>
        ensures { result ≡ reverse path.now }
    {
        Ancestors {
            path,
            left: path.len(),
        }
    }
}

impl<'a> Iterator for Ancestors<'a> {
    type Item = &'a Ancestor;

    ghost next_gives = { YieldsFirstRef (λ rest. rest) };

    ghost remaining = { item_count (λ rest. rest) };

    #[tactic(auto, using(crate::proofs::Around::innermost_left, crate::proofs::Around::none_left))]
    fn next(&mut self) -> Option<&'a Ancestor> {
        if self.left == 0 {
            return None;
        }
        self.left -= 1;
        Some(&self.path[self.left])
    }
}
