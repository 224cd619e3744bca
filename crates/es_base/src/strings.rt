// Tests of strings, by their characters and by their bytes.

ghost use Rattle.std.specs.Prelude.{◌≡◌, map, bytes_eq, is_some, IfSome, true};
ghost use Rattle.std.specs.Str.{chars};
ghost use Rattle.es_base.specs.Ascii.{is_ascii};
ghost use Rattle.es_base.specs.Conforms.{is_among, begins_with, is_foreign_name, is_number_string};
ghost use Rattle.es_base.specs.Table.{words_of};
ghost use Rattle.es_base.specs.Words.{is_of_set, word_string};

use crate::operator::Word;
use crate::table::Words;
use crate::word::{all_of_set, word_str};

/// Whether the string is this word.
#[tactic(auto, using(crate::proofs::Spelling::bytes_eq_chars))]
pub fn is_word(string: &str, word: &str) -> bool
    ensures by_chars { result ≡ bytes_eq (chars word.now) (chars string.now) }
    ensures by_bytes { result ≡ bytes_eq word.now string.now }
{
    word == string
}

/// Whether the string is this ASCII word, whose characters are its bytes.
#[tactic(auto, using(crate::proofs::Ascii::chars_ascii))]
pub fn spells(string: &str, word: &str) -> bool
    requires { is_ascii word.now ≡ true }
    ensures { result ≡ bytes_eq (chars string.now) word.now }
{
    is_word(word, string)
}

/// Whether the string is one of these words.
pub fn is_among(string: &str, words: &[&str]) -> bool
    ensures by_chars { result ≡ is_among (chars string.now) (map (λ w. chars w.now) words.now) }
    ensures by_bytes { result ≡ is_among string.now (map (λ w. w.now) words.now) }
{
    for word in words {
        if is_word(string, word) {
            return true;
        }
    }
    false
}

/// The word of the set that is written so, if there is one.
#[tactic(auto, using(crate::proofs::Spelling::each_of_set, crate::proofs::Spelling::chars_of_word))]
pub fn word_of(string: &str, set: Words) -> Option<Word>
    ensures some { is_some result ≡ is_among string.now (words_of set) }
    ensures set { IfSome result (λ w. is_of_set set w ≡ true) }
    ensures bytes { IfSome result (λ w. word_string w ≡ string.now) }
    ensures chars { IfSome result (λ w. word_string w ≡ chars string.now) }
{
    for word in all_of_set(set) {
        if is_word(string, word_str(*word)) {
            return Some(*word);
        }
    }
    None
}

/// Whether the string begins with this one.
#[tactic(auto, using(std::proofs::lemmas::Str::Pattern::starts_text, crate::proofs::Spelling::begins_with_chars))]
pub fn begins_with(string: &str, start: &str) -> bool
    ensures { result ≡ begins_with (chars start.now) (chars string.now) }
{
    string.starts_with(start)
}

/// Whether the string is the type of a node outside the table which is kept as a leaf: of TypeScript,
/// JSX, a decorator or an accessor. (docs/TREE.md)
pub fn is_foreign_name(string: &str) -> bool
    ensures { result ≡ is_foreign_name (chars string.now) }
{
    begins_with(string, "TS")
        || begins_with(string, "JSX")
        || is_among(string, &["Decorator", "AccessorProperty"])
}

/// Whether a number may be known by this string: it begins with a digit or a full stop.
pub fn is_number_string(string: &str) -> bool
    ensures { result ≡ is_number_string (chars string.now) }
{
    match string.chars().next() {
        Some(first) => first == '.' || first.is_ascii_digit(),
        None => false,
    }
}
