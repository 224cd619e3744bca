// Numeric literals (ECMA-262, 12.8.3): digits of a base, with `_` between two of them; a fraction and an exponent.

ghost use Rattle.std.specs.Prelude.{◌≡◌, ◌∷◌, false, option_map, Some};
ghost use Rattle.std.specs.Str.{chars};
ghost use Rattle.es_lexical.specs.Bases.{has_base, has_digit, is_based_text};
ghost use Rattle.es_steps.specs.Printable as spec;
ghost use Rattle.es_steps.specs.Printable.{digits, is_behind_digits, is_bigint, is_decimal, is_exponent, is_exponent_behind, is_fraction, is_number, without_sign};

use crate::text::{is_digit, is_empty, only_digits, split_first};

/// What the digits of a number count.
#[derive(Debug, Clone, Copy, PartialEq, Eq)]
pub enum Base {
    Decimal,
    Hexadecimal,
    Octal,
    Binary,
}

/// Whether the string is a number.
#[tactic(auto, using(crate::proofs::Scanning::by_base))]
pub fn is_number(text: &str) -> bool
    ensures { result ≡ is_number (chars text.now) }
{
    has_base(text) || is_decimal(text)
}

/// Whether the string is a number in another base: `0x1`, `0o1`, `0b1`.
fn has_base(text: &str) -> bool
    ensures { result ≡ has_base (chars text.now) }
{
    match split_first(text) {
        Some((first, rest)) => first == '0' && is_based_text(rest),
        None => false,
    }
}

/// Whether the string is what stands behind the `0` of such a number.
fn is_based_text(text: &str) -> bool
    ensures { result ≡ is_based_text (chars text.now) }
{
    match split_first(text) {
        Some((letter, rest)) => is_based(letter, rest),
        None => false,
    }
}

/// Whether the letter names a base, and the string is digits of that.
fn is_based(letter: char, text: &str) -> bool
    ensures { result ≡ spec.is_based letter (chars text.now) }
{
    ((letter == 'x' || letter == 'X') && all_digits(Base::Hexadecimal, text))
        || (((letter == 'o' || letter == 'O') && all_digits(Base::Octal, text))
            || ((letter == 'b' || letter == 'B') && all_digits(Base::Binary, text)))
}

/// Whether the string is the digits of a bigint.
pub fn is_bigint(text: &str) -> bool
    ensures { result ≡ is_bigint (chars text.now) }
{
    match split_first(text) {
        Some((first, rest)) => is_bigint_from(first, rest),
        None => false,
    }
}

fn is_bigint_from(first: char, rest: &str) -> bool
    ensures { result ≡ is_bigint (first ∷ chars rest.now) }
{
    match split_first(rest) {
        Some((second, behind)) => {
            if first == '0' {
                is_based(second, behind)
            } else {
                is_digit(first) && only_digits(rest)
            }
        }
        None => is_digit(first),
    }
}

// ---- decimal numbers

fn is_decimal(text: &str) -> bool
    ensures { result ≡ is_decimal (chars text.now) }
{
    match split_first(text) {
        Some((first, rest)) => {
            if first == '.' {
                is_exponent_behind(digits(Base::Decimal, rest))
            } else {
                is_behind_digits(digits(Base::Decimal, text))
            }
        }
        None => false,
    }
}

/// Whether what stands behind digits is nothing, a fraction or an exponent.
fn is_behind_digits(behind: Option<&str>) -> bool
    ensures { result ≡ is_behind_digits (option_map (λ s. chars s.now) behind.entry) }
{
    match behind {
        Some(text) => is_rest(text),
        None => false,
    }
}

fn is_rest(text: &str) -> bool
    ensures { result ≡ is_behind_digits (Some (chars text.now)) }
{
    match split_first(text) {
        Some((first, rest)) => {
            if first == '.' {
                is_fraction(rest)
            } else {
                is_exponent(text)
            }
        }
        None => true,
    }
}

/// Whether the string may stand behind a full stop that stands behind digits.
fn is_fraction(text: &str) -> bool
    ensures { result ≡ is_fraction (chars text.now) }
{
    is_exponent(text) || is_exponent_behind(digits(Base::Decimal, text))
}

/// Whether what stands behind digits is an exponent or nothing.
fn is_exponent_behind(behind: Option<&str>) -> bool
    ensures { result ≡ is_exponent_behind (option_map (λ s. chars s.now) behind.entry) }
{
    match behind {
        Some(text) => is_exponent(text),
        None => false,
    }
}

/// Whether the string is an exponent or nothing.
fn is_exponent(text: &str) -> bool
    ensures { result ≡ is_exponent (chars text.now) }
{
    match split_first(text) {
        Some((first, rest)) => {
            (first == 'e' || first == 'E') && all_digits(Base::Decimal, without_sign(rest))
        }
        None => true,
    }
}

fn without_sign(text: &str) -> &str
    ensures { chars result.now ≡ without_sign (chars text.now) }
{
    match split_first(text) {
        Some((first, rest)) => {
            if first == '+' || first == '-' {
                rest
            } else {
                text
            }
        }
        None => text,
    }
}

// ---- digits

/// Whether the string is digits alone.
fn all_digits(base: Base, text: &str) -> bool
    ensures { result ≡ spec.all_digits (has_digit base) (chars text.now) }
{
    match digits(base, text) {
        Some(behind) => is_empty(behind),
        None => false,
    }
}

/// What stands behind the digits that the string begins with, if it does.
fn digits(base: Base, text: &str) -> Option<&str>
    ensures { option_map (λ s. chars s.now) result ≡ digits (has_digit base) false (chars text.now) }
{
    let mut rest = text;
    let mut met = false;
    while let Some((first, behind)) = split_first(rest) {
        if has_digit(base, first) {
            met = true;
        } else if first == '_' && met {
            met = false;
        } else {
            break;
        }
        rest = behind;
    }
    if met { Some(rest) } else { None }
}

/// Whether the character is a digit of the base.
fn has_digit(base: Base, character: char) -> bool
    ensures { result ≡ has_digit base character }
{
    match base {
        Base::Decimal => is_digit(character),
        Base::Hexadecimal => is_hexadecimal(character),
        Base::Octal => '0' <= character && character <= '7',
        Base::Binary => character == '0' || character == '1',
    }
}

fn is_hexadecimal(character: char) -> bool
    ensures { result ≡ spec.is_hexadecimal character }
{
    is_digit(character)
        || (('A' <= character && character <= 'F') || ('a' <= character && character <= 'f'))
}
