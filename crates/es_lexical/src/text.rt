// Strings, character by character.

ghost use Rattle.std.specs.Prelude.{◌≡◌, ◌<◌, ◌∷◌, [], IfNone, IfSome, Some, length};
ghost use Rattle.std.specs.Str.{chars, IsUtf8};
ghost use Rattle.es_steps.specs.Printable as spec;
ghost use Rattle.es_steps.specs.Printable.{has_line_end, only_digits, only_letters};

/// The first character of a string, and what stands behind it; nothing of the empty string.
pub fn split_first(text: &str) -> Option<(char, &str)>
    ensures some { IfSome result (λ r. chars text.now ≡ r.0 ∷ chars r.1.now) }
    ensures none { IfNone result (chars text.now ≡ []) }
    ensures utf8 { IfSome result (λ r. IsUtf8 r.1.now) }
    ensures shorter { IfSome result (λ r. length r.1.now < length text.now) }
{
    match text.chars().next() {
        Some(first) => Some((first, &text[first.len_utf8()..])),
        None => None,
    }
}

/// Whether the string is empty.
pub fn is_empty(text: &str) -> bool
    ensures { result ≡ spec.is_end (Some (chars text.now)) }
{
    split_first(text).is_none()
}

/// Whether the character is a digit.
pub fn is_digit(character: char) -> bool
    ensures { result ≡ spec.is_digit character }
{
    '0' <= character && character <= '9'
}

/// Whether all characters are digits.
pub fn only_digits(text: &str) -> bool
    ensures { result ≡ only_digits (chars text.now) }
{
    let mut rest = text;
    while let Some((first, behind)) = split_first(rest) {
        if !is_digit(first) {
            return false;
        }
        rest = behind;
    }
    true
}

/// Whether the character is a letter of ASCII.
pub fn is_letter(character: char) -> bool
    ensures { result ≡ spec.is_letter character }
{
    ('A' <= character && character <= 'Z') || ('a' <= character && character <= 'z')
}

/// Whether all characters are letters of ASCII.
pub fn only_letters(text: &str) -> bool
    ensures { result ≡ only_letters (chars text.now) }
{
    let mut rest = text;
    while let Some((first, behind)) = split_first(rest) {
        if !is_letter(first) {
            return false;
        }
        rest = behind;
    }
    true
}

/// Whether the character ends a line (12.3).
pub fn is_line_end(character: char) -> bool
    ensures { result ≡ spec.is_line_end character }
{
    matches!(character, '\n' | '\r' | '\u{2028}' | '\u{2029}')
}

/// Whether a character ends a line.
pub fn has_line_end(text: &str) -> bool
    ensures { result ≡ has_line_end (chars text.now) }
{
    let mut rest = text;
    while let Some((first, behind)) = split_first(rest) {
        if is_line_end(first) {
            return true;
        }
        rest = behind;
    }
    false
}
