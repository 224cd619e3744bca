// Names (ECMA-262, 12.7). Of the characters from U+0080 on, all but white space and line ends are taken for those of names.

ghost use Rattle.std.specs.Prelude.{◌≡◌};
ghost use Rattle.std.specs.Str.{chars};
ghost use Rattle.es_base.specs.Conforms.{is_among};
ghost use Rattle.es_steps.specs.Printable as spec;
ghost use Rattle.es_steps.specs.Printable.{all_in_name, is_name, is_number_among, reserved_words, wide_spaces};

use crate::text::{is_digit, is_letter, split_first};
use es_base::strings::is_among;

/// Whether the string is a name.
pub fn is_name(text: &str) -> bool
    ensures { result ≡ is_name (chars text.now) }
{
    match split_first(text) {
        Some((first, rest)) => begins_name(first) && all_in_name(rest),
        None => false,
    }
}

/// Whether each character may stand in a name.
fn all_in_name(text: &str) -> bool
    ensures { result ≡ all_in_name (chars text.now) }
{
    let mut rest = text;
    while let Some((first, behind)) = split_first(rest) {
        if !(begins_name(first) || is_digit(first)) {
            return false;
        }
        rest = behind;
    }
    true
}

/// Whether a name may begin with the character.
fn begins_name(character: char) -> bool
    ensures { result ≡ spec.begins_name character }
{
    is_letter(character) || (character == '_' || (character == '$' || is_wide(character)))
}

/// Whether the character is from U+0080 on, and neither white space nor a line end.
fn is_wide(character: char) -> bool
    ensures { result ≡ spec.is_wide character }
{
    '\u{80}' <= character
        && !(is_wide_space(character) || ('\u{2000}' <= character && character <= '\u{200a}'))
}

fn is_wide_space(character: char) -> bool
    ensures { result ≡ is_number_among character wide_spaces }
{
    matches!(
        character,
        '\u{a0}'
            | '\u{1680}'
            | '\u{202f}'
            | '\u{205f}'
            | '\u{2028}'
            | '\u{2029}'
            | '\u{3000}'
            | '\u{feff}'
    )
}

/// Whether the string is a word that is reserved everywhere (12.7.2).
pub fn is_reserved_everywhere(name: &str) -> bool
    ensures { result ≡ is_among (chars name.now) reserved_words }
{
    is_among(
        name,
        &[
            "break",
            "case",
            "catch",
            "class",
            "const",
            "continue",
            "debugger",
            "default",
            "delete",
            "do",
            "else",
            "enum",
            "export",
            "extends",
            "false",
            "finally",
            "for",
            "function",
            "if",
            "import",
            "in",
            "instanceof",
            "new",
            "null",
            "return",
            "super",
            "switch",
            "this",
            "throw",
            "true",
            "try",
            "typeof",
            "var",
            "void",
            "while",
            "with",
        ],
    )
}
