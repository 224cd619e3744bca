// The base of a generated name.

ghost use Rattle.std.specs.Prelude.{◌≡◌};
ghost use Rattle.std.specs.Str.{chars};
ghost use Rattle.es_names.specs.Candidates.{base_of, without_digits, without_underscores};

/// The string without the underscores in front of it, and then without the decimal digits at its end;
/// `temp` where nothing is left (oxc_traverse, `generate_uid`).
pub fn base_of(name: &str) -> &str
    ensures { chars result.now ≡ base_of (chars name.now) }
{
    let base = without_digits(without_underscores(name));
    if base.is_empty() { "temp" } else { base }
}

/// `__a1` is `a1`.
fn without_underscores(string: &str) -> &str
    ensures { chars result.now ≡ without_underscores (chars string.now) }
{
    string.trim_start_matches('_')
}

/// `a1b23` is `a1b`.
fn without_digits(string: &str) -> &str
    ensures { chars result.now ≡ without_digits (chars string.now) }
{
    string.trim_end_matches(|c: char| c.is_ascii_digit())
}
