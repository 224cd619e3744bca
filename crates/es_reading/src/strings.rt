// Strings that may be absent or empty.

ghost use Rattle.std.specs.Prelude.{◌≡◌, [], IfOk, option_map, bytes_eq};
ghost use Rattle.std.specs.Str.{chars};

use es_base::name::Name;
use std::alloc::{AllocError, Global};

/// The name of a string that may be absent. Fails on allocation failure alone.
pub fn nullable_name(alloc: Global, string: Option<&str>) -> Result<Option<Name>, AllocError>
    ensures { IfOk result (λ n. n ≡ option_map (λ s. chars s.now) string.entry) }
{
    match string {
        None => Ok(None),
        Some(string) => Ok(Some(Name::new(alloc, string)?)),
    }
}

/// Whether a string has no character.
pub fn is_empty_string(string: &str) -> bool
    ensures { result ≡ bytes_eq (chars string.now) [] }
{
    string.is_empty()
}
