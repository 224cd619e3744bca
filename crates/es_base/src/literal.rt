// The values of literals.

ghost use Rattle.std.specs.Prelude.{◌≡◌, IfOk};

use crate::name::Name;
use std::alloc::{AllocError, Global};

/// What a literal is (ECMA-262, 12.8 and 13.2.3). Numbers, bigints and regular expressions are known by
/// their strings.
#[derive(Drop)]
pub enum LiteralValue {
    /// A string, and its source text where that is known.
    String { value: Name, raw: Option<Name> },
    /// A number, by its source text.
    Number { raw: Name },
    /// A bigint, by its decimal digits.
    BigInt { digits: Name },
    /// A regular expression.
    RegExp { pattern: Name, flags: Name },
    /// `true` or `false`.
    Boolean(bool),
    /// `null`.
    Null,
}

impl LiteralValue {
    /// A copy. Fails on allocation failure alone.
    pub fn try_clone(&self, alloc: Global) -> Result<LiteralValue, AllocError>
        ensures { IfOk result (λ v. v ≡ self.now) }
    {
        Ok(match self {
            LiteralValue::String { value, raw } => {
                let value = value.try_clone(alloc)?;
                LiteralValue::String {
                    value,
                    raw: clone_of_nullable(alloc, raw)?,
                }
            }
            LiteralValue::Number { raw } => LiteralValue::Number {
                raw: raw.try_clone(alloc)?,
            },
            LiteralValue::BigInt { digits } => LiteralValue::BigInt {
                digits: digits.try_clone(alloc)?,
            },
            LiteralValue::RegExp { pattern, flags } => {
                let pattern = pattern.try_clone(alloc)?;
                LiteralValue::RegExp {
                    pattern,
                    flags: flags.try_clone(alloc)?,
                }
            }
            LiteralValue::Boolean(value) => LiteralValue::Boolean(*value),
            LiteralValue::Null => LiteralValue::Null,
        })
    }
}

/// A copy of a string that may be absent.
pub fn clone_of_nullable(alloc: Global, name: &Option<Name>) -> Result<Option<Name>, AllocError>
    ensures { IfOk result (λ n. n ≡ name.now) }
{
    match name {
        None => Ok(None),
        Some(name) => Ok(Some(name.try_clone(alloc)?)),
    }
}
