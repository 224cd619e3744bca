// Keys, and what stands before `?.`. (ECMA-262, 13.3.2 and 13.3.9.)

ghost use Rattle.std.specs.Prelude.{◌≡◌, IfOk, false};
ghost use Rattle.es_codes.specs.CodeView.{code_of};
ghost use Rattle.es_steps.specs.Expressions as spec;

use crate::literal::constant_code;
use es_codes::boxed::Boxed;
use es_codes::code::Code;
use es_codes::value::Constant;
use std::alloc::{AllocError, Global};

/// A key that is not computed: a name is a constant.
#[tactic(auto, using(crate::proofs::Keys::spelled_key, crate::proofs::Keys::other_key))]
fn named_key(key: Code) -> Code
    ensures { code_of result ≡ spec.key_code false (code_of key) }
{
    match key {
        Code::Spelled { spelling } => { constant_code(Constant::StringOf(spelling)) }
        other => other,
    }
}

/// The key of a member or an element: `k` in `o[k]`, where it is computed, or in `o.k`, where a name is a constant.
pub fn key_code(is_computed: bool, key: Code) -> Code
    ensures { code_of result ≡ spec.key_code is_computed (code_of key) }
{
    if is_computed { key } else { named_key(key) }
}

/// What stands before `?.` or `.`. Fails on allocation failure alone.
pub fn checked_object(alloc: Global, is_optional: bool, object: Code) -> Result<Code, AllocError>
    ensures { IfOk result (λ c. code_of c ≡ spec.checked_object is_optional (code_of object)) }
{
    if is_optional {
        Ok(Code::short(Boxed::new(alloc, object)?))
    } else {
        Ok(object)
    }
}
