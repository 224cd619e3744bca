// Properties that helpers define, and keys that they make. (ECMA-262, 7.3.6 and 7.1.19.)

ghost use Rattle.std.specs.Prelude.{◌≡◌, IfOk, option_map};
ghost use Rattle.es_codes.specs.CodeView.{code_of};
ghost use Rattle.es_steps.specs.GeneratedForms as spec;
ghost use Rattle.es_code_helpers.specs.Keys.{is_private_value};
ghost use Rattle.es_code_reading.specs.Contexts.{this_of};

use crate::known::known_value;
use crate::moved::{from_call, take_boxed};
use es_base::list::List;
use es_code_reading::context::This;
use es_codes::boxed::Boxed;
use es_codes::code::Code;
use std::alloc::{AllocError, Global};
use std::mem;

/// A property of a known object is defined; no rule, where the object is not known.
pub fn define_on(node: u32, object: Option<This>, key: Boxed<Code>, right: Boxed<Code>) -> Code
    ensures { code_of result ≡ spec.define_on node (option_map this_of object) (code_of key) (code_of right) }
{
    match object {
        Some(object) => Code::define(node, known_value(object), key, right),
        None => {
            drop(key);
            drop(right);
            Code::no_rule()
        }
    }
}

#[tactic(auto, using(crate::proofs::KeyForms::a_private_value, crate::proofs::KeyForms::no_private_value))]
fn is_private_value(code: &Code) -> bool
    ensures { result ≡ is_private_value (code_of code.now) }
{
    matches!(code, Code::PrivateValue { .. })
}

/// What a key is used for: one that is a private element is read in front of it, since it may not be there yet. Takes both
/// out. Fails on allocation failure alone.
#[tactic(auto, using(crate::proofs::KeyForms::key_read, crate::proofs::KeyForms::key_unread))]
pub fn with_key(alloc: Global, key: &mut Code, code: &mut Code) -> Result<Code, AllocError>
    ensures { IfOk result (λ e. code_of e ≡ spec.with_key (code_of key.old) (code_of code.old)) }
{
    if is_private_value(key) {
        let mut all = List::new(alloc);
        all.push(mem::replace(key, Code::nothing()))?;
        all.push(mem::replace(code, Code::nothing()))?;
        from_call(alloc, Code::sequence(all))
    } else {
        Ok(Code::from_call(take_boxed(alloc, code)?))
    }
}
