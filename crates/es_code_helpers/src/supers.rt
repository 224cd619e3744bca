// Members of `super` as helpers read and write them. (ECMA-262, 13.3.7.)

ghost use Rattle.std.specs.Prelude.{◌≡◌, IfOk, option_map};
ghost use Rattle.es_codes.specs.CodeView.{code_of};
ghost use Rattle.es_steps.specs.GeneratedForms as spec;
ghost use Rattle.es_code_reading.specs.Contexts.{nullable_home, this_of};

use crate::known::known_value;
use crate::moved::from_call;
use crate::private::assigned_value;
use es_code_reading::context::This;
use es_codes::boxed::Boxed;
use es_codes::code::{Code, Target};
use es_codes::event::Home;
use std::alloc::{AllocError, Global};

/// `super[k]`, looked up on a class or its prototype; no rule, where that or `this` is not known. Fails on allocation failure
/// alone.
pub fn super_get(
    alloc: Global,
    node: u32,
    home: Option<Home>,
    key: Boxed<Code>,
    this: Option<This>,
) -> Result<Code, AllocError>
    ensures { IfOk result (λ e. code_of e ≡ spec.super_get node (nullable_home home) (code_of key) (option_map this_of this)) }
{
    match home {
        Some(home) => match this {
            Some(this) => {
                from_call(
                    alloc,
                    Code::super_member(node, home, key, known_value(this)),
                )
            }
            None => {
                drop(key);
                Ok(Code::no_rule())
            }
        },
        None => {
            drop(key);
            Ok(Code::no_rule())
        }
    }
}

/// `super[k] = v`, likewise. Fails on allocation failure alone.
pub fn super_set(
    alloc: Global,
    is_new: bool,
    node: u32,
    home: Option<Home>,
    key: Boxed<Code>,
    value: Code,
    this: Option<This>,
) -> Result<Code, AllocError>
    ensures { IfOk result (λ e. code_of e ≡ spec.super_set is_new node (nullable_home home) (code_of key) (code_of value) (option_map this_of this)) }
{
    match home {
        Some(home) => match this {
            Some(this) => {
                let right = Boxed::new(alloc, assigned_value(alloc, is_new, node, value)?)?;
                let to = Target::to_super(node, home, key, known_value(this));
                Ok(Code::assign(Boxed::new(alloc, to)?, right))
            }
            None => {
                drop(key);
                drop(value);
                Ok(Code::no_rule())
            }
        },
        None => {
            drop(key);
            drop(value);
            Ok(Code::no_rule())
        }
    }
}
