// Codes that are moved into other codes.

ghost use Rattle.std.specs.Prelude.{◌≡◌, IfOk};
ghost use Rattle.es_codes.specs.CodeView.{code_of};
ghost use Rattle.es_steps.specs.Code as of;

use es_codes::boxed::Boxed;
use es_codes::code::Code;
use std::alloc::{AllocError, Global};
use std::mem;

/// Takes out a code, into a box. Fails on allocation failure alone.
pub fn take_boxed(alloc: Global, code: &mut Code) -> Result<Boxed<Code>, AllocError>
    ensures { IfOk result (λ b. b ≡ code.old) }
{
    Boxed::new(alloc, mem::replace(code, Code::nothing()))
}

/// What a generated call gives, without a receiver. Fails on allocation failure alone.
pub fn from_call(alloc: Global, code: Code) -> Result<Code, AllocError>
    ensures { IfOk result (λ e. code_of e ≡ of.from_call (code_of code)) }
{
    Ok(Code::from_call(Boxed::new(alloc, code)?))
}
