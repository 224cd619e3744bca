// A member, without its object.

ghost use Rattle.std.specs.Prelude.{◌≡◌, IfOk};
ghost use Rattle.es_codes.specs.CodeView.{code_of};
ghost use Rattle.es_steps.specs.Code as of;
ghost use Rattle.es_code_generated_members.specs.Accesses.{accessed};

use es_code_expressions::key::checked_object;
use es_codes::boxed::Boxed;
use es_codes::code::Code;
use std::alloc::{AllocError, Global};

/// The member `o[k]` or `o?.[k]` of a node, without its object.
#[derive(Drop)]
pub struct Access {
    pub node: u32,
    pub is_optional: bool,
    pub key: Boxed<Code>,
}

impl Access {
    /// The member of this object. Fails on allocation failure alone.
    pub fn on(self, alloc: Global, object: Code) -> Result<Code, AllocError>
        ensures { IfOk result (λ e. code_of e ≡ accessed self (code_of object)) }
    {
        let object = checked_object(alloc, self.is_optional, object)?;
        let object = Boxed::new(alloc, object)?;
        Ok(Code::member(self.node, object, self.key))
    }
}

/// What a generated member gives, without a receiver. Fails on allocation failure alone.
pub fn from_member(alloc: Global, code: Code) -> Result<Code, AllocError>
    ensures { IfOk result (λ e. code_of e ≡ of.from_member (code_of code)) }
{
    Ok(Code::from_member(Boxed::new(alloc, code)?))
}
