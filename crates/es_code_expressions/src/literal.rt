// Literals. (ECMA-262, 13.2.3.)

ghost use Rattle.std.specs.Prelude.{◌≡◌, IfOk};
ghost use Rattle.es_codes.specs.CodeView.{code_of};
ghost use Rattle.es_codes.specs.Constants.{constant_of};
ghost use Rattle.es_steps.specs.Code as of;
ghost use Rattle.es_steps.specs.Expressions as spec;
ghost use Rattle.es_steps.specs.Values.{ConstantOf};
ghost use Rattle.es_code_members.specs.MembersView.{member_of};

use es_base::kind::Kind;
use es_base::list::List;
use es_base::literal::LiteralValue;
use es_base::name::Name;
use es_code_members::member::Member;
use es_codes::code::Code;
use es_codes::event::{Detail, Operation};
use es_codes::value::{Constant, Origin, Value};
use std::alloc::{AllocError, Global};
use std::mem;

/// `1`, `"a"`
pub fn constant_code(constant: Constant) -> Code
    ensures { code_of result ≡ of.value (ConstantOf (constant_of constant)) }
{
    Code::value(Value::of(Origin::ConstantOf(constant)))
}

/// `/a/g`, which is another object each time. Fails on allocation failure alone.
fn reg_exp_code(alloc: Global, node: u32, pattern: Name, flags: Name) -> Result<Code, AllocError>
    ensures { IfOk result (λ c. code_of c ≡ spec.value_code node (LiteralValue.RegExp pattern flags)) }
{
    let mut details = List::new(alloc);
    details.push(Detail::Spelled(pattern))?;
    details.push(Detail::Spelled(flags))?;
    let operation = Operation::OfKind {
        kind: Kind::Literal,
        details,
    };
    Ok(Code::operation(node, operation, List::new(alloc), List::new(alloc)))
}

fn value_code(alloc: Global, node: u32, value: LiteralValue) -> Result<Code, AllocError>
    ensures { IfOk result (λ c. code_of c ≡ spec.value_code node value) }
{
    match value {
        LiteralValue::String { value, .. } => Ok(constant_code(Constant::StringOf(value))),
        LiteralValue::Number { raw } => Ok(constant_code(Constant::NumberOf(raw))),
        LiteralValue::BigInt { digits } => Ok(constant_code(Constant::BigIntOf(digits))),
        LiteralValue::RegExp { pattern, flags } => reg_exp_code(alloc, node, pattern, flags),
        LiteralValue::Boolean(boolean) => Ok(constant_code(Constant::BooleanOf(boolean))),
        LiteralValue::Null => Ok(constant_code(Constant::Null)),
    }
}

/// `1`. Fails on allocation failure alone.
pub fn literal_code(alloc: Global, node: u32, value: &mut Member) -> Result<Code, AllocError>
    ensures { IfOk result (λ c. code_of c ≡ spec.literal_code node (member_of value.old)) }
{
    match value {
        Member::Literal(value) => {
            value_code(alloc, node, mem::replace(value, LiteralValue::Null))
        }
        _ => Ok(Code::no_rule()),
    }
}
