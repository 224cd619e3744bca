// Updates, calls with `new`, and chains. (ECMA-262, 13.3.5, 13.3.9 and 13.4.)

ghost use Rattle.std.specs.Prelude.{◌≡◌, IfOk};
ghost use Rattle.es_codes.specs.CodeView.{code_of};
ghost use Rattle.es_steps.specs.Expressions as spec;
ghost use Rattle.es_steps.specs.Members as members;
ghost use Rattle.es_code_members.specs.MembersView.{member_of};

use es_code_members::codes::take_codes;
use es_code_members::member::{Member, copy_word, flag_of, take_code};
use es_code_targets::target::boxed_target;
use es_codes::boxed::Boxed;
use es_codes::code::Code;
use std::alloc::{AllocError, Global};

/// `t++`. Fails on allocation failure alone.
pub fn update_code(
    alloc: Global,
    node: u32,
    operator: &Member,
    argument: &mut Member,
    is_prefix: &Member,
) -> Result<Code, AllocError>
    ensures { IfOk result (λ c. code_of c ≡ spec.update_code node (members.more (member_of operator.now) (members.more (member_of argument.old) (members.more (member_of is_prefix.now) members.end)))) }
{
    let operator = copy_word(alloc, operator)?;
    let to = boxed_target(alloc, take_code(argument))?;
    Ok(Code::update(node, operator, flag_of(is_prefix), to))
}

/// `new f(a)`. Fails on allocation failure alone.
pub fn new_code(
    alloc: Global,
    node: u32,
    callee: &mut Member,
    arguments: &mut Member,
) -> Result<Code, AllocError>
    ensures { IfOk result (λ c. code_of c ≡ spec.new_code node (members.more (member_of callee.old) (members.more (member_of arguments.old) members.end))) }
{
    let arguments = take_codes(alloc, arguments)?;
    let callee = Boxed::new(alloc, take_code(callee))?;
    Ok(Code::construct(node, callee, arguments))
}

/// `(o?.k)`. Fails on allocation failure alone.
pub fn chain_code(alloc: Global, node: u32, expression: &mut Member) -> Result<Code, AllocError>
    ensures { IfOk result (λ c. code_of c ≡ spec.chain_code node (members.more (member_of expression.old) members.end)) }
{
    Ok(Code::chain(node, Boxed::new(alloc, take_code(expression))?))
}
