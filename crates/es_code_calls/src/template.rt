// Templates. (ECMA-262, 13.2.8 and 13.3.11.)

ghost use Rattle.std.specs.Prelude.{◌≡◌, ◌++◌, IfOk, OnOk, map};
ghost use Rattle.es_codes.specs.CodeView.{code_of, codes_of, string_of};
ghost use Rattle.es_steps.specs.Code as of;
ghost use Rattle.es_steps.specs.Expressions as spec;
ghost use Rattle.es_steps.specs.Members as members;
ghost use Rattle.es_code_members.specs.MembersView.{member_of};

use crate::callee::boxed_callee;
use es_base::list::List;
use es_base::name::Name;
use es_code_members::codes::take_codes;
use es_code_members::member::{Member, copy_word, flag_of, take_code};
use es_codes::boxed::Boxed;
use es_codes::code::{Code, TemplateString};
use std::alloc::{AllocError, Global};
use std::mem;

fn copy_cooked(alloc: Global, cooked: &Member) -> Result<Option<Name>, AllocError>
    ensures { IfOk result (λ s. s ≡ spec.cooked_of (member_of cooked.now)) }
{
    match cooked {
        Member::String(string) => Ok(Some(string.try_clone(alloc)?)),
        _ => Ok(None),
    }
}

/// In a template, a string. Fails on allocation failure alone.
pub fn template_string_code(
    alloc: Global,
    raw: &Member,
    cooked: &Member,
    is_tail: &Member,
) -> Result<Code, AllocError>
    ensures { IfOk result (λ c. code_of c ≡ spec.template_string_code (members.more (member_of raw.now) (members.more (member_of cooked.now) (members.more (member_of is_tail.now) members.end)))) }
{
    let raw = copy_word(alloc, raw)?;
    let cooked = copy_cooked(alloc, cooked)?;
    Ok(Code::template_string(TemplateString {
        raw,
        cooked,
        is_tail: flag_of(is_tail),
    }))
}

/// Adds the string that a code is, if it is one. Fails on allocation failure alone.
#[tactic(auto, using(crate::proofs::Templates::a_string, crate::proofs::Templates::no_string, crate::proofs::Templates::one_more, crate::proofs::Templates::none_more))]
fn add_string_of(code: Code, strings: &mut List<TemplateString>) -> Result<(), AllocError>
    ensures { OnOk result (map string_of strings.new ≡ map string_of strings.old ++ spec.template_strings (of.and (code_of code) of.done)) }
{
    match code {
        Code::TemplateString { string } => strings.push(string),
        other => {
            drop(other);
            Ok(())
        }
    }
}

fn add_string(code: &mut Code, strings: &mut List<TemplateString>) -> Result<(), AllocError>
    ensures { OnOk result (map string_of strings.new ≡ map string_of strings.old ++ spec.template_strings (of.and (code_of code.old) of.done)) }
{
    add_string_of(mem::replace(code, Code::nothing()), strings)
}

/// The strings among these codes, which are taken out. Fails on allocation failure alone.
fn add_strings(codes: &mut [Code], strings: &mut List<TemplateString>) -> Result<(), AllocError>
    ensures { OnOk result (map string_of strings.new ≡ map string_of strings.old ++ spec.template_strings (codes_of codes.old)) }
{
    for code in codes.iter_mut() {
        add_string(code, strings)?;
    }
    Ok(())
}

/// `` `a${b}` ``. Fails on allocation failure alone.
pub fn template_code(
    alloc: Global,
    node: u32,
    quasis: &mut Member,
    expressions: &mut Member,
) -> Result<Code, AllocError>
    ensures { IfOk result (λ c. code_of c ≡ spec.template_code node (members.more (member_of quasis.old) (members.more (member_of expressions.old) members.end))) }
{
    let mut quasis = take_codes(alloc, quasis)?;
    let mut strings = List::new(alloc);
    add_strings(quasis.as_mut_slice(), &mut strings)?;
    let expressions = take_codes(alloc, expressions)?;
    Ok(Code::template(node, strings, expressions))
}

/// `` f`a${b}` ``
#[tactic(auto, using(crate::proofs::Templates::of_template, crate::proofs::Templates::of_none))]
fn tag_of(
    alloc: Global,
    node: u32,
    tag: &mut Member,
    template: &mut Code,
) -> Result<Code, AllocError>
    ensures { IfOk result (λ c. code_of c ≡ spec.tag_of node (spec.the_code (member_of tag.old)) (code_of template.old)) }
{
    match template {
        Code::Template {
            strings,
            expressions,
            ..
        } => {
            let callee = boxed_callee(alloc, take_code(tag))?;
            let strings = mem::replace(strings, List::new(alloc));
            let expressions = mem::replace(expressions, List::new(alloc));
            Ok(Code::tag(node, callee, strings, expressions))
        }
        _ => Ok(Code::no_rule()),
    }
}

/// `` f`a${b}` ``. Fails on allocation failure alone.
pub fn tag_code(
    alloc: Global,
    node: u32,
    tag: &mut Member,
    template: &mut Member,
) -> Result<Code, AllocError>
    ensures { IfOk result (λ c. code_of c ≡ spec.tag_code node (members.more (member_of tag.old) (members.more (member_of template.old) members.end))) }
{
    match template {
        Member::Code(template) => tag_of(alloc, node, tag, template),
        _ => Ok(Code::no_rule()),
    }
}
