// Templates: their strings as details, and what a tag is called with. (ECMA-262, 13.2.8.)

ghost use Rattle.std.specs.Prelude.{◌≡◌, IfOk, map};
ghost use Rattle.es_steps.specs.Evaluation.{tag_values, template_constant, template_details};
ghost use Rattle.es_base.specs.declared.kind.Kind.{Kind};
ghost use Rattle.es_steps.specs.Events as of_event;
ghost use Rattle.es_steps.specs.Values.{ResultOf, TagString};
ghost use Rattle.es_codes.specs.View.{detail_of, details_of};
ghost use Rattle.es_codes.specs.Constants.{constant_of};
ghost use Rattle.es_codes.specs.CodeView.{string_of};
ghost use Rattle.es_evaluation.specs.Flat as flat;
ghost use Rattle.es_evaluation.specs.Direct as direct;
ghost use Rattle.es_evaluator.specs.Running.{Returns, state_of};
ghost use Rattle.es_evaluator.specs.Templates.{cooked_detail, string_constant};

use crate::fault::Fault;
use crate::names::emit;
use crate::state::State;
use es_base::kind::Kind;
use es_base::list::List;
use es_base::literal::clone_of_nullable;
use es_base::name::Name;
use es_codes::code::TemplateString;
use es_codes::event::{Detail, Operation, Token};
use es_codes::value::{Constant, Origin, Value};
use std::alloc::{AllocError, Global};

/// What a string stands for, as a detail. Fails on allocation failure alone.
fn cooked_detail(alloc: Global, cooked: &Option<Name>) -> Result<Detail, AllocError>
    ensures { IfOk result (λ d. detail_of d ≡ cooked_detail cooked.now) }
{
    match cooked {
        None => Ok(Detail::Empty),
        Some(cooked) => Ok(Detail::Spelled(cooked.try_clone(alloc)?)),
    }
}

/// The details of a template: of each string its source, what it stands for, and whether it is the last.
/// Fails on allocation failure alone.
#[tactic(auto, using(crate::proofs::Strings::details_step))]
fn template_details(alloc: Global, strings: &[TemplateString]) -> Result<List<Detail>, AllocError>
    ensures { IfOk result (λ ds. details_of ds ≡ template_details (map string_of strings.now)) }
{
    let mut details = List::new(alloc);
    for i in 0..strings.len() {
        let string = &strings[i];
        details.push(Detail::Spelled(string.raw.try_clone(alloc)?))?;
        details.push(cooked_detail(alloc, &string.cooked)?)?;
        details.push(Detail::Flag(string.is_tail))?;
    }
    Ok(details)
}

/// A string that a tag is called with. Fails on allocation failure alone.
fn tag_string(alloc: Global, string: &TemplateString) -> Result<Constant, AllocError>
    ensures { IfOk result (λ c. constant_of c ≡ TagString string.now.raw string.now.cooked) }
{
    let raw = string.raw.try_clone(alloc)?;
    let cooked = clone_of_nullable(alloc, &string.cooked)?;
    Ok(Constant::TagString { raw, cooked })
}

/// A template of this string alone, which is the last. Fails on allocation failure alone.
fn template_constant(alloc: Global, string: &TemplateString) -> Result<Constant, AllocError>
    ensures { IfOk result (λ c. constant_of c ≡ template_constant string.now.raw string.now.cooked) }
{
    match &string.cooked {
        None => Ok(Constant::RawTemplate(string.raw.try_clone(alloc)?)),
        Some(cooked) => Ok(Constant::StringOf(cooked.try_clone(alloc)?)),
    }
}

/// A template of this string alone. Fails on allocation failure alone.
fn string_constant(alloc: Global, string: &TemplateString) -> Result<Constant, AllocError>
    ensures { IfOk result (λ c. constant_of c ≡ string_constant (string_of string.now)) }
{
    if string.is_tail {
        template_constant(alloc, string)
    } else {
        tag_string(alloc, string)
    }
}

/// The strings of a template that a tag is called with, in front of the values of its expressions. Fails on
/// allocation failure alone.
#[tactic(auto, using(crate::proofs::Strings::tag_step, crate::proofs::Strings::no_tag))]
pub fn tag_values(
    alloc: Global,
    strings: &[TemplateString],
    values: List<Value>,
) -> Result<List<Value>, AllocError>
    ensures { IfOk result (λ vs. vs ≡ tag_values (map string_of strings.now) values) }
{
    let mut all = values;
    let mut i = strings.len();
    while i > 0 {
        i -= 1;
        let string = tag_string(alloc, &strings[i])?;
        all.insert(0, Value::of(Origin::ConstantOf(string)))?;
    }
    Ok(all)
}

/// A template with expressions, or of several strings.
fn emit_template(
    alloc: Global,
    state: &mut State,
    node: u32,
    strings: &[TemplateString],
    operands: List<Value>,
) -> Result<Value, Fault>
    ensures { Returns (λ v. v) result state.new (direct.emit (flat.single (of_event.Operate node (of_event.OfKind Kind.TemplateLiteral (template_details (map string_of strings.now))) operands)) (ResultOf node) (state_of state.old)) }
{
    let details = template_details(alloc, strings)?;
    let kind = Kind::TemplateLiteral;
    let operation = Operation::OfKind { kind, details };
    let token = Token::Operate {
        node,
        operation,
        operands,
    };
    emit(state, token, Value::result_of(node))
}

/// A template whose expressions have these values; one without expressions is a constant.
#[tactic(auto, using(crate::proofs::Strings::template_alone, crate::proofs::Strings::template_whole))]
pub fn template_value(
    alloc: Global,
    state: &mut State,
    node: u32,
    strings: &[TemplateString],
    values: List<Value>,
) -> Result<Value, Fault>
    ensures { Returns (λ v. v) result state.new (direct.ev_template node (map string_of strings.now) values (state_of state.old)) }
{
    if strings.len() == 1 && values.is_empty() {
        let constant = string_constant(alloc, &strings[0])?;
        return Ok(Value::of(Origin::ConstantOf(constant)));
    }
    emit_template(alloc, state, node, strings, values)
}
