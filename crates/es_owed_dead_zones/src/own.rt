// The touches that a node has by itself.

ghost use Rattle.std.specs.Prelude.{◌≡◌, ◌++◌, [], None, Some, cond, false, nat_eq, option_map, OnOk};
ghost use Rattle.es_base.specs.Numbered as numbered;
ghost use Rattle.es_base.specs.declared.kind.Kind.{Kind};
ghost use Rattle.es_lowered.specs.DeadZones as spec;
ghost use Rattle.es_marks.specs.Around.{held_in};
ghost use Rattle.es_node.specs.View.{kind_of, number_in, parts_in, parts_of};
ghost use Rattle.es_references.specs.References.{reference_of, references_of};
ghost use Rattle.es_referents.specs.Meanings.{of_number};
ghost use Rattle.es_steps.specs.Parts.{at};
ghost use Rattle.es_steps.specs.Printable.{has_optional};
ghost use Rattle.es_steps.specs.References as references;
ghost use Rattle.es_owed_dead_zones.specs.Own.{own_form, touches_by};
ghost use Rattle.es_touches.specs.Touches.{form_of, kept_touches};
ghost use Rattle.es_owed_dead_zones.specs.Walk as walked;
ghost use Rattle.es_owed_dead_zones.specs.Walk.{spot_of};

use crate::spot::{Spot, held_behind, push_around, push_touch};
use crate::terms::Terms;
use es_base::kind::Kind;
use es_base::strings::spells;
use es_binding_faults::hoisted::part_at;
use es_generated::numbers::is_new;
use es_marks::around::HeldParts;
use es_node::node::{Node, Part};
use es_owed_initialized::spelling::spelling_at;
use es_references::references::Reference;
use es_referents::Referents;
use es_seen_names::parts::string_at;
use es_touches::forms::{
    defines, ends_in_throw, is_member, is_setter_slot, is_still, is_writer, sets_member,
};
use es_touches::touch::{KeptTouch, TouchForm};
use es_validity::class::is_super_call;
use es_validity::parts::has_optional;
use std::alloc::{AllocError, Global};

/// Adds the touches that a node has by itself, which stands so. Fails on allocation failure alone.
#[tactic(auto, using(crate::proofs::OwnTouches::own_reference, crate::proofs::OwnTouches::own_spread, crate::proofs::OwnTouches::own_by_form))]
pub fn add_own(
    alloc: Global,
    terms: &Terms,
    spot: &Spot,
    node: &Node,
    touches: &mut Vec<KeptTouch>,
) -> Result<(), AllocError>
    ensures { OnOk result (kept_touches touches.new.items ≡ kept_touches touches.old.items ++ walked.own_touches terms.now (spot_of spot.now) (spec.held_behind (spot_of spot.now).chain (has_optional node.now) (spot_of spot.now).held) (kind_of node.now) (number_in node.now) (parts_in node.now)) }
{
    let held = held_behind(spot, has_optional(node));
    let number = node.node_id().0;
    match node.kind() {
        // a
        Kind::IdentifierReference => add_references(alloc, terms, &held, number, touches),
        // f(...a)
        Kind::SpreadElement => push_around(alloc, spot, touches),
        _ => add_form(alloc, &held, number, own_form(terms, node), touches),
    }
}

/// Adds a touch of this form, if any. Fails on allocation failure alone.
fn add_form(
    alloc: Global,
    held: &HeldParts,
    number: u32,
    form: Option<TouchForm>,
    touches: &mut Vec<KeptTouch>,
) -> Result<(), AllocError>
    ensures { OnOk result (kept_touches touches.new.items ≡ kept_touches touches.old.items ++ touches_by (held_in held.now) number (option_map form_of form)) }
{
    match form {
        Some(form) => push_touch(alloc, held, number, form, touches),
        None => Ok(()),
    }
}

/// The form of the touch that a node has by itself which is no reference and no spread.
#[tactic(auto, using(crate::proofs::OwnTouches::form_other))]
fn own_form(terms: &Terms, node: &Node) -> Option<TouchForm>
    ensures { option_map form_of result ≡ own_form terms.now (kind_of node.now) (number_in node.now) (parts_in node.now) }
{
    match node.kind() {
        // this
        Kind::ThisExpression => Some(TouchForm::ReadsThis),
        // f(), super()
        Kind::CallExpression => Some(called_form(terms, node)),
        // this.a = b
        Kind::AssignmentExpression => Some(assignment_form(terms, node)),
        // this.a++
        Kind::UpdateExpression => Some(update_form(terms, node)),
        // (a, babelHelpers.readOnlyError("#b"))
        Kind::SequenceExpression => another_if(ends_in_throw(node)),
        kind => another_if(!is_still(kind)),
    }
}

fn another_if(is_touched: bool) -> Option<TouchForm>
    ensures { option_map form_of result ≡ cond is_touched (Some spec.another) None }
{
    if is_touched {
        Some(TouchForm::Another)
    } else {
        None
    }
}

// ---- references

/// Adds what a reference of this number touches. Fails on allocation failure alone.
#[tactic(auto, using(crate::proofs::LookedUpByNumber::references_by_number))]
fn add_references(
    alloc: Global,
    terms: &Terms,
    held: &HeldParts,
    number: u32,
    touches: &mut Vec<KeptTouch>,
) -> Result<(), AllocError>
    ensures { OnOk result (kept_touches touches.new.items ≡ kept_touches touches.old.items ++ walked.reference_touches terms.now (held_in held.now) number (references_of terms.now.references.now.list.items)) }
{
    let references = references_at(terms.references, number);
    add_those(alloc, terms, held, number, references, touches)
}

/// The references of this number.
fn references_at<'r, 'a>(references: &'r Referents<'a>, number: u32) -> &'r [Reference<'a>]
    ensures { result.now ≡ of_number number references.now.list.items }
{
    references.by_number.get(number)
}

/// Adds what those of these references touch that have this number. Fails on allocation failure alone.
fn add_those(
    alloc: Global,
    terms: &Terms,
    held: &HeldParts,
    number: u32,
    references: &[Reference],
    touches: &mut Vec<KeptTouch>,
) -> Result<(), AllocError>
    ensures { OnOk result (kept_touches touches.new.items ≡ kept_touches touches.old.items ++ walked.reference_touches terms.now (held_in held.now) number (references_of references.now)) }
{
    for reference in references {
        add_reference(alloc, terms, held, number, reference, touches)?;
    }
    Ok(())
}

/// Adds what this reference touches, if it has this number. Fails on allocation failure alone.
fn add_reference(
    alloc: Global,
    terms: &Terms,
    held: &HeldParts,
    number: u32,
    reference: &Reference,
    touches: &mut Vec<KeptTouch>,
) -> Result<(), AllocError>
    ensures { OnOk result (kept_touches touches.new.items ≡ kept_touches touches.old.items ++ cond (nat_eq number (reference_of reference.now).number) (spec.touch (held_in held.now) number (walked.read_form terms.now number (reference_of reference.now).to)) []) }
{
    if number == reference.node.0 {
        push_touch(
            alloc,
            held,
            number,
            read_form(terms, number, reference),
            touches,
        )?;
    }
    Ok(())
}

fn read_form(terms: &Terms, number: u32, reference: &Reference) -> TouchForm
    ensures { form_of result ≡ walked.read_form terms.now number (reference_of reference.now).to }
{
    match reference.binding {
        Some(binding) => bound_form(terms, number, binding.0),
        None => TouchForm::Another,
    }
}

fn bound_form(terms: &Terms, number: u32, binding: u32) -> TouchForm
    ensures { form_of result ≡ cond (references.has_number binding terms.now.named.now) (cond (numbered.is_new terms.now.first number) spec.another spec.names_class) (cond (references.has_number binding terms.now.asked.now) (spec.reads binding) spec.another) }
{
    if terms.named.has(binding) {
        // function f(a = class { m() { class B {} } }) {}
        class_form(terms, number)
    } else if terms.asked.has(binding) {
        TouchForm::Reads(binding)
    } else {
        TouchForm::Another
    }
}

/// The form of a reference of this number to the name of a class.
fn class_form(terms: &Terms, number: u32) -> TouchForm
    ensures { form_of result ≡ cond (numbered.is_new terms.now.first number) spec.another spec.names_class }
{
    if is_new(terms.first, number) {
        TouchForm::Another
    } else {
        TouchForm::NamesClass
    }
}

// ---- calls and assignments

fn called_form(terms: &Terms, call: &Node) -> TouchForm
    requires { kind_of call.now ≡ Kind.CallExpression }
    ensures { form_of result ≡ walked.called_form terms.now (number_in call.now) (parts_in call.now) }
{
    if defines(call) || (is_new(terms.first, call.node_id().0) && is_writer(call)) {
        TouchForm::DefinesField
    } else if is_super_call(call) {
        TouchForm::CallsSuper
    } else {
        terms.called.called_form(spelling_at(call.parts(), 0))
    }
}

fn sets_at(parts: &[Part], i: usize) -> bool
    ensures { result ≡ spec.sets_member (at i (parts_of parts.now)) }
{
    match part_at(parts, i) {
        Some(Part::Child(node)) => sets_member(node),
        _ => false,
    }
}

fn sets_slot_at(parts: &[Part], i: usize) -> bool
    ensures { result ≡ spec.is_setter_slot (at i (parts_of parts.now)) }
{
    match part_at(parts, i) {
        Some(Part::Child(node)) => is_setter_slot(node),
        _ => false,
    }
}

fn is_member_at(parts: &[Part], i: usize) -> bool
    ensures { result ≡ spec.is_member (at i (parts_of parts.now)) }
{
    match part_at(parts, i) {
        Some(part) => is_member(part),
        None => false,
    }
}

/// The form of what defines a field or writes behind an operation, if so.
fn definition_if(defines: bool) -> TouchForm
    ensures { form_of result ≡ cond defines spec.defines_field spec.another }
{
    if defines {
        TouchForm::DefinesField
    } else {
        TouchForm::Another
    }
}

fn assignment_form(terms: &Terms, node: &Node) -> TouchForm
    ensures { form_of result ≡ walked.assignment_form terms.now (number_in node.now) (parts_in node.now) }
{
    let parts = node.parts();
    let is_plain = spells(string_at(parts, 0), "=");
    if is_new(terms.first, node.node_id().0) {
        // this.a = b, babelHelpers.toSetter(f)._ = a
        definition_if(is_plain && (sets_at(parts, 1) || sets_slot_at(parts, 1)))
    } else {
        // this.#a += b
        definition_if(!is_plain && is_member_at(parts, 1))
    }
}

fn update_form(terms: &Terms, node: &Node) -> TouchForm
    ensures { form_of result ≡ walked.update_form terms.now (number_in node.now) (parts_in node.now) }
{
    // this.#a++
    definition_if(!is_new(terms.first, node.node_id().0) && is_member_at(node.parts(), 1))
}
