// What the bodies of a program touch.

ghost use Rattle.std.specs.Prelude.{◌≡◌, ◌++◌, ◌∷◌, ◌≤◌, [], cond, false, true, IfOk, OnOk};
ghost use Rattle.std.specs.Option.{option_to_list};
ghost use Rattle.es_lowered.specs.DeadZones as spec;
ghost use Rattle.es_marks.specs.Around.{held_parts};
ghost use Rattle.es_node.specs.View.{kind_of, number_in, parts_in, parts_of};
ghost use Rattle.es_steps.specs.Parts.{at};
ghost use Rattle.es_owed_timely.specs.Functions.{super_functions_of};
ghost use Rattle.es_owed_dead_zones.specs.Bodies as bodied;
ghost use Rattle.es_owed_dead_zones.specs.Bodies.{kept_bodies, with_held};
ghost use Rattle.es_touches.specs.Touches.{bodies_of, body_of, kept_touch, kept_touches};
ghost use Rattle.es_owed_dead_zones.specs.Walk as walked;
ghost use Rattle.es_binding_faults.specs.Seen.{seen};

use crate::classes::Classes;
use crate::spot::{nothing_around, push_touch};
use crate::terms::Terms;
use crate::walk::{add_at, add_values_in, is_apart};
use es_base::kind::Kind;
use es_binding_faults::hoisted::part_at;
use es_marks::around::{HeldPart, HeldParts};
use es_node::node::{Node, Part};
use es_number_set::NumberSet;
use es_owed_initialized::kinds::is_class;
use es_owed_initialized::numbers::add_numbers;
use es_owed_timely::functions::SuperFunctions;
use es_shapes::walk::is_any_function;
use es_touches::derived::is_one;
use es_touches::source::Body;
use es_touches::touch::{KeptTouch, TouchForm, is_call_of_super, lent};
use std::alloc::{AllocError, Global};

/// What the bodies of a program are found by.
#[derive(Clone, Copy)]
pub struct Program<'t, 'a> {
    pub terms: Terms<'t, 'a>,
    /// The functions and arrows where `this` is there behind `super(..)` alone.
    pub derived: &'t NumberSet,
    /// The functions for `super(..)`.
    pub given: &'t SuperFunctions,
    /// The program with its classes.
    pub classes: &'t Classes<'t, 'a>,
}

/// What a body touches.
#[derive(Debug, Drop)]
pub struct KeptBody {
    pub number: u32,
    pub is_of_fields: bool,
    pub of_class: Vec<u32>,
    pub derives: bool,
    pub touches: Vec<KeptTouch>,
}

/// The bodies that are kept, in their order. Fails on allocation failure alone.
pub fn lent_bodies(alloc: Global, kept: &[KeptBody]) -> Result<Vec<Body<'_>>, AllocError>
    ensures { IfOk result (λ r. bodies_of r.items ≡ kept_bodies kept.now) }
{
    let mut bodies = Vec::new(alloc);
    for body in kept {
        let touches = lent(alloc, body.touches.as_slice())?;
        bodies.push(Body {
            number: body.number,
            is_of_fields: body.is_of_fields,
            of_class: body.of_class.as_slice(),
            derives: body.derives,
            touches,
        })?;
    }
    Ok(bodies)
}

/// The bodies of a program. Fails on allocation failure alone.
#[tactic(auto, using(crate::proofs::BodiesOfNodes::bodies_more))]
pub fn bodies(alloc: Global, program: &Program) -> Result<Vec<KeptBody>, AllocError>
    ensures { IfOk result (λ r. kept_bodies r.items ≡ bodied.bodies program.now (seen program.now.classes.now.listed.now.nodes.items)) }
{
    let nodes = program.classes.listed.nodes.as_slice();
    let mut bodies = Vec::new(alloc);
    for node in nodes {
        add_bodies(alloc, program, node, &mut bodies)?;
    }
    Ok(bodies)
}

/// Adds the body of a node, if it has one. Fails on allocation failure alone.
#[tactic(auto, using(crate::proofs::BodiesOfNodes::body_of_program, crate::proofs::BodiesOfNodes::body_of_function, crate::proofs::BodiesOfNodes::body_of_class, crate::proofs::BodiesOfNodes::body_of_none))]
fn add_bodies(
    alloc: Global,
    program: &Program,
    node: &Node,
    bodies: &mut Vec<KeptBody>,
) -> Result<(), AllocError>
    ensures { OnOk result (kept_bodies bodies.new.items ≡ kept_bodies bodies.old.items ++ bodied.bodies_by program.now (kind_of node.now) (number_in node.now) (parts_in node.now)) }
{
    match node.kind() {
        Kind::Program => add_program(alloc, program, node, bodies),
        kind => {
            // function f() {}
            if is_any_function(kind) && is_apart(&program.terms, node) {
                add_function(alloc, program, node, bodies)
                // class A { a = 1; }
            } else if is_class(kind) {
                add_fields(alloc, program, node, bodies)
            } else {
                Ok(())
            }
        }
    }
}

fn add_program(
    alloc: Global,
    program: &Program,
    node: &Node,
    bodies: &mut Vec<KeptBody>,
) -> Result<(), AllocError>
    ensures { OnOk result (kept_bodies bodies.new.items ≡ kept_bodies bodies.old.items ++ bodied.body (number_in node.now) false [] false (walked.touches_at program.now.terms spec.nothing_around (at 1 (parts_in node.now))) ∷ []) }
{
    let mut touches = Vec::new(alloc);
    add_part_at(alloc, program, node.parts(), 1, &mut touches)?;
    bodies.push(KeptBody {
        number: node.node_id().0,
        is_of_fields: false,
        of_class: Vec::new(alloc),
        derives: false,
        touches,
    })?;
    Ok(())
}

fn add_function(
    alloc: Global,
    program: &Program,
    node: &Node,
    bodies: &mut Vec<KeptBody>,
) -> Result<(), AllocError>
    ensures { OnOk result (kept_bodies bodies.new.items ≡ kept_bodies bodies.old.items ++ bodied.function_body program.now (kind_of node.now) (number_in node.now) (parts_in node.now) ∷ []) }
{
    let number = node.node_id().0;
    let class = program.classes.constructed_by(number);
    let derives = program.derived.has(number);
    let touches = body_touches(alloc, program, derives, class, node)?;
    let of_class = classes_of(alloc, program, class, number)?;
    bodies.push(KeptBody {
        number,
        is_of_fields: false,
        of_class,
        derives,
        touches,
    })?;
    Ok(())
}

fn add_fields(
    alloc: Global,
    program: &Program,
    node: &Node,
    bodies: &mut Vec<KeptBody>,
) -> Result<(), AllocError>
    ensures { OnOk result (kept_bodies bodies.new.items ≡ kept_bodies bodies.old.items ++ bodied.body (number_in node.now) true [] false (walked.value_touches program.now.terms false spec.nothing_around (at 2 (parts_in node.now))) ∷ []) }
{
    let touches = fields_of(alloc, program, node)?;
    bodies.push(KeptBody {
        number: node.node_id().0,
        is_of_fields: true,
        of_class: Vec::new(alloc),
        derives: false,
        touches,
    })?;
    Ok(())
}

/// The class whose constructor a function is, if any, and those for whose `super(..)` it stands. Fails on allocation failure
/// alone.
fn classes_of(
    alloc: Global,
    program: &Program,
    class: Option<u32>,
    function: u32,
) -> Result<Vec<u32>, AllocError>
    ensures { IfOk result (λ r. r.items ≡ option_to_list class ++ spec.classes_given function (super_functions_of program.now.given.now.functions.items)) }
{
    let mut classes = Vec::new(alloc);
    if let Some(class) = class {
        classes.push(class)?;
    }
    add_numbers(classes_given(program.given, function), &mut classes)?;
    Ok(classes)
}

/// The classes for whose `super(..)` a function stands.
#[tactic(auto, using(crate::proofs::LookedUpByNumber::given_by_number))]
fn classes_given(given: &SuperFunctions, function: u32) -> &[u32]
    ensures { result.now ≡ spec.classes_given function (super_functions_of given.now.functions.items) }
{
    given.classes.get(function)
}

// ---- fields

/// What the fields of a class touch. Fails on allocation failure alone.
fn fields_of(alloc: Global, program: &Program, class: &Node) -> Result<Vec<KeptTouch>, AllocError>
    ensures { IfOk result (λ r. kept_touches r.items ≡ walked.value_touches program.now.terms false spec.nothing_around (at 2 (parts_in class.now))) }
{
    let mut touches = Vec::new(alloc);
    if let Some(body) = part_at(class.parts(), 2) {
        let spot = nothing_around();
        add_values_in(alloc, &program.terms, false, &spot, body, &mut touches)?;
    }
    Ok(touches)
}

/// What the fields of this class touch, if any. Fails on allocation failure alone.
#[tactic(auto, using(crate::proofs::LookedUpByNumber::fields_by_number, crate::proofs::LookedUpByNumber::fields_of_none))]
fn field_touches(
    alloc: Global,
    program: &Program,
    class: Option<u32>,
) -> Result<Vec<KeptTouch>, AllocError>
    ensures { IfOk result (λ r. kept_touches r.items ≡ bodied.field_touches program.now (option_to_list class) (seen program.now.classes.now.listed.now.nodes.items)) }
{
    match class {
        Some(number) => {
            fields_among(
                alloc,
                program,
                class,
                program.classes.listed.numbered(number),
            )
        }
        None => Ok(Vec::new(alloc)),
    }
}

/// What the fields of this class touch, if it is one of these nodes. Fails on allocation failure alone.
#[tactic(auto, using(crate::proofs::BodiesOfNodes::fields_more))]
fn fields_among(
    alloc: Global,
    program: &Program,
    class: Option<u32>,
    nodes: &[&Node],
) -> Result<Vec<KeptTouch>, AllocError>
    ensures { IfOk result (λ r. kept_touches r.items ≡ bodied.field_touches program.now (option_to_list class) (seen nodes.now)) }
{
    for node in nodes {
        if is_class(node.kind()) && is_one(node.node_id().0, class) {
            return fields_of(alloc, program, node);
        }
    }
    Ok(Vec::new(alloc))
}

// ---- functions

/// Adds what the i-th part of a function or of the program touches. Fails on allocation failure alone.
fn add_part_at(
    alloc: Global,
    program: &Program,
    parts: &[Part],
    i: usize,
    touches: &mut Vec<KeptTouch>,
) -> Result<(), AllocError>
    ensures { OnOk result (kept_touches touches.new.items ≡ kept_touches touches.old.items ++ walked.touches_at program.now.terms spec.nothing_around (at i (parts_of parts.now))) }
{
    match part_at(parts, i) {
        Some(part) => {
            let spot = nothing_around();
            add_at(alloc, &program.terms, &spot, part, touches)
        }
        None => Ok(()),
    }
}

#[tactic(auto, using(crate::proofs::BodiesOfNodes::parameters_of_arrow, crate::proofs::BodiesOfNodes::parameters_of_other))]
fn parameters_at(kind: Kind) -> usize
    ensures value { result ≡ spec.parameters_at kind }
    ensures bound { result ≤ 1 }
{
    match kind {
        // a => b
        Kind::ArrowFunctionExpression => 0,
        _ => 1,
    }
}

/// Adds the fields of a class without a heritage, which its constructor defines first. Fails on allocation failure alone.
#[tactic(auto, using(crate::proofs::BodiesOfNodes::with_none))]
fn add_fields_first(
    alloc: Global,
    derives: bool,
    fields: &[KeptTouch],
    touches: &mut Vec<KeptTouch>,
) -> Result<(), AllocError>
    ensures { OnOk result (kept_touches touches.new.items ≡ kept_touches touches.old.items ++ cond derives [] (kept_touches fields.now)) }
{
    if derives {
        return Ok(());
    }
    add_copies(alloc, fields, &[], touches)
}

/// What a function touches: the parameters, and the body, where a generator stands still between them, and the fields of a
/// class without a heritage are defined first. Fails on allocation failure alone.
#[tactic(auto, using(crate::proofs::BodiesOfNodes::function_node))]
fn function_touches(
    alloc: Global,
    program: &Program,
    derives: bool,
    fields: &[KeptTouch],
    node: &Node,
) -> Result<Vec<KeptTouch>, AllocError>
    ensures { IfOk result (λ r. kept_touches r.items ≡ bodied.function_touches program.now derives (kept_touches fields.now) (kind_of node.now) (number_in node.now) (parts_in node.now)) }
{
    let at = parameters_at(node.kind());
    let parts = node.parts();
    let number = node.node_id().0;
    let mut touches = Vec::new(alloc);
    add_part_at(alloc, program, parts, at, &mut touches)?;
    push_still(alloc, number, &mut touches)?;
    add_fields_first(alloc, derives, fields, &mut touches)?;
    add_part_at(alloc, program, parts, at + 1, &mut touches)?;
    Ok(touches)
}

/// Adds that a generator stands still. Fails on allocation failure alone.
fn push_still(alloc: Global, number: u32, touches: &mut Vec<KeptTouch>) -> Result<(), AllocError>
    ensures { OnOk result (kept_touches touches.new.items ≡ kept_touches touches.old.items ++ spec.touch [] number spec.another) }
{
    push_touch(alloc, &HeldParts::None, number, TouchForm::Another, touches)
}

/// The same with the fields of a class with a heritage behind each `super(..)`. Fails on allocation failure alone.
fn body_touches(
    alloc: Global,
    program: &Program,
    derives: bool,
    class: Option<u32>,
    node: &Node,
) -> Result<Vec<KeptTouch>, AllocError>
    ensures { IfOk result (λ r. kept_touches r.items ≡ bodied.body_touches program.now derives (bodied.field_touches program.now (option_to_list class) (seen program.now.classes.now.listed.now.nodes.items)) (kind_of node.now) (number_in node.now) (parts_in node.now)) }
{
    let fields = field_touches(alloc, program, class)?;
    let fields = fields.as_slice();
    let touches = function_touches(alloc, program, derives, fields, node)?;
    if !derives {
        return Ok(touches);
    }
    let mut all = Vec::new(alloc);
    add_all_with_fields(alloc, program, fields, touches.as_slice(), &mut all)?;
    Ok(all)
}

/// Adds these touches, and behind each `super(..)` the fields. Fails on allocation failure alone.
fn add_all_with_fields(
    alloc: Global,
    program: &Program,
    fields: &[KeptTouch],
    more: &[KeptTouch],
    touches: &mut Vec<KeptTouch>,
) -> Result<(), AllocError>
    ensures { OnOk result (kept_touches touches.new.items ≡ kept_touches touches.old.items ++ bodied.with_fields program.now (kept_touches fields.now) (kept_touches more.now)) }
{
    for touch in more {
        add_with_fields(alloc, fields, touch, touches)?;
    }
    Ok(())
}

/// Adds a touch, and behind a `super(..)` the fields. Fails on allocation failure alone.
fn add_with_fields(
    alloc: Global,
    fields: &[KeptTouch],
    touch: &KeptTouch,
    touches: &mut Vec<KeptTouch>,
) -> Result<(), AllocError>
    ensures { OnOk result (kept_touches touches.new.items ≡ kept_touches touches.old.items ++ (kept_touch touch.now ∷ cond (spec.is_call_of_super (kept_touch touch.now).form) (with_held (kept_touch touch.now).held (kept_touches fields.now)) [])) }
{
    add_copy(alloc, touch, &[], touches)?;
    if is_call_of_super(touch.form) {
        add_copies(alloc, fields, touch.held.as_slice(), touches)?;
    }
    Ok(())
}

/// Adds these touches with these parts around them, too. Fails on allocation failure alone.
fn add_copies(
    alloc: Global,
    more: &[KeptTouch],
    held: &[HeldPart],
    touches: &mut Vec<KeptTouch>,
) -> Result<(), AllocError>
    ensures { OnOk result (kept_touches touches.new.items ≡ kept_touches touches.old.items ++ with_held (held_parts held.now) (kept_touches more.now)) }
{
    for touch in more {
        add_copy(alloc, touch, held, touches)?;
    }
    Ok(())
}

fn add_copy(
    alloc: Global,
    touch: &KeptTouch,
    held: &[HeldPart],
    touches: &mut Vec<KeptTouch>,
) -> Result<(), AllocError>
    ensures { OnOk result (kept_touches touches.new.items ≡ kept_touches touches.old.items ++ with_held (held_parts held.now) (kept_touch touch.now ∷ [])) }
{
    let mut all_held = Vec::new(alloc);
    add_held_parts(touch.held.as_slice(), &mut all_held)?;
    add_held_parts(held, &mut all_held)?;
    touches.push(KeptTouch {
        number: touch.number,
        form: touch.form,
        held: all_held,
    })?;
    Ok(())
}

fn add_held_parts(more: &[HeldPart], held: &mut Vec<HeldPart>) -> Result<(), AllocError>
    ensures { OnOk result (held_parts held.new.items ≡ held_parts held.old.items ++ held_parts more.now) }
{
    for part in more {
        held.push(*part)?;
    }
    Ok(())
}
