// What is around the parts of a node.

ghost use Rattle.std.specs.Prelude.{◌≡◌, ◌∷◌, ◌&&◌, ◌||◌, cond, not};
ghost use Rattle.std.specs.Str.{chars};
ghost use Rattle.es_base.specs.Numbered as numbered;
ghost use Rattle.es_base.specs.Tree.{child};
ghost use Rattle.es_node.specs.View.{kind_of, number_in, parts_in, parts_of};
ghost use Rattle.es_steps.specs.Expressions as expressions;
ghost use Rattle.es_steps.specs.Parts.{at};
ghost use Rattle.es_steps.specs.PrivateNames as names;
ghost use Rattle.es_steps.specs.Repeated as repeated;
ghost use Rattle.es_lowered.specs.Definitions as definitions;
ghost use Rattle.es_lowered.specs.HelperCalls as calls;
ghost use Rattle.es_lowered.specs.Timely as spec;
ghost use Rattle.es_marks.specs.Around.{around_here, held_in, later_in, running_in};
ghost use Rattle.es_marks_around.specs.Inside.{around_within, is_always_held, is_held_form};

use es_base::kind::Kind;
use es_base::strings::spells;
use es_binding_faults::hoisted::part_at;
use es_generated::ledger::Ledger;
use es_generated::numbers::is_new;
use es_marks::around::{
    Around, HeldPart, HeldParts, LaterFunction, LaterFunctions, RunningClass, RunningClasses,
};
use es_node::node::{Node, Part};
use es_owed_initialized::kinds::{is_arrow, is_class, is_function};
use es_owed_initialized::runs::body_runs;
use es_owed_initialized::spelling::spelling_at;
use es_seen_names::parts::{is_true_at, string_at};
use es_validity::jumps::is_loop;

/// What is around the i-th part of a node, where the first new node has this number.
#[tactic(auto, using(crate::proofs::AroundParts::around_node))]
pub fn around_in<'r, 'a>(
    first: u32,
    ledger: &Ledger,
    around: &'r Around<'r, 'a>,
    node: &'a Node,
    i: usize,
) -> Around<'r, 'a>
    ensures { around_here result ≡ around_within first ledger.now (around_here around.now) node.now i }
{
    let is_later = runs_later(first, node, i);
    Around {
        held: held_inside(first, around, node, i),
        later: later_inside(is_later, is_hoisted(ledger, node), node, &around.later),
        called: later_inside(is_later, is_declared(node.kind()), node, &around.called),
        is_called: is_callee_of_call(node.kind(), i),
        running: running_inside(around, node),
        class_name: class_name_inside(around, node),
    }
}

// ---- parts that may run or not, or again

fn held_inside<'r>(first: u32, around: &'r Around<'r, '_>, node: &Node, i: usize) -> HeldParts<'r>
    ensures { held_in result ≡ cond (spec.is_held (kind_of node.now) (parts_in node.now) i || (spec.is_held_arrow first (around_here around.now) (kind_of node.now) (number_in node.now) || spec.is_instance_value (kind_of node.now) (parts_in node.now) i)) ((number_in node.now, i) ∷ held_in around.now.held) (held_in around.now.held) }
{
    if is_held(node, i)
        || is_held_arrow(first, around.is_called, node)
        || is_instance_value(node, i)
    {
        HeldParts::Inside {
            part: HeldPart {
                node: node.node_id().0,
                part: i,
            },
            outer: &around.held,
        }
    } else {
        around.held
    }
}

/// Whether the i-th part of the node may run or not, or again.
#[tactic(auto, using(crate::proofs::AroundParts::held_otherwise))]
fn is_held(node: &Node, i: usize) -> bool
    ensures { result ≡ spec.is_held (kind_of node.now) (parts_in node.now) i }
{
    match node.kind() {
        // a && b
        Kind::LogicalExpression => i == 2,
        // a &&= b
        Kind::AssignmentExpression => i == 2 && is_logical(string_at(node.parts(), 0)),
        // a ? b : c, if (a) b, for (a; b; c) d
        Kind::ConditionalExpression | Kind::IfStatement | Kind::ForStatement => 1 <= i,
        // switch (a) { }
        Kind::SwitchStatement => i == 1,
        // for (a in b) c, for (a of b) c
        Kind::ForInStatement | Kind::ForOfStatement => i != 1,
        // [a = b]
        Kind::AssignmentPattern | Kind::AssignmentTargetWithDefault => i == 1,
        kind => is_always_held(kind),
    }
}

/// Whether any part of a node of this kind may run or not, or again.
fn is_always_held(kind: Kind) -> bool
    ensures { result ≡ is_always_held kind }
{
    is_held_form(kind) || is_loop(kind) || is_function(kind)
}

fn is_held_form(kind: Kind) -> bool
    ensures { result ≡ is_held_form kind }
{
    matches!(
        kind,
        Kind::SwitchCase
            | Kind::TryStatement
            | Kind::LabeledStatement
            | Kind::ChainExpression
            | Kind::ObjectPattern
            | Kind::ArrayPattern
            | Kind::ObjectAssignmentTarget
            | Kind::ArrayAssignmentTarget
    )
}

/// Whether the operator assigns or not, by what is there.
fn is_logical(operator: &str) -> bool
    ensures { result ≡ expressions.is_logical (chars operator.now) }
{
    spells(operator, "||=") || spells(operator, "&&=") || spells(operator, "??=")
}

/// Whether the node is an arrow, unless it is new and called where it stands.
fn is_held_arrow(first: u32, is_called: bool, node: &Node) -> bool
    ensures { result ≡ (repeated.is_arrow (kind_of node.now) && not (numbered.is_new first (number_in node.now) && is_called)) }
{
    is_arrow(node.kind()) && !(is_new(first, node.node_id().0) && is_called)
}

/// Whether the i-th part is the value of a field of instances.
#[tactic(auto, using(crate::proofs::AroundParts::no_instance_value))]
fn is_instance_value(node: &Node, i: usize) -> bool
    ensures { result ≡ spec.is_instance_value (kind_of node.now) (parts_in node.now) i }
{
    match node.kind() {
        // a = 1;
        Kind::PropertyDefinition => i == 1 && !is_true_at(node.parts(), 3),
        _ => false,
    }
}

// ---- functions that run later

fn later_inside<'r>(
    is_later: bool,
    is_early: bool,
    node: &Node,
    outer: &'r LaterFunctions<'r>,
) -> LaterFunctions<'r>
    ensures { later_in result ≡ cond is_later ((number_in node.now, is_early) ∷ later_in outer.now) (later_in outer.now) }
{
    if is_later {
        LaterFunctions::Inside {
            function: LaterFunction {
                node: node.node_id().0,
                is_early,
            },
            outer,
        }
    } else {
        *outer
    }
}

/// Whether the i-th part runs later: that of a function, of an old arrow, or the value of a field of instances.
fn runs_later(first: u32, node: &Node, i: usize) -> bool
    ensures { result ≡ spec.runs_later first (kind_of node.now) (number_in node.now) (parts_in node.now) i }
{
    let kind = node.kind();
    is_function(kind)
        || (is_arrow(kind) && !is_new(first, node.node_id().0))
        || is_instance_value(node, i)
}

/// Whether the node is a function declaration that anything may call: not that of a generated name, which its class alone
/// calls.
#[tactic(auto, using(crate::proofs::AroundParts::not_hoisted))]
fn is_hoisted(ledger: &Ledger, node: &Node) -> bool
    ensures { result ≡ spec.is_hoisted ledger.now (kind_of node.now) (parts_in node.now) }
{
    match node.kind() {
        // function f() {}
        Kind::FunctionDeclaration => !ledger.is_generated(spelling_at(node.parts(), 0)),
        _ => false,
    }
}

fn is_declared(kind: Kind) -> bool
    ensures { result ≡ spec.is_declared kind }
{
    matches!(kind, Kind::FunctionDeclaration)
}

/// Whether the i-th part is what a call calls.
#[tactic(auto, using(crate::proofs::AroundParts::no_callee))]
fn is_callee_of_call(kind: Kind, i: usize) -> bool
    ensures { result ≡ spec.is_callee_of_call kind i }
{
    match kind {
        // a()
        Kind::CallExpression => i == 0,
        _ => false,
    }
}

// ---- classes

fn running_inside<'r, 'a>(around: &'r Around<'r, 'a>, node: &'a Node) -> RunningClasses<'r, 'a>
    ensures { running_in result ≡ cond (names.is_class (kind_of node.now) && calls.body_runs (at 2 (parts_in node.now))) ((number_in node.now, definitions.spelling (at 0 (parts_in node.now))) ∷ running_in around.now.running) (running_in around.now.running) }
{
    if is_class(node.kind()) && body_runs_at(node.parts(), 2) {
        RunningClasses::Inside {
            class: RunningClass {
                node: node.node_id().0,
                name: spelling_at(node.parts(), 0),
            },
            outer: &around.running,
        }
    } else {
        around.running
    }
}

fn class_name_inside<'a>(around: &Around<'_, 'a>, node: &'a Node) -> &'a str
    ensures { chars result.now ≡ cond (names.is_class (kind_of node.now)) (definitions.spelling (at 0 (parts_in node.now))) (chars around.now.class_name.now) }
{
    if is_class(node.kind()) {
        spelling_at(node.parts(), 0)
    } else {
        around.class_name
    }
}

fn body_runs_at(parts: &[Part], i: usize) -> bool
    ensures { result ≡ calls.body_runs (at i (parts_of parts.now)) }
{
    match part_at(parts, i) {
        Some(Part::Child(body)) => body_runs(body),
        _ => false,
    }
}
