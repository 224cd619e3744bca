// The parts of a node that may run or not, or again.

ghost use Rattle.std.specs.Prelude.{◌≡◌, ◌||◌};
ghost use Rattle.std.specs.Str.{chars};
ghost use Rattle.es_node.specs.View.{kind_of, parts_in};
ghost use Rattle.es_steps.specs.Expressions as expressions;
ghost use Rattle.es_lowered.specs.Timely as spec;
ghost use Rattle.es_marks_around.specs.Inside.{is_always_held, is_held_form};

use es_base::kind::Kind;
use es_base::strings::spells;
use es_node::node::Node;
use es_owed_initialized::kinds::is_function;
use es_seen_names::parts::string_at;
use es_validity::jumps::is_loop;

/// Whether the i-th part of the node may run or not, or again.
#[tactic(auto, using(es_marks_around::proofs::AroundParts::held_otherwise))]
pub fn is_held(node: &Node, i: usize) -> bool
    ensures { result ≡ spec.is_held (kind_of node.now) (parts_in node.now) i }
{
    match node.kind() {
        // a && b
        Kind::LogicalExpression => i == 2,
        // a &&= b
        Kind::AssignmentExpression => i == 2 && is_logical(string_at(node.parts(), 0)),
        // a ? b : c, if (a) b, for (a; b; c) d
        Kind::ConditionalExpression | Kind::IfStatement | Kind::ForStatement => 1 <= i,
        // switch (a) { }
        Kind::SwitchStatement => i == 1,
        // for (a in b) c, for (a of b) c
        Kind::ForInStatement | Kind::ForOfStatement => i != 1,
        // [a = b]
        Kind::AssignmentPattern | Kind::AssignmentTargetWithDefault => i == 1,
        kind => is_always_held(kind),
    }
}

/// Whether any part of a node of this kind may run or not, or again.
fn is_always_held(kind: Kind) -> bool
    ensures { result ≡ is_always_held kind }
{
    is_held_form(kind) || is_loop(kind) || is_function(kind)
}

fn is_held_form(kind: Kind) -> bool
    ensures { result ≡ is_held_form kind }
{
    matches!(
        kind,
        Kind::SwitchCase
            | Kind::TryStatement
            | Kind::LabeledStatement
            | Kind::ChainExpression
            | Kind::ObjectPattern
            | Kind::ArrayPattern
            | Kind::ObjectAssignmentTarget
            | Kind::ArrayAssignmentTarget
    )
}

/// Whether the operator assigns or not, by what is there.
fn is_logical(operator: &str) -> bool
    ensures { result ≡ expressions.is_logical (chars operator.now) }
{
    spells(operator, "||=") || spells(operator, "&&=") || spells(operator, "??=")
}
