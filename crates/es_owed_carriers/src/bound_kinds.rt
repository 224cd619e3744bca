// Which nodes stay in the node, or in the function, that they are in.

ghost use Rattle.std.specs.Prelude.{◌≡◌};
ghost use Rattle.std.specs.Str.{chars};
ghost use Rattle.es_lowered.specs.Bound as spec;
ghost use Rattle.es_lowered.specs.Bound.{body_around, depends_on_function, is_bound, is_nested_item, parameters_around};
ghost use Rattle.es_node.specs.View.{kind_of, number_in, parts_of};
ghost use Rattle.es_steps.specs.Printable as printable;
ghost use Rattle.es_owed_carriers.specs.Bound.{is_bound_elsewhere};

use es_base::kind::Kind;
use es_base::strings::is_among;
use es_node::node::{Node, Part};
use es_owed::homes::function_around;
use es_seen_names::parts::{is_true_at, name_at};
use es_validity::jumps::is_loop;

/// Whether a node of the second kind stays in the node around it, of the first.
#[tactic(auto, using(crate::proofs::BoundKinds::bound_in_rest, crate::proofs::BoundKinds::bound_elsewhere))]
pub fn is_bound(around: Kind, kind: Kind) -> bool
    ensures { result ≡ is_bound around kind }
{
    match around {
        // ...a
        Kind::RestElement => true,
        _ => is_bound_elsewhere(around, kind),
    }
}

/// The same where the node around is no rest of a pattern that declares.
fn is_bound_elsewhere(around: Kind, kind: Kind) -> bool
    ensures { result ≡ is_bound_elsewhere around kind }
{
    match kind {
        Kind::Property
        | Kind::BindingProperty
        | Kind::AssignmentTargetProperty
        | Kind::SwitchCase
        | Kind::CatchClause
        | Kind::RestElement
        | Kind::AssignmentTargetRest
        | Kind::TemplateElement
        | Kind::ExportSpecifier => true,
        // for (let a of b) {}
        Kind::VariableDeclaration => is_loop(around),
        // [...[a]] = b
        Kind::ObjectAssignmentTarget | Kind::ArrayAssignmentTarget => {
            matches!(around, Kind::AssignmentTargetRest)
        }
        _ => false,
    }
}

/// Whether a node of the second kind, an import or export, stands in one of the first that is no program (16.2).
#[tactic(auto, using(crate::proofs::BoundKinds::nested_elsewhere))]
pub fn is_nested_item(around: Kind, kind: Kind) -> bool
    ensures { result ≡ is_nested_item around kind }
{
    match around {
        // import a from 'b';
        Kind::Program => false,
        _ => is_module_item(kind),
    }
}

/// Whether a node of this kind is an import or export.
fn is_module_item(kind: Kind) -> bool
    ensures { result ≡ printable.is_module_item kind }
{
    matches!(
        kind,
        Kind::ImportDeclaration
            | Kind::ExportNamedDeclaration
            | Kind::ExportDefaultDeclaration
            | Kind::ExportAllDeclaration
    )
}

/// Whether a node of this kind with these parts stays in the body of its function.
#[tactic(auto, using(crate::proofs::BoundKinds::depends_not))]
pub fn depends_on_function(kind: Kind, parts: &[Part]) -> bool
    ensures { result ≡ depends_on_function kind (parts_of parts.now) }
{
    match kind {
        // let: a;
        Kind::LabeledStatement => is_word_elsewhere(name_at(parts, 0)),
        // await a
        Kind::AwaitExpression => true,
        // yield a
        Kind::YieldExpression => true,
        // for await (a of b) {}
        Kind::ForOfStatement => is_true_at(parts, 3),
        _ => false,
    }
}

/// Whether a label of this name is a reserved word elsewhere (13.1.1).
fn is_word_elsewhere(name: &str) -> bool
    ensures { result ≡ spec.is_word_elsewhere (chars name.now) }
{
    is_among(
        name,
        &[
            "await",
            "implements",
            "interface",
            "let",
            "package",
            "private",
            "protected",
            "public",
            "static",
            "yield",
        ],
    )
}

/// Whether a block in a node of this kind is the body of a function.
pub fn has_body(kind: Kind) -> bool
    ensures { result ≡ spec.has_body kind }
{
    matches!(
        kind,
        Kind::ArrowFunctionExpression | Kind::FunctionDeclaration | Kind::FunctionExpression
    )
}

/// Whether the i-th part of a node of this kind has the parameters of a function, or stands in such.
#[tactic(auto, using(crate::proofs::BoundKinds::parameters_elsewhere))]
pub fn parameters_around(in_parameters: bool, kind: Kind, i: usize) -> bool
    ensures { result ≡ parameters_around in_parameters kind i }
{
    match kind {
        // function f(a) {}
        Kind::FunctionDeclaration => i == 1,
        // (function (a) {})
        Kind::FunctionExpression => i == 1,
        // (a) => a
        Kind::ArrowFunctionExpression => i == 0,
        _ => in_parameters,
    }
}

/// The function around the i-th part of a node with this one around it: the value of a field is one of its own (15.7.10).
#[tactic(auto, using(crate::proofs::BoundKinds::field_body, crate::proofs::BoundKinds::function_body))]
pub fn body_around(home: u32, node: &Node, i: usize) -> u32
    ensures { result ≡ body_around home (kind_of node.now) (number_in node.now) i }
{
    match node.kind() {
        // a = 1;
        Kind::PropertyDefinition => { if i == 1 { node.node_id().0 } else { home } }
        _ => function_around(home, node, i),
    }
}
