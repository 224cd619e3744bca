// What a `break`, `continue` or `return` leaves (ECMA-262, 14.8 to 14.10).

ghost use Rattle.std.specs.Prelude.{◌≡◌, true, cond};
ghost use Rattle.std.specs.Str.{chars};
ghost use Rattle.es_base.specs.Conforms.{is_among};
ghost use Rattle.es_node.specs.View.{kind_of, parts_in};
ghost use Rattle.es_base.specs.declared.kind.Kind.{Kind};
ghost use Rattle.es_steps.specs.Printable as printable;
ghost use Rattle.es_steps.specs.Repeated as repeated;
ghost use Rattle.es_validity.specs.Labels.{labels_of, loops_of, jumps_of};

use crate::names::name_of;
use es_base::kind::Kind;
use es_base::strings::is_word;
use es_node::node::Node;
use es_tree::statement::{BreakStatementRef, ContinueStatementRef, LabeledStatementRef};

/// The labels around a statement, the innermost first.
#[derive(Clone, Copy)]
pub enum Labels<'a> {
    /// No label.
    None,
    /// A label, of a loop or not, and those around it.
    Label {
        name: &'a str,
        is_loop: bool,
        outer: &'a Labels<'a>,
    },
}

/// What a `break`, `continue` or `return` may leave.
#[derive(Clone, Copy)]
pub struct Jumps<'a> {
    /// A loop or a switch is around.
    pub breaks: bool,
    /// A loop is around.
    pub continues: bool,
    /// A function is around.
    pub returns: bool,
    pub labels: Labels<'a>,
}

/// Whether the name is one of the labels.
fn has_label(labels: &Labels, name: &str) -> bool
    ensures { result ≡ is_among (chars name.now) (labels_of labels.now) }
{
    match labels {
        Labels::None => false,
        Labels::Label {
            name: label,
            outer,
            ..
        } => is_word(name, label) || has_label(outer, name),
    }
}

/// Whether the name is one of the labels of loops.
fn has_loop(labels: &Labels, name: &str) -> bool
    ensures { result ≡ is_among (chars name.now) (loops_of labels.now) }
{
    match labels {
        Labels::None => false,
        Labels::Label {
            name: label,
            is_loop,
            outer,
        } => (*is_loop && is_word(name, label)) || has_loop(outer, name),
    }
}

/// Whether the node is a `break`, `continue` or `return` without what it leaves, or a statement with a label that it stands in
/// already (ECMA-262, 14.13.1).
#[tactic(auto, using(crate::proofs::OfKinds::return_kind, crate::proofs::OfKinds::no_stray))]
pub fn is_stray(jumps: &Jumps, node: &Node) -> bool
    ensures { result ≡ printable.is_stray (jumps_of jumps.now) (kind_of node.now) (parts_in node.now) }
{
    match node.kind() {
        Kind::BreakStatement => match BreakStatementRef::from_node(node).label {
            Some(label) => !has_label(&jumps.labels, name_of(label)),
            None => !jumps.breaks,
        },
        Kind::ContinueStatement => match ContinueStatementRef::from_node(node).label {
            Some(label) => !has_loop(&jumps.labels, name_of(label)),
            None => !jumps.continues,
        },
        Kind::ReturnStatement => !jumps.returns,
        Kind::LabeledStatement => {
            has_label(
                &jumps.labels,
                name_of(LabeledStatementRef::from_node(node).label),
            )
        }
        _ => false,
    }
}

/// Whether the node is a loop, behind its labels.
#[tactic(auto, using(crate::proofs::OfKinds::no_label_looping, es_node::proofs::Below::nodes_in))]
fn is_looping(node: &Node) -> bool
    ensures { result ≡ printable.is_looping node.now }
{
    match node.kind() {
        Kind::LabeledStatement => is_looping(LabeledStatementRef::from_node(node).body),
        kind => is_loop(kind),
    }
}

/// Whether it is a loop.
pub fn is_loop(kind: Kind) -> bool
    ensures { result ≡ repeated.is_loop kind }
{
    matches!(
        kind,
        Kind::WhileStatement
            | Kind::DoWhileStatement
            | Kind::ForStatement
            | Kind::ForInStatement
            | Kind::ForOfStatement
    )
}

/// What a `break`, `continue` or `return` may leave that stands in this node.
pub fn jumps_inside<'a>(jumps: &'a Jumps<'a>, node: &'a Node) -> Jumps<'a>
    ensures { jumps_of result ≡ printable.jumps_inside (jumps_of jumps.now) (kind_of node.now) (parts_in node.now) }
{
    match node.kind() {
        Kind::StaticBlock => no_jumps(false),
        Kind::FunctionDeclaration | Kind::FunctionExpression | Kind::ArrowFunctionExpression =>
            no_jumps(true),
        Kind::SwitchStatement => Jumps {
            breaks: true,
            ..*jumps
        },
        Kind::LabeledStatement => labelled(jumps, node),
        kind => in_loop(jumps, is_loop(kind)),
    }
}

/// What may be left where no loop, switch or label is around, in a function or not.
pub fn no_jumps<'a>(in_function: bool) -> Jumps<'a>
    ensures { jumps_of result ≡ printable.no_jumps in_function }
{
    Jumps {
        breaks: false,
        continues: false,
        returns: in_function,
        labels: Labels::None,
    }
}

/// The same in a statement with a label.
fn labelled<'a>(jumps: &'a Jumps<'a>, node: &'a Node) -> Jumps<'a>
    requires { kind_of node.now ≡ Kind.LabeledStatement }
    ensures { jumps_of result ≡ printable.jumps_inside (jumps_of jumps.now) Kind.LabeledStatement (parts_in node.now) }
{
    let statement = LabeledStatementRef::from_node(node);
    Jumps {
        labels: Labels::Label {
            name: name_of(statement.label),
            is_loop: is_looping(statement.body),
            outer: &jumps.labels,
        },
        ..*jumps
    }
}

/// The same in a statement that is a loop or not.
fn in_loop<'a>(jumps: &Jumps<'a>, is_loop: bool) -> Jumps<'a>
    ensures { jumps_of result ≡ cond is_loop (record (jumps_of jumps.now) { breaks = true; continues = true }) (jumps_of jumps.now) }
{
    if is_loop {
        Jumps {
            breaks: true,
            continues: true,
            ..*jumps
        }
    } else {
        *jumps
    }
}
