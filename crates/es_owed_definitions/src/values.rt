// The value of a definition is that of a field.

ghost use Rattle.std.specs.Prelude.{◌≡◌, None, bytes_eq, codes};
ghost use Rattle.es_base.specs.Tree as tree;
ghost use Rattle.es_base.specs.Tree.{end, literal, more};
ghost use Rattle.es_base.specs.Words.{unary_operator_string};
ghost use Rattle.es_base.specs.declared.kind.Kind.{Kind};
ghost use Rattle.es_lowered.specs.Definitions as spec;
ghost use Rattle.es_steps.specs.KeptNodes.{stands_equal};
ghost use Rattle.es_owed_definitions.specs.Values.{is_zero};
ghost use Rattle.es_owed_definitions.specs.Views.{node_part};

use es_base::kind::Kind;
use es_base::literal::LiteralValue;
use es_base::operator::UnaryOperator;
use es_node::node::Node;
use es_owed::same::same_node;
use es_shapes::walk::{NodeTest, any_node};
use es_tree::expression::UnaryExpressionRef;
use es_tree::literal::LiteralRef;
use es_validity::parts::is_string;

/// Whether what is defined is the value of a field, as far as its events do not say so: a literal is itself, of all that a
/// field is given by a name, a function, a class or a call the node is there, and nothing is `void 0`.
#[tactic(auto, using(crate::proofs::FieldValues::literal_fits, crate::proofs::FieldValues::other_fits))]
pub fn value_fits(field: Option<&Node>, value: Option<&Node>) -> bool
    ensures { result ≡ spec.value_fits (node_part field.entry) (node_part value.entry) }
{
    let Some(field) = field else {
        return is_void_zero(value)
    };
    match field.kind() {
        // x = 1;
        Kind::Literal => has_equal(field, value),
        kind => !is_followed(kind) || has_number(field.node_id().0, value),
    }
}

fn is_followed(kind: Kind) -> bool
    ensures { result ≡ spec.is_followed kind }
{
    matches!(
        kind,
        Kind::IdentifierReference
            | Kind::FunctionExpression
            | Kind::ArrowFunctionExpression
            | Kind::ClassExpression
            | Kind::CallExpression
            | Kind::NewExpression
    )
}

// ---- `void 0`

#[tactic(auto, using(crate::proofs::FieldValues::void_node, crate::proofs::FieldValues::no_void))]
fn is_void_zero(value: Option<&Node>) -> bool
    ensures { result ≡ spec.is_void_zero (node_part value.entry) }
{
    let Some(value) = value else { return false };
    match value.kind() {
        // void 0
        Kind::UnaryExpression => {
            let unary = UnaryExpressionRef::from_node(value);
            is_void(unary.operator) && is_zero(unary.argument)
        }
        _ => false,
    }
}

fn is_void(operator: UnaryOperator) -> bool
    ensures { result ≡ bytes_eq (unary_operator_string operator) (codes "void") }
{
    matches!(operator, UnaryOperator::Void)
}

#[tactic(auto, using(crate::proofs::FieldValues::zero_node, crate::proofs::FieldValues::no_zero))]
fn is_zero(node: &Node) -> bool
    ensures { result ≡ is_zero node.now }
{
    match node.kind() {
        Kind::Literal => is_zero_literal(LiteralRef::from_node(node).value),
        _ => false,
    }
}

fn is_zero_literal(value: &LiteralValue) -> bool
    ensures { result ≡ is_zero (tree.Node Kind.Literal 0 None None (more (literal value.now) end)) }
{
    match value {
        LiteralValue::Number { raw } => is_string(raw, "0"),
        _ => false,
    }
}

// ---- nodes in a value

/// Whether the value has a node that is equal to this one.
#[tactic(auto, using(crate::proofs::FieldValues::any_equal))]
fn has_equal(node: &Node, value: Option<&Node>) -> bool
    ensures { result ≡ stands_equal node.now (spec.nodes_in (node_part value.entry)) }
{
    let Some(value) = value else { return false };
    any_node(&IsEqual { node }, value)
}

/// Whether a node is equal to this one.
#[derive(Drop)]
struct IsEqual<'a> {
    node: &'a Node,
}

impl<'a> NodeTest for IsEqual<'a> {
    ghost use Rattle.es_steps.specs.SameTrees.{same_tree};

    ghost passes = { λ k t. same_tree k.node.now t };

    fn passes(&self, node: &Node) -> bool
        ensures { result ≡ same_tree self.now.node.now node.now }
    {
        same_node(self.node, node)
    }
}

/// Whether the value has a node of this number.
#[tactic(auto, using(crate::proofs::FieldValues::any_number))]
fn has_number(number: u32, value: Option<&Node>) -> bool
    ensures { result ≡ spec.number_stands number (spec.nodes_in (node_part value.entry)) }
{
    let Some(value) = value else { return false };
    any_node(&HasNumber { number }, value)
}

/// Whether a node has this number.
#[derive(Drop)]
struct HasNumber {
    number: u32,
}

impl NodeTest for HasNumber {
    ghost use Rattle.std.specs.Prelude.{nat_eq};
    ghost use Rattle.es_base.specs.Preorder.{number_of};

    ghost passes = { λ k t. nat_eq k.number (number_of t) };

    #[tactic(auto, using(es_owed::proofs::Nodes::number_of_node))]
    fn passes(&self, node: &Node) -> bool
        ensures { result ≡ nat_eq self.now.number (number_of node.now) }
    {
        self.number == node.node_id().0
    }
}
