// Whether a private name stands behind `?.` in one chain.

ghost use Rattle.std.specs.Prelude.{◌≡◌, ◌&&◌, ◌||◌};
ghost use Rattle.es_base.specs.Preorder.{preorder};
ghost use Rattle.es_steps.specs.Options.{lowers_fields};
ghost use Rattle.es_steps.specs.Shapes.{private_behind, private_chains};
ghost use Rattle.es_shapes.specs.Chains.{is_private_chain};

use crate::asked::lowers_fields;
use crate::walk::{NodeTest, any_node};
use es_base::kind::Kind;
use es_node::node::Node;
use es_steps::options::Options;
use es_tree::expression::{
    CallExpressionRef, ChainExpressionRef, MemberExpressionRef, PrivateFieldRef,
};

/// Whether a private name stands behind `?.` in one chain, with class properties on: shape S8.
#[tactic(auto, using(crate::proofs::Chains::any_chain))]
pub fn has_private_chain(program: &Node, options: &Options) -> bool
    ensures { result ≡ (lowers_fields options.now && private_chains (preorder program.now)) }
{
    lowers_fields(options) && any_node(&PrivateChain, program)
}

/// Whether the node is a chain that has a private name behind `?.`.
#[derive(Drop)]
struct PrivateChain;

impl NodeTest for PrivateChain {
    ghost passes = { λ _ t. is_private_chain t };

    #[tactic(auto, using(crate::proofs::Chains::no_chain))]
    fn passes(&self, node: &Node) -> bool
        ensures { result ≡ is_private_chain node.now }
    {
        match node.kind() {
            // a?.#b.c
            Kind::ChainExpression => {
                is_private_behind(ChainExpressionRef::from_node(node).expression, false)
            }
            _ => false,
        }
    }
}

/// Whether a private name stands behind a `?.` of this end of a chain, where one was met behind it or not.
#[tactic(auto, using(crate::proofs::Chains::no_spine, es_node::proofs::Below::nodes_in))]
fn is_private_behind(node: &Node, met: bool) -> bool
    ensures { result ≡ private_behind met node.now }
{
    match node.kind() {
        // a.b, a?.b
        Kind::MemberExpression => {
            let member = MemberExpressionRef::from_node(node);
            is_met_or(member.optional, met, is_private_behind(member.object, met))
        }
        // a.#b, a?.#b
        Kind::PrivateField => {
            let field = PrivateFieldRef::from_node(node);
            is_met_or(field.optional, true, is_private_behind(field.object, true))
        }
        // a(), a?.()
        Kind::CallExpression => {
            let call = CallExpressionRef::from_node(node);
            is_met_or(call.optional, met, is_private_behind(call.callee, met))
        }
        _ => false,
    }
}

/// Whether a private name was met behind this, if it is a `?.`, or stands behind one further in.
fn is_met_or(optional: bool, met: bool, further: bool) -> bool
    ensures { result ≡ ((optional && met) || further) }
{
    (optional && met) || further
}
