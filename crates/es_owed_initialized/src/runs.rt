// Elements that run with their class.

ghost use Rattle.std.specs.Prelude.{◌≡◌};
ghost use Rattle.es_base.specs.Tree.{child, trees};
ghost use Rattle.es_lowered.specs.HelperCalls as spec;

use es_base::kind::Kind;
use es_node::node::Node;
use es_seen_names::parts::is_true_at;
use es_tree::class::ClassBodyRef;

/// Whether an element runs with its class: a static block, and a static field.
#[tactic(auto, using(crate::proofs::RunningElements::runs_block, crate::proofs::RunningElements::runs_field, crate::proofs::RunningElements::runs_not))]
pub fn runs_with_class(element: &Node) -> bool
    ensures { result ≡ spec.runs_with_class (child element.now) }
{
    match element.kind() {
        // static {}
        Kind::StaticBlock => true,
        // static a = 1;
        Kind::PropertyDefinition => is_true_at(element.parts(), 3),
        _ => false,
    }
}

/// Whether one of these elements does.
pub fn any_runs(elements: &[Node]) -> bool
    ensures { result ≡ spec.any_runs (trees elements.now) }
{
    for element in elements {
        if runs_with_class(element) {
            return true;
        }
    }
    false
}

/// Whether the body has an element that runs with the class.
#[tactic(auto, using(crate::proofs::RunningElements::no_body))]
pub fn body_runs(body: &Node) -> bool
    ensures { result ≡ spec.body_runs (child body.now) }
{
    match body.kind() {
        Kind::ClassBody => any_runs(ClassBodyRef::from_node(body).body),
        _ => false,
    }
}
