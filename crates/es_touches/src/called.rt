// The closures that a program gives to generated names.

ghost use Rattle.std.specs.Prelude.{◌≡◌, ◌++◌, IfOk, OnOk};
ghost use Rattle.std.specs.Str.{chars};
ghost use Rattle.es_base.specs.Tree.{child};
ghost use Rattle.es_binding_faults.specs.Seen.{seen};
ghost use Rattle.es_lowered.specs.DeadZones as spec;
ghost use Rattle.es_lowered.specs.Definitions.{spelling};
ghost use Rattle.es_node.specs.View.{kind_of, parts_in, parts_of};
ghost use Rattle.es_steps.specs.Parts.{at};
ghost use Rattle.es_touches.specs.Touches.{closures_of};

use crate::closures::Closure;
use es_base::kind::Kind;
use es_base::ledger::GeneratedKind;
use es_binding_faults::hoisted::part_at;
use es_generated::ledger::Ledger;
use es_node::node::{Node, Part};
use es_owed_initialized::spelling::spelling_at;
use std::alloc::{AllocError, Global};

/// The closures that these nodes give to generated names. Fails on allocation failure alone.
#[tactic(auto, using(crate::proofs::CalledClosures::closures_more))]
pub fn closures<'a>(
    alloc: Global,
    ledger: &Ledger,
    nodes: &[&'a Node],
) -> Result<Vec<Closure<'a>>, AllocError>
    ensures { IfOk result (λ r. closures_of r.items ≡ spec.closures ledger.now (seen nodes.now)) }
{
    let mut closures = Vec::new(alloc);
    for node in nodes {
        add_closure(ledger, *node, &mut closures)?;
    }
    Ok(closures)
}

/// Adds what the node gives to a name, if that is such a closure. Fails on allocation failure alone.
#[tactic(auto, using(crate::proofs::CalledClosures::by_assignment, crate::proofs::CalledClosures::by_declarator, crate::proofs::CalledClosures::by_none))]
fn add_closure<'a>(
    ledger: &Ledger,
    node: &'a Node,
    closures: &mut Vec<Closure<'a>>,
) -> Result<(), AllocError>
    ensures { OnOk result (closures_of closures.new.items ≡ closures_of closures.old.items ++ spec.closures_by ledger.now (kind_of node.now) (parts_in node.now)) }
{
    match node.kind() {
        // _a = () => b
        Kind::AssignmentExpression => add_closure_at(ledger, node.parts(), 1, 2, closures),
        // var _a = () => b;
        Kind::VariableDeclarator => add_closure_at(ledger, node.parts(), 0, 1, closures),
        _ => Ok(()),
    }
}

/// Adds the part at `value`, if it is an arrow and the name at `target` is that of a closure. Fails on allocation failure alone.
fn add_closure_at<'a>(
    ledger: &Ledger,
    parts: &'a [Part],
    target: usize,
    value: usize,
    closures: &mut Vec<Closure<'a>>,
) -> Result<(), AllocError>
    ensures { OnOk result (closures_of closures.new.items ≡ closures_of closures.old.items ++ spec.closure ledger.now (spelling (at target (parts_of parts.now))) (at value (parts_of parts.now))) }
{
    match part_at(parts, value) {
        Some(Part::Child(node)) => add_arrow(ledger, spelling_at(parts, target), node, closures),
        _ => Ok(()),
    }
}

#[tactic(auto, using(crate::proofs::CalledClosures::closure_of_arrow, crate::proofs::CalledClosures::no_arrow))]
fn add_arrow<'a>(
    ledger: &Ledger,
    name: &'a str,
    node: &Node,
    closures: &mut Vec<Closure<'a>>,
) -> Result<(), AllocError>
    ensures { OnOk result (closures_of closures.new.items ≡ closures_of closures.old.items ++ spec.closure ledger.now (chars name.now) (child node.now)) }
{
    match node.kind() {
        // () => a
        Kind::ArrowFunctionExpression => {
            if is_closure(ledger.generated_as(name)) {
                closures.push(Closure {
                    name,
                    arrow: node.node_id().0,
                })?;
            }
            Ok(())
        }
        _ => Ok(()),
    }
}

fn is_closure(kind: Option<GeneratedKind>) -> bool
    ensures { result ≡ spec.is_closure kind }
{
    matches!(
        kind,
        Some(GeneratedKind::Closure | GeneratedKind::SuperFn(_))
    )
}
