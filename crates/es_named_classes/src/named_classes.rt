// The classes of a program that are known by names of their own: class expressions whose heritage or keys read their name, and
// class declarations without a name. (ECMA-262, 15.7.14 and 16.2.3.7.)

ghost use Rattle.std.specs.Prelude.{◌≡◌, ◌++◌, IfOk, OnOk};
ghost use Rattle.std.specs.Option.{option_to_list};
ghost use Rattle.es_base.specs.declared.kind.Kind.{Kind};
ghost use Rattle.es_binding_faults.specs.Seen.{seen};
ghost use Rattle.es_node.specs.View.{kind_of};
ghost use Rattle.es_steps.specs.ClassHeads as spec;
ghost use Rattle.es_steps.specs.ClassHeads.{named_among};
ghost use Rattle.es_named_classes.specs.Naming.{named_class};

use es_base::kind::Kind;
use es_binding_faults::preorder::preorder;
use es_node::node::Node;
use es_shapes::class_head::names_itself;
use es_tree::class::{ClassDeclarationRef, ClassExpressionRef};
use std::alloc::{AllocError, Global};

/// The class expressions of a program that read their name in their heritage or their keys, each with the identifier of it, and the
/// class declarations without a name, each with itself, in preorder. Fails on allocation failure alone.
pub fn named_classes(alloc: Global, program: &Node) -> Result<Vec<(u32, u32)>, AllocError>
    ensures { IfOk result (λ r. r.items ≡ spec.named_classes program.now) }
{
    let nodes = preorder(alloc, program)?;
    named_among(alloc, nodes.as_slice())
}

#[tactic(auto, using(crate::proofs::Naming::first_named))]
fn named_among(alloc: Global, nodes: &[&Node]) -> Result<Vec<(u32, u32)>, AllocError>
    ensures { IfOk result (λ r. r.items ≡ named_among (seen nodes.now)) }
{
    let mut found = Vec::new(alloc);
    for node in nodes {
        add_if_some(named_class(node), &mut found)?;
    }
    Ok(found)
}

fn add_if_some(class: Option<(u32, u32)>, found: &mut Vec<(u32, u32)>) -> Result<(), AllocError>
    ensures { OnOk result (found.new.items ≡ found.old.items ++ option_to_list class) }
{
    if let Some(class) = class {
        found.push(class)?;
    }
    Ok(())
}

/// The class that the node is, with the node of what it is known by, if that is a name of its own.
#[tactic(auto, using(crate::proofs::Naming::no_class))]
fn named_class(node: &Node) -> Option<(u32, u32)>
    ensures { option_to_list result ≡ named_class node.now }
{
    match node.kind() {
        // export default class {}
        Kind::ClassDeclaration => unnamed_declaration(node),
        // x = class A { [A.k] = 1; };
        Kind::ClassExpression => named_by_itself(node),
        _ => None,
    }
}

fn unnamed_declaration(node: &Node) -> Option<(u32, u32)>
    requires { kind_of node.now ≡ Kind.ClassDeclaration }
    ensures { option_to_list result ≡ named_class node.now }
{
    let class = ClassDeclarationRef::from_node(node);
    match class.id {
        Some(_) => None,
        None => Some((class.node_id.0, class.node_id.0)),
    }
}

#[tactic(auto, using(crate::proofs::Naming::not_itself, crate::proofs::Naming::itself))]
fn named_by_itself(node: &Node) -> Option<(u32, u32)>
    requires { kind_of node.now ≡ Kind.ClassExpression }
    ensures { option_to_list result ≡ named_class node.now }
{
    if !names_itself(node) {
        return None;
    }
    let class = ClassExpressionRef::from_node(node);
    let id = class.id?;
    Some((class.node_id.0, id.node_id().0))
}
