// A class, as a declaration or an expression.

ghost use Rattle.std.specs.Prelude.{◌≡◌, option_map};
ghost use Rattle.es_base.specs.Tree.{child, trees};
ghost use Rattle.es_steps.specs.LoweredClasses.{body_elements, elements_in, constructor_function, constructor_in};
ghost use Rattle.es_shapes.specs.Classes.{class_of, class_view};

use es_base::ids::NodeId;
use es_base::kind::Kind;
use es_node::node::Node;
use es_tree::class::{ClassBodyRef, ClassDeclarationRef, ClassExpressionRef};

/// A class, borrowed.
#[derive(Clone, Copy)]
pub struct ClassRef<'a> {
    pub node_id: NodeId,
    pub is_expression: bool,
    pub id: Option<&'a Node>,
    pub super_class: Option<&'a Node>,
    pub body: &'a Node,
}

/// The class that the node is; nothing where it is none.
#[tactic(auto, using(crate::proofs::Classes::no_class))]
pub fn class_of(node: &Node) -> Option<ClassRef<'_>>
    ensures { option_map class_view result ≡ class_of node.now }
{
    match node.kind() {
        // class A {}
        Kind::ClassDeclaration => {
            let class = ClassDeclarationRef::from_node(node);
            Some(ClassRef {
                node_id: class.node_id,
                is_expression: false,
                id: class.id,
                super_class: class.super_class,
                body: class.body,
            })
        }
        // (class {})
        Kind::ClassExpression => {
            let class = ClassExpressionRef::from_node(node);
            Some(ClassRef {
                node_id: class.node_id,
                is_expression: true,
                id: class.id,
                super_class: class.super_class,
                body: class.body,
            })
        }
        _ => None,
    }
}

/// The elements in the body of a class.
#[tactic(auto, using(crate::proofs::Classes::no_body, crate::proofs::Classes::no_constructor))]
pub fn elements_of(body: &Node) -> &[Node]
    ensures elements { elements_in (trees result.now) ≡ body_elements (child body.now) }
    ensures constructor { constructor_function (trees result.now) ≡ constructor_in (child body.now) }
{
    match body.kind() {
        Kind::ClassBody => ClassBodyRef::from_node(body).body,
        _ => &[],
    }
}
