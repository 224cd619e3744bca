// A class and its elements.

ghost use Rattle.std.specs.Prelude.{◌≡◌, map, IfOk};
ghost use Rattle.std.specs.List.{All};
ghost use Rattle.class_properties.specs.Form.{IsClass, IsField};
ghost use Rattle.class_properties.specs.Lowering.{definition, lowered_elements, lowered_class};

use crate::constructor::create_constructor;
use crate::prop_decl::convert_instance_property;
use es_base::list::List;
use es_node::node::Node;
use es_tree::class::{ClassBody, ClassDeclaration};
use std::alloc::{AllocError, Global};

/// `class C { x = 1; }` becomes `class C { constructor() { .. } }`.
#[tactic(auto, using(crate::proofs::Children::children_of))]
pub fn lower_class(alloc: Global, class: Node) -> Result<Node, AllocError>
    requires { IsClass class }
    ensures { IfOk result (λ r. r ≡ lowered_class class) }
{
    let mut class = ClassDeclaration::from_node(class);
    let mut body = ClassBody::from_node(class.body);
    body.body = lower_elements(alloc, body.body)?;
    class.body = body.into_node();
    Ok(class.into_node())
}

/// `x = 1; y;` become `constructor() { .. }`. Where there are no fields, there is no constructor.
fn lower_elements(alloc: Global, fields: List<Node>) -> Result<List<Node>, AllocError>
    requires { All IsField fields }
    ensures { IfOk result (λ r. r ≡ lowered_elements fields) }
{
    if fields.is_empty() {
        return Ok(fields);
    }
    let constructor = create_constructor(alloc, convert_fields(alloc, fields)?)?;
    Ok(List::from_vec(vec![in alloc; constructor]?))
}

/// The statements that define these fields, in their order.
fn convert_fields(alloc: Global, fields: List<Node>) -> Result<List<Node>, AllocError>
    requires { All IsField fields }
    ensures { IfOk result (λ r. r ≡ map definition fields) }
{
    let mut statements = List::new(alloc);
    for field in fields.into_vec() {
        statements.push(convert_instance_property(alloc, field)?)?;
    }
    Ok(statements)
}
