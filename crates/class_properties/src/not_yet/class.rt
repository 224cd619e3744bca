// Which nodes of a class are not as the first form asks.

ghost use Rattle.std.specs.Prelude.{◌≡◌, true, not, ◌||◌, option_map, IfSome};
ghost use Rattle.std.specs.Option.{option_to_list};
ghost use Rattle.es_base.specs.Conforms.{conforms, is_among};
ghost use Rattle.es_base.specs.Tree.{end, more, child, trees, nullable};
ghost use Rattle.es_base.specs.declared.kind.Kind.{Kind};
ghost use Rattle.es_base.specs.declared.table.Place.{Place};
ghost use Rattle.es_node.specs.View.{kind_of};
ghost use Rattle.es_steps.specs.FirstForm.{helper_names, elements_breaches, is_new_name, class_names, statement_breaches};
ghost use Rattle.class_properties.specs.Form.{HasClassParts};
ghost use Rattle.class_properties.specs.Least.{number_in, least_with};

use crate::not_yet::field::is_field;
use crate::not_yet::least::{lower, unless};
use es_base::ids::NodeId;
use es_base::kind::Kind;
use es_base::name::Name;
use es_base::strings::is_among;
use es_name_set::Names;
use es_node::node::Node;
use es_tree::class::{ClassBodyRef, ClassDeclarationRef};
use es_tree::identifier::BindingIdentifierRef;

/// The name of the class that the statement is; nothing for any other statement.
#[tactic(auto, using(crate::proofs::OfKinds::class_parts, crate::proofs::OfKinds::no_class_names))]
pub fn class_name(statement: &Node) -> Option<&Name>
    requires { conforms Place.Statement statement.now ≡ true }
    ensures { option_to_list (option_map (λ s. s.now) result) ≡ class_names (more (child statement.now) end) }
{
    match statement.kind() {
        Kind::ClassDeclaration => match ClassDeclarationRef::from_node(statement).id {
            Some(id) => Some(BindingIdentifierRef::from_node(id).name),
            None => None,
        },
        _ => None,
    }
}

/// The least number, where the nodes of a statement count that are not as the first form asks: `earlier`
/// has the names of the classes before it, `names` those of all classes, and `least` is the least number
/// before.
#[tactic(auto, using(crate::proofs::OfKinds::class_parts, crate::proofs::OfKinds::no_class_breaches))]
pub fn statement_breaches(
    earlier: &Names,
    names: &Names,
    statement: &Node,
    least: Option<NodeId>,
) -> Option<NodeId>
    requires { conforms Place.Statement statement.now ≡ true }
    ensures { number_in result ≡ least_with (number_in least) (statement_breaches earlier.now names.now (child statement.now)) }
{
    match statement.kind() {
        Kind::ClassDeclaration => class_breaches(earlier, names, statement, least),
        _ => lower(least, statement.node_id()),
    }
}

/// The same of a class.
#[tactic(auto, using(crate::proofs::Leasts::least_with_append))]
fn class_breaches(
    earlier: &Names,
    names: &Names,
    class: &Node,
    least: Option<NodeId>,
) -> Option<NodeId>
    requires kind { kind_of class.now ≡ Kind.ClassDeclaration }
    requires parts { HasClassParts class.now }
    ensures { number_in result ≡ least_with (number_in least) (statement_breaches earlier.now names.now (child class.now)) }
{
    let class = ClassDeclarationRef::from_node(class);
    let body = ClassBodyRef::from_node(class.body);
    let is_plain = is_new_name(earlier, class.id) && class.super_class.is_none();
    elements_breaches(names, body.body, unless(is_plain, class.node_id, least))
}

/// Whether this is the name of a class that may stand behind classes of these names.
fn is_new_name(earlier: &Names, id: Option<&Node>) -> bool
    requires { IfSome id (λ id. kind_of id.now ≡ Kind.BindingIdentifier) }
    ensures { result ≡ is_new_name earlier.now (nullable (option_map (λ x. x.now) id.entry)) }
{
    match id {
        Some(id) => is_new_string(earlier, BindingIdentifierRef::from_node(id).name),
        None => false,
    }
}

/// Whether the name is none of these, and none that a lowered program uses.
fn is_new_string(earlier: &Names, name: &Name) -> bool
    ensures { result ≡ not (is_among name.now earlier.now || is_among name.now helper_names) }
{
    let string = name.as_str();
    !(earlier.has(string) || is_among(string, &["babelHelpers", "WeakMap", "WeakSet", "Object"]))
}

/// The least number, where the elements of a class count that are not as the first form asks.
fn elements_breaches(names: &Names, elements: &[Node], least: Option<NodeId>) -> Option<NodeId>
    ensures { number_in result ≡ least_with (number_in least) (elements_breaches names.now (trees elements.now)) }
{
    let mut least = least;
    for element in elements {
        least = unless(is_field(names, element), element.node_id(), least);
    }
    least
}
