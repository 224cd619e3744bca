// The elements of a class.

ghost use Rattle.std.specs.Prelude.{◌≡◌, option_map};
ghost use Rattle.std.specs.Option.{option_to_list};
ghost use Rattle.es_base.specs.Tree.{child, trees};
ghost use Rattle.es_steps.specs.LoweredClasses.{is_private_key, is_lowered_element, element_of, elements_in};
ghost use Rattle.es_steps.specs.Shapes.{is_static_field, initializes_instances};
ghost use Rattle.es_shapes.specs.Classes.{element_view, element_kinds, kinds_with};

use crate::asked::{lowers_blocks, lowers_fields};
use es_base::ids::NodeId;
use es_base::kind::Kind;
use es_node::node::Node;
use es_steps::options::Options;
use es_tree::class::{MethodDefinitionRef, PropertyDefinitionRef};

/// A field, a method, an accessor or a static block of a class, borrowed. The value of a method is its
/// function.
#[derive(Clone, Copy)]
pub struct ElementRef<'a> {
    pub node_id: NodeId,
    pub is_static: bool,
    pub is_field: bool,
    pub is_block: bool,
    pub is_private: bool,
    pub computed: bool,
    pub key: Option<&'a Node>,
    pub value: Option<&'a Node>,
}

/// What kinds of elements a class has.
#[derive(Clone, Copy)]
pub struct ElementKinds {
    /// One that the options lower.
    pub has_lowered: bool,
    pub has_block: bool,
    pub has_static_field: bool,
    pub has_private: bool,
    /// A field or a private method of instances.
    pub has_instance_initializer: bool,
}

/// The element that the node is; nothing where it is none.
#[tactic(auto, using(crate::proofs::Classes::no_element))]
pub fn element_of(node: &Node) -> Option<ElementRef<'_>>
    ensures { option_to_list (option_map element_view result) ≡ element_of (child node.now) }
{
    match node.kind() {
        // x = 1;
        Kind::PropertyDefinition => {
            let field = PropertyDefinitionRef::from_node(node);
            Some(ElementRef {
                node_id: field.node_id,
                is_static: field.is_static,
                is_field: true,
                is_block: false,
                is_private: is_private_key(field.key),
                computed: field.computed,
                key: Some(field.key),
                value: field.value,
            })
        }
        // m() {}
        Kind::MethodDefinition => {
            let method = MethodDefinitionRef::from_node(node);
            Some(ElementRef {
                node_id: method.node_id,
                is_static: method.is_static,
                is_field: false,
                is_block: false,
                is_private: is_private_key(method.key),
                computed: method.computed,
                key: Some(method.key),
                value: Some(method.value),
            })
        }
        // static {}
        Kind::StaticBlock => Some(ElementRef {
            node_id: node.node_id(),
            is_static: true,
            is_field: false,
            is_block: true,
            is_private: false,
            computed: false,
            key: None,
            value: None,
        }),
        _ => None,
    }
}

#[tactic(auto, using(crate::proofs::Classes::private_key))]
/// Whether the key is a private name.
pub fn is_private_key(key: &Node) -> bool
    ensures { result ≡ is_private_key (child key.now) }
{
    matches!(key.kind(), Kind::PrivateIdentifier)
}

/// What kinds of elements are among these.
#[tactic(auto, using(crate::proofs::Classes::kinds_first, crate::proofs::Classes::kinds_whole))]
pub fn element_kinds(options: &Options, elements: &[Node]) -> ElementKinds
    ensures { result ≡ element_kinds options.now (elements_in (trees elements.now)) }
{
    let mut kinds = ElementKinds {
        has_lowered: false,
        has_block: false,
        has_static_field: false,
        has_private: false,
        has_instance_initializer: false,
    };
    for element in elements {
        kinds = kinds_with(options, kinds, element_of(element));
    }
    kinds
}

/// The same with one element more.
fn kinds_with(options: &Options, kinds: ElementKinds, element: Option<ElementRef>) -> ElementKinds
    ensures { result ≡ kinds_with options.now kinds (option_map element_view element.entry) }
{
    let Some(element) = element else { return kinds };
    ElementKinds {
        has_lowered: kinds.has_lowered || is_lowered_element(options, &element),
        has_block: kinds.has_block || element.is_block,
        has_static_field: kinds.has_static_field || is_static_field(&element),
        has_private: kinds.has_private || element.is_private,
        has_instance_initializer: kinds.has_instance_initializer || initializes_instances(&element),
    }
}

fn is_lowered_element(options: &Options, element: &ElementRef) -> bool
    ensures { result ≡ is_lowered_element options.now (element_view element.now) }
{
    (lowers_fields(options) && (element.is_field || element.is_private))
        || (lowers_blocks(options) && element.is_block)
}

pub fn is_static_field(element: &ElementRef) -> bool
    ensures { result ≡ is_static_field (element_view element.now) }
{
    element.is_field && element.is_static
}

/// Whether the element is a field or a private method of instances.
fn initializes_instances(element: &ElementRef) -> bool
    ensures { result ≡ initializes_instances (element_view element.now) }
{
    !element.is_static && (element.is_field || element.is_private)
}
