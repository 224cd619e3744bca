// Whether the fields of a base class come behind a parameter that is no identifier.

ghost use Rattle.std.specs.Prelude.{◌≡◌, ◌&&◌, option_map};
ghost use Rattle.es_base.specs.Preorder.{preorder};
ghost use Rattle.es_base.specs.Tree.{Parts, child, more, nullable, trees, nullable_trees};
ghost use Rattle.es_node.specs.View.{kind_of, part_of};
ghost use Rattle.es_steps.specs.LoweredClasses.{constructor_function};
ghost use Rattle.es_steps.specs.Parts.{items, is_simple_parameter, has_pattern};
ghost use Rattle.es_steps.specs.Scopes.{is_binding_identifier};
ghost use Rattle.es_steps.specs.Shapes.{lowered_classes, has_pattern_parameter, is_late_class, has_shape_2};
ghost use Rattle.es_shapes.specs.Classes.{class_view, is_lowered, is_lowered_with};
ghost use Rattle.es_shapes.specs.Parameters.{child_or};

use crate::asked::lowers_fields;
use crate::class::{ClassRef, class_of, elements_of};
use crate::element::{ElementKinds, element_kinds};
use crate::walk::{NodeTest, any_node};
use es_base::kind::Kind;
use es_base::operator::MethodDefinitionKind;
use es_node::node::{Node, Part};
use es_steps::options::Options;
use es_tree::class::MethodDefinitionRef;
use es_tree::pattern::RestElementRef;

/// Whether a base class has fields or private methods of instances, and a constructor with a parameter
/// that is no identifier, with class properties on: shape S2.
#[tactic(auto, using(crate::proofs::Lowered::any_lowered))]
pub fn has_late_class(program: &Node, options: &Options) -> bool
    ensures { result ≡ has_shape_2 options.now (lowered_classes options.now (preorder program.now)) }
{
    let test = IsLate { options: *options };
    lowers_fields(options) && any_node(&test, program)
}

/// Whether the node is a lowered base class whose fields come behind a parameter that is no identifier.
#[derive(Drop)]
struct IsLate {
    options: Options,
}

impl NodeTest for IsLate {
    ghost passes = { λ k t. is_lowered_with k.options is_late_class t };

    fn passes(&self, node: &Node) -> bool
        ensures { result ≡ is_lowered_with self.now.options is_late_class node.now }
    {
        // class A { x = 1; constructor(y = 1) {} }
        match class_of(node) {
            Some(class) => is_late_class(&self.options, class),
            None => false,
        }
    }
}

fn is_late_class(options: &Options, class: ClassRef) -> bool
    ensures { result ≡ (is_lowered options.now (class_view class.entry) && is_late_class (class_view class.entry)) }
{
    let elements = elements_of(class.body);
    let kinds = element_kinds(options, elements);
    kinds.has_lowered && class.super_class.is_none() && initializes_with_pattern(kinds, elements)
}

/// Whether a class with these elements, of these kinds, has fields or private methods of instances and a parameter
/// of its constructor that is no identifier.
pub fn initializes_with_pattern(kinds: ElementKinds, elements: &[Node]) -> bool
    ensures { result ≡ (kinds.has_instance_initializer && has_pattern_parameter (constructor_function (trees elements.now))) }
{
    kinds.has_instance_initializer && has_pattern_parameter(constructor_among(elements))
}

/// The function of the constructor among the elements of a class.
pub fn constructor_among(elements: &[Node]) -> Option<&Node>
    ensures { nullable (option_map (λ x. x.now) result) ≡ constructor_function (trees elements.now) }
{
    for element in elements {
        let function = constructor_of(element);
        if function.is_some() {
            return function;
        }
    }
    None
}

/// The function of the constructor, if the element is that.
#[tactic(auto, using(crate::proofs::Parameters::no_method))]
fn constructor_of(element: &Node) -> Option<&Node>
    ensures { (rest : Parts) → constructor_function (more (child element.now) rest) ≡ child_or (option_map (λ x. x.now) result) (constructor_function rest) }
{
    match element.kind() {
        Kind::MethodDefinition => {
            let method = MethodDefinitionRef::from_node(element);
            match method.kind {
                MethodDefinitionKind::Constructor => Some(method.value),
                _ => None,
            }
        }
        _ => None,
    }
}

/// Whether a function has a parameter that is neither an identifier nor a rest with one.
fn has_pattern_parameter(function: Option<&Node>) -> bool
    ensures { result ≡ has_pattern_parameter (nullable (option_map (λ x. x.now) function.entry)) }
{
    let Some(function) = function else {
        return false;
    };
    match function.parts() {
        [_, parameters, ..] => has_pattern(parameters),
        _ => false,
    }
}

/// Whether one of the parameters is neither an identifier nor a rest with one.
pub fn has_pattern(parameters: &Part) -> bool
    ensures { result ≡ has_pattern (items (part_of parameters.now)) }
{
    match parameters {
        Part::List(nodes) => any_pattern(nodes.as_slice()),
        Part::Holes(nodes) => any_pattern_or_hole(nodes.as_slice()),
        _ => false,
    }
}

fn any_pattern(parameters: &[Node]) -> bool
    ensures { result ≡ has_pattern (trees parameters.now) }
{
    for parameter in parameters {
        if !is_simple_parameter(parameter) {
            return true;
        }
    }
    false
}

fn any_pattern_or_hole(parameters: &[Option<Node>]) -> bool
    ensures { result ≡ has_pattern (nullable_trees parameters.now) }
{
    for parameter in parameters {
        if !is_simple_or_hole(parameter) {
            return true;
        }
    }
    false
}

fn is_simple_or_hole(parameter: &Option<Node>) -> bool
    ensures { result ≡ is_simple_parameter (nullable parameter.now) }
{
    match parameter {
        Some(parameter) => is_simple_parameter(parameter),
        None => false,
    }
}

/// Whether the parameter is an identifier or a rest with one.
#[tactic(auto, using(crate::proofs::Parameters::simple_name, crate::proofs::Parameters::rest_name, crate::proofs::Parameters::no_simple))]
fn is_simple_parameter(parameter: &Node) -> bool
    ensures { result ≡ is_simple_parameter (child parameter.now) }
{
    match parameter.kind() {
        // x
        Kind::BindingIdentifier => true,
        // ...x
        Kind::RestElement => is_name(RestElementRef::from_node(parameter).argument),
        _ => false,
    }
}

fn is_name(node: &Node) -> bool
    ensures { result ≡ is_binding_identifier (kind_of node.now) }
{
    matches!(node.kind(), Kind::BindingIdentifier)
}
