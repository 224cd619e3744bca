// Properties and methods: getters, setters, prototypes, and `{ a }`.

ghost use Rattle.std.specs.Prelude.{◌≡◌};
ghost use Rattle.std.specs.Str.{chars};
ghost use Rattle.es_base.specs.Conforms.{is_rest};
ghost use Rattle.es_base.specs.Tree.{child, trees};
ghost use Rattle.es_base.specs.declared.kind.Kind.{Kind};
ghost use Rattle.es_lowered.specs.Carriers as spec;
ghost use Rattle.es_lowered.specs.Carriers.{form_of_accessor, form_of_getter, form_of_property, is_one_parameter, is_proto, parameters_of};
ghost use Rattle.es_node.specs.View.{kind_of, parts_in};
ghost use Rattle.es_owed_carriers.specs.Forms.{form_in};

use crate::forms::OddForm;
use es_base::kind::Kind;
use es_base::literal::LiteralValue;
use es_base::strings::spells;
use es_node::node::Node;
use es_seen_names::parts::string_at;
use es_tree::class::MethodDefinitionRef;
use es_tree::expression::PropertyRef;
use es_tree::function::FunctionExpressionRef;
use es_tree::literal::LiteralRef;
use es_validity::names::name_of;

/// The form of a property.
pub fn form_of_property(node: &Node) -> OddForm
    requires { kind_of node.now ≡ Kind.Property }
    ensures { form_in result ≡ form_of_property (parts_in node.now) }
{
    let property = PropertyRef::from_node(node);
    if property.shorthand {
        OddForm::IsShorthand
    } else if is_proto(property.key) && !property.computed {
        OddForm::GivesPrototype
    } else {
        form_of_accessor(string_at(node.parts(), 2), property.value)
    }
}

/// The form of a method.
pub fn form_of_method(node: &Node) -> OddForm
    requires { kind_of node.now ≡ Kind.MethodDefinition }
    ensures { form_in result ≡ spec.odd_form Kind.MethodDefinition (parts_in node.now) }
{
    form_of_accessor(
        string_at(node.parts(), 2),
        MethodDefinitionRef::from_node(node).value,
    )
}

/// Whether the key is `__proto__`.
#[tactic(auto, using(crate::proofs::OddForms::proto_name, crate::proofs::OddForms::no_proto))]
fn is_proto(key: &Node) -> bool
    ensures { result ≡ is_proto (child key.now) }
{
    match key.kind() {
        // __proto__
        Kind::IdentifierName => spells(name_of(key), "__proto__"),
        // '__proto__'
        Kind::Literal => match LiteralRef::from_node(key).value {
            LiteralValue::String { value, .. } => spells(value.as_str(), "__proto__"),
            _ => false,
        },
        _ => false,
    }
}

// ---- getters and setters

/// The form of a property or a method of this kind (`get`, `set` or another) with this value.
fn form_of_accessor(kind: &str, value: &Node) -> OddForm
    ensures { form_in result ≡ form_of_accessor (chars kind.now) (parameters_of (child value.now)) }
{
    let parameters = parameters_of(value);
    if spells(kind, "get") {
        form_of_getter(parameters)
    } else if spells(kind, "set") && !is_one_parameter(parameters) {
        OddForm::TakesOddParameters
    } else {
        OddForm::None
    }
}

/// The parameters of a function; else none.
#[tactic(auto, using(crate::proofs::OddForms::no_function))]
fn parameters_of(value: &Node) -> &[Node]
    ensures { trees result.now ≡ parameters_of (child value.now) }
{
    match value.kind() {
        // function (a) {}
        Kind::FunctionExpression => FunctionExpressionRef::from_node(value).params,
        _ => &[],
    }
}

#[tactic(auto, using(crate::proofs::OddForms::some_parameters))]
fn form_of_getter(parameters: &[Node]) -> OddForm
    ensures { form_in result ≡ form_of_getter (trees parameters.now) }
{
    match parameters {
        [] => OddForm::None,
        _ => OddForm::TakesOddParameters,
    }
}

/// Whether it is one, and no rest.
#[tactic(auto, using(crate::proofs::OddForms::more_parameters))]
fn is_one_parameter(parameters: &[Node]) -> bool
    ensures { result ≡ is_one_parameter (trees parameters.now) }
{
    match parameters {
        [] => false,
        [parameter] => !is_rest(parameter),
        _ => false,
    }
}

#[tactic(auto, using(es_node::proofs::KindRules::is_rest_kind))]
fn is_rest(parameter: &Node) -> bool
    ensures { result ≡ is_rest (child parameter.now) }
{
    matches!(
        parameter.kind(),
        Kind::RestElement | Kind::AssignmentTargetRest
    )
}
