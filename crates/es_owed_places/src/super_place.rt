// What of `super` may stand at a place.

ghost use Rattle.std.specs.Prelude.{◌≡◌, ◌&&◌, cond, false, nat_eq};
ghost use Rattle.es_base.specs.Words.{property_kind_string};
ghost use Rattle.es_base.specs.declared.kind.Kind.{Kind};
ghost use Rattle.es_lowered.specs.Supers as spec;
ghost use Rattle.es_node.specs.View.{kind_of, parts_in};
ghost use Rattle.es_steps.specs.Context.{is_constructor};
ghost use Rattle.es_steps.specs.Parts.{at, is_present, is_true, string_of};
ghost use Rattle.es_steps.specs.Printable.{is_accessor};
ghost use Rattle.es_owed_places.specs.SuperPlaces.{in_function, is_method_property, place_of, place_within};

use es_base::kind::Kind;
use es_base::operator::PropertyKind;
use es_node::node::Node;
use es_seen_names::parts::is_present_at;
use es_tree::class::MethodDefinitionRef;
use es_tree::expression::PropertyRef;
use es_validity::class::is_constructor;

/// What of `super` may stand at a place.
#[derive(Debug, Clone, Copy)]
pub struct SuperPlace {
    /// `super(..)`.
    pub calls: bool,
    /// `super.x`.
    pub members: bool,
    /// The same in a function that is the next part.
    pub function_calls: bool,
    pub function_members: bool,
    /// Whether the class around has a heritage.
    pub has_heritage: bool,
}

impl SuperPlace {
    ghost use Rattle.es_owed_places.specs.SuperPlaces.{in_function, place_of};

    /// Outside of all.
    pub fn nowhere() -> SuperPlace
        ensures { place_of result ≡ spec.no_place }
    {
        SuperPlace {
            calls: false,
            members: false,
            function_calls: false,
            function_members: false,
            has_heritage: false,
        }
    }

    /// Where the next part is the function of no method.
    fn in_no_method(self) -> SuperPlace
        ensures { place_of result ≡ spec.in_no_method (place_of self) }
    {
        SuperPlace {
            function_calls: false,
            function_members: false,
            ..self
        }
    }

    /// Where the next part is the function of a method, in which a call may stand or not.
    fn in_method(self, calls: bool) -> SuperPlace
        ensures { place_of result ≡ spec.in_method calls (place_of self) }
    {
        SuperPlace {
            function_calls: calls,
            function_members: true,
            ..self
        }
    }

    /// In the value of a field or a static block.
    fn in_element(self) -> SuperPlace
        ensures { place_of result ≡ spec.in_element (place_of self) }
    {
        SuperPlace {
            calls: false,
            members: true,
            ..self.in_no_method()
        }
    }

    /// In the body of a class.
    fn in_class(self, has_heritage: bool) -> SuperPlace
        ensures { place_of result ≡ spec.in_class has_heritage (place_of self) }
    {
        SuperPlace {
            has_heritage,
            ..self.in_no_method()
        }
    }

    /// In a function that is no arrow.
    fn in_function(self) -> SuperPlace
        ensures { place_of result ≡ in_function (place_of self) }
    {
        SuperPlace {
            calls: self.function_calls,
            members: self.function_members,
            ..self.in_no_method()
        }
    }
}

/// What may stand in the i-th part of a node that stands so.
#[tactic(auto, using(crate::proofs::SuperPlaces::within_method, crate::proofs::SuperPlaces::within_property, crate::proofs::SuperPlaces::within_field, crate::proofs::SuperPlaces::within_block, crate::proofs::SuperPlaces::within_class, crate::proofs::SuperPlaces::within_function, crate::proofs::SuperPlaces::within_other))]
pub fn place_inside(place: SuperPlace, node: &Node, i: usize) -> SuperPlace
    ensures { place_of result ≡ place_within (place_of place) node.now i }
{
    match node.kind() {
        // m() {}
        Kind::MethodDefinition => inside_method(place, node, i),
        // { m() {} }
        Kind::Property => inside_property(place, node, i),
        // a = 1;
        Kind::PropertyDefinition => inside_field(place, i),
        // static {}
        Kind::StaticBlock => place.in_element(),
        // class A {}
        Kind::ClassDeclaration | Kind::ClassExpression => inside_class(place, node, i),
        // function f() {}
        Kind::FunctionDeclaration | Kind::FunctionExpression => place.in_function(),
        _ => place.in_no_method(),
    }
}

fn inside_method(place: SuperPlace, method: &Node, i: usize) -> SuperPlace
    requires { kind_of method.now ≡ Kind.MethodDefinition }
    ensures { place_of result ≡ cond (nat_eq i 1) (spec.in_method (is_constructor (string_of (at 2 (parts_in method.now))) && place.has_heritage) (place_of place)) (spec.in_no_method (place_of place)) }
{
    if i == 1 {
        let is_constructor = is_constructor(MethodDefinitionRef::from_node(method).kind);
        place.in_method(is_constructor && place.has_heritage)
    } else {
        place.in_no_method()
    }
}

fn inside_property(place: SuperPlace, property: &Node, i: usize) -> SuperPlace
    requires { kind_of property.now ≡ Kind.Property }
    ensures { place_of result ≡ cond (nat_eq i 1 && is_method_property (parts_in property.now)) (spec.in_method false (place_of place)) (spec.in_no_method (place_of place)) }
{
    if i == 1 && is_method_property(property) {
        place.in_method(false)
    } else {
        place.in_no_method()
    }
}

/// Whether a property is a method, a getter or a setter.
fn is_method_property(property: &Node) -> bool
    requires { kind_of property.now ≡ Kind.Property }
    ensures { result ≡ is_method_property (parts_in property.now) }
{
    let property = PropertyRef::from_node(property);
    property.method || is_accessor(property.kind)
}

/// Whether a property is a getter or a setter.
fn is_accessor(kind: PropertyKind) -> bool
    ensures { result ≡ is_accessor (property_kind_string kind) }
{
    match kind {
        PropertyKind::Init => false,
        PropertyKind::Get | PropertyKind::Set => true,
    }
}

fn inside_field(place: SuperPlace, i: usize) -> SuperPlace
    ensures { place_of result ≡ cond (nat_eq i 1) (spec.in_element (place_of place)) (spec.in_no_method (place_of place)) }
{
    if i == 1 {
        place.in_element()
    } else {
        place.in_no_method()
    }
}

fn inside_class(place: SuperPlace, class: &Node, i: usize) -> SuperPlace
    ensures { place_of result ≡ cond (nat_eq i 2) (spec.in_class (is_present (at 1 (parts_in class.now))) (place_of place)) (spec.in_no_method (place_of place)) }
{
    if i == 2 {
        place.in_class(is_present_at(class.parts(), 1))
    } else {
        place.in_no_method()
    }
}
