// What is around the parts of a node. (ECMA-262, 10.2.1, 10.2.2, 10.2.11, 14.7, 15.7.10.)

ghost use Rattle.std.specs.Prelude.{◌≡◌, ◌&&◌, cond, nat_eq, not, true};
ghost use Rattle.std.specs.Str.{chars};
ghost use Rattle.es_base.specs.Tree.{child, end, more, nullable};
ghost use Rattle.es_base.specs.declared.kind.Kind.{Kind};
ghost use Rattle.es_node.specs.View.{kind_of, number_in, part_of, parts_in, parts_of};
ghost use Rattle.es_steps.specs.Context as context;
ghost use Rattle.es_steps.specs.Parts.{at, is_true, items};
ghost use Rattle.es_steps.specs.PrivateNames as privates;
ghost use Rattle.es_steps.specs.Repeated as spec;
ghost use Rattle.es_places.specs.Placing.{is_field, surroundings_of, surroundings_within};

use es_base::kind::Kind;
use es_base::ledger::GeneratedKind;
use es_binding_faults::hoisted::{is_var, part_at};
use es_binding_faults::vars::takes_vars;
use es_generated::ledger::Ledger;
use es_generated::numbers::is_new;
use es_node::node::{Node, Part};
use es_seen_names::parts::{is_true_at, name_at};
use es_shapes::late_class::has_pattern;
use es_shapes::walk::is_any_function;
use es_tree::class::MethodDefinitionRef;
use es_validity::class::is_constructor;
use es_validity::jumps::is_loop;

/// What is around a part.
#[derive(Debug, Clone, Copy)]
pub struct Surroundings {
    /// The nearest function or loop, the class whose construction it is, or the first parameter.
    pub place: u32,
    /// Where a `var` here is hoisted to.
    pub hoisted: u32,
    /// Whether an identifier here is one of a `var`.
    pub in_var: bool,
    /// The nearest class whose body is around.
    pub class: u32,
    /// The class whose construction a function here belongs to.
    pub constructs: Option<u32>,
}

/// What is around a program.
#[tactic(auto, using(crate::proofs::Placed::number_of_node))]
pub fn around_program(program: &Node) -> Surroundings
    ensures { surroundings_of result ≡ spec.around_program program.now }
{
    let number = program.node_id().0;
    Surroundings {
        place: number,
        hoisted: number,
        in_var: false,
        class: number,
        constructs: None,
    }
}

/// What is around the i-th part of a node that stands so. Nodes from the number `first` on are new.
pub fn surroundings_in(
    first: u32,
    ledger: &Ledger,
    around: Surroundings,
    node: &Node,
    i: usize,
) -> Surroundings
    ensures { surroundings_of result ≡ surroundings_within first ledger.now (surroundings_of around) node.now i }
{
    Surroundings {
        place: place_in(first, around, node, i),
        hoisted: hoisted_in(first, around, node, i),
        in_var: is_in_var(around.in_var, node),
        class: class_around(around.class, node, i),
        constructs: constructs_at(ledger, around.class, node, i),
    }
}

// ---- kinds

fn is_field(kind: Kind) -> bool
    ensures { result ≡ is_field kind }
{
    matches!(kind, Kind::PropertyDefinition)
}

pub fn is_class(kind: Kind) -> bool
    ensures { result ≡ privates.is_class kind }
{
    matches!(kind, Kind::ClassDeclaration | Kind::ClassExpression)
}

// ---- the place

/// Where the i-th part of a node stands.
#[tactic(auto, using(crate::proofs::Placed::place_by_kind))]
fn place_in(first: u32, around: Surroundings, node: &Node, i: usize) -> u32
    ensures { result ≡ spec.place_in first (surroundings_of around) (kind_of node.now) (number_in node.now) (parts_in node.now) i }
{
    let kind = node.kind();
    if is_field(kind) {
        field_place(around, node.parts(), i)
    } else if is_any_function(kind) {
        let number = node.node_id().0;
        let place = function_place(
            is_new(first, number),
            around.constructs,
            number,
            around.place,
        );
        parameters_place(is_parameters_part(kind, i), node.parts(), i, place)
    } else if is_loop(kind) {
        loop_place(node, i, around.place)
    } else {
        around.place
    }
}

/// The value of a field that is not static is evaluated in each construction of its class.
fn field_place(around: Surroundings, parts: &[Part], i: usize) -> u32
    ensures { result ≡ cond (nat_eq i 1 && not (is_true (at 3 (parts_of parts.now)))) around.class around.place }
{
    if i == 1 && !is_true_at(parts, 3) {
        around.class
    } else {
        around.place
    }
}

fn function_place(is_new: bool, constructs: Option<u32>, number: u32, place: u32) -> u32
    ensures { result ≡ spec.function_place is_new constructs number place }
{
    match constructs {
        Some(class) => class,
        None => { if is_new { place } else { number } }
    }
}

fn is_parameters_part(kind: Kind, i: usize) -> bool
    ensures { result ≡ spec.is_parameters_part kind i }
{
    match kind {
        Kind::FunctionDeclaration | Kind::FunctionExpression => i == 1,
        Kind::ArrowFunctionExpression => i == 0,
        _ => false,
    }
}

/// Parameters that are not all identifiers are known by the number of the first.
fn parameters_place(is_parameters: bool, parts: &[Part], i: usize, place: u32) -> u32
    ensures { result ≡ spec.parameters_place is_parameters (items (at i (parts_of parts.now))) place }
{
    if !is_parameters {
        return place;
    }
    match part_at(parts, i) {
        Some(parameters) => pattern_place(parameters, place),
        None => place,
    }
}

fn pattern_place(parameters: &Part, place: u32) -> u32
    ensures { result ≡ spec.parameters_place true (items (part_of parameters.now)) place }
{
    if has_pattern(parameters) {
        first_number(parameters, place)
    } else {
        place
    }
}

#[tactic(auto, using(crate::proofs::Placed::first_child, crate::proofs::Placed::first_hole))]
fn first_number(parameters: &Part, place: u32) -> u32
    ensures { result ≡ spec.first_number (items (part_of parameters.now)) place }
{
    match parameters {
        Part::List(nodes) => match nodes.as_slice() {
            [node, ..] => node.node_id().0,
            [] => place,
        },
        Part::Holes(nodes) => match nodes.as_slice() {
            [node, ..] => number_or(node, place),
            [] => place,
        },
        _ => place,
    }
}

fn number_or(node: &Option<Node>, place: u32) -> u32
    ensures { result ≡ spec.first_number (more (nullable node.now) end) place }
{
    match node {
        Some(node) => node.node_id().0,
        None => place,
    }
}

/// Where the i-th part of a loop stands.
#[tactic(auto, using(crate::proofs::Placed::other_loop))]
fn loop_place(node: &Node, i: usize, place: u32) -> u32
    ensures { result ≡ spec.loop_place (kind_of node.now) (number_in node.now) (parts_in node.now) i place }
{
    let number = node.node_id().0;
    match node.kind() {
        // for (let i = 0; ..) {}
        Kind::ForStatement => {
            if i == 0 {
                once_place_at(node.parts(), place)
            } else {
                number
            }
        }
        // for (const key in o) {}
        Kind::ForInStatement | Kind::ForOfStatement => { if i == 1 { place } else { number } }
        _ => number,
    }
}

/// Where the first part of a `for` stands, which is evaluated once.
fn once_place_at(parts: &[Part], place: u32) -> u32
    ensures { result ≡ spec.once_place (at 0 (parts_of parts.now)) place }
{
    match part_at(parts, 0) {
        Some(Part::Child(node)) => once_place(node, place),
        _ => place,
    }
}

#[tactic(auto, using(crate::proofs::Placed::no_declaration, crate::proofs::Placed::its_declaration))]
fn once_place(node: &Node, place: u32) -> u32
    ensures { result ≡ spec.once_place (child node.now) place }
{
    match node.kind() {
        Kind::VariableDeclaration => node.node_id().0,
        _ => place,
    }
}

// ---- what is hoisted, and the class

/// Where a `var` in the i-th part of a node is hoisted to.
fn hoisted_in(first: u32, around: Surroundings, node: &Node, i: usize) -> u32
    ensures { result ≡ spec.hoisted_in first (surroundings_of around) (kind_of node.now) (number_in node.now) (parts_in node.now) i }
{
    if takes_vars(node.kind()) {
        place_in(first, around, node, i)
    } else {
        around.hoisted
    }
}

/// The nearest class whose body is around the i-th part of a node in this class.
fn class_around(class: u32, node: &Node, i: usize) -> u32
    ensures { result ≡ cond (privates.is_class (kind_of node.now) && nat_eq i 2) (number_in node.now) class }
{
    if is_class(node.kind()) && i == 2 {
        node.node_id().0
    } else {
        class
    }
}

// ---- `var`

/// Whether an identifier in a node is one of a `var`, where it is or is not around the node.
#[tactic(auto, using(crate::proofs::Placed::no_variables))]
fn is_in_var(in_var: bool, node: &Node) -> bool
    ensures { result ≡ spec.in_var_at in_var (kind_of node.now) (parts_in node.now) }
{
    let kind = node.kind();
    match kind {
        Kind::VariableDeclaration => is_var(node.parts()),
        _ => in_var && !(is_any_function(kind) || is_class(kind)),
    }
}

// ---- constructions

/// The class whose construction a function belongs to that is the i-th part: this class for a constructor, and that of a `super`
/// function for what its generated name is given.
#[tactic(auto, using(crate::proofs::Placed::no_construction))]
fn constructs_at(ledger: &Ledger, class: u32, node: &Node, i: usize) -> Option<u32>
    ensures { result ≡ spec.constructs_at ledger.now class (kind_of node.now) (parts_in node.now) i }
{
    match node.kind() {
        // class A { constructor() {} }
        Kind::MethodDefinition => {
            if i == 1 && is_constructor(MethodDefinitionRef::from_node(node).kind) {
                Some(class)
            } else {
                None
            }
        }
        // _super = () => {}
        Kind::AssignmentExpression => {
            if i == 2 {
                super_function(name_at(node.parts(), 1), ledger)
            } else {
                None
            }
        }
        Kind::VariableDeclarator => {
            if i == 1 {
                super_function(name_at(node.parts(), 0), ledger)
            } else {
                None
            }
        }
        _ => None,
    }
}

/// The class of a `super` function of this name.
fn super_function(name: &str, ledger: &Ledger) -> Option<u32>
    ensures { result ≡ spec.super_function (context.generated_as (chars name.now) ledger.now) }
{
    match ledger.generated_as(name) {
        Some(GeneratedKind::SuperFn(class)) => Some(class.0),
        _ => None,
    }
}
