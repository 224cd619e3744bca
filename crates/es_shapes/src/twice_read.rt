// Whether a varying name is read twice.

ghost use Rattle.std.specs.Prelude.{◌≡◌, false};
ghost use Rattle.es_base.specs.Preorder.{preorder};
ghost use Rattle.es_base.specs.Tree.{child, nullable, trees, nullable_trees};
ghost use Rattle.es_node.specs.View.{kind_of, part_of, parts_in};
ghost use Rattle.es_base.specs.Words.{assignment_operator_string};
ghost use Rattle.es_steps.specs.Expressions.{is_logical};
ghost use Rattle.es_steps.specs.References.{resolve, varying};
ghost use Rattle.es_steps.specs.Shapes.{lowered_classes, is_written_name, private_object, super_key, any_written, moved_in, is_private_function, reads_twice, reads_twice_in, reads_twice_at, reads_twice_of, has_shape_4};
ghost use Rattle.es_shapes.specs.Twice.{reads_twice_here, target_parts, is_super_kind};

use crate::asked::{keeps_privates_as_properties, lowers_blocks, lowers_fields};
use crate::changing_key::has_changing_key;
use crate::element::is_private_key;
use crate::facts::NameFacts;
use es_base::kind::Kind;
use es_base::operator::AssignmentOperator;
use es_node::node::{Node, Part};
use es_steps::options::Options;
use es_tree::class::{MethodDefinitionRef, PropertyDefinitionRef};
use es_tree::expression::{
    AssignmentExpressionRef, CallExpressionRef, MemberExpressionRef, PrivateFieldRef,
    TaggedTemplateExpressionRef, UpdateExpressionRef,
};

/// Whether a varying name is read twice, with class properties on: as the object of a private
/// member that is written by an operator, updated, called, a tag or behind `?.`, or as the key of a `super`
/// member in moved code that is written by an operator or updated; or a name that changes without a write is a computed key that
/// is read at another time: shape S4.
pub fn has_twice_read_name<F: NameFacts>(program: &Node, options: &Options, facts: &F) -> bool
    requires { F.program facts.now ≡ program.now }
    ensures { result ≡ has_shape_4 options.now program.now (lowered_classes options.now (preorder program.now)) }
{
    lowers_fields(options)
        && (any_twice_read(program, options, facts) || has_changing_key(program, options, facts))
}

/// Whether a node of the program reads such a name twice.
fn any_twice_read<F: NameFacts>(program: &Node, options: &Options, facts: &F) -> bool
    requires { F.program facts.now ≡ program.now }
    ensures { result ≡ reads_twice options.now (varying program.now) (resolve program.now) false false program.now }
{
    let at_top = Moves {
        moved: false,
        of_method: false,
    };
    reads_twice(options, facts, at_top, program)
}

/// Whether code moves at a place, and whether a function there is that of a private method.
#[derive(Clone, Copy)]
struct Moves {
    moved: bool,
    of_method: bool,
}

#[cycle(twice)]
#[tactic(auto, using(crate::proofs::Twice::reads_twice_node, es_node::proofs::Below::nodes_in))]
fn reads_twice<F: NameFacts>(options: &Options, facts: &F, moves: Moves, node: &Node) -> bool
    ensures { result ≡ reads_twice options.now (varying (F.program facts.now)) (resolve (F.program facts.now)) moves.moved moves.of_method node.now }
{
    reads_twice_here(options, facts, moves.moved, node)
        || reads_twice_in(options, facts, moves, node)
}

/// The same of the parts of the node.
#[cycle(twice)]
#[tactic(auto, using(crate::proofs::Twice::next_part, crate::proofs::Twice::all_parts))]
fn reads_twice_in<F: NameFacts>(options: &Options, facts: &F, moves: Moves, node: &Node) -> bool
    ensures { result ≡ reads_twice_in options.now (varying (F.program facts.now)) (resolve (F.program facts.now)) (moved_in options.now moves.moved moves.of_method (kind_of node.now) (parts_in node.now)) (is_private_function (kind_of node.now) (parts_in node.now)) (parts_in node.now) }
{
    let parts = node.parts();
    for (i, part) in parts.iter().enumerate() {
        if reads_twice_at(options, facts, moves_inside(options, moves, node, i), part) {
            return true;
        }
    }
    false
}

#[cycle(twice)]
fn reads_twice_at<F: NameFacts>(options: &Options, facts: &F, moves: Moves, part: &Part) -> bool
    ensures { result ≡ reads_twice_at options.now (varying (F.program facts.now)) (resolve (F.program facts.now)) moves.moved moves.of_method (part_of part.now) }
{
    match part {
        Part::Child(node) => reads_twice(options, facts, moves, node),
        Part::List(nodes) => reads_twice_of_list(options, facts, moves.moved, nodes.as_slice()),
        Part::Holes(nodes) => {
            reads_twice_of_list_with_holes(options, facts, moves.moved, nodes.as_slice())
        }
        _ => false,
    }
}

#[cycle(twice)]
fn reads_twice_of_list<F: NameFacts>(
    options: &Options,
    facts: &F,
    moved: bool,
    nodes: &[Node],
) -> bool
    ensures { result ≡ reads_twice_of options.now (varying (F.program facts.now)) (resolve (F.program facts.now)) moved (trees nodes.now) }
{
    let moves = Moves {
        moved,
        of_method: false,
    };
    for node in nodes {
        if reads_twice(options, facts, moves, node) {
            return true;
        }
    }
    false
}

#[cycle(twice)]
fn reads_twice_of_list_with_holes<F: NameFacts>(
    options: &Options,
    facts: &F,
    moved: bool,
    nodes: &[Option<Node>],
) -> bool
    ensures { result ≡ reads_twice_of options.now (varying (F.program facts.now)) (resolve (F.program facts.now)) moved (nullable_trees nodes.now) }
{
    for node in nodes {
        if reads_twice_of_hole(options, facts, moved, node) {
            return true;
        }
    }
    false
}

#[cycle(twice)]
fn reads_twice_of_hole<F: NameFacts>(
    options: &Options,
    facts: &F,
    moved: bool,
    node: &Option<Node>,
) -> bool
    ensures { result ≡ reads_twice_at options.now (varying (F.program facts.now)) (resolve (F.program facts.now)) moved false (nullable node.now) }
{
    let moves = Moves {
        moved,
        of_method: false,
    };
    match node {
        Some(node) => reads_twice(options, facts, moves, node),
        None => false,
    }
}

/// Whether code moves in the i-th part of a node, and whether that is the function of a private method.
fn moves_inside(options: &Options, moves: Moves, node: &Node, i: usize) -> Moves
    ensures moved { result.moved ≡ moved_in options.now moves.moved moves.of_method (kind_of node.now) (parts_in node.now) i }
    ensures of_method { result.of_method ≡ is_private_function (kind_of node.now) (parts_in node.now) i }
{
    Moves {
        moved: is_moved_inside(options, moves, node, i),
        of_method: is_private_function(node, i),
    }
}

#[tactic(auto, using(crate::proofs::Twice::moved_as_around))]
fn is_moved_inside(options: &Options, moves: Moves, node: &Node, i: usize) -> bool
    ensures { result ≡ moved_in options.now moves.moved moves.of_method (kind_of node.now) (parts_in node.now) i }
{
    match node.kind() {
        Kind::FunctionDeclaration => false,
        Kind::FunctionExpression => moves.of_method,
        // static x = y;
        Kind::PropertyDefinition => {
            if i == 1 {
                PropertyDefinitionRef::from_node(node).is_static
            } else {
                moves.moved
            }
        }
        // static {}
        Kind::StaticBlock => lowers_blocks(options),
        _ => moves.moved,
    }
}

#[tactic(auto, using(crate::proofs::Twice::no_method))]
fn is_private_function(node: &Node, i: usize) -> bool
    ensures { result ≡ is_private_function (kind_of node.now) (parts_in node.now) i }
{
    match node.kind() {
        // #m() {}
        Kind::MethodDefinition => i == 1
            && is_private_key(MethodDefinitionRef::from_node(node).key),
        _ => false,
    }
}

/// Whether the node by itself reads a varying name twice.
#[tactic(auto, using(crate::proofs::Twice::no_twice))]
fn reads_twice_here<F: NameFacts>(options: &Options, facts: &F, moved: bool, node: &Node) -> bool
    ensures { result ≡ reads_twice_here options.now (varying (F.program facts.now)) (resolve (F.program facts.now)) moved node.now }
{
    let is_loose = keeps_privates_as_properties(options);
    match node.kind() {
        // o.#x += 1, super[k] += 1
        Kind::AssignmentExpression => {
            let assignment = AssignmentExpressionRef::from_node(node);
            let is_plain = assignment.operator == AssignmentOperator::Assign;
            let is_private_read_twice = !is_loose || is_logical(assignment.operator);
            !is_plain && is_target_written(facts, is_private_read_twice, moved, assignment.left)
        }
        // o.#x++, super[k]++
        Kind::UpdateExpression => {
            let target = UpdateExpressionRef::from_node(node).argument;
            is_target_written(facts, !is_loose, moved, target)
        }
        // o.#x()
        Kind::CallExpression => {
            !is_loose && is_object_written(facts, CallExpressionRef::from_node(node).callee)
        }
        // o.#x``
        Kind::TaggedTemplateExpression => {
            !is_loose && is_object_written(facts, TaggedTemplateExpressionRef::from_node(node).tag)
        }
        // o?.#x
        Kind::PrivateField => {
            let field = PrivateFieldRef::from_node(node);
            field.optional && is_written_name(facts, field.object)
        }
        _ => false,
    }
}

/// Whether the object of a private member that counts, or the key of a `super` member in moved code, is a
/// varying name.
fn is_target_written<F: NameFacts>(facts: &F, counts: bool, moved: bool, target: &Node) -> bool
    ensures { result ≡ any_written (varying (F.program facts.now)) (resolve (F.program facts.now)) (target_parts counts moved (child target.now)) }
{
    (counts && is_object_written(facts, target)) || (moved && is_super_key_written(facts, target))
}

/// Whether the node is a private member, and its object a varying name.
#[tactic(auto, using(crate::proofs::Twice::no_private))]
fn is_object_written<F: NameFacts>(facts: &F, node: &Node) -> bool
    ensures { result ≡ is_written_name (varying (F.program facts.now)) (resolve (F.program facts.now)) (private_object (child node.now)) }
{
    match node.kind() {
        // o.#x
        Kind::PrivateField => is_written_name(facts, PrivateFieldRef::from_node(node).object),
        _ => false,
    }
}

/// Whether the node is a computed member of `super`, and its key a varying name.
#[tactic(auto, using(crate::proofs::Twice::no_member, crate::proofs::Twice::member_key))]
fn is_super_key_written<F: NameFacts>(facts: &F, node: &Node) -> bool
    ensures { result ≡ is_written_name (varying (F.program facts.now)) (resolve (F.program facts.now)) (super_key (child node.now)) }
{
    match node.kind() {
        // super[k]
        Kind::MemberExpression => {
            let member = MemberExpressionRef::from_node(node);
            is_super(member.object) && member.computed && is_written_name(facts, member.property)
        }
        _ => false,
    }
}

fn is_super(node: &Node) -> bool
    ensures { result ≡ is_super_kind (kind_of node.now) }
{
    matches!(node.kind(), Kind::Super)
}

/// Whether the node is a name that is written or imported.
#[tactic(auto, using(crate::proofs::Twice::no_name, crate::proofs::Twice::written_name))]
fn is_written_name<F: NameFacts>(facts: &F, node: &Node) -> bool
    ensures { result ≡ is_written_name (varying (F.program facts.now)) (resolve (F.program facts.now)) (child node.now) }
{
    match node.kind() {
        Kind::IdentifierReference => match facts.binding_of(node.node_id()) {
            Some(binding) => facts.is_varying(binding),
            None => false,
        },
        _ => false,
    }
}

/// Whether it is `||=`, `&&=` or `??=`.
fn is_logical(operator: AssignmentOperator) -> bool
    ensures { result ≡ is_logical (assignment_operator_string operator) }
{
    matches!(
        operator,
        AssignmentOperator::LogicalOr
            | AssignmentOperator::LogicalAnd
            | AssignmentOperator::LogicalNullish
    )
}
