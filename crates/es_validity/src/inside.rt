// How what is known at a node changes on the way down a tree.

ghost use Rattle.std.specs.Prelude.{◌≡◌, cond, nat_eq};
ghost use Rattle.es_base.specs.Tree.{child};
ghost use Rattle.es_base.specs.declared.kind.Kind.{Kind};
ghost use Rattle.es_base.specs.Words.{property_kind_string};
ghost use Rattle.es_node.specs.View.{kind_of, parts_in};
ghost use Rattle.es_steps.specs.LoweredClasses.{constructor_in};
ghost use Rattle.es_steps.specs.Printable as printable;
ghost use Rattle.es_validity.specs.Around as known;
ghost use Rattle.es_validity.specs.Around.{parameters_hold_super};
ghost use Rattle.es_validity.specs.declared.around.Position.{Position};
ghost use Rattle.es_validity.specs.Known.{around_of};

use crate::around::{Around, ClassAround, Owner, Position};
use crate::class::{constructor_holds_super, is_constructor};
use crate::jumps::{jumps_inside, no_jumps};
use crate::parts::is_private_key;
use es_base::kind::Kind;
use es_base::operator::{PropertyKind, SourceType};
use es_node::node::Node;
use es_tree::class::{
    ClassDeclarationRef, ClassExpressionRef, MethodDefinitionRef, PropertyDefinitionRef,
};
use es_tree::expression::PropertyRef;
use es_tree::function::{
    ArrowFunctionExpressionRef, FunctionDeclarationRef, FunctionExpressionRef,
};
use es_tree::program::ProgramRef;

/// What is known around a program.
pub fn nothing_around<'a>() -> Around<'a>
    ensures { around_of result ≡ known.nothing_around }
{
    Around {
        owner: Owner::Program,
        class: ClassAround {
            has_heritage: false,
            super_in_parameters: false,
        },
        position: Position::Other,
        awaits: false,
        yields: false,
        jumps: no_jumps(false),
    }
}

/// What is known in a node of what a `break`, `continue` or `return` leaves, beside what is known at it.
pub fn behind<'a>(around: &'a Around<'a>, node: &'a Node) -> Around<'a>
    ensures { around_of result ≡ known.behind (around_of around.now) (kind_of node.now) (parts_in node.now) }
{
    Around {
        jumps: jumps_inside(&around.jumps, node),
        ..*around
    }
}

/// What is known at the part of a node at this place, beside what is known in the node.
#[tactic(auto, using(crate::proofs::OfKinds::inside_by_kind))]
pub fn inside<'a>(around: &Around<'a>, node: &Node, index: usize) -> Around<'a>
    ensures { around_of result ≡ known.inside (around_of around.now) (kind_of node.now) (parts_in node.now) index }
{
    match node.kind() {
        Kind::Program => in_program(around, node),
        Kind::FunctionDeclaration => {
            let function = FunctionDeclarationRef::from_node(node);
            in_function(
                around,
                Owner::Function,
                function.is_async,
                function.generator,
            )
        }
        Kind::FunctionExpression => {
            let function = FunctionExpressionRef::from_node(node);
            let owner = function_owner(around.position);
            in_function(around, owner, function.is_async, function.generator)
        }
        Kind::ArrowFunctionExpression => {
            let arrow = ArrowFunctionExpressionRef::from_node(node);
            in_function(around, around.owner, arrow.is_async, false)
        }
        Kind::ClassDeclaration => {
            let class = ClassDeclarationRef::from_node(node);
            in_class(around, class.super_class.is_some(), class.body, index)
        }
        Kind::ClassExpression => {
            let class = ClassExpressionRef::from_node(node);
            in_class(around, class.super_class.is_some(), class.body, index)
        }
        Kind::MethodDefinition => in_method(around, node, index),
        Kind::PropertyDefinition => in_field(around, node, index),
        Kind::StaticBlock => in_function(around, Owner::StaticBlock, false, false),
        Kind::Property => in_property(around, node, index),
        kind => Around {
            position: position_by_kind(around.position, kind, index),
            ..*around
        },
    }
}

/// In a program: the items of a module may be imports and exports, and `await` may stand at its top.
fn in_program<'a>(around: &Around<'a>, program: &Node) -> Around<'a>
    requires { kind_of program.now ≡ Kind.Program }
    ensures { around_of result ≡ known.inside (around_of around.now) Kind.Program (parts_in program.now) 0 }
{
    let is_module = match ProgramRef::from_node(program, &[]).source_type {
        SourceType::Script => false,
        SourceType::Module => true,
    };
    Around {
        position: where_true(Position::ModuleItem, is_module),
        awaits: is_module,
        ..*around
    }
}

/// In a function or static block.
fn in_function<'a>(around: &Around<'a>, owner: Owner, awaits: bool, yields: bool) -> Around<'a>
    ensures { around_of result ≡ record (around_of around.now) { owner = owner; position = Position.Other; awaits = awaits; yields = yields } }
{
    Around {
        owner,
        position: Position::Other,
        awaits,
        yields,
        ..*around
    }
}

/// What a function expression in this position owns.
fn function_owner(position: Position) -> Owner
    ensures { result ≡ known.function_owner position }
{
    match position {
        Position::MethodValue { owner } => owner,
        _ => Owner::Function,
    }
}

/// In a class: what is in its body knows of it.
fn in_class<'a>(around: &Around<'a>, has_heritage: bool, body: &Node, index: usize) -> Around<'a>
    ensures { around_of result ≡ record (around_of around.now) { class = cond (nat_eq index 2) (record { has_heritage = has_heritage; super_in_parameters = parameters_hold_super (constructor_in (child body.now)) }) around.now.class; position = Position.Other } }
{
    Around {
        class: if index == 2 {
            ClassAround {
                has_heritage,
                super_in_parameters: constructor_holds_super(body),
            }
        } else {
            around.class
        },
        position: Position::Other,
        ..*around
    }
}

/// In an element that is a method: its function is a method's.
fn in_method<'a>(around: &Around<'a>, method: &Node, index: usize) -> Around<'a>
    requires { kind_of method.now ≡ Kind.MethodDefinition }
    ensures { around_of result ≡ known.inside (around_of around.now) Kind.MethodDefinition (parts_in method.now) index }
{
    let method = MethodDefinitionRef::from_node(method);
    let owner = if is_constructor(method.kind) {
        Owner::Constructor {
            has_heritage: around.class.has_heritage,
        }
    } else {
        Owner::Method {
            is_private: is_private_key(method.key),
        }
    };
    Around {
        position: where_true(Position::MethodValue { owner }, index == 1),
        ..*around
    }
}

/// In a field: its value is an owner.
fn in_field<'a>(around: &Around<'a>, field: &Node, index: usize) -> Around<'a>
    requires { kind_of field.now ≡ Kind.PropertyDefinition }
    ensures { around_of result ≡ known.inside (around_of around.now) Kind.PropertyDefinition (parts_in field.now) index }
{
    let field = PropertyDefinitionRef::from_node(field);
    if index == 1 {
        let owner = Owner::FieldValue {
            is_static: field.is_static,
            super_in_parameters: around.class.super_in_parameters,
        };
        in_function(around, owner, false, false)
    } else {
        in_function(around, around.owner, around.awaits, around.yields)
    }
}

/// In a property of an object: the function of `{ m() {} }` and `{ get x() {} }` is a method's.
fn in_property<'a>(around: &Around<'a>, property: &Node, index: usize) -> Around<'a>
    requires { kind_of property.now ≡ Kind.Property }
    ensures { around_of result ≡ known.inside (around_of around.now) Kind.Property (parts_in property.now) index }
{
    let property = PropertyRef::from_node(property);
    let is_method = property.method || is_accessor(property.kind);
    let position = Position::MethodValue {
        owner: Owner::Method { is_private: false },
    };
    Around {
        position: where_true(position, index == 1 && is_method),
        ..*around
    }
}

/// Whether a property is a getter or setter.
fn is_accessor(kind: PropertyKind) -> bool
    ensures { result ≡ printable.is_accessor (property_kind_string kind) }
{
    match kind {
        PropertyKind::Init => false,
        PropertyKind::Get | PropertyKind::Set => true,
    }
}

/// The position where a test of the place holds.
fn where_true(position: Position, holds: bool) -> Position
    ensures { result ≡ known.where_true position holds }
{
    if holds { position } else { Position::Other }
}

/// Whether a position is in the spine of a chain.
pub fn is_spine(position: Position) -> bool
    ensures { result ≡ known.is_spine position }
{
    match position {
        Position::Spine => true,
        _ => false,
    }
}

/// The position of a part in a for-in or for-of.
fn for_each_position(index: usize) -> Position
    ensures { result ≡ known.for_each_position index }
{
    if index == 0 {
        Position::PatternTarget
    } else {
        where_true(Position::Body, index == 2)
    }
}

/// The position of a part that its place in the parent tells, and the parent's own position.
fn position_by_kind(around: Position, kind: Kind, index: usize) -> Position
    ensures { result ≡ known.position_by_kind around kind index }
{
    match kind {
        Kind::ExportDefaultDeclaration => Position::DefaultExport,
        Kind::IfStatement => where_true(Position::Body, 1 <= index),
        Kind::LabeledStatement | Kind::WhileStatement | Kind::WithStatement => {
            where_true(Position::Body, index == 1)
        }
        Kind::DoWhileStatement => where_true(Position::Body, index == 0),
        Kind::ForStatement => where_true(Position::Body, index == 3),
        Kind::ForInStatement | Kind::ForOfStatement => for_each_position(index),
        Kind::ChainExpression => Position::Spine,
        Kind::MemberExpression | Kind::PrivateField | Kind::CallExpression => {
            where_true(Position::Spine, is_spine(around) && index == 0)
        }
        Kind::TaggedTemplateExpression => where_true(Position::Tag, index == 0),
        Kind::AssignmentExpression | Kind::UpdateExpression => {
            where_true(Position::Target, index == 1)
        }
        Kind::AssignmentTargetProperty => where_true(Position::PatternTarget, index == 1),
        Kind::ArrayAssignmentTarget | Kind::AssignmentTargetRest => Position::PatternTarget,
        Kind::AssignmentTargetWithDefault => where_true(Position::PatternTarget, index == 0),
        _ => Position::Other,
    }
}
