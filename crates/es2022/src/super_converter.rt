// Members of `super` in what goes out of a class (oxc_transformer, `ClassPropertiesSuperConverter`).

use crate::builders::{
    create_assignment, create_helper_call, create_null, create_reference, create_string,
};
use crate::names::Naming;
use crate::rewrite::with_number;
use crate::state::State;
use es_base::ids::{NodeId, Span};
use es_base::kind::Kind;
use es_base::ledger::GeneratedKind;
use es_base::list::List;
use es_base::literal::LiteralValue;
use es_base::name::Name;
use es_base::operator::{AssignmentOperator, BinaryOperator, LogicalOperator};
use es_duplicates::computed_key::key_needs_temp_var;
use es_duplicates::copy::copy;
use es_node::node::Node;
use es_tree::expression::{
    AssignmentExpression, AssignmentExpressionRef, CallExpression, CallExpressionRef,
    MemberExpression, MemberExpressionRef, UpdateExpression, UpdateExpressionRef,
    make_array_expression, make_binary_expression, make_logical_expression,
    make_sequence_expression,
};
use es_tree::identifier::IdentifierName;
use es_tree::literal::make_literal;
use program_names::suggest::suggest;
use std::alloc::{AllocError, Global};

// super.k, super[k]
pub fn is_super_member(node: &Node) -> bool {
    match node.kind() {
        Kind::MemberExpression => {
            MemberExpressionRef::from_node(node).object.kind() == Kind::Super
        }
        _ => false,
    }
}

// super.k(a)
pub fn is_super_call(node: &Node) -> bool {
    match node.kind() {
        Kind::CallExpression => is_super_member(CallExpressionRef::from_node(node).callee),
        _ => false,
    }
}

// super.k = v, super.k += v, super.k++
pub fn is_super_write(node: &Node) -> bool {
    match node.kind() {
        Kind::AssignmentExpression => {
            is_super_member(AssignmentExpressionRef::from_node(node).left)
        }
        Kind::UpdateExpression => is_super_member(UpdateExpressionRef::from_node(node).argument),
        _ => false,
    }
}

// ---- the temporaries of writes

/// The temporaries of a write of a member of `super`.
#[derive(Drop)]
pub struct WriteTemps {
    /// Of a key that is evaluated once, and read twice.
    pub key: Option<Name>,
    pub update: Option<UpdateTemps>,
}

/// The temporaries of `super.k++`: of the value that is updated and, unless it is `++super.k`, of the value that it had.
#[derive(Drop)]
pub struct UpdateTemps {
    value: Name,
    old: Option<Name>,
}

/// `_k` for `super[k()] += v` and `super[k()]++`, with `var _k;`.
pub fn declare_key_temp(
    state: &mut State,
    names: &mut Naming,
    write: &Node,
) -> Result<Option<Name>, AllocError> {
    match write.kind() {
        Kind::AssignmentExpression => {
            let assignment = AssignmentExpressionRef::from_node(write);
            if assignment.operator == AssignmentOperator::Assign {
                return Ok(None);
            }
            declare_key_temp_of_member(state, names, assignment.left)
        }
        Kind::UpdateExpression => {
            declare_key_temp_of_member(state, names, UpdateExpressionRef::from_node(write).argument)
        }
        _ => Ok(None),
    }
}

fn declare_key_temp_of_member(
    state: &mut State,
    names: &mut Naming,
    member: &Node,
) -> Result<Option<Name>, AllocError> {
    match member.kind() {
        Kind::MemberExpression => {
            let member = MemberExpressionRef::from_node(member);
            if !member.computed || !is_held(names, member.property) {
                return Ok(None);
            }
            let base = suggest(state.alloc, member.property)?;
            Ok(Some(declare_temp(state, names, base.as_str())?))
        }
        _ => Ok(None),
    }
}

/// Whether a key is evaluated once, and a temporary read behind that.
fn is_held(names: &Naming, key: &Node) -> bool {
    key.kind() != Kind::ThisExpression && key_needs_temp_var(key, names.scoping)
}

/// `_super$k` for `++super.k`, and `_super$k` and `_super$k2` for `super.k++`.
pub fn declare_update_temps(
    state: &mut State,
    names: &mut Naming,
    write: &Node,
) -> Result<Option<UpdateTemps>, AllocError> {
    match write.kind() {
        Kind::UpdateExpression => {
            let update = UpdateExpressionRef::from_node(write);
            let base = suggest(state.alloc, update.argument)?;
            let value = declare_temp(state, names, base.as_str())?;
            let old = if update.prefix {
                None
            } else {
                Some(declare_temp(state, names, base.as_str())?)
            };
            Ok(Some(UpdateTemps { value, old }))
        }
        _ => Ok(None),
    }
}

// var _t;
fn declare_temp(state: &mut State, names: &mut Naming, base: &str) -> Result<Name, AllocError> {
    let name = names.generate(base, GeneratedKind::Temp)?;
    state.insert_var(&name)?;
    Ok(name)
}

// ---- reads and calls

/// `super.k` becomes `babelHelpers.superPropGet(_C, "k", _C)`, for a class whose temporary is this.
pub fn convert_super_member(alloc: Global, temp: &Name, node: &mut Node) -> Result<(), AllocError> {
    let member = SuperMember::from_node(alloc, node.take())?;
    *node = create_get_at(alloc, temp, member.key, member.number, member.span)?;
    Ok(())
}

/// `babelHelpers.superPropGet(_C, "k", _C)(a)` becomes `babelHelpers.superPropGet(_C, "k", _C, 2)([a])`.
pub fn finish_super_call(alloc: Global, node: &mut Node) -> Result<(), AllocError> {
    if node.kind() != Kind::CallExpression {
        return Ok(());
    }
    let mut call = CallExpression::from_node(node.take());
    call.callee = with_argument(call.callee, create_number(alloc, "2")?)?;
    let mut elements = List::new(alloc);
    for argument in call.arguments.into_vec() {
        elements.push(Some(argument))?;
    }
    let array = make_array_expression(alloc, elements)?;
    call.arguments = List::from_vec(vec![in alloc; array]?);
    *node = call.into_node();
    Ok(())
}

/// A call with one argument more.
fn with_argument(call: Node, argument: Node) -> Result<Node, AllocError> {
    match call.kind() {
        Kind::CallExpression => {
            let mut call = CallExpression::from_node(call);
            call.arguments.push(argument)?;
            Ok(call.into_node())
        }
        _ => Ok(call),
    }
}

// ---- writes

/// `super.k = v` becomes `babelHelpers.superPropSet(_C, "k", v, _C, 1)`, for a class whose temporary is this; compound writes and
/// updates read the member as well.
pub fn convert_super_write(
    alloc: Global,
    temp: &Name,
    temps: WriteTemps,
    node: &mut Node,
) -> Result<(), AllocError> {
    let WriteTemps { key, update } = temps;
    let taken = node.take();
    *node = match taken.kind() {
        Kind::AssignmentExpression => {
            convert_assignment(alloc, temp, key, AssignmentExpression::from_node(taken))?
        }
        Kind::UpdateExpression => match update {
            Some(held) => {
                convert_update(alloc, temp, key, held, UpdateExpression::from_node(taken))?
            }
            None => taken,
        },
        _ => taken,
    };
    Ok(())
}

/// What an assignment does with the value that its target had.
#[derive(Debug, Clone, Copy)]
enum Compound {
    Nothing,
    Binary(BinaryOperator),
    Logical(LogicalOperator),
}

fn compound_of(operator: AssignmentOperator) -> Compound {
    match operator {
        AssignmentOperator::Assign => Compound::Nothing,
        AssignmentOperator::Addition => Compound::Binary(BinaryOperator::Addition),
        AssignmentOperator::Subtraction => Compound::Binary(BinaryOperator::Subtraction),
        AssignmentOperator::Multiplication => Compound::Binary(BinaryOperator::Multiplication),
        AssignmentOperator::Division => Compound::Binary(BinaryOperator::Division),
        AssignmentOperator::Remainder => Compound::Binary(BinaryOperator::Remainder),
        AssignmentOperator::Exponential => Compound::Binary(BinaryOperator::Exponential),
        AssignmentOperator::ShiftLeft => Compound::Binary(BinaryOperator::ShiftLeft),
        AssignmentOperator::ShiftRight => Compound::Binary(BinaryOperator::ShiftRight),
        AssignmentOperator::ShiftRightZeroFill => {
            Compound::Binary(BinaryOperator::ShiftRightZeroFill)
        }
        AssignmentOperator::BitwiseOr => Compound::Binary(BinaryOperator::BitwiseOr),
        AssignmentOperator::BitwiseXor => Compound::Binary(BinaryOperator::BitwiseXor),
        AssignmentOperator::BitwiseAnd => Compound::Binary(BinaryOperator::BitwiseAnd),
        AssignmentOperator::LogicalOr => Compound::Logical(LogicalOperator::Or),
        AssignmentOperator::LogicalAnd => Compound::Logical(LogicalOperator::And),
        AssignmentOperator::LogicalNullish => Compound::Logical(LogicalOperator::Coalesce),
    }
}

// super.k = v, super.k += v, super.k ??= v
fn convert_assignment(
    alloc: Global,
    temp: &Name,
    key: Option<Name>,
    assignment: AssignmentExpression,
) -> Result<Node, AllocError> {
    let (number, span) = (assignment.node_id, assignment.span);
    let compound = compound_of(assignment.operator);
    let member = SuperMember::from_node(alloc, assignment.left)?;
    let value = assignment.right;
    match compound {
        // babelHelpers.superPropSet(_C, "k", v, _C, 1)
        Compound::Nothing => {
            let write = create_set(alloc, temp, member.key, value)?;
            Ok(with_number(write, number, span))
        }
        // babelHelpers.superPropSet(_C, "k", babelHelpers.superPropGet(_C, "k", _C) + v, _C, 1)
        Compound::Binary(operator) => {
            let (key, read) = read_in_write(alloc, temp, key, member)?;
            let value = make_binary_expression(alloc, operator, read, value)?;
            create_set(alloc, temp, key, with_number(value, number, span))
        }
        Compound::Logical(operator) => {
            let logical = create_logical_write(alloc, temp, key, member, operator, value)?;
            Ok(with_number(logical, number, span))
        }
    }
}

/// `babelHelpers.superPropGet(_C, "k", _C) ?? babelHelpers.superPropSet(_C, "k", v, _C, 1)`
fn create_logical_write(
    alloc: Global,
    temp: &Name,
    key: Option<Name>,
    member: SuperMember,
    operator: LogicalOperator,
    value: Node,
) -> Result<Node, AllocError> {
    let (first, again) = duplicate_key(alloc, key, member.key)?;
    let read = create_get_at(alloc, temp, first, member.number, member.span)?;
    let write = create_set(alloc, temp, again, value)?;
    make_logical_expression(alloc, operator, read, write)
}

// super.k++
fn convert_update(
    alloc: Global,
    temp: &Name,
    key: Option<Name>,
    held: UpdateTemps,
    update: UpdateExpression,
) -> Result<Node, AllocError> {
    let mut update = update;
    let member = SuperMember::from_node(alloc, update.argument.take())?;
    update.argument = create_reference(alloc, &held.value)?;
    let (key, read) = read_in_write(alloc, temp, key, member)?;
    let value = create_updated_value(alloc, &held, read, update.into_node())?;
    let write = create_set(alloc, temp, key, value)?;
    with_old_value(alloc, &held, write)
}

/// `(_t = read, ++_t)`, and `(_t = read, _u = _t++, _t)` where the value that it had is kept.
fn create_updated_value(
    alloc: Global,
    held: &UpdateTemps,
    read: Node,
    updated: Node,
) -> Result<Node, AllocError> {
    let given = create_assignment(alloc, &held.value, read)?;
    match &held.old {
        None => create_pair(alloc, given, updated),
        Some(old) => {
            let kept = create_assignment(alloc, old, updated)?;
            let value = create_reference(alloc, &held.value)?;
            let parts = List::from_vec(vec![in alloc; given, kept, value]?);
            make_sequence_expression(alloc, parts)
        }
    }
}

/// `(babelHelpers.superPropSet(..), _u)` where the value that it had is kept.
fn with_old_value(alloc: Global, held: &UpdateTemps, write: Node) -> Result<Node, AllocError> {
    match &held.old {
        None => Ok(write),
        Some(old) => {
            let value = create_reference(alloc, old)?;
            create_pair(alloc, write, value)
        }
    }
}

// (first, second)
fn create_pair(alloc: Global, first: Node, second: Node) -> Result<Node, AllocError> {
    make_sequence_expression(alloc, List::from_vec(vec![in alloc; first, second]?))
}

/// The key of a write, and the read of the member that stands in the value which is written.
fn read_in_write(
    alloc: Global,
    temp: &Name,
    key: Option<Name>,
    member: SuperMember,
) -> Result<(Node, Node), AllocError> {
    let (first, again) = duplicate_key(alloc, key, member.key)?;
    let read = create_get_at(alloc, temp, again, member.number, member.span)?;
    Ok((first, read))
}

/// The key of a member that is read and written, for the first of both and for the second: `_k = k` and `_k` where a temporary
/// holds it.
fn duplicate_key(alloc: Global, temp: Option<Name>, key: Node) -> Result<(Node, Node), AllocError> {
    match temp {
        Some(name) => {
            let again = create_reference(alloc, &name)?;
            Ok((create_assignment(alloc, &name, key)?, again))
        }
        None => {
            let again = copy(alloc, &key)?;
            Ok((key, again))
        }
    }
}

// ---- their parts

/// A member of `super`: its key as a value, and its number and span.
#[derive(Drop)]
struct SuperMember {
    key: Node,
    number: NodeId,
    span: Option<Span>,
}

impl SuperMember {
    fn from_node(alloc: Global, member: Node) -> Result<SuperMember, AllocError> {
        let (number, span) = (member.node_id(), member.span());
        let key = match member.kind() {
            Kind::MemberExpression => key_of(alloc, MemberExpression::from_node(member))?,
            _ => create_null(alloc)?,
        };
        Ok(SuperMember { key, number, span })
    }
}

/// The key of a member, as a value.
fn key_of(alloc: Global, member: MemberExpression) -> Result<Node, AllocError> {
    let (property, computed) = (member.property, member.computed);
    match property.kind() {
        Kind::IdentifierName if !computed => {
            create_string(alloc, IdentifierName::from_node(property).name)
        }
        _ => Ok(property),
    }
}

/// `babelHelpers.superPropGet(_C, key, _C)`, with the number and the span of what it stands for.
fn create_get_at(
    alloc: Global,
    temp: &Name,
    key: Node,
    number: NodeId,
    span: Option<Span>,
) -> Result<Node, AllocError> {
    let home = create_reference(alloc, temp)?;
    let receiver = create_reference(alloc, temp)?;
    let arguments = List::from_vec(vec![in alloc; home, key, receiver]?);
    let call = create_helper_call(alloc, "superPropGet", arguments)?;
    Ok(with_number(call, number, span))
}

/// `babelHelpers.superPropSet(_C, key, value, _C, 1)`
fn create_set(alloc: Global, temp: &Name, key: Node, value: Node) -> Result<Node, AllocError> {
    let home = create_reference(alloc, temp)?;
    let receiver = create_reference(alloc, temp)?;
    let strict = create_number(alloc, "1")?;
    let arguments = List::from_vec(vec![in alloc; home, key, value, receiver, strict]?);
    create_helper_call(alloc, "superPropSet", arguments)
}

// 1
fn create_number(alloc: Global, raw: &str) -> Result<Node, AllocError> {
    let raw = Name::new(alloc, raw)?;
    make_literal(alloc, LiteralValue::Number { raw })
}
