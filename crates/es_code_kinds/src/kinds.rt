// The rule of each kind.

ghost use Rattle.std.specs.Prelude.{◌≡◌, IfOk, length};
ghost use Rattle.es_base.specs.Table as table;
ghost use Rattle.es_codes.specs.CodeView.{code_of};
ghost use Rattle.es_steps.specs.Reading as spec;
ghost use Rattle.es_code_members.specs.MembersView.{members_of};
ghost use Rattle.es_code_reading.specs.Contexts.{context_of};

use crate::classes::{
    arrow, class_declaration, class_expression, field, function_declaration, function_expression,
    method,
};
use crate::expressions::{
    assignment, binary, call, chain, conditional, logical, member, new_expression, private_field,
    private_in, property, tag, template, template_string, unary, update,
};
use crate::names::{
    binding_identifier, identifier_name, identifier_reference, literal_constant, private_identifier,
};
use crate::patterns::{
    array_pattern, object_pattern, pattern_property, pattern_with_default, rest_element,
};
use crate::statements::{
    catch_clause, default_export, for_in, for_of, named_export, switch_case, variable_declarator,
};
use es_base::kind::Kind;
use es_code_declarations::declaration::declaration_code;
use es_code_members::member::Member;
use es_code_members::operation::operation_of;
use es_code_places::leaving::{expression_code, meta_code, return_code, suspension_code};
use es_code_places::name::this_code;
use es_code_reading::context::Context;
use es_code_statements::held::{held_all, held_behind_first};
use es_code_statements::steps::{sequence_code, static_block_code, steps_code};
use es_codes::code::Code;
use std::alloc::{AllocError, Global};

/// The code of a node of this kind with these members, under what is known at its place (ECMA-262, 13 to 16; the rules are those of
/// the definitions). A `with` and a node outside the table have no rule. Fails on allocation failure alone.
pub fn code_by_kind(
    alloc: Global,
    c: &Context,
    kind: Kind,
    node: u32,
    members: &mut [Member],
) -> Result<Code, AllocError>
    requires { length members.old ≡ length (table.members_of kind) }
    ensures { IfOk result (λ e. code_of e ≡ spec.code_of (context_of c.now) kind node (members_of members.old)) }
{
    match kind {
        Kind::Program => steps_code(alloc, members),
        Kind::ExpressionStatement => expression_code(alloc, c, node, members),
        Kind::BlockStatement => steps_code(alloc, members),
        Kind::EmptyStatement => Ok(Code::nothing()),
        Kind::DebuggerStatement => operation_of(alloc, kind, node, members),
        Kind::WithStatement => Ok(Code::no_rule()),
        Kind::ReturnStatement => return_code(alloc, c, node, members),
        Kind::ThrowStatement => operation_of(alloc, kind, node, members),
        Kind::LabeledStatement => held_behind_first(alloc, kind, node, members),
        Kind::BreakStatement => operation_of(alloc, kind, node, members),
        Kind::ContinueStatement => operation_of(alloc, kind, node, members),
        Kind::IfStatement => held_behind_first(alloc, kind, node, members),
        Kind::SwitchStatement => held_behind_first(alloc, kind, node, members),
        Kind::SwitchCase => switch_case(alloc, node, members),
        Kind::TryStatement => held_all(alloc, kind, node, members),
        Kind::CatchClause => catch_clause(alloc, node, members),
        Kind::WhileStatement => held_all(alloc, kind, node, members),
        Kind::DoWhileStatement => held_all(alloc, kind, node, members),
        Kind::ForStatement => held_behind_first(alloc, kind, node, members),
        Kind::ForInStatement => for_in(alloc, c, node, members),
        Kind::ForOfStatement => for_of(alloc, c, node, members),
        Kind::FunctionDeclaration => function_declaration(alloc, c, node, members),
        Kind::FunctionExpression => function_expression(alloc, c, node, members),
        Kind::ArrowFunctionExpression => arrow(alloc, c, node, members),
        Kind::VariableDeclaration => declaration_code(alloc, members),
        Kind::VariableDeclarator => variable_declarator(alloc, c, node, members),
        Kind::ClassDeclaration => class_declaration(alloc, c, node, members),
        Kind::ClassExpression => class_expression(alloc, c, node, members),
        Kind::ClassBody => steps_code(alloc, members),
        Kind::MethodDefinition => method(alloc, c, members),
        Kind::PropertyDefinition => field(alloc, c, members),
        Kind::StaticBlock => static_block_code(alloc, members),
        Kind::PrivateIdentifier => private_identifier(alloc, c, node, members),
        Kind::IdentifierReference => identifier_reference(alloc, c, node, members),
        Kind::BindingIdentifier => binding_identifier(alloc, c, node, members),
        Kind::IdentifierName => identifier_name(alloc, members),
        Kind::Literal => literal_constant(alloc, node, members),
        Kind::ThisExpression => Ok(this_code(c)),
        Kind::Super => Ok(Code::super_keyword()),
        Kind::ArrayExpression => operation_of(alloc, kind, node, members),
        Kind::ObjectExpression => operation_of(alloc, kind, node, members),
        Kind::Property => property(alloc, members),
        Kind::SpreadElement => operation_of(alloc, kind, node, members),
        Kind::TemplateLiteral => template(alloc, node, members),
        Kind::TemplateElement => template_string(alloc, members),
        Kind::TaggedTemplateExpression => tag(alloc, node, members),
        Kind::MemberExpression => member(alloc, c, node, members),
        Kind::PrivateField => private_field(alloc, c, node, members),
        Kind::UnaryExpression => unary(alloc, node, members),
        Kind::UpdateExpression => update(alloc, node, members),
        Kind::BinaryExpression => binary(alloc, c, node, members),
        Kind::PrivateIn => private_in(alloc, c, node, members),
        Kind::LogicalExpression => logical(alloc, c, node, members),
        Kind::AssignmentExpression => assignment(alloc, c, node, members),
        Kind::ConditionalExpression => conditional(alloc, c, node, members),
        Kind::CallExpression => call(alloc, c, node, members),
        Kind::NewExpression => new_expression(alloc, node, members),
        Kind::SequenceExpression => sequence_code(alloc, members),
        Kind::YieldExpression => suspension_code(alloc, c, kind, node, members),
        Kind::AwaitExpression => suspension_code(alloc, c, kind, node, members),
        Kind::ImportExpression => operation_of(alloc, kind, node, members),
        Kind::MetaProperty => meta_code(alloc, c, node, members),
        Kind::ChainExpression => chain(alloc, node, members),
        Kind::ObjectPattern => object_pattern(alloc, node, members),
        Kind::BindingProperty => pattern_property(alloc, node, members),
        Kind::ArrayPattern => array_pattern(alloc, node, members),
        Kind::AssignmentPattern => pattern_with_default(alloc, node, members),
        Kind::RestElement => rest_element(alloc, members),
        Kind::ObjectAssignmentTarget => object_pattern(alloc, node, members),
        Kind::AssignmentTargetProperty => pattern_property(alloc, node, members),
        Kind::ArrayAssignmentTarget => array_pattern(alloc, node, members),
        Kind::AssignmentTargetWithDefault => pattern_with_default(alloc, node, members),
        Kind::AssignmentTargetRest => rest_element(alloc, members),
        Kind::ImportDeclaration => Ok(Code::nothing()),
        Kind::ImportSpecifier => Ok(Code::no_rule()),
        Kind::ImportDefaultSpecifier => Ok(Code::no_rule()),
        Kind::ImportNamespaceSpecifier => Ok(Code::no_rule()),
        Kind::ExportNamedDeclaration => named_export(alloc, members),
        Kind::ExportSpecifier => Ok(Code::no_rule()),
        Kind::ExportDefaultDeclaration => default_export(alloc, members),
        Kind::ExportAllDeclaration => Ok(Code::nothing()),
        Kind::Foreign => Ok(Code::no_rule()),
    }
}
