// Flags of scopes, of what declares, and of uses, by the kinds of nodes.

ghost use Rattle.std.specs.Prelude.{◌≡◌, true, cond};
ghost use Rattle.es_base.specs.Table.{members_of};
ghost use Rattle.es_base.specs.declared.kind.Kind.{Kind};
ghost use Rattle.es_node.specs.View.{parts_of, have_shapes};
ghost use Rattle.es_scopes.specs.NodeScopes.{own_flags, value_flags, scope_flags};
ghost use Rattle.es_scopes.specs.NodeBindings.{flags_in, in_head};
ghost use Rattle.es_scopes.specs.NodeReferences.{use_in};
ghost use Rattle.es_steps.specs.Scopes.{is_var};

use es_base::kind::Kind;
use es_base::operator::{
    AssignmentOperator, MethodDefinitionKind, PropertyKind, VariableDeclarationKind,
};
use es_node::node::Part;
use es_scopes::flags::{ReferenceFlags, ScopeFlags, SymbolFlags};

/// The flags of a scope by the kind of its node.
fn own_flags(kind: Kind) -> ScopeFlags
    ensures { result.0 ≡ own_flags kind }
{
    match kind {
        Kind::Program => ScopeFlags::TOP,
        Kind::FunctionDeclaration | Kind::FunctionExpression => ScopeFlags::FUNCTION,
        Kind::ArrowFunctionExpression => ScopeFlags::FUNCTION.with(ScopeFlags::ARROW),
        Kind::StaticBlock => ScopeFlags::STATIC_BLOCK,
        _ => ScopeFlags::NONE,
    }
}

/// The flags of a scope: those of its kind, those that its parent gives, and whether it is strict.
pub(crate) fn scope_flags(kind: Kind, given: ScopeFlags, strict: bool) -> ScopeFlags
    ensures { result ≡ scope_flags kind given.0 strict }
{
    let flags = own_flags(kind).with(given);
    if strict {
        flags.with(ScopeFlags::STRICT)
    } else {
        flags.with(ScopeFlags::NONE)
    }
}

/// The flags that the i-th part of a node gets from it: the function of a method or an accessor.
pub(crate) fn value_flags(kind: Kind, parts: &[Part], i: usize) -> ScopeFlags
    requires { have_shapes (members_of kind) parts.now ≡ true }
    ensures { result.0 ≡ value_flags kind (parts_of parts.now) i }
{
    match kind {
        Kind::MethodDefinition if i == 1 => method_flags(parts),
        Kind::Property if i == 1 => property_flags(parts),
        _ => ScopeFlags::NONE,
    }
}

fn method_flags(parts: &[Part]) -> ScopeFlags
    requires { have_shapes (members_of Kind.MethodDefinition) parts.now ≡ true }
    ensures { result.0 ≡ value_flags Kind.MethodDefinition (parts_of parts.now) 1 }
{
    match parts {
        [_, _, kind, _, _] => match kind.as_method_definition_kind() {
            MethodDefinitionKind::Constructor => ScopeFlags::CONSTRUCTOR,
            MethodDefinitionKind::Get => ScopeFlags::GET,
            MethodDefinitionKind::Set => ScopeFlags::SET,
            MethodDefinitionKind::Method => ScopeFlags::NONE,
        },
        _ => unreachable!(),
    }
}

fn property_flags(parts: &[Part]) -> ScopeFlags
    requires { have_shapes (members_of Kind.Property) parts.now ≡ true }
    ensures { result.0 ≡ value_flags Kind.Property (parts_of parts.now) 1 }
{
    match parts {
        [_, _, kind, _, _, _] => match kind.as_property_kind() {
            PropertyKind::Get => ScopeFlags::GET,
            PropertyKind::Set => ScopeFlags::SET,
            PropertyKind::Init => ScopeFlags::NONE,
        },
        _ => unreachable!(),
    }
}

fn variable_flags(parts: &[Part]) -> SymbolFlags
    requires { have_shapes (members_of Kind.VariableDeclaration) parts.now ≡ true }
    ensures { result.0 ≡ flags_in Kind.VariableDeclaration (parts_of parts.now) 0 0 }
{
    match parts {
        [kind, _] => match kind.as_variable_declaration_kind() {
            VariableDeclarationKind::Var => SymbolFlags::VAR,
            VariableDeclarationKind::Let => SymbolFlags::LET,
            VariableDeclarationKind::Const => SymbolFlags::CONST,
        },
        _ => unreachable!(),
    }
}

/// Whether a variable declaration is one by `var`.
pub(crate) fn is_var(parts: &[Part]) -> bool
    requires { have_shapes (members_of Kind.VariableDeclaration) parts.now ≡ true }
    ensures { result ≡ is_var (parts_of parts.now) }
{
    match parts {
        [kind, _] => match kind.as_variable_declaration_kind() {
            VariableDeclarationKind::Var => true,
            _ => false,
        },
        _ => unreachable!(),
    }
}

/// The flags of the names that the i-th part declares, where `around` are those of the names that the
/// node declares.
pub(crate) fn flags_in(kind: Kind, parts: &[Part], around: SymbolFlags, i: usize) -> SymbolFlags
    requires { have_shapes (members_of kind) parts.now ≡ true }
    ensures { result.0 ≡ flags_in kind (parts_of parts.now) around.0 i }
{
    match kind {
        Kind::VariableDeclaration => variable_flags(parts),
        Kind::FunctionDeclaration | Kind::FunctionExpression => {
            if i == 0 {
                SymbolFlags::FUNCTION
            } else {
                SymbolFlags::PARAM
            }
        }
        Kind::ArrowFunctionExpression => SymbolFlags::PARAM,
        Kind::ClassDeclaration | Kind::ClassExpression => SymbolFlags::CLASS,
        Kind::CatchClause => SymbolFlags::CATCH,
        Kind::ImportDeclaration => SymbolFlags::IMPORT,
        _ => around,
    }
}

/// Whether the i-th part declares a `var` in the head of a for-in or for-of, where `around` says whether
/// the node does.
pub(crate) fn in_head(kind: Kind, parts: &[Part], around: bool, i: usize) -> bool
    requires { have_shapes (members_of kind) parts.now ≡ true }
    ensures { result ≡ in_head kind (parts_of parts.now) around i }
{
    match kind {
        Kind::ForInStatement | Kind::ForOfStatement => i == 0,
        Kind::VariableDeclaration => around && is_var(parts),
        Kind::VariableDeclarator | Kind::AssignmentPattern => around && i == 0,
        Kind::BindingProperty => around && i == 1,
        Kind::ObjectPattern | Kind::ArrayPattern | Kind::RestElement => around,
        _ => false,
    }
}

/// `=` writes, and every other assignment reads and writes.
fn assignment_flags(parts: &[Part]) -> ReferenceFlags
    requires { have_shapes (members_of Kind.AssignmentExpression) parts.now ≡ true }
    ensures { result.0 ≡ use_in Kind.AssignmentExpression (parts_of parts.now) 0 1 }
{
    match parts {
        [operator, _, _] => match operator.as_assignment_operator() {
            AssignmentOperator::Assign => ReferenceFlags::WRITE,
            _ => ReferenceFlags::READ.with(ReferenceFlags::WRITE),
        },
        _ => unreachable!(),
    }
}

/// How a name that stands as the i-th part is used, where `around` is how a name in the node's place is
/// used.
pub(crate) fn use_in(kind: Kind, parts: &[Part], around: ReferenceFlags, i: usize) -> ReferenceFlags
    requires { have_shapes (members_of kind) parts.now ≡ true }
    ensures { result.0 ≡ use_in kind (parts_of parts.now) around.0 i }
{
    match kind {
        Kind::AssignmentExpression if i == 1 => assignment_flags(parts),
        Kind::UpdateExpression => ReferenceFlags::READ.with(ReferenceFlags::WRITE),
        Kind::ForInStatement | Kind::ForOfStatement if i == 0 => ReferenceFlags::WRITE,
        Kind::ObjectAssignmentTarget | Kind::ArrayAssignmentTarget | Kind::AssignmentTargetRest => {
            around
        }
        Kind::AssignmentTargetProperty if i == 1 => around,
        Kind::AssignmentTargetWithDefault if i == 0 => around,
        _ => ReferenceFlags::READ,
    }
}
