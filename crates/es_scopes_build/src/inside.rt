// What is known in the parts of a node.

ghost use Rattle.std.specs.Prelude.{◌≡◌, true, cond, ◌||◌, ◌&&◌, not};
ghost use Rattle.es_base.specs.Table.{members_of};
ghost use Rattle.es_base.specs.declared.kind.Kind.{Kind};
ghost use Rattle.es_node.specs.View.{parts_of, have_shapes};
ghost use Rattle.es_scopes.specs.NodeScopes.{has_scope, is_body_place, is_outside, opens, is_strict};
ghost use Rattle.es_scopes.specs.Surroundings as spec;
ghost use Rattle.es_scopes.specs.Surroundings.{in_scope, is_pattern_part, passed_on, nested, in_block, declares_in, scope_place, is_parameter_place, is_in_own, inside};

use crate::flags::{flags_in, in_head, is_var, use_in, value_flags};
use es_base::ids::ScopeId;
use es_base::kind::Kind;
use es_node::node::Part;
use es_scopes::surroundings::{Declarer, Declares, Surroundings};

// ---- which nodes have a scope

/// Whether nodes of this kind have a scope, but for the block that is a function's body.
pub fn has_scope(kind: Kind) -> bool
    ensures { result ≡ has_scope kind }
{
    matches!(
        kind,
        Kind::Program
            | Kind::FunctionDeclaration
            | Kind::FunctionExpression
            | Kind::ArrowFunctionExpression
            | Kind::ClassDeclaration
            | Kind::ClassExpression
            | Kind::StaticBlock
            | Kind::BlockStatement
            | Kind::ForStatement
            | Kind::ForInStatement
            | Kind::ForOfStatement
            | Kind::SwitchStatement
            | Kind::CatchClause
    )
}

/// Whether a node has a scope where it stands.
pub(crate) fn opens(kind: Kind, around: Surroundings) -> bool
    ensures { result ≡ opens kind (scope_place around) }
{
    match kind {
        Kind::BlockStatement => !around.is_body,
        _ => has_scope(kind),
    }
}

/// Whether the i-th part is the body of a function.
fn is_body_place(kind: Kind, i: usize) -> bool
    ensures { result ≡ is_body_place kind i }
{
    match kind {
        Kind::FunctionDeclaration | Kind::FunctionExpression => i == 2,
        Kind::ArrowFunctionExpression => i == 1,
        _ => false,
    }
}

/// Whether the i-th part has the parameters of a function.
fn is_parameter_place(kind: Kind, i: usize) -> bool
    ensures { result ≡ is_parameter_place kind i }
{
    match kind {
        Kind::FunctionDeclaration | Kind::FunctionExpression => i == 1,
        Kind::ArrowFunctionExpression => i == 0,
        _ => false,
    }
}

/// Whether the i-th part stands in the scope of the node; the discriminant of a switch does not.
fn is_in_own(kind: Kind, around: Surroundings, i: usize) -> bool
    ensures { result ≡ is_in_own kind around i }
{
    match kind {
        Kind::SwitchStatement => i != 0,
        _ => opens(kind, around),
    }
}

// ---- which scopes hold what is declared

/// A name or a pattern that declares in this scope.
fn in_scope(holder: Option<ScopeId>) -> Declares
    ensures { result ≡ in_scope holder }
{
    Declares::Pattern {
        holder,
        declarer: Declarer::Other,
    }
}

/// Whether the i-th part of a pattern declares too.
fn is_pattern_part(kind: Kind, i: usize) -> bool
    ensures { result ≡ is_pattern_part kind i }
{
    match kind {
        Kind::VariableDeclarator
        | Kind::ObjectPattern
        | Kind::ArrayPattern
        | Kind::AssignmentPattern
        | Kind::RestElement
        | Kind::ImportDefaultSpecifier
        | Kind::ImportNamespaceSpecifier => i == 0,
        Kind::BindingProperty | Kind::ImportSpecifier => i == 1,
        _ => false,
    }
}

/// As the node declares, in its parts that declare.
fn passed_on(kind: Kind, declares: Declares, i: usize) -> Declares
    ensures { result ≡ passed_on kind declares i }
{
    match declares {
        Declares::Pattern { holder, declarer } if is_pattern_part(kind, i) => {
            Declares::Pattern { holder, declarer }
        }
        _ => Declares::Nothing,
    }
}

/// A statement in another, from which `var` alone is hoisted.
fn nested(holds: bool, own: ScopeId, declares: Declares) -> Declares
    ensures { result ≡ nested holds own declares }
{
    Declares::Statement {
        lexical: if holds { Some(own) } else { None },
        var: declares.var_scope(),
    }
}

/// The statements of a block, which may be the body of a function.
fn in_block(own: ScopeId, declares: Declares) -> Declares
    ensures { result ≡ in_block own declares }
{
    match declares {
        Declares::Body { scope } => Declares::Statement {
            lexical: Some(scope),
            var: Some(scope),
        },
        _ => nested(true, own, declares),
    }
}

/// The name, the parameters and the body of a function.
fn in_function(name: Declares, own: ScopeId, i: usize) -> Declares
    ensures { result ≡ spec.in_function name own i }
{
    match i {
        0 => name,
        1 => Declares::Pattern {
            holder: Some(own),
            declarer: Declarer::Parameter,
        },
        _ => Declares::Body { scope: own },
    }
}

/// The parameters and the body of an arrow.
fn in_arrow(own: ScopeId, i: usize) -> Declares
    ensures { result ≡ spec.in_arrow own i }
{
    match i {
        0 => Declares::Pattern {
            holder: Some(own),
            declarer: Declarer::Parameter,
        },
        _ => Declares::Body { scope: own },
    }
}

/// The first part declares so, and the others do not.
fn in_first(declares: Declares, i: usize) -> Declares
    ensures { result ≡ spec.in_first declares i }
{
    match i {
        0 => declares,
        _ => Declares::Nothing,
    }
}

/// What the i-th part of a node declares, which may have this scope.
fn declares_in(kind: Kind, own: ScopeId, parts: &[Part], declares: Declares, i: usize) -> Declares
    requires { have_shapes (members_of kind) parts.now ≡ true }
    ensures { result ≡ declares_in kind own (parts_of parts.now) declares i }
{
    match kind {
        Kind::Program | Kind::StaticBlock => Declares::Statement {
            lexical: Some(own),
            var: Some(own),
        },
        Kind::FunctionDeclaration => in_function(in_scope(declares.lexical_scope()), own, i),
        Kind::FunctionExpression => {
            let own_name = Declares::Pattern {
                holder: Some(own),
                declarer: Declarer::OwnName,
            };
            in_function(own_name, own, i)
        }
        Kind::ArrowFunctionExpression => in_arrow(own, i),
        Kind::ClassDeclaration | Kind::ImportDeclaration => {
            in_first(in_scope(declares.lexical_scope()), i)
        }
        Kind::ClassExpression => in_first(in_scope(Some(own)), i),
        Kind::VariableDeclaration => {
            if is_var(parts) {
                in_scope(declares.var_scope())
            } else {
                in_scope(declares.lexical_scope())
            }
        }
        Kind::LabeledStatement
        | Kind::IfStatement
        | Kind::SwitchCase
        | Kind::ExportNamedDeclaration
        | Kind::ExportDefaultDeclaration => Declares::Statement {
            lexical: declares.lexical_scope(),
            var: declares.var_scope(),
        },
        Kind::BlockStatement => in_block(own, declares),
        Kind::WithStatement | Kind::TryStatement | Kind::WhileStatement | Kind::DoWhileStatement =>
            nested(false, own, declares),
        Kind::ForStatement | Kind::ForInStatement | Kind::ForOfStatement => {
            nested(i == 0, own, declares)
        }
        Kind::SwitchStatement => nested(i == 1, own, declares),
        Kind::CatchClause => {
            if i == 0 {
                in_scope(Some(own))
            } else {
                nested(false, own, declares)
            }
        }
        _ => passed_on(kind, declares, i),
    }
}

// ---- all that is known

/// A node, whose parts are walked over.
#[derive(Clone, Copy)]
pub(crate) struct Parent {
    pub(crate) kind: Kind,
    /// The scope that it has, if it has one.
    pub(crate) own: ScopeId,
    /// Whether its code is strict.
    pub(crate) strict: bool,
    pub(crate) around: Surroundings,
}

/// What is known in the i-th part of a node.
pub(crate) fn inside(parent: Parent, parts: &[Part], i: usize) -> Surroundings
    requires shapes { have_shapes (members_of parent.kind) parts.now ≡ true }
    requires strict { parent.strict ≡ is_strict parent.kind (parts_of parts.now) (scope_place parent.around) }
    ensures { result ≡ inside parent.kind parent.own (parts_of parts.now) parent.around i }
{
    let Parent {
        kind,
        own,
        strict,
        around,
    } = parent;
    let in_own = is_in_own(kind, around, i);
    Surroundings {
        scope: if in_own { Some(own) } else { around.scope },
        in_parameters: if in_own {
            is_parameter_place(kind, i)
        } else {
            around.in_parameters
        },
        declares: declares_in(kind, own, parts, around.declares, i),
        strict,
        is_body: is_body_place(kind, i),
        given: value_flags(kind, parts, i),
        symbol_flags: flags_in(kind, parts, around.symbol_flags, i),
        head_var: in_head(kind, parts, around.head_var, i),
        usage: use_in(kind, parts, around.usage, i),
    }
}
