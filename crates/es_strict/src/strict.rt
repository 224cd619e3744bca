// What makes code strict (ECMA-262, 11.2.2).

ghost use Rattle.std.specs.Prelude.{◌≡◌, true, IsTrue, bytes_eq, codes};
ghost use Rattle.es_base.specs.Tree.{child, trees};
ghost use Rattle.es_base.specs.Table.{members_of};
ghost use Rattle.es_base.specs.declared.kind.Kind.{Kind};
ghost use Rattle.es_node.specs.View.{part_of, parts_of, have_shapes, is_nullable_string};
ghost use Rattle.es_steps.specs.Strict.{makes_strict, directives, has_use_strict, is_use_strict};
ghost use Rattle.es_steps.specs.Parts.{at, string_of};

use es_base::kind::Kind;
use es_base::operator::SourceType;
use es_base::strings::is_word;
use es_node::node::{Node, Part};

/// Whether a node of this kind and of these parts makes its code strict: a module, a class, and a program or function with the
/// directive `use strict`.
pub fn makes_strict(kind: Kind, parts: &[Part]) -> bool
    requires { have_shapes (members_of kind) parts.now ≡ true }
    ensures { result ≡ makes_strict kind (parts_of parts.now) }
{
    match kind {
        Kind::Program => program_is_strict(parts),
        Kind::ClassDeclaration | Kind::ClassExpression => true,
        Kind::FunctionDeclaration => function_is_strict(parts),
        Kind::FunctionExpression => expression_is_strict(parts),
        Kind::ArrowFunctionExpression => arrow_is_strict(parts),
        _ => false,
    }
}

fn program_is_strict(parts: &[Part]) -> bool
    requires { have_shapes (members_of Kind.Program) parts.now ≡ true }
    ensures { result ≡ makes_strict Kind.Program (parts_of parts.now) }
{
    match parts {
        [source_type, body] => match source_type.as_source_type() {
            SourceType::Module => true,
            SourceType::Script => has_use_strict(body.as_list()),
        },
        _ => unreachable!(),
    }
}

fn function_is_strict(parts: &[Part]) -> bool
    requires { have_shapes (members_of Kind.FunctionDeclaration) parts.now ≡ true }
    ensures { result ≡ makes_strict Kind.FunctionDeclaration (parts_of parts.now) }
{
    match parts {
        [_, _, body, _, _] => body_is_strict(body.as_child()),
        _ => unreachable!(),
    }
}

fn expression_is_strict(parts: &[Part]) -> bool
    requires { have_shapes (members_of Kind.FunctionExpression) parts.now ≡ true }
    ensures { result ≡ makes_strict Kind.FunctionExpression (parts_of parts.now) }
{
    match parts {
        [_, _, body, _, _] => body_is_strict(body.as_child()),
        _ => unreachable!(),
    }
}

fn arrow_is_strict(parts: &[Part]) -> bool
    requires { have_shapes (members_of Kind.ArrowFunctionExpression) parts.now ≡ true }
    ensures { result ≡ makes_strict Kind.ArrowFunctionExpression (parts_of parts.now) }
{
    match parts {
        [_, body, _] => body_is_strict(body.as_child()),
        _ => unreachable!(),
    }
}

/// Whether the body of a function is a block with the directive.
#[tactic(auto, using(crate::proofs::Directives::block_is, crate::proofs::Directives::no_block))]
fn body_is_strict(body: &Node) -> bool
    ensures { result ≡ has_use_strict (directives (child body.now)) }
{
    match body.kind() {
        Kind::BlockStatement => match body.parts() {
            [statements] => has_use_strict(statements.as_list()),
            _ => unreachable!(),
        },
        _ => false,
    }
}

fn has_use_strict(statements: &[Node]) -> bool
    ensures { result ≡ has_use_strict (trees statements.now) }
{
    for statement in statements {
        if is_use_strict(statement) {
            return true;
        }
    }
    false
}

/// Whether the statement is the directive `use strict`.
#[tactic(auto, using(crate::proofs::Directives::directive_is, crate::proofs::Directives::no_directive))]
fn is_use_strict(statement: &Node) -> bool
    ensures { result ≡ is_use_strict (child statement.now) }
{
    match statement.kind() {
        Kind::ExpressionStatement => is_directive(statement.parts()),
        _ => false,
    }
}

/// Whether these are the parts of the directive `use strict`.
fn is_directive(parts: &[Part]) -> bool
    requires { have_shapes (members_of Kind.ExpressionStatement) parts.now ≡ true }
    ensures { result ≡ bytes_eq (string_of (at 1 (parts_of parts.now))) (codes "use strict") }
{
    match parts {
        [_, directive] => is_string(directive),
        _ => unreachable!(),
    }
}

/// Whether the string is `use strict`.
#[tactic(auto, using(crate::proofs::Directives::use_strict_word))]
fn is_string(directive: &Part) -> bool
    requires { IsTrue (is_nullable_string directive.now) }
    ensures { result ≡ bytes_eq (string_of (part_of directive.now)) (codes "use strict") }
{
    match directive.as_nullable_string() {
        Some(directive) => is_word(directive.as_str(), "use strict"),
        None => false,
    }
}
