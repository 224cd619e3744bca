// Which kinds of nodes a lowering makes, and of which.

ghost use Rattle.std.specs.Prelude.{◌≡◌};
ghost use Rattle.es_lowered.specs.Carriers as spec;
ghost use Rattle.es_steps.specs.References.{is_reference};

use es_base::kind::Kind;

/// Whether a node that is new may be of this kind.
pub fn is_made(kind: Kind) -> bool
    ensures { result ≡ spec.is_made kind }
{
    match kind {
        // statements, and what stands in them
        Kind::BlockStatement
        | Kind::ExportNamedDeclaration
        | Kind::ExportSpecifier
        | Kind::ExpressionStatement
        | Kind::FunctionDeclaration
        | Kind::ReturnStatement
        | Kind::VariableDeclaration
        | Kind::VariableDeclarator => true,
        // members, and names
        Kind::BindingIdentifier
        | Kind::IdentifierName
        | Kind::MethodDefinition
        | Kind::PrivateIdentifier
        | Kind::Property
        | Kind::PropertyDefinition
        | Kind::RestElement
        | Kind::SpreadElement
        | Kind::Super => true,
        // operands
        Kind::ArrayExpression
        | Kind::ArrowFunctionExpression
        | Kind::FunctionExpression
        | Kind::IdentifierReference
        | Kind::Literal
        | Kind::MemberExpression
        | Kind::ObjectExpression
        | Kind::PrivateField
        | Kind::TemplateElement
        | Kind::TemplateLiteral
        | Kind::ThisExpression => true,
        // operations
        Kind::AssignmentExpression
        | Kind::BinaryExpression
        | Kind::CallExpression
        | Kind::ChainExpression
        | Kind::ConditionalExpression
        | Kind::LogicalExpression
        | Kind::NewExpression
        | Kind::SequenceExpression
        | Kind::UnaryExpression
        | Kind::UpdateExpression => true,
        _ => false,
    }
}

/// Whether a node of the first kind may become one of the second, which is no identifier.
pub fn becomes(kind: Kind, other: Kind) -> bool
    ensures { result ≡ spec.becomes kind other }
{
    match kind {
        // o.#x
        Kind::PrivateField => is_private_form(other),
        // #x in o
        Kind::PrivateIn => is_test_form(other),
        // o.#x = 1
        Kind::AssignmentExpression => is_write_form(other),
        // super.x
        Kind::MemberExpression => matches!(other, Kind::CallExpression),
        // o?.#x, delete o?.x.#y
        Kind::ChainExpression | Kind::UnaryExpression => {
            matches!(other, Kind::ConditionalExpression)
        }
        // #m() {}
        Kind::FunctionExpression => matches!(other, Kind::FunctionDeclaration),
        // class A {}
        Kind::ClassDeclaration => matches!(other, Kind::ClassExpression),
        _ => false,
    }
}

/// `_x.has(..)`, `_brand === ..`, `_p._`, `_m`, `(o, B.writeOnlyError(..))`
fn is_private_form(kind: Kind) -> bool
    ensures { result ≡ spec.is_private_form kind }
{
    matches!(
        kind,
        Kind::CallExpression | Kind::MemberExpression | Kind::SequenceExpression
    )
}

fn is_test_form(kind: Kind) -> bool
    ensures { result ≡ spec.is_test_form kind }
{
    matches!(kind, Kind::CallExpression | Kind::BinaryExpression)
}

fn is_write_form(kind: Kind) -> bool
    ensures { result ≡ spec.is_write_form kind }
{
    matches!(
        kind,
        Kind::BinaryExpression
            | Kind::CallExpression
            | Kind::LogicalExpression
            | Kind::SequenceExpression
    )
}

/// Whether a node of this kind may become an identifier.
pub fn named_by(kind: Kind) -> bool
    ensures { result ≡ spec.named_by kind }
{
    matches!(
        kind,
        Kind::IdentifierReference | Kind::ThisExpression | Kind::PrivateField
    )
}

/// Whether it is a reference, as `a`.
pub fn is_reference(kind: Kind) -> bool
    ensures { result ≡ is_reference kind }
{
    matches!(kind, Kind::IdentifierReference)
}
