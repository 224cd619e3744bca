// Tests of kinds.

ghost use Rattle.std.specs.Prelude.{◌≡◌};
ghost use Rattle.es_steps.specs.Context as context;
ghost use Rattle.es_steps.specs.PrivateNames as names;
ghost use Rattle.es_steps.specs.Repeated as repeated;

use es_base::kind::Kind;

/// Whether it is a class, as a declaration or an expression.
pub fn is_class(kind: Kind) -> bool
    ensures { result ≡ names.is_class kind }
{
    matches!(kind, Kind::ClassDeclaration | Kind::ClassExpression)
}

/// Whether it is an element of a class with a key.
pub fn is_element(kind: Kind) -> bool
    ensures { result ≡ names.is_element kind }
{
    matches!(kind, Kind::MethodDefinition | Kind::PropertyDefinition)
}

/// Whether it is a function that is no arrow.
pub fn is_function(kind: Kind) -> bool
    ensures { result ≡ context.is_function kind }
{
    matches!(kind, Kind::FunctionDeclaration | Kind::FunctionExpression)
}

pub fn is_arrow(kind: Kind) -> bool
    ensures { result ≡ repeated.is_arrow kind }
{
    matches!(kind, Kind::ArrowFunctionExpression)
}
