// Tests of the keyword of a variable declaration (ECMA-262, 14.3).

ghost use Rattle.std.specs.Prelude.{◌≡◌, bytes_eq, codes};
ghost use Rattle.es_base.specs.Words.{variable_declaration_kind_string};

use crate::operator::VariableDeclarationKind;

impl VariableDeclarationKind {
    /// Whether it is `const`.
    pub fn is_const(self) -> bool
        ensures { result ≡ bytes_eq (variable_declaration_kind_string self) (codes "const") }
    {
        match self {
            VariableDeclarationKind::Const => true,
            VariableDeclarationKind::Var | VariableDeclarationKind::Let => false,
        }
    }
}
