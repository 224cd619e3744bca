// Semantic ids: the number of a scope, a symbol or a reference.

ghost use Rattle.std.specs.Prelude.{◌≡◌};
ghost use Rattle.es_base.specs.Carried.{scope_number, symbol_number, reference_number};
ghost use Rattle.es_node.specs.Bearing.{bears_semantic_id};

use es_base::ids::{ReferenceId, ScopeId, SymbolId};
use es_base::kind::Kind;

/// Whether nodes of this kind may have a semantic id: those that open a scope, bind a symbol or are a
/// reference.
pub fn bears_semantic_id(kind: Kind) -> bool
    ensures { result ≡ bears_semantic_id kind }
{
    matches!(
        kind,
        Kind::Program
            | Kind::BlockStatement
            | Kind::CatchClause
            | Kind::ClassDeclaration
            | Kind::ClassExpression
            | Kind::FunctionDeclaration
            | Kind::FunctionExpression
            | Kind::ArrowFunctionExpression
            | Kind::ForStatement
            | Kind::ForInStatement
            | Kind::ForOfStatement
            | Kind::SwitchStatement
            | Kind::StaticBlock
            | Kind::IdentifierReference
            | Kind::BindingIdentifier
    )
}

/// The scope of this number.
pub fn scope_id_of(number: Option<u32>) -> Option<ScopeId>
    ensures { scope_number result ≡ number }
{
    number.map(ScopeId)
}

/// The number of this scope.
pub fn scope_number(id: Option<ScopeId>) -> Option<u32>
    ensures { result ≡ scope_number id }
{
    match id {
        Some(id) => Some(id.0),
        None => None,
    }
}

/// The symbol of this number.
pub fn symbol_id_of(number: Option<u32>) -> Option<SymbolId>
    ensures { symbol_number result ≡ number }
{
    number.map(SymbolId)
}

/// The number of this symbol.
pub fn symbol_number(id: Option<SymbolId>) -> Option<u32>
    ensures { result ≡ symbol_number id }
{
    match id {
        Some(id) => Some(id.0),
        None => None,
    }
}

/// The reference of this number.
pub fn reference_id_of(number: Option<u32>) -> Option<ReferenceId>
    ensures { reference_number result ≡ number }
{
    number.map(ReferenceId)
}

/// The number of this reference.
pub fn reference_number(id: Option<ReferenceId>) -> Option<u32>
    ensures { result ≡ reference_number id }
{
    match id {
        Some(id) => Some(id.0),
        None => None,
    }
}
