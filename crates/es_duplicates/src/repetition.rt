// How an expression is read more than once.

ghost use Rattle.std.specs.Prelude.{◌≡◌, IfSome};
ghost use Rattle.es_base.specs.Carried.{reference_number};
ghost use Rattle.es_base.specs.declared.ids.SymbolId.{SymbolId};
ghost use Rattle.es_base.specs.declared.kind.Kind.{Kind};
ghost use Rattle.es_duplicates.specs.Repetition.{constant_repetition, is_mutated, meant_symbol, name_repetition, repetition};
ghost use Rattle.es_node.specs.View.{kind_of, parts_in};
ghost use Rattle.es_scopes.specs.Table.{HasSymbol};
ghost use Rattle.es_steps.specs.LoweredClasses.{has_no_items, is_regular_expression};
ghost use Rattle.es_steps.specs.Parts.{at};

use es_base::ids::{ReferenceId, SymbolId};
use es_base::kind::Kind;
use es_base::literal::LiteralValue;
use es_node::node::Node;
use es_scopes::scoping::Scoping;
use es_tree::expression::TemplateLiteralRef;
use es_tree::identifier::IdentifierReferenceRef;
use es_tree::literal::LiteralRef;

/// How an expression is read more than once.
#[derive(Debug, Clone, Copy, PartialEq, Eq)]
pub enum Repetition {
    /// Written again: it has no event, and the same value each time.
    Copied,
    /// Written again, as another reference to this symbol.
    Name(SymbolId),
    /// By a temporary that holds its value.
    Held,
}

/// How this expression is read more than once. A name that is mutated is held if `mutated_symbol_needs_temp_var`
/// says so. A regular expression is held, since each evaluation makes another object (ECMA-262, 13.2.7).
pub(crate) fn repetition_of(
    scoping: &Scoping,
    mutated_symbol_needs_temp_var: bool,
    expression: &Node,
) -> Repetition
    ensures form { result ≡ repetition scoping.now mutated_symbol_needs_temp_var expression.now }
    ensures symbol { (y : SymbolId) → result ≡ Repetition.Name y → HasSymbol scoping.now y }
{
    match expression.kind() {
        // this
        Kind::ThisExpression | Kind::Super => Repetition::Copied,
        // /a/
        Kind::Literal => constant_repetition(!is_regular_expression(expression)),
        // `a`
        Kind::TemplateLiteral => constant_repetition(has_no_expressions(expression)),
        Kind::IdentifierReference => {
            let name = IdentifierReferenceRef::from_node(expression);
            name_repetition(scoping, mutated_symbol_needs_temp_var, name.reference_id)
        }
        _ => Repetition::Held,
    }
}

fn constant_repetition(is_constant: bool) -> Repetition
    ensures { result ≡ constant_repetition is_constant }
{
    if is_constant {
        Repetition::Copied
    } else {
        Repetition::Held
    }
}

fn is_regular_expression(literal: &Node) -> bool
    requires { kind_of literal.now ≡ Kind.Literal }
    ensures { result ≡ is_regular_expression (at 0 (parts_in literal.now)) }
{
    matches!(
        LiteralRef::from_node(literal).value,
        LiteralValue::RegExp { .. }
    )
}

/// Whether a template is its strings alone.
fn has_no_expressions(template: &Node) -> bool
    requires { kind_of template.now ≡ Kind.TemplateLiteral }
    ensures { result ≡ has_no_items (at 1 (parts_in template.now)) }
{
    TemplateLiteralRef::from_node(template)
        .expressions
        .is_empty()
}

/// How the name of this reference is read more than once.
fn name_repetition(
    scoping: &Scoping,
    mutated_symbol_needs_temp_var: bool,
    reference: Option<ReferenceId>,
) -> Repetition
    ensures form { result ≡ name_repetition scoping.now mutated_symbol_needs_temp_var (meant_symbol scoping.now (reference_number reference)) }
    ensures symbol { (y : SymbolId) → result ≡ Repetition.Name y → HasSymbol scoping.now y }
{
    match meant_symbol(scoping, reference) {
        Some(symbol) if mutated_symbol_needs_temp_var && is_mutated(scoping, symbol) => {
            Repetition::Held
        }
        Some(symbol) => Repetition::Name(symbol),
        None => Repetition::Held,
    }
}

/// The symbol of the table that a reference means: none where the name is free.
pub fn meant_symbol(scoping: &Scoping, reference: Option<ReferenceId>) -> Option<SymbolId>
    ensures symbol { result ≡ meant_symbol scoping.now (reference_number reference) }
    ensures there { IfSome result (HasSymbol scoping.now) }
{
    let reference = reference.filter(|id| scoping.has_reference(*id))?;
    let symbol = scoping.get_reference(reference).symbol_id()?;
    scoping.has_symbol(symbol).then_some(symbol)
}

/// Whether a symbol is mutated.
fn is_mutated(scoping: &Scoping, symbol: SymbolId) -> bool
    requires { HasSymbol scoping.now symbol }
    ensures { result ≡ is_mutated scoping.now symbol }
{
    scoping.symbol_is_mutated(symbol)
}
