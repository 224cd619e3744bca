// Expressions that are evaluated once and read more than once.

ghost use Rattle.std.specs.Prelude.{◌≡◌, ◌+◌, ◌-◌, ◌^◌, ◌<◌, [], ◌∷◌, IfOk, OnOk, length};
ghost use Rattle.es_base.specs.declared.ids.ScopeId.{ScopeId};
ghost use Rattle.es_base.specs.declared.kind.Kind.{Kind};
ghost use Rattle.es_base.specs.Carried.{reference_number};
ghost use Rattle.es_base.specs.declared.ledger.GeneratedKind.TheVariants as kinds;
ghost use Rattle.es_common.specs.Declared.{declarator};
ghost use Rattle.es_ctx.specs.ScopesAround.{current_var_scope_id};
ghost use Rattle.es_ctx.specs.Stores.{changed, innermost, with_var};
ghost use Rattle.es_duplicates.specs.Duplicated.{IsDuplicated, IsHeld, name_in, temporary_base, with_name_read, with_read_alone};
ghost use Rattle.es_duplicates.specs.Repetition.{repetition};
ghost use Rattle.es_duplicates.specs.Reads.{names_read, with_reads};
ghost use Rattle.es_node.specs.View.{kind_of, span_in};
ghost use Rattle.es_scopes.specs.Table.{HasRoom, HasScope, HasSymbol};
ghost use Rattle.es_scopes.specs.declared.flags.TheConstants.SymbolFlags as flag;
ghost use Rattle.es_uids.specs.Uids.{AreTaken, IsGenerated};

use crate::copy::copies;
use crate::read::{assign_and_read, read_names};
use crate::repetition::{Repetition, repetition_of};
use es_base::ids::{ReferenceId, SymbolId};
use es_base::kind::Kind;
use es_base::list::List;
use es_builders::bound_identifier::BoundIdentifier;
use es_common::declare::{create_uid_var, create_uid_var_based_on_node};
use es_ctx::ctx::TraverseCtx;
use es_node::node::Node;
use es_scopes::flags::ReferenceFlags;
use es_scopes::scoping::Scoping;
use es_tree::identifier::IdentifierReferenceRef;
use es_uids::traverse_scoping::TraverseScoping;
use std::alloc::AllocError;

/// The expression to be evaluated first, and one that stands for it behind that: `a.b` gives `_a$b = a.b` and
/// `_a$b`, where `var _a$b` is declared in the innermost open list and bound in its scope; `this` gives `this` and `this`
/// (oxc_transformer, `common/duplicate`). Fails on allocation failure alone, as the calls below do; then nothing is said
/// of the table and the lists.
pub fn duplicate_expression(
    expr: Node,
    mutated_symbol_needs_temp_var: bool,
    ctx: &mut TraverseCtx,
) -> Result<(Node, Node), AllocError>
    requires scope { HasScope ctx.old.scoping.scoping (current_var_scope_id ctx.old.path) }
    requires taken { AreTaken ctx.old.scoping (current_var_scope_id ctx.old.path) }
    requires symbols { HasRoom ctx.old.scoping.scoping.symbols }
    requires references { length ctx.old.scoping.scoping.references + 1 < 2 ^ 32 - 1 }
    requires open { 0 < length ctx.old.lists }
    ensures form { IfOk result (λ d. IsDuplicated (repetition ctx.old.scoping.scoping mutated_symbol_needs_temp_var expr) (current_var_scope_id ctx.old.path) ctx.old.scoping ctx.new.scoping ctx.old.lists ctx.new.lists expr 1 d.0 (d.1 ∷ [])) }
    ensures taken { OnOk result ((other : ScopeId) → AreTaken ctx.old.scoping other → AreTaken ctx.new.scoping other) }
    ensures next { ctx.new.next ≡ ctx.old.next }
    ensures path { ctx.new.path ≡ ctx.old.path }
    ensures assumptions { ctx.new.assumptions ≡ ctx.old.assumptions }
    ensures diagnostics { ctx.new.diagnostics ≡ ctx.old.diagnostics }
{
    let (first, mut again) = duplicate_expression_multiple(
        expr,
        mutated_symbol_needs_temp_var,
        1,
        ctx,
    )?;
    Ok((first, again.remove(0)))
}

/// The same with two that stand for the expression.
pub fn duplicate_expression_twice(
    expr: Node,
    mutated_symbol_needs_temp_var: bool,
    ctx: &mut TraverseCtx,
) -> Result<(Node, Node, Node), AllocError>
    requires scope { HasScope ctx.old.scoping.scoping (current_var_scope_id ctx.old.path) }
    requires taken { AreTaken ctx.old.scoping (current_var_scope_id ctx.old.path) }
    requires symbols { HasRoom ctx.old.scoping.scoping.symbols }
    requires references { length ctx.old.scoping.scoping.references + 2 < 2 ^ 32 - 1 }
    requires open { 0 < length ctx.old.lists }
    ensures form { IfOk result (λ d. IsDuplicated (repetition ctx.old.scoping.scoping mutated_symbol_needs_temp_var expr) (current_var_scope_id ctx.old.path) ctx.old.scoping ctx.new.scoping ctx.old.lists ctx.new.lists expr 2 d.0 (d.1 ∷ d.2 ∷ [])) }
    ensures taken { OnOk result ((other : ScopeId) → AreTaken ctx.old.scoping other → AreTaken ctx.new.scoping other) }
    ensures next { ctx.new.next ≡ ctx.old.next }
    ensures path { ctx.new.path ≡ ctx.old.path }
    ensures assumptions { ctx.new.assumptions ≡ ctx.old.assumptions }
    ensures diagnostics { ctx.new.diagnostics ≡ ctx.old.diagnostics }
{
    let (first, mut again) = duplicate_expression_multiple(
        expr,
        mutated_symbol_needs_temp_var,
        2,
        ctx,
    )?;
    let second = again.remove(0);
    let third = again.remove(0);
    Ok((first, second, third))
}

/// The same with as many that stand for the expression as are asked for.
pub fn duplicate_expression_multiple(
    expr: Node,
    mutated_symbol_needs_temp_var: bool,
    count: usize,
    ctx: &mut TraverseCtx,
) -> Result<(Node, List<Node>), AllocError>
    requires scope { HasScope ctx.old.scoping.scoping (current_var_scope_id ctx.old.path) }
    requires taken { AreTaken ctx.old.scoping (current_var_scope_id ctx.old.path) }
    requires symbols { HasRoom ctx.old.scoping.scoping.symbols }
    requires references { length ctx.old.scoping.scoping.references + count < 2 ^ 32 - 1 }
    requires open { 0 < length ctx.old.lists }
    ensures form { IfOk result (λ d. IsDuplicated (repetition ctx.old.scoping.scoping mutated_symbol_needs_temp_var expr) (current_var_scope_id ctx.old.path) ctx.old.scoping ctx.new.scoping ctx.old.lists ctx.new.lists expr count d.0 d.1) }
    ensures count { IfOk result (λ d. length d.1 ≡ count) }
    ensures taken { OnOk result ((other : ScopeId) → AreTaken ctx.old.scoping other → AreTaken ctx.new.scoping other) }
    ensures next { ctx.new.next ≡ ctx.old.next }
    ensures path { ctx.new.path ≡ ctx.old.path }
    ensures assumptions { ctx.new.assumptions ≡ ctx.old.assumptions }
    ensures diagnostics { ctx.new.diagnostics ≡ ctx.old.diagnostics }
{
    match repetition_of(ctx.scoping(), mutated_symbol_needs_temp_var, &expr) {
        Repetition::Copied => {
            let again = copies(ctx.alloc, &expr, count)?;
            Ok((expr, again))
        }
        Repetition::Name(symbol) => {
            let again = read_again(&expr, symbol, count, &mut ctx.scoping)?;
            Ok((expr, again))
        }
        Repetition::Held => hold(expr, count, ctx),
    }
}

/// The name, as often as is asked for.
fn read_again(
    name: &Node,
    symbol: SymbolId,
    count: usize,
    scoping: &mut TraverseScoping,
) -> Result<List<Node>, AllocError>
    requires kind { kind_of name.now ≡ Kind.IdentifierReference }
    requires symbol { HasSymbol scoping.old.scoping symbol }
    requires room { length scoping.old.scoping.references + count < 2 ^ 32 - 1 }
    ensures names { IfOk result (λ again. again ≡ names_read (span_in name.now) (name_in name.now) (length scoping.old.scoping.references) count) }
    ensures scoping { OnOk result (scoping.new ≡ record scoping.old { scoping = with_reads symbol count scoping.old.scoping }) }
{
    let name = IdentifierReferenceRef::from_node(name);
    let binding = BoundIdentifier::new(name.name.try_clone(scoping.alloc)?, symbol);
    read_names(
        scoping.alloc,
        &binding,
        name.span,
        count,
        &mut scoping.scoping,
    )
}

// var _t;
// _t = expr, _t
fn hold(expr: Node, count: usize, ctx: &mut TraverseCtx) -> Result<(Node, List<Node>), AllocError>
    requires scope { HasScope ctx.old.scoping.scoping (current_var_scope_id ctx.old.path) }
    requires taken { AreTaken ctx.old.scoping (current_var_scope_id ctx.old.path) }
    requires symbols { HasRoom ctx.old.scoping.scoping.symbols }
    requires references { length ctx.old.scoping.scoping.references + count < 2 ^ 32 - 1 }
    requires open { 0 < length ctx.old.lists }
    ensures form { IfOk result (λ d. IsHeld with_var flag.VAR (temporary_base expr) (current_var_scope_id ctx.old.path) (record ctx.old.scoping { scoping = with_name_read expr ctx.old.scoping.scoping }) ctx.new.scoping ctx.old.lists ctx.new.lists expr count d.0 d.1) }
    ensures taken { OnOk result ((other : ScopeId) → AreTaken ctx.old.scoping other → AreTaken ctx.new.scoping other) }
    ensures next { ctx.new.next ≡ ctx.old.next }
    ensures path { ctx.new.path ≡ ctx.old.path }
    ensures assumptions { ctx.new.assumptions ≡ ctx.old.assumptions }
    ensures diagnostics { ctx.new.diagnostics ≡ ctx.old.diagnostics }
{
    let temporary = declare_temporary(&expr, ctx)?;
    assign_and_read(ctx.alloc, &temporary, expr, count, &mut ctx.scoping.scoping)
}

/// `var _t;`, for a temporary that is named after the expression. A name that was read and written, as in `x += 1`, is
/// read alone from now on, as in `_x = x`.
fn declare_temporary(expr: &Node, ctx: &mut TraverseCtx) -> Result<BoundIdentifier, AllocError>
    requires scope { HasScope ctx.old.scoping.scoping (current_var_scope_id ctx.old.path) }
    requires taken { AreTaken ctx.old.scoping (current_var_scope_id ctx.old.path) }
    requires room { HasRoom ctx.old.scoping.scoping.symbols }
    requires open { 0 < length ctx.old.lists }
    ensures generated { IfOk result (IsGenerated (record ctx.old.scoping { scoping = with_name_read expr.now ctx.old.scoping.scoping }) ctx.new.scoping (temporary_base expr.now) (current_var_scope_id ctx.old.path) flag.VAR kinds.Temp) }
    ensures bound { IfOk result (λ b. HasSymbol ctx.new.scoping.scoping b.symbol_id) }
    ensures taken { OnOk result ((other : ScopeId) → AreTaken ctx.old.scoping other → AreTaken ctx.new.scoping other) }
    ensures next { ctx.new.next ≡ ctx.old.next }
    ensures path { ctx.new.path ≡ ctx.old.path }
    ensures assumptions { ctx.new.assumptions ≡ ctx.old.assumptions }
    ensures diagnostics { ctx.new.diagnostics ≡ ctx.old.diagnostics }
    ensures lists { IfOk result (λ b. ctx.new.lists ≡ changed (innermost ctx.old.lists) (with_var (declarator b None)) ctx.old.lists) }
{
    match expr.kind() {
        Kind::IdentifierReference => {
            let name = IdentifierReferenceRef::from_node(expr);
            read_alone(name.reference_id, &mut ctx.scoping.scoping);
            create_uid_var(name.name.as_str(), ctx)
        }
        _ => create_uid_var_based_on_node(expr, ctx),
    }
}

/// Has a reference read alone, if the table has it.
#[tactic(auto, using(crate::proofs::Tables::none_to_read))]
fn read_alone(reference: Option<ReferenceId>, scoping: &mut Scoping)
    ensures { scoping.new ≡ with_read_alone (reference_number reference) scoping.old }
{
    let Some(reference) = reference else {
        return;
    };
    if scoping.has_reference(reference) {
        scoping.set_reference_flags(reference, ReferenceFlags::READ);
    }
}
