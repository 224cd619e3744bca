// Declaring generated names in the open lists of statements.

ghost use Rattle.std.specs.Prelude.{◌≡◌, ◌<◌, None, IfOk, OnOk, length};
ghost use Rattle.std.specs.Str.{chars};
ghost use Rattle.es_base.specs.declared.ids.ScopeId.{ScopeId};
ghost use Rattle.es_base.specs.declared.ledger.GeneratedKind.TheVariants as kinds;
ghost use Rattle.es_ctx.specs.Outcome.{KeepsOutcome};
ghost use Rattle.es_ctx.specs.ScopesAround.{current_var_scope_id};
ghost use Rattle.es_ctx.specs.Stores.{changed, innermost, with_let, with_var};
ghost use Rattle.es_scopes.specs.Table.{HasRoom, HasScope, HasSymbol};
ghost use Rattle.es_scopes.specs.declared.flags.TheConstants.SymbolFlags as flag;
ghost use Rattle.es_common.specs.Declared.{declarator};
ghost use Rattle.es_uids.specs.Uids.{AreTaken, IsGenerated};
ghost use Rattle.program_names.specs.Suggested.{suggested};

use es_base::ledger::GeneratedKind;
use es_builders::bound_identifier::BoundIdentifier;
use es_ctx::ctx::TraverseCtx;
use es_node::node::Node;
use es_scopes::flags::SymbolFlags;
use es_statement::statement::make_variable_declarator;
use std::alloc::AllocError;

/// `var name;`, in the innermost open list (oxc_transformer, `VarDeclarationsStore`). Fails on allocation failure
/// alone, as the calls below do; then nothing is said of the lists.
pub fn insert_var(binding: &BoundIdentifier, ctx: &mut TraverseCtx) -> Result<(), AllocError>
    requires { 0 < length ctx.old.lists }
    ensures next { ctx.new.next ≡ ctx.old.next }
    ensures path { ctx.new.path ≡ ctx.old.path }
    ensures outcome { KeepsOutcome ctx.old ctx.new }
    ensures lists { OnOk result (ctx.new.lists ≡ changed (innermost ctx.old.lists) (with_var (declarator binding.now None)) ctx.old.lists) }
{
    let id = binding.create_binding_identifier(ctx.alloc, None)?;
    let declarator = make_variable_declarator(ctx.alloc, id, None)?;
    ctx.insert_var(declarator)
}

/// `let name = init;` or `let name;`, in the innermost open list.
pub fn insert_let(
    binding: &BoundIdentifier,
    init: Option<Node>,
    ctx: &mut TraverseCtx,
) -> Result<(), AllocError>
    requires { 0 < length ctx.old.lists }
    ensures next { ctx.new.next ≡ ctx.old.next }
    ensures path { ctx.new.path ≡ ctx.old.path }
    ensures outcome { KeepsOutcome ctx.old ctx.new }
    ensures lists { OnOk result (ctx.new.lists ≡ changed (innermost ctx.old.lists) (with_let (declarator binding.now init)) ctx.old.lists) }
{
    let id = binding.create_binding_identifier(ctx.alloc, None)?;
    let declarator = make_variable_declarator(ctx.alloc, id, init)?;
    ctx.insert_let(declarator)
}

/// `var name;` of a new name for a temporary, declared in the innermost open list, and bound in the scope that it is hoisted to
/// from there.
pub fn create_uid_var(base: &str, ctx: &mut TraverseCtx) -> Result<BoundIdentifier, AllocError>
    requires scope { HasScope ctx.old.scoping.scoping (current_var_scope_id ctx.old.path) }
    requires taken { AreTaken ctx.old.scoping (current_var_scope_id ctx.old.path) }
    requires room { HasRoom ctx.old.scoping.scoping.symbols }
    requires open { 0 < length ctx.old.lists }
    ensures generated { IfOk result (IsGenerated ctx.old.scoping ctx.new.scoping (chars base.now) (current_var_scope_id ctx.old.path) flag.VAR kinds.Temp) }
    ensures bound { IfOk result (λ b. HasSymbol ctx.new.scoping.scoping b.symbol_id) }
    ensures taken { OnOk result ((other : ScopeId) → AreTaken ctx.old.scoping other → AreTaken ctx.new.scoping other) }
    ensures next { ctx.new.next ≡ ctx.old.next }
    ensures path { ctx.new.path ≡ ctx.old.path }
    ensures assumptions { ctx.new.assumptions ≡ ctx.old.assumptions }
    ensures diagnostics { ctx.new.diagnostics ≡ ctx.old.diagnostics }
    ensures lists { IfOk result (λ b. ctx.new.lists ≡ changed (innermost ctx.old.lists) (with_var (declarator b None)) ctx.old.lists) }
{
    let scope = ctx.current_var_scope_id();
    let binding = ctx.generate_uid(base, scope, SymbolFlags::VAR, GeneratedKind::Temp)?;
    insert_var(&binding, ctx)?;
    Ok(binding)
}

/// The same from the name that an expression suggests.
pub fn create_uid_var_based_on_node(
    expression: &Node,
    ctx: &mut TraverseCtx,
) -> Result<BoundIdentifier, AllocError>
    requires scope { HasScope ctx.old.scoping.scoping (current_var_scope_id ctx.old.path) }
    requires taken { AreTaken ctx.old.scoping (current_var_scope_id ctx.old.path) }
    requires room { HasRoom ctx.old.scoping.scoping.symbols }
    requires open { 0 < length ctx.old.lists }
    ensures generated { IfOk result (IsGenerated ctx.old.scoping ctx.new.scoping (suggested expression.now) (current_var_scope_id ctx.old.path) flag.VAR kinds.Temp) }
    ensures bound { IfOk result (λ b. HasSymbol ctx.new.scoping.scoping b.symbol_id) }
    ensures taken { OnOk result ((other : ScopeId) → AreTaken ctx.old.scoping other → AreTaken ctx.new.scoping other) }
    ensures next { ctx.new.next ≡ ctx.old.next }
    ensures path { ctx.new.path ≡ ctx.old.path }
    ensures assumptions { ctx.new.assumptions ≡ ctx.old.assumptions }
    ensures diagnostics { ctx.new.diagnostics ≡ ctx.old.diagnostics }
    ensures lists { IfOk result (λ b. ctx.new.lists ≡ changed (innermost ctx.old.lists) (with_var (declarator b None)) ctx.old.lists) }
{
    let scope = ctx.current_var_scope_id();
    let binding = ctx.generate_uid_based_on_node(expression, scope, SymbolFlags::VAR)?;
    insert_var(&binding, ctx)?;
    Ok(binding)
}
