// Computed keys that are evaluated once, with their class.

ghost use Rattle.std.specs.Prelude.{◌≡◌, ◌+◌, ◌-◌, ◌^◌, ◌<◌, [], ◌∷◌, IfOk, OnOk, length};
ghost use Rattle.es_base.specs.declared.ids.ScopeId.{ScopeId};
ghost use Rattle.es_ctx.specs.ScopesAround.{current_block_scope_id};
ghost use Rattle.es_ctx.specs.Stores.{with_let};
ghost use Rattle.es_duplicates.specs.Duplicated.{IsHeld};
ghost use Rattle.es_duplicates.specs.Repetition.{key_needs_temporary};
ghost use Rattle.es_scopes.specs.Table.{HasRoom, HasScope};
ghost use Rattle.es_scopes.specs.declared.flags.TheConstants.SymbolFlags as flag;
ghost use Rattle.es_uids.specs.Uids.{AreTaken};
ghost use Rattle.program_names.specs.Suggested.{suggested};

use crate::read::assign_and_read;
use crate::repetition::{Repetition, repetition_of};
use es_base::kind::Kind;
use es_common::declare::insert_let;
use es_ctx::ctx::TraverseCtx;
use es_node::node::Node;
use es_scopes::flags::SymbolFlags;
use es_scopes::scoping::Scoping;
use std::alloc::AllocError;

/// Whether a computed key is evaluated once and kept: all but literals, templates without expressions, and bound names
/// that are not mutated (oxc_transformer, `key_needs_temp_var`). A regular expression is kept, since each evaluation makes
/// another object (ECMA-262, 13.2.7). Takes no memory.
pub fn key_needs_temp_var(key: &Node, scoping: &Scoping) -> bool
    ensures { result ≡ key_needs_temporary scoping.now key.now }
{
    match key.kind() {
        // It is another one inside the class.
        Kind::ThisExpression | Kind::Super => true,
        _ => repetition_of(scoping, true, key) == Repetition::Held,
    }
}

/// `_k = key` and `_k`, where `let _k` is declared in the innermost open list and bound in its scope (oxc_transformer,
/// `create_computed_key_temp_var`). Fails on allocation failure alone; then nothing is said of the table and the lists.
pub fn create_computed_key_temp_var(
    key: Node,
    ctx: &mut TraverseCtx,
) -> Result<(Node, Node), AllocError>
    requires scope { HasScope ctx.old.scoping.scoping (current_block_scope_id ctx.old.path) }
    requires taken { AreTaken ctx.old.scoping (current_block_scope_id ctx.old.path) }
    requires symbols { HasRoom ctx.old.scoping.scoping.symbols }
    requires references { length ctx.old.scoping.scoping.references + 1 < 2 ^ 32 - 1 }
    requires open { 0 < length ctx.old.lists }
    ensures form { IfOk result (λ d. IsHeld with_let flag.LET (suggested key) (current_block_scope_id ctx.old.path) ctx.old.scoping ctx.new.scoping ctx.old.lists ctx.new.lists key 1 d.0 (d.1 ∷ [])) }
    ensures taken { OnOk result ((other : ScopeId) → AreTaken ctx.old.scoping other → AreTaken ctx.new.scoping other) }
    ensures next { ctx.new.next ≡ ctx.old.next }
    ensures path { ctx.new.path ≡ ctx.old.path }
    ensures assumptions { ctx.new.assumptions ≡ ctx.old.assumptions }
    ensures diagnostics { ctx.new.diagnostics ≡ ctx.old.diagnostics }
{
    let scope = ctx.current_block_scope_id();
    let temporary = ctx.generate_uid_based_on_node(&key, scope, SymbolFlags::LET)?;
    insert_let(&temporary, None, ctx)?;
    let (assignment, mut reads) = assign_and_read(
        ctx.alloc,
        &temporary,
        key,
        1,
        &mut ctx.scoping.scoping,
    )?;
    Ok((assignment, reads.remove(0)))
}
