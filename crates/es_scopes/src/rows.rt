// Changes of the rows of scopes.

ghost use Rattle.std.specs.Prelude.{◌≡◌, None, Some, IsSome, OnOk, OnErr, map, option_map};
ghost use Rattle.std.specs.Str.{chars};
ghost use Rattle.es_scopes.specs.Bindings.{lookup};
ghost use Rattle.es_scopes.specs.Table.{changed_at, row_at, names_of_row, holding, renaming, lifted};

use crate::table::Scope;
use es_base::ids::{ScopeId, SymbolId};
use std::alloc::AllocError;

/// Adds a name to a scope, as its last. Fails on allocation failure alone, and then the rows stay.
pub(crate) fn hold_name(
    scopes: &mut [Option<Scope>],
    scope_id: ScopeId,
    name: &str,
    symbol: SymbolId,
) -> Result<(), AllocError>
    requires there { IsSome (row_at scopes.old scope_id.0) }
    requires free { lookup (chars name.now) (names_of_row (row_at scopes.old scope_id.0)) ≡ None }
    ensures ok { OnOk result (scopes.new ≡ changed_at (option_map (holding (chars name.now) symbol)) scope_id.0 scopes.old) }
    ensures err { OnErr result (scopes.new ≡ scopes.old) }
{
    match &mut scopes[scope_id.0 as usize] {
        Some(scope) => scope.names.insert(name, symbol),
        None => unreachable!(),
    }
}

/// Gives a symbol of a scope another name, in the place of the old one. Fails on allocation failure alone,
/// and then the rows stay.
pub(crate) fn rename_in(
    scopes: &mut [Option<Scope>],
    scope_id: ScopeId,
    old_name: &str,
    name: &str,
    symbol: SymbolId,
) -> Result<(), AllocError>
    requires there { IsSome (row_at scopes.old scope_id.0) }
    requires held { lookup (chars old_name.now) (names_of_row (row_at scopes.old scope_id.0)) ≡ Some symbol }
    requires free { lookup (chars name.now) (names_of_row (row_at scopes.old scope_id.0)) ≡ None }
    ensures ok { OnOk result (scopes.new ≡ changed_at (option_map (renaming (chars old_name.now) (chars name.now))) scope_id.0 scopes.old) }
    ensures err { OnErr result (scopes.new ≡ scopes.old) }
{
    match &mut scopes[scope_id.0 as usize] {
        Some(scope) => scope.names.rename(old_name, name, symbol),
        None => unreachable!(),
    }
}

/// Puts this parent in the place of a scope, where that is one.
pub(crate) fn lift(row: &mut Option<Scope>, scope_id: ScopeId, parent: Option<ScopeId>)
    ensures { row.new ≡ option_map (lifted scope_id parent) row.old }
{
    if let Some(scope) = row {
        if scope.parent == Some(scope_id) {
            scope.parent = parent;
        }
    }
}

/// Puts this parent in the place of a scope, wherever that is one.
pub(crate) fn lift_all(scopes: &mut [Option<Scope>], scope_id: ScopeId, parent: Option<ScopeId>)
    ensures { scopes.new ≡ map (option_map (lifted scope_id parent)) scopes.old }
{
    for row in scopes.iter_mut() {
        lift(row, scope_id, parent);
    }
}
