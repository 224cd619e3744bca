// A scope and those around it.

ghost use Rattle.std.specs.Prelude.{◌≡◌};
ghost use Rattle.std.specs.Iterator.{YieldsFirst, item_count};
ghost use Rattle.es_scopes.specs.Table.{HasScope, scope_ancestors};

use crate::scoping::Scoping;
use es_base::ids::ScopeId;
use std::marker::Model;

/// A scope, the one around it, and so on up to the root, seen as the list of those that are left.
#[derive(Drop)]
pub struct ScopeAncestors<'a> {
    scoping: &'a Scoping,
    next: Option<ScopeId>,
}

impl<'a> Model for ScopeAncestors<'a> {
    ghost use Rattle.std.specs.Prelude.{List};
    ghost use Rattle.es_base.specs.declared.ids.ScopeId.{ScopeId};

    ghost Value = { List ScopeId };

    ghost use Rattle.es_scopes.specs.Table.{ancestors_from, HasScopeIfAny};

    ghost view = { λ it. ancestors_from it.scoping.now it.next };

    ghost invariant = { λ it. HasScopeIfAny it.scoping.now it.next };
}

impl<'a> ScopeAncestors<'a> {
    pub(crate) fn new(scoping: &'a Scoping, scope_id: ScopeId) -> ScopeAncestors<'a>
        requires { HasScope scoping.now scope_id }
        ensures { result ≡ scope_ancestors scoping.now scope_id }
    {
        ScopeAncestors {
            scoping,
            next: Some(scope_id),
        }
    }
}

impl<'a> Iterator for ScopeAncestors<'a> {
    type Item = ScopeId;

    ghost next_gives = { YieldsFirst (λ rest. rest) };

    ghost remaining = { item_count (λ rest. rest) };

    fn next(&mut self) -> Option<ScopeId> {
        let scope_id = self.next?;
        self.next = self.scoping.scope_parent_id(scope_id);
        Some(scope_id)
    }
}
