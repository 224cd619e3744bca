// The scopes around the node at hand.

ghost use Rattle.std.specs.Prelude.{◌≡◌};
ghost use Rattle.es_ctx.specs.ScopesAround.{scope_from, hoist_scope_from};

use crate::ancestors::Ancestors;

/// The scope of the program, which stands around all, is numbered first.
const ROOT: u32 = 0;

/// The scope of the first of these places that has one, from the first list of statements on, or from here.
pub(crate) fn scope_from(here: bool, around: Ancestors<'_>) -> u32
    ensures { result ≡ scope_from here around.entry }
{
    let mut inside = here;
    for ancestor in around {
        inside = inside || ancestor.is_in_list();
        let scope = if inside { ancestor.scope() } else { None };
        if let Some(scope) = scope {
            return scope;
        }
    }
    ROOT
}

/// The scope of the first of these places that `var` is hoisted to, from the first list of statements on, or from here.
pub(crate) fn hoist_scope_from(here: bool, around: Ancestors<'_>) -> u32
    ensures { result ≡ hoist_scope_from here around.entry }
{
    let mut inside = here;
    for ancestor in around {
        inside = inside || ancestor.is_in_list();
        let scope = if inside { ancestor.hoist_scope() } else { None };
        if let Some(scope) = scope {
            return scope;
        }
    }
    ROOT
}
