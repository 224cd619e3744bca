// A new scope between an expression and the scope that it stands in.

ghost use Rattle.std.specs.Prelude.{◌≡◌, All, Some, IfOk, OnOk, length};
ghost use Rattle.es_base.specs.declared.ids.ScopeId.{ScopeId};
ghost use Rattle.es_iife.specs.FirstScopes.{first_scopes};
ghost use Rattle.es_iife.specs.ScopeBelow.{CanStandBelow, flags_below, with_parents, with_scope_below};
ghost use Rattle.es_scopes.specs.Table.{HasRoom, HasScope};

use crate::first_scopes::first_scopes;
use bitflags::Flags;
use es_base::ids::ScopeId;
use es_node::node::Node;
use es_scopes::flags::ScopeFlags;
use es_scopes::scoping::Scoping;
use std::alloc::{AllocError, Global};

/// A new scope below `around`, in which the expression is to stand: the first scopes of the expression get it as their parent
/// (oxc_traverse, `insert_scope_below_expression`). It is strict where `around` is (ECMA-262, 11.2.2). Fails on allocation
/// failure alone; then nothing is said of the table.
pub fn insert_scope_below_expression(
    alloc: Global,
    expression: &Node,
    flags: ScopeFlags,
    around: ScopeId,
    scoping: &mut Scoping,
) -> Result<ScopeId, AllocError>
    requires around { HasScope scoping.old around }
    requires room { HasRoom scoping.old.scopes }
    requires below { All (CanStandBelow scoping.old around) (first_scopes expression.now) }
    ensures number { IfOk result (λ s. s.0 ≡ length scoping.old.scopes) }
    ensures table { OnOk result (scoping.new ≡ with_scope_below scoping.old around flags (first_scopes expression.now)) }
{
    let scopes = first_scopes(alloc, expression)?;
    let flags = flags_below(scoping, around, flags);
    let below = scoping.add_scope(Some(around), flags)?;
    put_below(scopes.as_slice(), below, scoping);
    Ok(below)
}

/// The flags of a new scope below `around`.
fn flags_below(scoping: &Scoping, around: ScopeId, flags: ScopeFlags) -> ScopeFlags
    requires { HasScope scoping.now around }
    ensures { result ≡ flags_below scoping.now around flags }
{
    if scoping.scope_flags(around).contains(ScopeFlags::STRICT) {
        flags.with(ScopeFlags::STRICT)
    } else {
        flags
    }
}

/// Gives these scopes another parent.
fn put_below(scopes: &[ScopeId], parent: ScopeId, scoping: &mut Scoping)
    requires parent { HasScope scoping.old parent }
    requires below { All (CanStandBelow scoping.old parent) scopes.now }
    ensures { scoping.new ≡ with_parents parent scopes.now scoping.old }
{
    for scope in scopes {
        scoping.change_scope_parent_id(*scope, Some(parent));
    }
}
