// Scope tables of tests.

ghost use Rattle.std.specs.Prelude.{◌≡◌, IfOk, OnOk};
ghost use Rattle.es_scopes.specs.Table.{HasRoom, HasScope};
ghost use Rattle.es_uids.specs.Uids.{AreTaken};
ghost use Rattle.common_tests.specs.Root.{one_scope, root};

use es_base::ids::ScopeId;
use es_names::names::Names;
use es_names::spellings::Spellings;
use es_scopes::flags::ScopeFlags;
use es_scopes::scoping::Scoping;
use es_uids::traverse_scoping::TraverseScoping;
use std::alloc::{AllocError, Global};
use std::test::Fail;

pub(crate) const ROOT: ScopeId = ScopeId(0);

/// A table of one scope without names.
pub(crate) fn one_scope(alloc: Global) -> Result<Scoping, AllocError>
    ensures { IfOk result (λ t. t ≡ one_scope) }
{
    let mut scoping = Scoping::new(alloc);
    scoping.add_scope(None, ScopeFlags::TOP)?;
    Ok(scoping)
}

/// The same in a program that spells these names.
#[tactic(auto, using(crate::proofs::Fresh::are_taken))]
pub(crate) fn table(alloc: Global, spelled: &[&str]) -> Result<TraverseScoping, AllocError>
    ensures { IfOk result (λ t. AreTaken t root) }
{
    let mut spellings = Spellings::new(alloc);
    for name in spelled {
        spellings.insert(String::from_str(alloc, name)?)?;
    }
    let scoping = one_scope(alloc)?;
    Ok(TraverseScoping::new(alloc, scoping, Names::new(alloc, spellings)))
}

/// Fails where the table has no such scope, or no room for another symbol.
pub(crate) fn check_room(scoping: &Scoping, scope: ScopeId) -> Result<(), Fail>
    ensures scope { OnOk result (HasScope scoping.now scope) }
    ensures symbols { OnOk result (HasRoom scoping.now.symbols) }
{
    if !scoping.has_scope(scope) || !scoping.has_room() {
        return Err(Fail::new("there is no room"));
    }
    Ok(())
}
