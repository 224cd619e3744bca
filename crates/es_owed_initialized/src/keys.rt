// The temporaries that keep keys are given before their classes.

ghost use Rattle.std.specs.Prelude.{◌≡◌, List, IfOk};
ghost use Rattle.std.specs.Str.{chars};
ghost use Rattle.es_base.specs.Preorder.{preorder};
ghost use Rattle.es_base.specs.declared.ledger.GeneratedKind.{GeneratedKind};
ghost use Rattle.es_binding_faults.specs.Seen.{seen};
ghost use Rattle.es_steps.specs.PrivateNames.{PrivateMember};
ghost use Rattle.es_lowered.specs.Definitions as definitions;
ghost use Rattle.es_lowered.specs.Lowered as spec;
ghost use Rattle.es_owed_initialized.specs.Initial.{pairs_of};
ghost use Rattle.es_owed_initialized.specs.Keys.{keys_of};

use crate::generated::Generated;
use crate::initializing::{Initialization, initializations};
use es_base::ledger::GeneratedKind;
use es_generated::ledger::Ledger;
use es_name_set::Names;
use es_owed::listed::Listed;
use es_shapes::asked::lowers_fields;
use es_steps::options::Options;
use std::alloc::{AllocError, Global};

/// A temporary that keeps a key, and the class of the field of that key.
#[derive(Debug, Clone, Copy)]
pub struct KeyTemporary<'a> {
    pub name: &'a str,
    pub class: u32,
}

/// Whether no two of these temporaries are one, and each is given before its class, where fields are lowered. Fails on
/// allocation failure alone.
pub fn keys_stand(
    alloc: Global,
    first: u32,
    options: &Options,
    ledger: &Ledger,
    lowered: &Listed,
    keys: &[KeyTemporary],
) -> Result<bool, AllocError>
    ensures { IfOk result (λ holds. (members : List PrivateMember) → holds ≡ spec.keys_stand first options.now ledger.now members lowered.now.program.now (keys_of keys.now)) }
{
    if keys.is_empty() || !lowers_fields(options) {
        return Ok(true);
    }
    if !all_different(alloc, keys)? {
        return Ok(false);
    }
    let names = Generated::of(alloc, first, ledger, lowered)?;
    keys_before(alloc, &names, keys)
}

/// Whether no two of these temporaries are one. Fails on allocation failure alone.
#[tactic(auto, using(crate::proofs::KeyNames::new_from_none))]
fn all_different(alloc: Global, keys: &[KeyTemporary]) -> Result<bool, AllocError>
    ensures { IfOk result (λ holds. holds ≡ definitions.all_different (keys_of keys.now)) }
{
    let mut met = Names::new(alloc);
    for key in keys {
        if met.has(key.name) {
            return Ok(false);
        }
        met.insert(key.name)?;
    }
    Ok(true)
}

/// Whether each of these temporaries is given before its class. Fails on allocation failure alone.
fn keys_before(alloc: Global, names: &Generated, keys: &[KeyTemporary]) -> Result<bool, AllocError>
    ensures { IfOk result (λ holds. holds ≡ spec.keys_before names.now.first names.now.ledger.now names.now.lowered.now.program.now (keys_of keys.now)) }
{
    for key in keys {
        if !is_before(alloc, names, *key)? {
            return Ok(false);
        }
    }
    Ok(true)
}

fn is_before(alloc: Global, names: &Generated, key: KeyTemporary) -> Result<bool, AllocError>
    ensures { IfOk result (λ holds. holds ≡ spec.any_before (spec.initializations names.now.first names.now.ledger.now names.now.lowered.now.program.now (chars key.entry.name.now) GeneratedKind.Temp (preorder names.now.lowered.now.program.now)) key.entry.class (preorder names.now.lowered.now.program.now)) }
{
    let found = initializations(alloc, names, key.name, GeneratedKind::Temp)?;
    Ok(any_before(names, found.as_slice(), key.class))
}

/// Whether one of these comes before the class.
fn any_before(names: &Generated, found: &[Initialization], class: u32) -> bool
    ensures { result ≡ spec.any_before (pairs_of found.now) class (seen names.now.lowered.now.nodes.items) }
{
    for one in found {
        if names.comes_before(one.number, class) {
            return true;
        }
    }
    false
}
