// A lowered program defines the fields of its source.

ghost use Rattle.std.specs.Prelude.{◌≡◌, IfOk};
ghost use Rattle.es_base.specs.Preorder.{preorder};
ghost use Rattle.es_lowered.specs.Definitions as spec;
ghost use Rattle.es_steps.specs.PrivateNames as privates;
ghost use Rattle.es_steps.specs.References.{resolve};
ghost use Rattle.es_owed_definitions.specs.Fields.{HasStatics, program_fits};
ghost use Rattle.es_seen_names.specs.PrivateMembers.{private_members_of};

use crate::fields::classes_fit;
use crate::lowered::LoweredProgram;
use crate::supers::supers_stand;
use crate::terms::Terms;
use es_base::ledger::{GeneratedKind, LedgerEntry};
use es_generated::ledger::Ledger;
use es_owed::listed::Listed;
use es_seen_names::private_member::private_members;
use es_shapes::asked::lowers_fields;
use es_steps::options::Options;
use std::alloc::{AllocError, Global};

/// Whether what a source was lowered to, with class properties on, defines the fields of each of its classes in their order, those
/// of instances on a new `this` in the constructor or where `super(..)` stands, the static ones on the class, each with its key and
/// its value, and what stands for `super(..)` and is not called has definitions alone; else whether no name of a member was
/// generated. Fails on allocation failure alone.
pub fn definitions_stand(
    alloc: Global,
    first: u32,
    options: &Options,
    ledger: &Ledger,
    source: &Listed,
    lowered: &Listed,
) -> Result<bool, AllocError>
    ensures { IfOk result (λ holds. holds ≡ spec.definitions_stand first options.now ledger.now (privates.private_members source.now.program.now) source.now.program.now lowered.now.program.now) }
{
    if !lowers_fields(options) {
        return Ok(none_of_members(ledger.entries()));
    }
    let terms = Terms {
        first,
        options,
        ledger,
    };
    program_stands(alloc, terms, source, lowered)
}

/// Whether none of these names was generated for fields and private members, which stay in their classes without class
/// properties.
fn none_of_members(ledger: &[LedgerEntry]) -> bool
    ensures { result ≡ spec.none_of_members ledger.now }
{
    for entry in ledger {
        if is_of_members(entry.kind) {
            return false;
        }
    }
    true
}

fn is_of_members(kind: GeneratedKind) -> bool
    ensures { result ≡ spec.is_of_members kind }
{
    matches!(
        kind,
        GeneratedKind::WeakMap(_)
            | GeneratedKind::StaticField(_)
            | GeneratedKind::Brand(_)
            | GeneratedKind::Method(_)
            | GeneratedKind::LooseKey(_)
            | GeneratedKind::SuperFn(_)
            | GeneratedKind::Args
    )
}

/// Whether each class of the source has its definitions in what it was lowered to, and what stands for `super(..)` and is not
/// called has definitions alone. Fails on allocation failure alone.
fn program_stands(
    alloc: Global,
    terms: Terms,
    source: &Listed,
    lowered: &Listed,
) -> Result<bool, AllocError>
    ensures { IfOk result (λ holds. holds ≡ program_fits terms.entry (privates.private_members source.now.program.now) source.now.program.now lowered.now.program.now) }
{
    let members = private_members(alloc, source.program)?;
    let lowered = LoweredProgram::of(alloc, terms, members.as_slice(), lowered)?;
    program_fits(alloc, source, &lowered)
}

/// The same, with its definitions. Fails on allocation failure alone.
fn program_fits(
    alloc: Global,
    source: &Listed,
    lowered: &LoweredProgram,
) -> Result<bool, AllocError>
    requires { HasStatics lowered.now.terms (private_members_of lowered.now.members.now) lowered.now.listed.now.program.now lowered.now.statics }
    ensures { IfOk result (λ holds. holds ≡ program_fits lowered.now.terms (private_members_of lowered.now.members.now) source.now.program.now lowered.now.listed.now.program.now) }
{
    if !fields_stand(alloc, source, lowered)? {
        return Ok(false);
    }
    calls_of_super_stand(alloc, lowered)
}

/// Whether each class of the source has its definitions. Fails on allocation failure alone.
fn fields_stand(
    alloc: Global,
    source: &Listed,
    lowered: &LoweredProgram,
) -> Result<bool, AllocError>
    requires { HasStatics lowered.now.terms (private_members_of lowered.now.members.now) lowered.now.listed.now.program.now lowered.now.statics }
    ensures { IfOk result (λ holds. holds ≡ spec.classes_fit lowered.now.terms.first lowered.now.terms.options.now lowered.now.terms.ledger.now (private_members_of lowered.now.members.now) source.now.program.now lowered.now.listed.now.program.now (preorder source.now.program.now)) }
{
    let nodes = source.nodes.as_slice();
    classes_fit(alloc, &source.names, lowered, nodes)
}

/// Whether what stands for `super(..)` and is not called has definitions alone. Fails on allocation failure alone.
fn calls_of_super_stand(alloc: Global, lowered: &LoweredProgram) -> Result<bool, AllocError>
    ensures { IfOk result (λ holds. holds ≡ spec.supers_stand lowered.now.terms.first lowered.now.terms.options.now lowered.now.terms.ledger.now (resolve lowered.now.listed.now.program.now) (preorder lowered.now.listed.now.program.now)) }
{
    supers_stand(
        alloc,
        &lowered.terms,
        lowered.listed.references.list.as_slice(),
        lowered.nodes(),
    )
}
