// The clause on references, part by part.

ghost use Rattle.std.specs.Prelude.{◌≡◌, IfOk};
ghost use Rattle.es_lowered.specs.KeptReferences as spec;
ghost use Rattle.es_clauses.specs.References.{heads_stay, inner_values_stay, lets_stay, places_stay, values_stay, written_values_stay, zones_stay};

use crate::pair::Pair;
use es_owed_class_names::timely::classes_timely;
use es_owed_dead_zones::dead_zones::dead_zones_stay;
use es_owed_lets::class_lets::class_lets_fit;
use es_owed_lets::default_export::default_stays;
use es_owed_lets::head_values::head_values_stay;
use es_owed_places::inner_names::inner_names_stay;
use es_owed_places::private_names::private_names_stay;
use es_owed_places::supers::supers_stay;
use es_owed_places::writes::writes_fit;
use std::alloc::{AllocError, Global};

/// Whether names of classes are read behind their classes, and `super` and private names stand where they may. Fails on allocation
/// failure alone.
fn places_stay(alloc: Global, pair: &Pair) -> Result<bool, AllocError>
    ensures { IfOk result (λ stays. stays ≡ places_stay pair.now.first pair.now.ledger.now pair.now.source.program.now pair.now.lowered.program.now) }
{
    let (source, lowered) = (pair.source.program, pair.lowered.program);
    Ok(
        classes_timely(alloc, pair.first, pair.ledger, &pair.source, &pair.lowered)?
            && supers_stay(source, lowered)
            && private_names_stay(alloc, source, lowered)?,
    )
}

/// Whether values in the heads of loops stay. Fails on allocation failure alone.
fn heads_stay(alloc: Global, pair: &Pair) -> Result<bool, AllocError>
    ensures { IfOk result (λ stays. stays ≡ heads_stay pair.now.ledger.now pair.now.lowered.program.now) }
{
    head_values_stay(
        alloc,
        pair.ledger,
        pair.lowered.references.list.as_slice(),
        pair.lowered.nodes.as_slice(),
    )
}

/// Whether dead zones and the heads of loops stay. Fails on allocation failure alone.
fn zones_stay(alloc: Global, pair: &Pair) -> Result<bool, AllocError>
    ensures { IfOk result (λ stays. stays ≡ zones_stay pair.now.first pair.now.options.now pair.now.ledger.now pair.now.source.program.now pair.now.lowered.program.now) }
{
    let (source, lowered) = (&pair.source, &pair.lowered);
    Ok(
        dead_zones_stay(
            alloc,
            pair.first,
            pair.options,
            pair.ledger,
            source,
            lowered,
        )? && heads_stay(alloc, pair)?,
    )
}

/// Whether what variables that classes become are given, dead zones and heads of loops stay. Fails on allocation failure alone.
fn lets_stay(alloc: Global, pair: &Pair) -> Result<bool, AllocError>
    ensures { IfOk result (λ stays. stays ≡ lets_stay pair.now.first pair.now.options.now pair.now.ledger.now pair.now.source.program.now pair.now.lowered.program.now) }
{
    let nodes = pair.source.nodes.as_slice();
    Ok(class_lets_fit(alloc, pair.first, nodes, pair.lowered.program)? && zones_stay(alloc, pair)?)
}

/// Whether default exports, what variables that classes become are given, dead zones and heads of loops stay. Fails on allocation
/// failure alone.
fn values_stay(alloc: Global, pair: &Pair) -> Result<bool, AllocError>
    ensures { IfOk result (λ stays. stays ≡ values_stay pair.now.first pair.now.options.now pair.now.ledger.now pair.now.source.program.now pair.now.lowered.program.now) }
{
    let (source, lowered) = (pair.source.program, pair.lowered.program);
    Ok(default_stays(alloc, pair.first, source, lowered)? && lets_stay(alloc, pair)?)
}

/// Whether the names around functions, and what names are given, stay. Fails on allocation failure alone.
fn inner_values_stay(alloc: Global, pair: &Pair) -> Result<bool, AllocError>
    ensures { IfOk result (λ stays. stays ≡ inner_values_stay pair.now.first pair.now.options.now pair.now.ledger.now pair.now.source.program.now pair.now.lowered.program.now) }
{
    Ok(
        inner_names_stay(alloc, pair.first, &pair.source, &pair.lowered)?
            && values_stay(alloc, pair)?,
    )
}

/// Whether names are written where they may, and what they are given stays. Fails on allocation failure alone.
fn written_values_stay(alloc: Global, pair: &Pair) -> Result<bool, AllocError>
    ensures { IfOk result (λ stays. stays ≡ written_values_stay pair.now.first pair.now.options.now pair.now.ledger.now pair.now.source.program.now pair.now.lowered.program.now) }
{
    let (source, lowered) = (&pair.source, &pair.lowered);
    Ok(
        writes_fit(alloc, pair.first, pair.ledger, source, lowered)?
            && inner_values_stay(alloc, pair)?,
    )
}

/// Whether names are read and written, and `super` and private names stand, where they may. Fails on allocation failure alone.
pub fn references_stay(alloc: Global, pair: &Pair) -> Result<bool, AllocError>
    ensures { IfOk result (λ stays. stays ≡ spec.references_stay pair.now.first pair.now.options.now pair.now.ledger.now pair.now.source.program.now pair.now.lowered.program.now) }
{
    Ok(places_stay(alloc, pair)? && written_values_stay(alloc, pair)?)
}
