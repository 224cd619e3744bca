// The bodies of a lowered program.

ghost use Rattle.std.specs.Prelude.{◌≡◌, ◌∷◌, [], IfOk};
ghost use Rattle.es_touches.specs.Comparison as compared;
ghost use Rattle.es_touches.specs.Touches.{bodies_of, body_of};

use crate::indexed::IndexedSource;
use crate::kept::is_kept_body;
use es_touches::fits::bodies_fit_among;
use es_touches::source::{Body, Source};
use std::alloc::{AllocError, Global};
use std::slice::from_ref;

/// Whether what the bodies of a lowered program touch stands behind what it stood behind in the source: what a body that is kept
/// touches does, and so only the others are held against the source touch by touch. Fails on allocation failure alone.
pub fn bodies_fit(alloc: Global, source: &Source, bodies: &[Body]) -> Result<bool, AllocError>
    ensures { IfOk result (λ holds. holds ≡ compared.bodies_fit source.now (bodies_of bodies.now)) }
{
    let indexed = IndexedSource::of(alloc, source)?;
    all_fit(alloc, &indexed, bodies)
}

#[tactic(auto, using(crate::proofs::KeptBodies::one_more))]
fn all_fit(alloc: Global, indexed: &IndexedSource, bodies: &[Body]) -> Result<bool, AllocError>
    ensures { IfOk result (λ holds. holds ≡ compared.bodies_fit indexed.now.source.now (bodies_of bodies.now)) }
{
    for body in bodies {
        if !body_fits(alloc, indexed, body)? {
            return Ok(false);
        }
    }
    Ok(true)
}

/// The same of one body. Fails on allocation failure alone.
fn body_fits(alloc: Global, indexed: &IndexedSource, body: &Body) -> Result<bool, AllocError>
    ensures { IfOk result (λ holds. holds ≡ compared.bodies_fit indexed.now.source.now (body_of body.now ∷ [])) }
{
    if is_kept_body(indexed, body) {
        return Ok(true);
    }
    bodies_fit_among(alloc, indexed.source, &indexed.places, from_ref(body))
}
