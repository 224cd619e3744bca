// What bodies are looked up in.

ghost use Rattle.std.specs.Prelude.{◌≡◌, ℕ, map, IfOk};
ghost use Rattle.es_by_number.specs.Numbered as by_number;
ghost use Rattle.es_grouped.specs.Groups.{group, having};
ghost use Rattle.es_lowered.specs.DeadZones.{is_arrow_of};
ghost use Rattle.es_steps.specs.References.{has_number};
ghost use Rattle.es_kept_bodies.specs.Indexed.{arrows_of, bodies_seen, body_seen, numbered_bodies};
ghost use Rattle.es_touches.specs.Touches.{bodies_of, closures_of};

use es_base::ids::NodeId;
use es_binding_faults::numbers::Numbers;
use es_by_number::numbered::Numbered;
use es_grouped::Grouped;
use es_owed::numbers::set_of;
use es_touches::closures::Closure;
use es_touches::found::places_of;
use es_touches::source::{Body, Source};
use std::alloc::{AllocError, Global};

/// A body of the source.
#[derive(Clone, Copy)]
pub struct SourceBody<'r> {
    pub body: &'r Body<'r>,
}

/// What a lowered program is held against, with the bodies of the source by their numbers, and the arrows of the closures.
#[derive(Drop)]
pub struct IndexedSource<'r> {
    pub source: &'r Source<'r, 'r, 'r>,
    pub bodies: Grouped<SourceBody<'r>>,
    pub arrows: Numbers,
    /// The places of the bodies by their numbers.
    pub places: Grouped<usize>,

    ghost bodies_are: { (m : ℕ) → bodies_seen (group m bodies) ≡ having m (numbered_bodies (bodies_of source.now.bodies.now)) },
    ghost arrows_are: { (n : ℕ) → has_number n arrows ≡ is_arrow_of n (closures_of source.now.called.now) },
}

impl<'r> IndexedSource<'r> {
    /// This source with its bodies by their numbers. Fails on allocation failure alone.
    pub fn of(
        alloc: Global,
        source: &'r Source<'r, 'r, 'r>,
    ) -> Result<IndexedSource<'r>, AllocError>
        ensures { IfOk result (λ r. r.source.now ≡ source.now) }
    {
        let bodies = by_number(alloc, source.bodies)?;
        let arrows = arrow_set(alloc, source.called)?;
        let places = places_of(alloc, source.bodies)?;
        Ok(IndexedSource {
            source,
            bodies,
            arrows,
            places,
        })
    }

    /// The bodies of the source that have this number.
    pub fn numbered(&self, number: u32) -> &[SourceBody<'r>]
        ensures { bodies_seen result.now ≡ having number (numbered_bodies (bodies_of self.now.source.now.bodies.now)) }
    {
        self.bodies.get(number)
    }

    /// Whether this is the arrow of a closure.
    pub fn is_arrow(&self, number: u32) -> bool
        ensures { result ≡ is_arrow_of number (closures_of self.now.source.now.called.now) }
    {
        self.arrows.has(NodeId(number))
    }
}

// ---- bodies

fn by_number<'b>(
    alloc: Global,
    bodies: &'b [Body<'b>],
) -> Result<Grouped<SourceBody<'b>>, AllocError>
    ensures { IfOk result (λ g. (m : ℕ) → bodies_seen (group m g) ≡ having m (numbered_bodies (bodies_of bodies.now))) }
{
    let items = with_numbers(alloc, bodies)?;
    Grouped::of(alloc, items)
}

/// These bodies, each with its number. Fails on allocation failure alone.
fn with_numbers<'b>(
    alloc: Global,
    bodies: &'b [Body<'b>],
) -> Result<Vec<Numbered<SourceBody<'b>>>, AllocError>
    ensures { IfOk result (λ r. by_number.numbered body_seen r.items ≡ numbered_bodies (bodies_of bodies.now)) }
{
    let mut items = Vec::new(alloc);
    for body in bodies {
        items.push(Numbered {
            number: body.number,
            value: SourceBody { body },
        })?;
    }
    Ok(items)
}

// ---- closures

fn arrow_set(alloc: Global, called: &[Closure]) -> Result<Numbers, AllocError>
    ensures { IfOk result (λ r. (n : ℕ) → has_number n r ≡ is_arrow_of n (closures_of called.now)) }
{
    let arrows = arrows(alloc, called)?;
    set_of(alloc, arrows.as_slice())
}

fn arrows(alloc: Global, called: &[Closure]) -> Result<Vec<u32>, AllocError>
    ensures { IfOk result (λ r. r.items ≡ arrows_of (closures_of called.now)) }
{
    let mut arrows = Vec::new(alloc);
    for closure in called {
        arrows.push(closure.arrow)?;
    }
    Ok(arrows)
}
