// The places of classes, looked up by the numbers of these.

ghost use Rattle.std.specs.Prelude.{◌≡◌, ℕ, IfOk};
ghost use Rattle.es_by_number.specs.Numbered.{pairs};
ghost use Rattle.es_grouped.specs.Groups.{group, having};
ghost use Rattle.es_steps.specs.KeptNodes.{pair_stands};

use es_by_number::numbered::Numbered;
use es_generated::numbers::has_number;
use es_grouped::Grouped;
use std::alloc::{AllocError, Global};

/// The places of classes, by the numbers of these.
#[derive(Drop)]
pub struct ClassPlaces<'r> {
    pub places: &'r [Numbered<u32>],
    pub by_class: Grouped<u32>,

    ghost are_its: { (n : ℕ) → group n by_class ≡ having n (pairs places.now) },
}

impl<'r> ClassPlaces<'r> {
    /// These. Fails on allocation failure alone.
    pub fn of(alloc: Global, places: &'r [Numbered<u32>]) -> Result<ClassPlaces<'r>, AllocError>
        ensures { IfOk result (λ c. c.places.now ≡ places.now) }
    {
        let by_class = by_class(alloc, places)?;
        Ok(ClassPlaces { places, by_class })
    }

    /// Whether this is a place of the class.
    #[tactic(auto, using(crate::proofs::PlaceNumbers::place_by_class))]
    pub fn has(&self, class: u32, place: u32) -> bool
        ensures { result ≡ pair_stands (class, place) (pairs self.now.places.now) }
    {
        has_number(place, self.by_class.get(class))
    }
}

fn by_class(alloc: Global, places: &[Numbered<u32>]) -> Result<Grouped<u32>, AllocError>
    ensures { IfOk result (λ g. (n : ℕ) → group n g ≡ having n (pairs places.now)) }
{
    let items = copied(alloc, places)?;
    Grouped::of(alloc, items)
}

/// These places once more. Fails on allocation failure alone.
fn copied(alloc: Global, places: &[Numbered<u32>]) -> Result<Vec<Numbered<u32>>, AllocError>
    ensures { IfOk result (λ r. pairs r.items ≡ pairs places.now) }
{
    let mut items = Vec::new(alloc);
    for place in places {
        items.push(Numbered {
            number: place.number,
            value: place.value,
        })?;
    }
    Ok(items)
}
