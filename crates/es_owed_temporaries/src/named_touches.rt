// The identifiers of a program, looked up by their names.

ghost use Rattle.std.specs.Prelude.{◌≡◌, ℕ, Bool, IfOk};
ghost use Rattle.std.specs.Str.{chars};
ghost use Rattle.es_by_number.specs.Numbered.{numbered};
ghost use Rattle.es_grouped.specs.Groups.{group, having};
ghost use Rattle.es_lowered.specs.Temporaries as spec;
ghost use Rattle.es_owed_temporaries.specs.Named.{numbered_touches};
ghost use Rattle.es_owed_temporaries.specs.Touches.{touch_here, touches_all};

use crate::touches::Touch;
use es_binding_faults::leasts::Leasts;
use es_by_number::numbered::Numbered;
use es_generated::spellings::spelling_number;
use es_grouped::Grouped;
use std::alloc::{AllocError, Global};

/// The identifiers of a program, by the numbers of their spellings.
#[derive(Drop)]
pub struct NamedTouches<'r, 'a> {
    pub touches: &'r [Touch<'a>],
    pub spellings: &'r Leasts<'a>,
    pub by_number: Grouped<Touch<'a>>,

    ghost are_its: { (m : ℕ) → touches_all (group m by_number) ≡ having m (numbered_touches spellings.now (touches_all touches.now)) },
}

impl<'r, 'a> NamedTouches<'r, 'a> {
    /// These. Fails on allocation failure alone.
    pub fn of(
        alloc: Global,
        spellings: &'r Leasts<'a>,
        touches: &'r [Touch<'a>],
    ) -> Result<NamedTouches<'r, 'a>, AllocError>
        ensures { IfOk result (λ n. n.touches.now ≡ touches.now) }
    {
        let by_number = by_number(alloc, spellings, touches)?;
        Ok(NamedTouches {
            touches,
            spellings,
            by_number,
        })
    }

    /// Identifiers among which are those of this name.
    #[tactic(auto, using(crate::proofs::TouchNumbers::chosen_by_number))]
    pub fn of_name(&self, name: &str) -> &[Touch<'a>]
        ensures { (test : spec.Touch → Bool) → spec.chosen test (chars name.now) (touches_all result.now) ≡ spec.chosen test (chars name.now) (touches_all self.now.touches.now) }
    {
        self.by_number.get(spelling_number(name, self.spellings))
    }
}

/// A number for the name of each of these identifiers. Fails on allocation failure alone.
pub fn spellings<'a>(alloc: Global, touches: &[Touch<'a>]) -> Result<Leasts<'a>, AllocError> {
    let mut spellings = Leasts::new(alloc);
    let mut next: u32 = 0;
    for touch in touches {
        spellings.add(touch.name, next)?;
        next = next.saturating_add(1);
    }
    Ok(spellings)
}

fn by_number<'a>(
    alloc: Global,
    spellings: &Leasts,
    touches: &[Touch<'a>],
) -> Result<Grouped<Touch<'a>>, AllocError>
    ensures { IfOk result (λ g. (m : ℕ) → touches_all (group m g) ≡ having m (numbered_touches spellings.now (touches_all touches.now))) }
{
    let items = with_numbers(alloc, spellings, touches)?;
    Grouped::of(alloc, items)
}

/// These identifiers, each with the number of its spelling. Fails on allocation failure alone.
fn with_numbers<'a>(
    alloc: Global,
    spellings: &Leasts,
    touches: &[Touch<'a>],
) -> Result<Vec<Numbered<Touch<'a>>>, AllocError>
    ensures { IfOk result (λ r. numbered touch_here r.items ≡ numbered_touches spellings.now (touches_all touches.now)) }
{
    let mut items = Vec::new(alloc);
    for touch in touches {
        items.push(Numbered {
            number: spelling_number(touch.name, spellings),
            value: *touch,
        })?;
    }
    Ok(items)
}
