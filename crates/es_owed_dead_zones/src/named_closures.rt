// Closures, looked up by their names.

ghost use Rattle.std.specs.Prelude.{◌≡◌, ℕ, false, IfOk};
ghost use Rattle.std.specs.Str.{chars};
ghost use Rattle.es_by_number.specs.Numbered as by_number;
ghost use Rattle.es_grouped.specs.Groups.{group, having};
ghost use Rattle.es_lowered.specs.DeadZones as spec;
ghost use Rattle.es_owed_dead_zones.specs.LookedUp.{numbered_closures};
ghost use Rattle.es_touches.specs.Touches.{closure_of, closures_of, form_of};

use es_base::strings::is_word;
use es_binding_faults::leasts::Leasts;
use es_by_number::numbered::Numbered;
use es_generated::spellings::spelling_number;
use es_grouped::Grouped;
use es_touches::closures::Closure;
use es_touches::touch::TouchForm;
use std::alloc::{AllocError, Global};
use std::marker::Model;

/// Closures, which contracts see as a list. To look one up by its name takes the same time however many there are.
#[derive(Drop)]
pub struct NamedClosures<'t, 'a> {
    list: &'t [Closure<'a>],
    spellings: Leasts<'a>,
    by_spelling: Grouped<Closure<'a>>,
}

impl<'t, 'a> Model for NamedClosures<'t, 'a> {
    ghost use Rattle.std.specs.Prelude.{◌≡◌, ℕ, List};
    ghost use Rattle.es_grouped.specs.Groups.{group, having};
    ghost use Rattle.es_owed_dead_zones.specs.LookedUp.{numbered_closures};
    ghost use Rattle.es_touches.specs.Touches.{closures_of};
    ghost use Rattle.es_touches.specs.declared.closures.Closure.{Closure};

    ghost Value = { List Closure };

    ghost view = { λ c. c.list.now };

    ghost invariant = { λ c. (m : ℕ) → closures_of (group m c.by_spelling) ≡ having m (numbered_closures c.spellings (closures_of c.list.now)) };
}

impl<'t, 'a> NamedClosures<'t, 'a> {
    /// These. Fails on allocation failure alone.
    pub fn of(alloc: Global, list: &'t [Closure<'a>]) -> Result<NamedClosures<'t, 'a>, AllocError>
        ensures { IfOk result (λ c. c ≡ list.now) }
    {
        let spellings = spellings(alloc, list)?;
        let by_spelling = by_spelling(alloc, &spellings, list)?;
        Ok(NamedClosures {
            list,
            spellings,
            by_spelling,
        })
    }

    /// The form of the call of this name.
    #[tactic(auto, using(crate::proofs::LookedUpByNumber::form_by_spelling))]
    pub fn called_form(&self, name: &str) -> TouchForm
        ensures { form_of result ≡ spec.call_form false (chars name.now) (closures_of self.now) }
    {
        let number = spelling_number(name, &self.spellings);
        form_among(name, self.by_spelling.get(number))
    }
}

/// The form of the call of this name, where it is that of one of these closures.
fn form_among(name: &str, closures: &[Closure]) -> TouchForm
    ensures { form_of result ≡ spec.call_form false (chars name.now) (closures_of closures.now) }
{
    for closure in closures {
        if is_word(closure.name, name) {
            return TouchForm::RunsClosure(closure.arrow);
        }
    }
    TouchForm::Another
}

// ---- numbers of names

/// A number for the name of each closure. Fails on allocation failure alone.
fn spellings<'a>(alloc: Global, closures: &[Closure<'a>]) -> Result<Leasts<'a>, AllocError> {
    let mut spellings = Leasts::new(alloc);
    for closure in closures {
        spellings.add(closure.name, closure.arrow)?;
    }
    Ok(spellings)
}

fn by_spelling<'a>(
    alloc: Global,
    spellings: &Leasts,
    closures: &[Closure<'a>],
) -> Result<Grouped<Closure<'a>>, AllocError>
    ensures { IfOk result (λ g. (m : ℕ) → closures_of (group m g) ≡ having m (numbered_closures spellings.now (closures_of closures.now))) }
{
    let items = with_numbers(alloc, spellings, closures)?;
    Grouped::of(alloc, items)
}

/// These closures, each with the number of its name. Fails on allocation failure alone.
fn with_numbers<'a>(
    alloc: Global,
    spellings: &Leasts,
    closures: &[Closure<'a>],
) -> Result<Vec<Numbered<Closure<'a>>>, AllocError>
    ensures { IfOk result (λ r. by_number.numbered closure_of r.items ≡ numbered_closures spellings.now (closures_of closures.now)) }
{
    let mut items = Vec::new(alloc);
    for closure in closures {
        items.push(Numbered {
            number: spelling_number(closure.name, spellings),
            value: *closure,
        })?;
    }
    Ok(items)
}
